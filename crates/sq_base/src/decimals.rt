//! Decimal numbers without leading zeros, read from a word.
ghost use Rattle.std.specs.Prelude.{◌≡◌, ◌<◌, IfSome};
ghost use Rattle.sq_base.specs.Decimals.{number_of};

use itoa::Buffer;

/// Ports are below this.
pub const PORT_LIMIT: u64 = 65536;

/// The number below the limit whose decimal text the word is. It takes no memory.
pub fn number_of(word: &[u8], limit: u64) -> Option<u64>
    ensures read { result ≡ number_of limit word.now }
    ensures bound { IfSome result (λ n. n < limit) }
{
    let mut number: u64 = 0;
    for &byte in word {
        let next = number as u128 * 10 + byte.saturating_sub(b'0') as u128;
        if next >= limit as u128 {
            return None;
        }
        number = next as u64;
    }
    if number >= limit {
        return None;
    }
    let mut buffer = Buffer::new();
    if buffer.format(number).as_bytes() == word {
        Some(number)
    } else {
        None
    }
}
