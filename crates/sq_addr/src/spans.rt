//! Ranges of addresses read from texts.
ghost use Rattle.std.specs.Prelude.{◌≡◌, ◌<◌, ◌==◌, length, position, IfSome, ◌+◌, ◌-◌, ◌%◌, ◌^◌, ◌≤◌, Some, None, MatchResult, option_map, false};
ghost use Rattle.sq_base.specs.Addresses.{address_of, v4_of};
ghost use Rattle.sq_base.specs.Ranges.{Divides, range_of, span_of, block_of, block, block_size, size_by, bits_of};

use crate::parsing::{BadAddress, read_addr, read_v4};
use sq_base::{Addr, Range, number_of};

/// The range that the text gives: one address, a block, a span or `all`.
#[tactic(auto, unfolding(sq_base::specs::Ranges::range_of))]
pub fn read_range(text: &[u8]) -> Result<Range, BadAddress>
    ensures { MatchResult result
        (λ r. range_of text.now ≡ Some r)
        (λ _. range_of text.now ≡ None) }
{
    if text == b"all".as_slice() {
        return Ok(Range {
            first: Addr {
                v6: false,
                number: 0,
            },
            last: Addr {
                v6: true,
                number: u128::MAX,
            },
        });
    }
    if let Some(slash) = place_of(text, b'/') {
        return read_block(&text[..slash], &text[slash + 1..]);
    }
    if let Some(dash) = place_of(text, b'-') {
        return read_span(&text[..dash], &text[dash + 1..]);
    }
    let address = read_addr(text)?;
    Ok(Range {
        first: address,
        last: address,
    })
}

// The place of the first such byte.
fn place_of(text: &[u8], wanted: u8) -> Option<usize>
    ensures first { result ≡ position (λ b. b == wanted) text.now }
    ensures inside { IfSome result (λ i. i < length text.now) }
{
    text.iter().position(|&byte| byte == wanted)
}

// What stands before and behind a `-`.
fn read_span(first: &[u8], last: &[u8]) -> Result<Range, BadAddress>
    ensures { MatchResult result
        (λ r. span_of (address_of first.now) (address_of last.now) ≡ Some r)
        (λ _. span_of (address_of first.now) (address_of last.now) ≡ None) }
{
    let first = read_addr(first)?;
    let last = read_addr(last)?;
    if first.v6 == last.v6 && first.number <= last.number {
        Ok(Range { first, last })
    } else {
        Err(BadAddress)
    }
}

// What stands before and behind a `/`.
fn read_block(text: &[u8], word: &[u8]) -> Result<Range, BadAddress>
    ensures { MatchResult result
        (λ r. block_of (address_of text.now) word.now ≡ Some r)
        (λ _. block_of (address_of text.now) word.now ≡ None) }
{
    let address = read_addr(text)?;
    match read_low_bits(address.v6, word) {
        Some(low) => Ok(block_at(address, low)),
        None => Err(BadAddress),
    }
}

// How many bits an address has.
fn kind_bits(v6: bool) -> u64
    ensures exact { result ≡ bits_of v6 }
    ensures bound { result ≤ 128 }
{
    if v6 { 128 } else { 32 }
}

// The number whose bits are those that a block leaves open: one less than its size.
#[tactic(auto, unfolding(sq_base::specs::Ranges::block_size))]
fn read_low_bits(v6: bool, word: &[u8]) -> Option<u128>
    ensures { option_map (λ low. low + 1) result ≡ block_size v6 word.now }
{
    let bits = kind_bits(v6);
    if let Some(leading) = number_of(word, bits + 1) {
        return Some(ones(bits - leading));
    }
    if v6 { None } else { read_mask(word) }
}

// The same by a mask, whose ones stand before its zeros.
fn read_mask(word: &[u8]) -> Option<u128>
    ensures { option_map (λ low. low + 1) result ≡ size_by false None (v4_of word.now) }
{
    let mask = read_v4(word)?;
    let size = 4294967296 - mask as u64;
    if size.is_power_of_two() {
        Some((size - 1) as u128)
    } else {
        None
    }
}

// So many ones.
fn ones(count: u64) -> u128
    requires { count ≤ 128 }
    ensures { result + 1 ≡ 2 ^ count }
{
    if count == 128 {
        u128::MAX
    } else {
        (1u128 << count) - 1
    }
}

// The block in which the address stands.
fn block_at(address: Addr, low: u128) -> Range
    requires { Divides (low + 1) (2 ^ bits_of address.v6) }
    ensures { result ≡ block (low + 1) address }
{
    let first = without_low_bits(address.number, low);
    Range {
        first: Addr {
            v6: address.v6,
            number: first,
        },
        last: Addr {
            v6: address.v6,
            number: first + low,
        },
    }
}

// The number with these low bits cleared.
fn without_low_bits(number: u128, low: u128) -> u128
    ensures { result ≡ number - number % (low + 1) }
{
    if low == u128::MAX {
        0
    } else {
        number - number % (low + 1)
    }
}
