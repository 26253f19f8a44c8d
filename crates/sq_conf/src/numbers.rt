//! Numbers of words, which may have leading zeros.
ghost use Rattle.std.specs.Prelude.{◌≡◌, ◌≤◌, IfSome, IfOk};
ghost use Rattle.std.specs.Char.{is_ascii_digit};
ghost use Rattle.std.specs.List.{list_all};
ghost use Rattle.sq_conf.specs.Forms.{Gives};
ghost use Rattle.sq_rules.specs.ConfNumbers.{is_digits, digits_of, number_between};

use crate::faults::ReadFault;
use sq_rules::Kind;

fn are_digits(word: &[u8]) -> bool
    ensures { result ≡ list_all is_ascii_digit word.now }
{
    word.iter().all(|byte| byte.is_ascii_digit())
}

/// One decimal digit or more.
pub fn is_digits(word: &[u8]) -> bool
    ensures { result ≡ is_digits word.now }
{
    1 <= word.len() && are_digits(word)
}

/// The number of decimal digits, where it is at most this.
#[tactic(auto, unfolding(sq_rules::specs::ConfNumbers::digits_of))]
pub fn digits_of(word: &[u8], most: u64) -> Option<u64>
    ensures read { result ≡ digits_of most word.now }
    ensures bound { IfSome result (λ n. n ≤ most) }
{
    if !is_digits(word) {
        return None;
    }
    let mut number: u64 = 0;
    for &byte in word {
        let next = number as u128 * 10 + byte.saturating_sub(b'0') as u128;
        if next > most as u128 {
            return None;
        }
        number = next as u64;
    }
    Some(number)
}

/// A number from the least to the most.
#[tactic(auto, unfolding(sq_rules::specs::ConfNumbers::number_between))]
pub fn number_in(word: &[u8], least: u64, most: u64) -> Result<u64, ReadFault>
    ensures read { Gives (λ n. n) result (number_between least most word.now) }
    ensures low { IfOk result (λ n. least ≤ n) }
    ensures high { IfOk result (λ n. n ≤ most) }
{
    match digits_of(word, most) {
        None => Err(ReadFault::Fault(Kind::BadNumber)),
        Some(number) => {
            if least <= number {
                Ok(number)
            } else {
                Err(ReadFault::Fault(Kind::BadNumber))
            }
        }
    }
}
