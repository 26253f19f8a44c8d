//! Values of time.
ghost use Rattle.std.specs.Prelude.{◌≡◌, ◌<◌, ◌≤◌, IfSome};
ghost use Rattle.sq_conf.specs.Forms.{Gives};
ghost use Rattle.sq_rules.specs.AclValues.{day_bits, days_of, short_number, minute_of, period_of, hours_value, behind_days, time_value, time_values};
ghost use Rattle.sq_rules.specs.Times.{day_minutes};

use crate::config_words::ConfigWords;
use crate::cuts::{before, behind};
use crate::faults::ReadFault;
use crate::leaf_values::is_unquoted;
use crate::numbers::digits_of;
use sq_base::{Listed, Text, named};
use sq_rules::{DAY_MINUTES, Hour, Hours, Kind};
use std::alloc::Global;

const ALL_DAYS: u8 = 127;

// The weekdays of each letter as bits, Sunday the lowest.
const DAY_LETTERS: [(&[u8], u8); 8] = [
    (b"S", 1),
    (b"M", 2),
    (b"T", 4),
    (b"W", 8),
    (b"H", 16),
    (b"F", 32),
    (b"A", 64),
    (b"D", 62),
];

// The weekdays of a letter.
#[tactic(auto, unfolding(sq_rules::specs::AclValues::day_bits))]
fn day_bits(letter: u8) -> Option<u8>
    ensures bits { result ≡ day_bits letter }
    ensures seven { IfSome result (λ d. d < 128) }
{
    named(&DAY_LETTERS, &[letter])
}

// The weekdays of one letter or more.
#[tactic(auto, unfolding(sq_rules::specs::AclValues::days_of))]
fn days_of(word: &[u8]) -> Option<u8>
    ensures bits { result ≡ days_of word.now }
    ensures seven { IfSome result (λ d. d < 128) }
{
    if word.is_empty() {
        return None;
    }
    let mut days = 0;
    for &letter in word {
        days |= day_bits(letter)?;
    }
    Some(days)
}

// A number of one or two digits.
#[tactic(auto, unfolding(sq_rules::specs::AclValues::short_number))]
fn short_number(word: &[u8], most: u64) -> Option<u64>
    ensures read { result ≡ short_number most word.now }
    ensures bound { IfSome result (λ n. n ≤ most) }
{
    if word.len() <= 2 {
        digits_of(word, most)
    } else {
        None
    }
}

// The minute of the day of `h:m`.
#[tactic(auto, unfolding(sq_rules::specs::AclValues::minute_of))]
fn minute_of(word: &[u8]) -> Option<u32>
    ensures read { result ≡ minute_of word.now }
    ensures bound { IfSome result (λ m. m ≤ day_minutes) }
{
    let hour = short_number(before(word, b':'), 24)?;
    let minute = short_number(behind(word, b':'), 59)?;
    let minute = hour * 60 + minute;
    if minute <= DAY_MINUTES as u64 {
        Some(minute as u32)
    } else {
        None
    }
}

// `h1:m1-h2:m2` on some weekdays.
#[tactic(auto, unfolding(sq_rules::specs::AclValues::period_of))]
fn period_of(days: u8, word: &[u8]) -> Option<Hour>
    requires { days < 128 }
    ensures { result ≡ period_of days word.now }
{
    let first = minute_of(before(word, b'-'))?;
    let last = minute_of(behind(word, b'-'))?;
    if first < last {
        Some(Hour { days, first, last })
    } else {
        None
    }
}

fn hours_value(days: u8, word: &[u8]) -> Result<Hour, ReadFault>
    requires { days < 128 }
    ensures { Gives (λ h. h) result (hours_value days word.now) }
{
    if !is_unquoted(word) {
        return Err(ReadFault::Fault(Kind::BadValue));
    }
    match period_of(days, word) {
        Some(hours) => Ok(hours),
        None => Err(ReadFault::Fault(Kind::BadTime)),
    }
}

// What stands behind day letters.
fn behind_days(days: u8, words: &[Text]) -> Result<Hour, ReadFault>
    requires { days < 128 }
    ensures { Gives (λ h. h) result (behind_days days words.now) }
{
    match words {
        [] => Ok(Hour {
            days,
            first: 0,
            last: DAY_MINUTES,
        }),
        [word, rest @ ..] => {
            let hours = hours_value(days, word.as_bytes())?;
            ConfigWords::new(rest).no_more()?;
            Ok(hours)
        }
    }
}

// Day letters, hours, or both in this order.
#[tactic(auto, unfolding(sq_rules::specs::AclValues::time_value))]
fn time_value(words: &[Text]) -> Result<Hour, ReadFault>
    ensures { Gives (λ h. h) result (time_value words.now) }
{
    let mut words = ConfigWords::new(words);
    let first = words.next()?;
    match days_of(first.as_bytes()) {
        Some(days) => behind_days(days, words.rest()),
        None => {
            let hours = hours_value(ALL_DAYS, first.as_bytes())?;
            words.no_more()?;
            Ok(hours)
        }
    }
}

/// The value of time.
pub fn time_values(alloc: Global, words: &[Text]) -> Result<Hours, ReadFault>
    ensures { Gives (λ v. v) result (time_values words.now) }
{
    let mut values = Listed::new(alloc);
    values.push(time_value(words)?)?;
    Ok(values)
}
