//! Values of single words: numbers, offsets, addresses, texts and fields.
ghost use Rattle.std.specs.Prelude.{◌≡◌, ◌<◌, ◌^◌, IfOk, IfSome, length, position};
ghost use Rattle.sq_base.specs.Decimals.{number_of};
ghost use Rattle.sq_journal.specs.Reading.{ReadsFront, ReadsWithoutMemory, ReadsText, word_in, below_in, number_in, text_in, offset_from, negative, printed_address, cut_field, field_from};
ghost use Rattle.sq_base.specs.Addresses.{is_colon};
ghost use Rattle.sq_journal.specs.Values.{IsOffset};

use crate::escapes::read_text;
use crate::faults::EntryFault;
use crate::words::EntryWords;
use sq_addr::{print_addr, read_addr};
use sq_base::{Addr, Field, Text, number_of};
use sq_machine::Offset;
use std::alloc::Global;

/// Numbers of connections and the like, moments and amounts are below this.
pub const LIMIT: u64 = 1 << 63;

/// A number below the limit.
#[tactic(auto, unfolding(crate::specs::Reading::word_in))]
pub fn below(words: &mut EntryWords, limit: u64) -> Result<u64, EntryFault>
    ensures read { ReadsWithoutMemory result words.new (below_in limit words.old) }
    ensures bound { IfOk result (λ n. n < limit) }
{
    match words.next() {
        None => Err(EntryFault::BadEntry),
        Some(word) => match number_of(word, limit) {
            None => Err(EntryFault::BadEntry),
            Some(number) => Ok(number),
        },
    }
}

/// A number of a connection and the like, a moment or an amount.
pub fn number(words: &mut EntryWords) -> Result<u64, EntryFault>
    ensures read { ReadsWithoutMemory result words.new (number_in words.old) }
    ensures bound { IfOk result (λ n. n < 2 ^ 63) }
{
    below(words, LIMIT)
}

/// A text.
#[tactic(auto, unfolding(crate::specs::Reading::word_in))]
pub fn text(alloc: Global, words: &mut EntryWords) -> Result<Text, EntryFault>
    ensures { ReadsFront result words.new (text_in words.old) }
{
    match words.next() {
        None => Err(EntryFault::BadEntry),
        Some(word) => read_text(alloc, word),
    }
}

/// An offset of local time.
#[tactic(auto, unfolding(crate::specs::Reading::word_in))]
pub fn offset(words: &mut EntryWords) -> Result<Offset, EntryFault>
    ensures { ReadsWithoutMemory result words.new (word_in offset_from words.old) }
{
    match words.next() {
        None => Err(EntryFault::BadEntry),
        Some(word) => match minutes_of(word) {
            None => Err(EntryFault::BadEntry),
            Some(minutes) => Ok(Offset(minutes)),
        },
    }
}

/// The minutes of an offset of local time, from -840 to 840, that a word states. It takes no memory.
#[tactic(auto, unfolding(crate::specs::Reading::offset_from))]
pub fn minutes_of(word: &[u8]) -> Option<i32>
    ensures read { result ≡ offset_from word.now }
    ensures bound { IfSome result (λ m. IsOffset m) }
{
    let (&first, rest) = word.split_first()?;
    if first == b'-' {
        return below_zero(number_of(rest, 841)?);
    }
    Some(number_of(word, 841)? as i32)
}

// So many minutes below zero, if there are any.
fn below_zero(number: u64) -> Option<i32>
    requires { number < 841 }
    ensures read { result ≡ negative number }
    ensures bound { IfSome result (λ m. IsOffset m) }
{
    if number == 0 {
        None
    } else {
        Some(-(number as i32))
    }
}

/// An address, in the spelling in which it is printed.
#[tactic(auto, unfolding(crate::specs::Reading::word_in))]
pub fn address(alloc: Global, words: &mut EntryWords) -> Result<Addr, EntryFault>
    ensures { ReadsFront result words.new (word_in printed_address words.old) }
{
    match words.next() {
        None => Err(EntryFault::BadEntry),
        Some(word) => read_printed(alloc, word),
    }
}

// The address whose printed text the word is.
#[tactic(auto, unfolding(crate::specs::Reading::printed_address))]
fn read_printed(alloc: Global, word: &[u8]) -> Result<Addr, EntryFault>
    ensures { ReadsText result (printed_address word.now) }
{
    match read_addr(word) {
        Err(_) => Err(EntryFault::BadEntry),
        Ok(address) => {
            let text = print_addr(alloc, address)?;
            if word == text.as_bytes() {
                Ok(address)
            } else {
                Err(EntryFault::BadEntry)
            }
        }
    }
}

/// The field whose word this is.
#[tactic(auto, unfolding(crate::specs::Reading::field_from))]
pub fn read_field(alloc: Global, word: &[u8]) -> Result<Field, EntryFault>
    ensures { ReadsText result (field_from word.now) }
{
    let text = read_text(alloc, word)?;
    cut_field(alloc, text.as_bytes())
}

// The field, cut at the first `:` of its text.
#[tactic(auto, unfolding(crate::specs::Reading::cut_field))]
fn cut_field(alloc: Global, text: &[u8]) -> Result<Field, EntryFault>
    ensures { ReadsText result (cut_field text.now) }
{
    match colon_in(text) {
        None => Err(EntryFault::BadEntry),
        Some(colon) => {
            let name = Text::from_slice(alloc, &text[..colon])?;
            let value = Text::from_slice(alloc, &text[colon + 1..])?;
            Ok(Field { name, value })
        }
    }
}

// The place of the first `:`.
fn colon_in(text: &[u8]) -> Option<usize>
    ensures first { result ≡ position is_colon text.now }
    ensures inside { IfSome result (λ i. i < length text.now) }
{
    text.iter().position(|&byte| byte == b':')
}
