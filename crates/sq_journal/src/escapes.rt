//! Texts as escaped words.
ghost use Rattle.std.specs.Prelude.{◌≡◌, IfOk, bytes_eq};
ghost use Rattle.sq_base.specs.Escapes.{escaped, text_word, text_of, unescaped};
ghost use Rattle.sq_journal.specs.Putting.{Puts};
ghost use Rattle.sq_journal.specs.Reading.{ReadsText};

use crate::faults::EntryFault;
use crate::putting::put;
use percent_encoding::{AsciiSet, CONTROLS, ascii_set, percent_decode, percent_encode};
use sq_base::{Text, WantOfMemory};
use sq_outside::{Failed, Sink};
use std::alloc::Global;

/// The bytes that are escaped in the word of a text, beside those past ASCII: control bytes, space, `%`
/// and `>`. Crates that write such words in pieces hand this set to `percent_encode`.
pub const ESCAPES: AsciiSet = ascii_set!(CONTROLS.add(b' ').add(b'%').add(b'>'));

/// Puts the escaped bytes, piece by piece.
pub fn put_escaped<O: Sink>(to: &mut O, bytes: &[u8]) -> Result<(), Failed>
    ensures { Puts (O.contents to.old) (O.contents to.new) (O.faults to.old) (O.faults to.new)
        result (escaped bytes.now) }
{
    for piece in percent_encode(bytes, ESCAPES) {
        match put(to, piece.as_bytes()) {
            Ok(()) => {}
            Err(Failed) => return Err(Failed),
        }
    }
    Ok(())
}

/// Puts the word of a text.
#[tactic(auto, unfolding(sq_base::specs::Escapes::text_word))]
pub fn put_text<O: Sink>(to: &mut O, bytes: &[u8]) -> Result<(), Failed>
    ensures { Puts (O.contents to.old) (O.contents to.new) (O.faults to.old) (O.faults to.new)
        result (text_word bytes.now) }
{
    if bytes.is_empty() {
        return put(to, b"-");
    }
    if bytes == b"-".as_slice() {
        return put(to, b"%2D");
    }
    put_escaped(to, bytes)
}

/// The text whose word this is.
#[tactic(auto, unfolding(sq_base::specs::Escapes::text_of))]
pub fn read_text(alloc: Global, word: &[u8]) -> Result<Text, EntryFault>
    ensures { ReadsText result (text_of word.now) }
{
    let text = unescaped(alloc, word)?;
    if is_word_of(word, text.as_bytes()) {
        Ok(text)
    } else {
        Err(EntryFault::BadEntry)
    }
}

// What the word stands for, if it is the word of a text.
fn unescaped(alloc: Global, word: &[u8]) -> Result<Text, WantOfMemory>
    ensures { IfOk result (λ t. t ≡ unescaped word.now) }
{
    if word == b"-".as_slice() {
        return Ok(Text::new(alloc));
    }
    let mut bytes = Vec::new(alloc);
    percent_decode(word).append_to(&mut bytes)?;
    Ok(Text::from_vec(bytes))
}

// Whether the word is that of this text.
#[tactic(auto, unfolding(sq_base::specs::Escapes::text_word))]
fn is_word_of(word: &[u8], bytes: &[u8]) -> bool
    ensures { result ≡ bytes_eq word.now (text_word bytes.now) }
{
    if bytes.is_empty() {
        return word == b"-".as_slice();
    }
    if bytes == b"-".as_slice() {
        return word == b"%2D".as_slice();
    }
    is_escape_of(word, bytes)
}

// Whether the word is these bytes escaped.
fn is_escape_of(word: &[u8], bytes: &[u8]) -> bool
    ensures { result ≡ bytes_eq word.now (escaped bytes.now) }
{
    let mut rest = word;
    for piece in percent_encode(bytes, ESCAPES) {
        match rest.strip_prefix(piece.as_bytes()) {
            None => return false,
            Some(left) => rest = left,
        }
    }
    rest.is_empty()
}
