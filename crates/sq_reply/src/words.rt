//! The words of a reply line, found without memory.
ghost use Rattle.std.specs.Prelude.{◌≡◌, ◌<◌, ◌==◌, ◌&&◌, not, false, length, IfSome};
ghost use Rattle.std.specs.Option.{option_map};
ghost use Rattle.sq_base.specs.Replies.{ends_word, quoted_len, pair_before, quoted_in, plain_in, value_in, reply_word_in, piece_in};
ghost use Rattle.sq_reply.specs.Words.{value_of, found};

use crate::bytes::{is_key, is_line_byte, value_len, word_len};

/// A pair as it stands in a line: its key, and its value as it is written.
#[derive(Clone, Copy)]
pub struct Written<'a> {
    pub key: &'a [u8],
    pub value: &'a [u8],
    /// The value stands in quotes.
    pub in_quotes: bool,
}

/// A word or a space of a line: the pair that it is, if it is one, and what stands behind it.
#[derive(Clone, Copy)]
pub struct PairAndRest<'a> {
    pub pair: Option<Written<'a>>,
    pub rest: &'a [u8],
}

/// Whether a space or the end stands here.
pub fn ends_word(bytes: &[u8]) -> bool
    ensures { result ≡ ends_word bytes.now }
{
    match bytes.split_first() {
        None => true,
        Some((&byte, _)) => byte == b' ',
    }
}

/// Whether the byte is a closing quote; `after` says that a `\` stands right before.
fn closes(after: bool, byte: u8) -> bool
    ensures { result ≡ (not after && byte == 34) }
{
    !after && byte == b'"'
}

/// Whether the byte is a `\` that belongs to the next byte.
fn marks(after: bool, byte: u8) -> bool
    ensures { result ≡ (not after && byte == 92) }
{
    !after && byte == b'\\'
}

/// How many bytes stand before the closing quote, if there is one.
fn quoted_len(bytes: &[u8]) -> Option<usize>
    ensures len { result ≡ quoted_len false bytes.now }
    ensures bound { IfSome result (λ n. n < length bytes.now) }
{
    let mut after = false;
    for (i, &byte) in bytes.iter().enumerate() {
        if closes(after, byte) {
            return Some(i);
        }
        if !is_line_byte(byte) {
            return None;
        }
        after = marks(after, byte);
    }
    None
}

fn pair_before<'a>(pair: Written<'a>, rest: &'a [u8]) -> Option<PairAndRest<'a>>
    ensures { option_map found result
        ≡ pair_before pair.entry.key.now (value_of pair.entry) rest.now }
{
    if ends_word(rest) {
        Some(PairAndRest {
            pair: Some(pair),
            rest,
        })
    } else {
        None
    }
}

fn quoted<'a>(key: &'a [u8], bytes: &'a [u8]) -> Option<PairAndRest<'a>>
    ensures { option_map found result ≡ quoted_in key.now bytes.now (quoted_len false bytes.now) }
{
    let n = quoted_len(bytes)?;
    let pair = Written {
        key,
        value: &bytes[..n],
        in_quotes: true,
    };
    pair_before(pair, &bytes[n + 1..])
}

fn plain<'a>(key: &'a [u8], bytes: &'a [u8]) -> Option<PairAndRest<'a>>
    ensures { option_map found result ≡ plain_in key.now bytes.now }
{
    let (value, rest) = bytes.split_at(value_len(bytes));
    let pair = Written {
        key,
        value,
        in_quotes: false,
    };
    pair_before(pair, rest)
}

#[tactic(auto, unfolding(sq_base::specs::Replies::value_in))]
fn value<'a>(key: &'a [u8], bytes: &'a [u8]) -> Option<PairAndRest<'a>>
    ensures { option_map found result ≡ value_in key.now bytes.now }
{
    match bytes.split_first() {
        Some((&b'"', rest)) => quoted(key, rest),
        _ => plain(key, bytes),
    }
}

#[tactic(auto, unfolding(sq_base::specs::Replies::reply_word_in))]
fn word(bytes: &[u8]) -> Option<PairAndRest<'_>>
    ensures { option_map found result ≡ reply_word_in bytes.now }
{
    let (name, rest) = bytes.split_at(word_len(bytes));
    match rest.split_first() {
        None => Some(PairAndRest { pair: None, rest }),
        Some((&b' ', _)) => Some(PairAndRest { pair: None, rest }),
        Some((&b'=', after)) if is_key(name) => value(name, after),
        Some(_) => None,
    }
}

/// The space or the word at the front of these bytes.
pub fn next_piece(bytes: &[u8]) -> Option<PairAndRest<'_>>
    ensures { option_map found result ≡ piece_in bytes.now }
{
    match bytes.split_first() {
        None => None,
        Some((&b' ', rest)) => Some(PairAndRest { pair: None, rest }),
        Some(_) => word(bytes),
    }
}
