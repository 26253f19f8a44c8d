//! Values of pairs, read from what is written.
ghost use Rattle.std.specs.Prelude.{◌≡◌, ℕ, ◌++◌, ◌∷◌, List, false, IfOk};
ghost use Rattle.percent_encoding.specs.Percent.{percent_decode as decoded};
ghost use Rattle.sq_base.specs.Replies.{unquoted};
ghost use Rattle.sq_reply.specs.Words.{value_of, written_pair};

use crate::bytes::meant;
use crate::words::Written;
use percent_encoding::percent_decode;
use sq_base::{Pair, Text, WantOfMemory};
use std::alloc::Global;

/// Reads one byte that stands between quotes; `after` says that a `\` stands right before. Answers
/// whether one stands right before the next byte.
#[tactic(auto, unfolding(sq_base::specs::Replies::unquoted))]
fn take_byte(text: &mut Text, after: bool, byte: u8) -> Result<bool, WantOfMemory>
    ensures { IfOk result
        (λ next. (rest : List ℕ)
        → text.new ++ unquoted next rest ≡ text.old ++ unquoted after (byte ∷ rest)) }
{
    if after {
        text.push(meant(byte))?;
        return Ok(false);
    }
    if byte == b'\\' {
        return Ok(true);
    }
    text.push(byte)?;
    Ok(false)
}

/// What stands between quotes, with each `\` and the byte behind it read.
#[tactic(auto, unfolding(sq_base::specs::Replies::unquoted))]
fn unquoted(alloc: Global, bytes: &[u8]) -> Result<Text, WantOfMemory>
    ensures { IfOk result (λ t. t ≡ unquoted false bytes.now) }
{
    let mut text = Text::new(alloc);
    let mut after = false;
    for &byte in bytes {
        after = take_byte(&mut text, after, byte)?;
    }
    Ok(text)
}

fn decoded(alloc: Global, bytes: &[u8]) -> Result<Text, WantOfMemory>
    ensures { IfOk result (λ t. t ≡ decoded bytes.now) }
{
    let mut out = Vec::new(alloc);
    percent_decode(bytes).append_to(&mut out)?;
    Ok(Text::from_vec(out))
}

fn value(alloc: Global, written: &Written) -> Result<Text, WantOfMemory>
    ensures { IfOk result (λ t. t ≡ value_of written.now) }
{
    if written.in_quotes {
        unquoted(alloc, written.value)
    } else {
        decoded(alloc, written.value)
    }
}

/// The pair that is written so.
pub fn pair(alloc: Global, written: &Written) -> Result<Pair, WantOfMemory>
    ensures { IfOk result (λ p. p ≡ written_pair written.now) }
{
    let key = Text::from_slice(alloc, written.key)?;
    let value = value(alloc, written)?;
    Ok(Pair { key, value })
}
