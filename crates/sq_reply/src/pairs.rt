//! The pairs of a reply line's words.
ghost use Rattle.std.specs.Prelude.{◌≡◌, ◌++◌, true, is_some, OnOk};
ghost use Rattle.std.specs.Option.{option_map};
ghost use Rattle.sq_base.specs.Replies.{pairs_of};
ghost use Rattle.sq_reply.specs.Reading.{ReadsAs};
ghost use Rattle.sq_reply.specs.Words.{pairs_of_one, has_any};

use crate::faults::ReplyFault;
use crate::values::pair;
use crate::words::{Written, next_piece};
use sq_base::{Pairs, WantOfMemory};
use std::alloc::Global;

/// Whether these words have a pair, if they are in the grammar. It takes no memory.
fn has_pairs(bytes: &[u8]) -> Option<bool>
    ensures { result ≡ option_map has_any (pairs_of bytes.now) }
{
    let mut any = false;
    let mut rest = bytes;
    while !rest.is_empty() {
        let next = next_piece(rest)?;
        any |= next.pair.is_some();
        rest = next.rest;
    }
    Some(any)
}

fn put_pair(alloc: Global, pairs: &mut Pairs, written: Option<Written>) -> Result<(), WantOfMemory>
    ensures { OnOk result (pairs.new ≡ pairs.old ++ pairs_of_one written.entry) }
{
    let Some(written) = written else {
        return Ok(());
    };
    let pair = pair(alloc, &written)?;
    pairs.push(pair)
}

/// The pairs of words that are in the grammar.
fn take_pairs(alloc: Global, bytes: &[u8]) -> Result<Pairs, ReplyFault>
    requires { is_some (pairs_of bytes.now) ≡ true }
    ensures { ReadsAs result (pairs_of bytes.now) }
{
    let mut pairs = Pairs::new(alloc);
    let mut rest = bytes;
    while !rest.is_empty() {
        let Some(next) = next_piece(rest) else {
            return Err(ReplyFault::Bad);
        };
        put_pair(alloc, &mut pairs, next.pair)?;
        rest = next.rest;
    }
    Ok(pairs)
}

/// The pairs of these words. It takes no memory where there is none.
pub fn pairs(alloc: Global, bytes: &[u8]) -> Result<Pairs, ReplyFault>
    ensures { ReadsAs result (pairs_of bytes.now) }
{
    match has_pairs(bytes) {
        None => Err(ReplyFault::Bad),
        Some(false) => Ok(Pairs::new(alloc)),
        Some(true) => take_pairs(alloc, bytes),
    }
}
