//! Reading of reply lines.
ghost use Rattle.std.specs.Prelude.{◌≡◌, ◌↔◌, true, IfOk, IsErrOf, Some, None};
ghost use Rattle.sq_base.specs.Replies.{Answer, result_of, result_in, reply_line_in, without_last_cr, reply_of, have_keys};
ghost use Rattle.sq_base.specs.ReplyGrammar.{Says};
ghost use Rattle.sq_reply.specs.Reading.{ReadsAs};

use crate::bytes::word_len;
use crate::faults::ReplyFault;
use crate::pairs::pairs;
use crate::words::ends_word;
use sq_base::{Reply, Word, number_of};
use std::alloc::Global;

/// A reply line has at most this many bytes, a CR at its end counted.
const LIMIT: usize = 65536;

/// A channel's number is below this.
const CHANNELS: u64 = 1 << 32;

/// What a reply line says: its channel, if it has one, and the reply.
type ChannelReply = (Option<u32>, Reply);

fn result_of(name: &[u8]) -> Option<Word>
    ensures { result ≡ result_of name.now }
{
    if name == b"OK".as_slice() {
        return Some(Word::Yes);
    }
    if name == b"ERR".as_slice() {
        return Some(Word::No);
    }
    if name == b"BH".as_slice() {
        return Some(Word::Broken);
    }
    None
}

#[tactic(auto, unfolding(sq_base::specs::Replies::result_in))]
fn reply(alloc: Global, bytes: &[u8]) -> Result<Reply, ReplyFault>
    ensures { ReadsAs result (result_in bytes.now) }
{
    let (name, rest) = bytes.split_at(word_len(bytes));
    let Some(word) = result_of(name) else {
        return Err(ReplyFault::Bad);
    };
    if !ends_word(rest) {
        return Err(ReplyFault::Bad);
    }
    let pairs = pairs(alloc, rest)?;
    Ok(Reply { word, pairs })
}

#[tactic(auto, unfolding(sq_base::specs::Replies::reply_line_in))]
fn numbered(alloc: Global, line: &[u8]) -> Result<ChannelReply, ReplyFault>
    ensures { ReadsAs result (reply_line_in true line.now) }
{
    let (name, rest) = line.split_at(word_len(line));
    let Some(number) = number_of(name, CHANNELS) else {
        return Err(ReplyFault::Bad);
    };
    match rest.split_first() {
        Some((&b' ', rest)) => {
            let reply = reply(alloc, rest)?;
            Ok((Some(number as u32), reply))
        }
        _ => Err(ReplyFault::Bad),
    }
}

#[tactic(auto, unfolding(sq_base::specs::Replies::reply_line_in))]
fn said(alloc: Global, line: &[u8], with_channel: bool) -> Result<ChannelReply, ReplyFault>
    ensures { ReadsAs result (reply_line_in with_channel line.now) }
{
    if with_channel {
        return numbered(alloc, line);
    }
    let reply = reply(alloc, line)?;
    Ok((None, reply))
}

fn without_cr(line: &[u8]) -> &[u8]
    ensures { result.now ≡ without_last_cr line.now }
{
    let Some((&last, rest)) = line.split_last() else {
        return line;
    };
    if last == b'\r' { rest } else { line }
}

#[tactic(auto, unfolding(sq_base::specs::Replies::reply_of))]
fn read_line(alloc: Global, line: &[u8], with_channel: bool) -> Result<ChannelReply, ReplyFault>
    ensures { ReadsAs result (reply_of with_channel line.now) }
{
    if line.len() > LIMIT {
        return Err(ReplyFault::Bad);
    }
    said(alloc, without_cr(line), with_channel)
}

/// Reads a reply line without its LF. A channel stands in it exactly where helpers of its class answer
/// several questions at a time.
pub fn read_reply(
    alloc: Global,
    line: &[u8],
    with_channel: bool,
) -> Result<(Option<u32>, Reply), ReplyFault>
    // What is read is what the line says by the grammar.
    ensures found { IfOk result (λ x. Says with_channel line.now x) }
    // A line says one thing at most.
    ensures one { (x y : Answer) → Says with_channel line.now x → Says with_channel line.now y
        → x ≡ y }
    // What the line says by the grammar is read, unless memory runs out.
    ensures only { (x : Answer) → Says with_channel line.now x → ReadsAs result (Some x) }
    // So the reply can be printed.
    ensures keys { IfOk result (λ x. have_keys x.1.pairs ≡ true) }
    // The reading as a function.
    ensures read { IfOk result (λ x. reply_of with_channel line.now ≡ Some x) }
    ensures bad { IsErrOf result ReplyFault.Bad ↔ (reply_of with_channel line.now ≡ None) }
{
    read_line(alloc, line, with_channel)
}
