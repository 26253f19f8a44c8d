//! Heads of replies, read.
ghost use Rattle.std.specs.Prelude.{◌≡◌, IfOk, IfErr};
ghost use Rattle.sq_message.specs.ReplyHeads.{HasReply, RefusesReply};
ghost use Rattle.sq_message.specs.declared.replies.ReplyHead.{ReplyHead};

use crate::faults::ReplyHeadFault;
use crate::replies::ReplyHead;
use crate::spanning::parse_whole;
use httparse::spans::EMPTY_HEADER_SPAN;
use sq_base::Text;
use sq_request::copy_fields;
use std::alloc::Global;

/// A head has so many bytes at most.
pub const MOST_BYTES: usize = 65_536;

/// A head has so many fields at most.
pub const MOST_FIELDS: usize = 128;

/// The head of a reply that these bytes are, and nothing more.
pub fn read_reply_head(alloc: Global, head: &[u8]) -> Result<ReplyHead, ReplyHeadFault>
    ensures read { IfOk result (HasReply head.now) }
    ensures refused { IfErr result (RefusesReply head.now) }
    // The bytes are one head at most.
    ensures one { (a b : ReplyHead) → HasReply head.now a → HasReply head.now b → a ≡ b }
{
    if head.len() > MOST_BYTES {
        return Err(ReplyHeadFault::BadHead);
    }
    // The spans are no part of the stack on which a connection is served.
    let Ok(mut room) = vec![in alloc; EMPTY_HEADER_SPAN; MOST_FIELDS] else {
        return Err(ReplyHeadFault::WantOfMemory);
    };
    let room = room.as_mut_slice();
    let Some(spans) = parse_whole(head, room) else {
        return Err(ReplyHeadFault::BadHead);
    };
    let reason = Text::from_slice(alloc, spans.reason.of(head))?;
    let fields = copy_fields(alloc, head, &room[..spans.headers])?;
    Ok(ReplyHead {
        minor: spans.version,
        status: spans.code,
        reason,
        fields,
    })
}
