//! Heads of replies parsed as spans.
ghost use Rattle.std.specs.Prelude.{length, IfSome, IfNone};
ghost use Rattle.sq_message.specs.Spans.{FitsIn, CoversHead, HasMoreThan};

use httparse::Status;
use httparse::spans::{HeaderSpan, ResponseSpans, parse_response};

/// Where the parts of a head are, if the bytes are one, and nothing more, whose fields the room holds.
pub(crate) fn parse_whole(head: &[u8], room: &mut [HeaderSpan]) -> Option<ResponseSpans>
    ensures found { IfSome result (CoversHead head.now room.new) }
    ensures within { IfSome result (FitsIn (length head.now) room.new) }
    ensures none { IfNone result (HasMoreThan (length room.old) head.now) }
{
    match parse_response(head, room) {
        Ok(Status::Complete(spans)) => {
            if spans.len < head.len() {
                None
            } else {
                Some(spans)
            }
        }
        Ok(Status::Partial) => None,
        Err(_) => None,
    }
}
