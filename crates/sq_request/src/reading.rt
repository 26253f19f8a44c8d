//! Requests read from their heads.
ghost use Rattle.std.specs.Prelude.{◌≡◌, Result, IfOk, IfErr};
ghost use Rattle.sq_request.specs.Endings.{IsWholeHead};
ghost use Rattle.sq_request.specs.Heads.{HasRequest};
ghost use Rattle.sq_request.specs.Refusals.{RefusesHead, ComesTo};
ghost use Rattle.sq_request.specs.declared.faults.BadRequest.{BadRequest};
ghost use Rattle.sq_base.specs.Requests.{HttpRequest};

use crate::building::build;
use crate::faults::BadRequest;
use crate::methods::read_method;
use crate::spanning::{copy_fields, line_count, parse_whole};
use httparse::spans::EMPTY_HEADER_SPAN;
use sq_base::Request;
use std::alloc::Global;

/// A head has so many fields at most.
pub const MOST_FIELDS: usize = 128;

/// The request of a whole head: bytes that end where `head_end` says that a head ends.
pub fn read_request(alloc: Global, head: &[u8]) -> Result<Request, BadRequest>
    requires { IsWholeHead head.now }
    ensures read { IfOk result (HasRequest head.now) }
    ensures refused { IfErr result (RefusesHead head.now) }
    // The bytes are one request at most, and not refused as well, nor in two ways.
    ensures one { (a b : Result HttpRequest BadRequest) → ComesTo head.now a → ComesTo head.now b
        → a ≡ b }
{
    let Ok(mut room) = vec![in alloc; EMPTY_HEADER_SPAN; line_count(head)] else {
        return Err(BadRequest::WantOfMemory);
    };
    let room = room.as_mut_slice();
    let Some(spans) = parse_whole(head, room) else {
        return Err(BadRequest::BadHead);
    };
    let Some(method) = read_method(alloc, spans.method.of(head))? else {
        unreachable!()
    };
    if spans.headers > MOST_FIELDS {
        return Err(BadRequest::TooManyFields);
    }
    let fields = copy_fields(alloc, head, &room[..spans.headers])?;
    let target = spans.path.of(head);
    build(
        alloc,
        method.as_str().as_bytes(),
        target,
        spans.version,
        fields,
    )
}
