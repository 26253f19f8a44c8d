//! The request of an exchange, on its way to the origin.
ghost use Rattle.std.specs.Prelude.{◌≡◌, ◌≤◌, ◌⊎◌, length, max, IfSome};
ghost use Rattle.sq_message.specs.RequestHeads.{is_chunked};
ghost use Rattle.sq_forward.specs.Access.{access_by};
ghost use Rattle.sq_outside.specs.Causes.{Rose};
ghost use Rattle.sq_forward.specs.Exchanges.{continue_part, dry_after_exchange, message, sink};
ghost use Rattle.sq_forward.specs.Halves.{to_come, large_read_limit};
ghost use Rattle.sq_forward.specs.Sending.{sent, SendsRequest, SendHasCause};

use crate::allowed_heads::request_head;
use crate::copying::{Copied, copy_body};
use crate::exchanging::Exchanged;
use crate::free::Free;
use crate::half::Half;
use crate::outgoing::Outgoing;
use sq_base::{BodyPlan, Request};
use sq_message::wants_continue;
use sq_outside::{Failed, Sink, Source, write_all};
use std::alloc::Global;
use std::sync::Wait;

/// Sends the request's head and its body, behind what a client hears that waits. None: all of it was sent.
#[inline(never)]
pub(crate) fn send_request<R: Wait, I: Source, O: Sink, Q: Sink>(
    rt: &R,
    alloc: Global,
    client: &mut Half<I>,
    to_client: &mut O,
    to_origin: &mut Q,
    outgoing: &Outgoing,
) -> Option<Exchanged>
    requires { length outgoing.now.facts.now ≡ length outgoing.now.config.now.acls }
    ensures sends { SendsRequest (access_by outgoing.now.config.now outgoing.now.facts.now)
        (message outgoing.now.request.now outgoing.now.addr outgoing.now.plan)
        (to_come I.left client.old) (to_come I.left client.new)
        (sink (O.contents to_client.old) (O.contents to_client.new))
        (sink (Q.contents to_origin.old) (Q.contents to_origin.new)) result }
    ensures cause { IfSome result
        (SendHasCause (Rose (I.faults client.old.source) (I.faults client.new.source)
        ⊎ Rose (O.faults to_client.old) (O.faults to_client.new))
        (Rose (Q.faults to_origin.old) (Q.faults to_origin.new))) }
    ensures fed { IfSome result (λ e. 0 ≡ dry_after_exchange e) }
    ensures client_later { I.faults client.old.source ≤ I.faults client.new.source }
    ensures to_client_later { O.faults to_client.old ≤ O.faults to_client.new }
    ensures to_origin_later { Q.faults to_origin.old ≤ Q.faults to_origin.new }
    ensures dialled { I.origin client.new.source ≡ I.origin client.old.source }
    ensures few { length client.new.ahead ≤ max (length client.old.ahead) large_read_limit }
{
    let request = outgoing.request;
    let plan = outgoing.plan;
    let Ok(head) = request_head(
        alloc,
        outgoing.config,
        outgoing.facts,
        request,
        outgoing.addr,
        plan,
    ) else {
        return Some(Exchanged::WantOfMemory);
    };
    match write_all(to_client, continue_part(request, plan)) {
        Ok(()) => {}
        Err(Failed) => return Some(Exchanged::ClientFault),
    }
    match write_all(to_origin, head.as_bytes()) {
        Ok(()) => {}
        Err(Failed) => return Some(Exchanged::NoReply),
    }
    let chunked = is_chunked(plan);
    let copied = copy_body(rt, alloc, client, to_origin, &mut Free, plan, chunked);
    sent(copied)
}

// What a client hears that waits until its body may come.
fn continue_part(request: &Request, plan: BodyPlan) -> &'static [u8]
    ensures { result.now ≡ continue_part request.now plan }
{
    if wants_continue(request, plan) {
        b"HTTP/1.1 100 Continue\r\n\r\n".as_slice()
    } else {
        b"".as_slice()
    }
}

fn is_chunked(plan: BodyPlan) -> bool
    ensures { result ≡ is_chunked plan }
{
    match plan {
        BodyPlan::Chunked => true,
        BodyPlan::None | BodyPlan::Length(_) | BodyPlan::ToClose => false,
    }
}

fn sent(copied: Copied) -> Option<Exchanged>
    ensures { result ≡ sent copied }
{
    match copied {
        Copied::Whole => None,
        Copied::Cut => Some(Exchanged::Cut),
        Copied::Bad => Some(Exchanged::BadBody),
        Copied::NoSource => Some(Exchanged::ClientFault),
        Copied::NoSink => Some(Exchanged::NoReply),
        Copied::Starved => Some(Exchanged::Starved),
        Copied::WantOfMemory => Some(Exchanged::WantOfMemory),
    }
}
