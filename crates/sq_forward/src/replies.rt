//! The reply of an exchange, on its way to the client.
ghost use Rattle.std.specs.Prelude.{◌≡◌, ◌≤◌, ◌+◌, length, max, IfSome, IfErr, IsErrOf};
ghost use Rattle.sq_message.specs.BodyPlans.{reply_plan};
ghost use Rattle.sq_message.specs.ReplyHeads.{most_bytes};
ghost use Rattle.sq_forward.specs.Access.{access_by};
ghost use Rattle.sq_outside.specs.Causes.{Rose};
ghost use Rattle.sq_forward.specs.Exchanges.{shape_of, is_to_close, interim_text, ExchangeHasCause, dry_after_exchange};
ghost use Rattle.sq_forward.specs.Halves.{to_come, read_limit, large_read_limit};
ghost use Rattle.sq_forward.specs.Leading.{TakesHead, LeadsReply, LeadHasCause, SendsText, SendsReply, own_head, complete, body_sent, dry_after_sending};
ghost use Rattle.sq_forward.specs.Replies.{is_interim};
ghost use Rattle.sq_forward.specs.Meters.{metered};

use crate::allowed_heads::reply_head;
use crate::copying::{Copied, copy_body};
use crate::exchanging::Exchanged;
use crate::half::Half;
use crate::heads::{HeadFound, find_head};
use crate::meter::Meter;
use crate::outgoing::Outgoing;
use crate::paying::{Unpaid, pay};
use sq_base::{BodyPlan, Request};
use sq_message::{
    BadBody, ReplyHead, ReplyHeadFault, Shape, read_reply_head, reply_plan, wants_close,
};
use sq_outside::{Observed, Sink, Source};
use std::alloc::Global;
use std::sync::Wait;

// So many heads at most are passed on before that of the reply.
const INTERIM_LIMIT: usize = 16;

/// Why no head was taken.
#[derive(Clone, Copy)]
pub(crate) enum NoHead {
    /// The bytes begin with no head of a reply.
    Missing,
    /// The source failed.
    Failed,
    /// There was no memory.
    WantOfMemory,
}

// Reads the next head, and takes it from what comes.
fn take_head<R: Wait, P: Source>(
    rt: &R,
    alloc: Global,
    origin: &mut Half<P>,
) -> Result<ReplyHead, NoHead>
    ensures takes { IfSome (to_come P.left origin.old)
        (λ bytes. TakesHead bytes (to_come P.left origin.new) result) }
    ensures cause { IsErrOf result NoHead.Failed
        → Rose (P.faults origin.old.source) (P.faults origin.new.source) }
    ensures later { P.faults origin.old.source ≤ P.faults origin.new.source }
    ensures dialled { P.origin origin.new.source ≡ P.origin origin.old.source }
    ensures few { length origin.new.ahead
        ≤ max (length origin.old.ahead) (most_bytes + read_limit) }
{
    let len = match find_head(rt, origin, true) {
        HeadFound::Whole(len) => len,
        HeadFound::TooLarge => return Err(NoHead::Missing),
        HeadFound::Ended => return Err(NoHead::Missing),
        HeadFound::Failed => return Err(NoHead::Failed),
        HeadFound::WantOfMemory => return Err(NoHead::WantOfMemory),
    };
    let (head, _) = origin.ahead.as_bytes().split_at(len);
    let head = match read_reply_head(alloc, head) {
        Ok(head) => head,
        Err(ReplyHeadFault::BadHead) => return Err(NoHead::Missing),
        Err(ReplyHeadFault::WantOfMemory) => return Err(NoHead::WantOfMemory),
    };
    origin.drop_front(len);
    Ok(head)
}

fn is_interim(head: &ReplyHead) -> bool
    ensures { result ≡ is_interim head.now }
{
    100 <= head.status && head.status < 200 && head.status != 101
}

fn plan_of(request: &Request, head: &ReplyHead) -> Result<BodyPlan, BadBody>
    ensures { result ≡ reply_plan request.now.method head.now }
{
    reply_plan(&request.method, head)
}

// What a reply's head and its body say of what follows.
fn shape_of(request: &Request, plan: BodyPlan) -> Shape
    ensures { result ≡ shape_of request.now plan }
{
    let chunked = match plan {
        BodyPlan::Chunked => request.minor > 0,
        BodyPlan::None | BodyPlan::Length(_) | BodyPlan::ToClose => false,
    };
    Shape {
        chunked,
        closes: wants_close(request) || is_to_close(plan),
    }
}

fn is_to_close(plan: BodyPlan) -> bool
    ensures { result ≡ is_to_close plan }
{
    match plan {
        BodyPlan::ToClose => true,
        BodyPlan::None | BodyPlan::Length(_) | BodyPlan::Chunked => false,
    }
}

/// Passes on the heads that are not the reply's own, to a client that knows them, and takes its own.
#[inline(never)]
pub(crate) fn lead_reply<R: Wait, P: Source, O: Sink, M: Meter>(
    rt: &R,
    alloc: Global,
    origin: &mut Half<P>,
    to_client: &mut O,
    meter: &mut M,
    outgoing: &Outgoing,
) -> Result<ReplyHead, Exchanged>
    requires dry { M.dry meter.old ≡ 0 }
    requires facts { length outgoing.now.facts.now ≡ length outgoing.now.config.now.acls }
    ensures leads { LeadsReply (access_by outgoing.now.config.now outgoing.now.facts.now)
        outgoing.now.request.now
        (to_come P.left origin.old) (to_come P.left origin.new)
        (metered (M.seated meter.old) (O.contents to_client.old) (O.contents to_client.new)
        (M.granted meter.old) (M.granted meter.new)) (Rose (P.faults origin.old.source)
        (P.faults origin.new.source)) result }
    ensures cause { IfErr result
        (LeadHasCause (Rose (O.faults to_client.old) (O.faults to_client.new))) }
    ensures dry { M.dry meter.new ≡ dry_after_sending result }
    ensures seated { M.seated meter.new ≡ M.seated meter.old }
    ensures besides { M.besides meter.new ≡ M.besides meter.old }
    ensures origin_later { P.faults origin.old.source ≤ P.faults origin.new.source }
    ensures client_later { O.faults to_client.old ≤ O.faults to_client.new }
    ensures dialled { P.origin origin.new.source ≡ P.origin origin.old.source }
    ensures few { length origin.new.ahead
        ≤ max (length origin.old.ahead) (most_bytes + read_limit) }
{
    let mut passed = 0;
    for _ in rt.forever() {
        let head = match take_head(rt, alloc, origin) {
            Ok(head) => head,
            Err(NoHead::Missing) => return Err(Exchanged::NoReply),
            Err(NoHead::Failed) => return Err(Exchanged::NoReply),
            Err(NoHead::WantOfMemory) => return Err(Exchanged::WantOfMemory),
        };
        if !is_interim(&head) {
            return own_head(head);
        }
        if passed == INTERIM_LIMIT {
            return Err(Exchanged::NoReply);
        }
        passed += 1;
        match pass_on(alloc, to_client, meter, outgoing, &head) {
            Ok(()) => {}
            Err(end) => return Err(end),
        }
    }
    unreachable!()
}

// The reply's own head: 101 is none.
fn own_head(head: ReplyHead) -> Result<ReplyHead, Exchanged>
    ensures { result ≡ own_head head }
{
    if head.status == 101 {
        return Err(Exchanged::NoReply);
    }
    Ok(head)
}

// Sends a head that is not the reply's own. A client of version 1.0 does not get it.
fn pass_on<O: Sink, M: Meter>(
    alloc: Global,
    to_client: &mut O,
    meter: &mut M,
    outgoing: &Outgoing,
    head: &ReplyHead,
) -> Result<(), Exchanged>
    requires dry { M.dry meter.old ≡ 0 }
    requires facts { length outgoing.now.facts.now ≡ length outgoing.now.config.now.acls }
    ensures sends { SendsText (interim_text (access_by outgoing.now.config.now
        outgoing.now.facts.now)
        outgoing.now.request.now head.now)
        (metered (M.seated meter.old) (O.contents to_client.old) (O.contents to_client.new)
        (M.granted meter.old) (M.granted meter.new)) result }
    ensures cause { IfErr result
        (LeadHasCause (Rose (O.faults to_client.old) (O.faults to_client.new))) }
    ensures other { IfErr result (λ end. end ≡ Exchanged.NoReply → ⊥) }
    ensures dry { M.dry meter.new ≡ dry_after_sending result }
    ensures seated { M.seated meter.new ≡ M.seated meter.old }
    ensures besides { M.besides meter.new ≡ M.besides meter.old }
    ensures later { O.faults to_client.old ≤ O.faults to_client.new }
{
    let request = outgoing.request;
    if request.minor == 0 {
        return Ok(());
    }
    let shape = Shape {
        chunked: false,
        closes: false,
    };
    let Ok(text) = reply_head(alloc, outgoing.config, outgoing.facts, head, shape) else {
        return Err(Exchanged::WantOfMemory);
    };
    match pay(meter, to_client, text.as_bytes()) {
        Ok(()) => Ok(()),
        Err(Unpaid::Failed) => Err(Exchanged::ClientFault),
        Err(Unpaid::Starved) => Err(Exchanged::Starved),
    }
}

/// Sends the reply with this head, and the body that comes behind it.
#[inline(never)]
pub(crate) fn send_reply<R: Wait, P: Source, O: Sink, M: Meter>(
    rt: &R,
    alloc: Global,
    origin: &mut Half<P>,
    to_client: &mut O,
    meter: &mut M,
    outgoing: &Outgoing,
    head: &ReplyHead,
) -> Exchanged
    requires dry { M.dry meter.old ≡ 0 }
    requires facts { length outgoing.now.facts.now ≡ length outgoing.now.config.now.acls }
    ensures sends { SendsReply (access_by outgoing.now.config.now outgoing.now.facts.now)
        outgoing.now.request.now head.now
        (to_come P.left origin.old) (metered (M.seated meter.old) (O.contents to_client.old)
        (O.contents to_client.new) (M.granted meter.old) (M.granted meter.new)) result }
    ensures cause { ExchangeHasCause (Rose (O.faults to_client.old) (O.faults to_client.new))
        (Rose (P.faults origin.old.source) (P.faults origin.new.source)) result }
    ensures dry { M.dry meter.new ≡ dry_after_exchange result }
    ensures seated { M.seated meter.new ≡ M.seated meter.old }
    ensures besides { M.besides meter.new ≡ M.besides meter.old }
    ensures origin_later { P.faults origin.old.source ≤ P.faults origin.new.source }
    ensures client_later { O.faults to_client.old ≤ O.faults to_client.new }
    ensures dialled { P.origin origin.new.source ≡ P.origin origin.old.source }
    ensures few { length origin.new.ahead ≤ max (length origin.old.ahead) large_read_limit }
{
    let request = outgoing.request;
    let plan = match plan_of(request, head) {
        Ok(plan) => plan,
        Err(_) => return Exchanged::NoReply,
    };
    let shape = shape_of(request, plan);
    let Ok(text) = reply_head(alloc, outgoing.config, outgoing.facts, head, shape) else {
        return Exchanged::WantOfMemory;
    };
    to_client.observe(&Observed::Replies(head.status));
    match pay(meter, to_client, text.as_bytes()) {
        Ok(()) => {}
        Err(Unpaid::Failed) => return Exchanged::ClientFault,
        Err(Unpaid::Starved) => return Exchanged::Starved,
    }
    let copied = copy_body(rt, alloc, origin, to_client, meter, plan, shape.chunked);
    body_sent(copied, is_to_close(plan), shape.closes)
}

// How the exchange ends, by how the copying of the reply's body did.
fn body_sent(copied: Copied, to_close: bool, closes: bool) -> Exchanged
    ensures { result ≡ body_sent copied to_close closes }
{
    match copied {
        Copied::Whole => complete(closes),
        Copied::Cut if to_close => complete(closes),
        Copied::Cut | Copied::Bad => Exchanged::OriginCut,
        Copied::NoSource => Exchanged::OriginFault,
        Copied::NoSink => Exchanged::ClientFault,
        Copied::Starved => Exchanged::Starved,
        Copied::WantOfMemory => Exchanged::WantOfMemory,
    }
}

fn complete(closes: bool) -> Exchanged
    ensures { result ≡ complete closes }
{
    if closes {
        Exchanged::Closed
    } else {
        Exchanged::Kept
    }
}
