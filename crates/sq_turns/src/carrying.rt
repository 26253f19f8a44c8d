//! What follows an allowed verdict.
ghost use Rattle.std.specs.Prelude.{◌≡◌, ◌≤◌, ◌⊎◌, true, false, Ok};
ghost use Rattle.sq_message.specs.BodyPlans.{request_plan};
ghost use Rattle.sq_outside.specs.Causes.{Rose};
ghost use Rattle.sq_outside.specs.Dials.{CallsMore, CallsOnce};
ghost use Rattle.sq_forward.specs.Halves.{to_come};
ghost use Rattle.sq_turns.specs.Carrying.{IsSameMessage};
ghost use Rattle.sq_turns.specs.Steps.{EndHasCause, WasTold, dry_after, turn_seen, front_seen};
ghost use Rattle.sq_turns.specs.Told.{CarriesTold, ReachesTold};
ghost use Rattle.sq_turns.specs.Turns.{access_of, is_connect};
ghost use Rattle.sq_forward.specs.Exchanges.{message};

use crate::ends::Carried;
use crate::forwarding::forward;
use crate::front::{Front, SitFault};
use crate::judged::JudgedRequest;
use crate::own_replies::{is_connect, is_head, is_served, say};
use sq_base::Request;
use sq_forward::{Ahead, Duplex, Ends, Half, Meter};
use sq_message::Own;
use sq_outside::{Dialer, LinkUse, Observed, Sink};
use std::alloc::Global;
use std::sync::Wait;
use std::thread::Threads;

/// Takes an allowed request to its origin, and brings the reply to the client: by way of the scheme,
/// the seat and the dial, of which there is one at most. Of the heads go on the fields that the configuration of
/// the record allows, by what its check saw. The seat and the dial are given back. It may wait as
/// long as a source gives bytes.
#[inline(never)]
pub(crate) fn carry<R: Threads + Wait + Sync, C: Ends, F: Front, D: Dialer>(
    rt: &R,
    alloc: Global,
    client: &mut Duplex<C>,
    request: &JudgedRequest,
    front: &mut F,
    dialer: &mut D,
) -> Carried
    requires allowed { request.now.judged.now.outcome.allow ≡ true }
    requires planned { request_plan request.now.judged.now.sight.request ≡ Ok request.now.plan }
    requires same { IsSameMessage request.now.sent.now request.now.judged.now.sight.request }
    requires dry { F.Meter.dry front.old ≡ 0 }
    requires unseated { F.Meter.seated front.old ≡ false }
    ensures told { CarriesTold (message request.now.sent.now request.now.addr request.now.plan)
        request.now.judged.now (to_come C.In.left client.old.from)
        (front_seen (F.stands front.old) (F.stands front.new))
        (turn_seen (to_come C.In.left client.new.from) (C.Outgo.Sink.contents client.old.to)
        (C.Outgo.Sink.contents client.new.to)
        (F.Meter.granted front.old) (F.Meter.granted front.new) (D.dialled dialer.old))
        (D.dialled dialer.new) (Rose (D.faults dialer.old) (D.faults dialer.new)) result }
    ensures cause { EndHasCause
        (Rose (C.In.faults client.old.from.source) (C.In.faults client.new.from.source)
        ⊎ Rose (C.Outgo.Sink.faults client.old.to) (C.Outgo.Sink.faults client.new.to))
        (Rose (D.faults dialer.old) (D.faults dialer.new)) result }
    ensures dry { F.Meter.dry front.new ≡ dry_after result }
    ensures unseated { F.Meter.seated front.new ≡ false }
    ensures number { F.number front.new ≡ F.number front.old }
    ensures asked { F.asked front.new ≡ F.asked front.old }
    ensures client_later { C.In.faults client.old.from.source ≤ C.In.faults client.new.from.source }
    ensures to_later { C.Outgo.Sink.faults client.old.to ≤ C.Outgo.Sink.faults client.new.to }
    ensures dialer_later { D.faults dialer.old ≤ D.faults dialer.new }
    ensures dialled { WasTold (D.dialled dialer.old) (D.dialled dialer.new) }
    ensures calls { CallsOnce (D.calls dialer.old) (D.calls dialer.new) }
{
    let sent = request.sent;
    if !is_served(sent) {
        return say(alloc, &mut client.to, Own::NotImplemented, is_head(sent));
    }
    match front.sit(alloc, request.judged) {
        Ok(()) => {}
        Err(SitFault::Spent) => return say(alloc, &mut client.to, Own::Inner, is_head(sent)),
        Err(SitFault::WantOfMemory) => return say(
            alloc,
            &mut client.to,
            Own::NoMemory,
            is_head(sent),
        ),
    }
    let carried = reach(rt, alloc, client, request, front, dialer);
    client.to.observe(&Observed::Dialled(dialer.seen()));
    front.rise();
    carried
}

// For what the origin of a request is dialled: for a tunnel where it asks for one, and else for an exchange.
fn link_use(sent: &Request) -> LinkUse
    ensures tunnel { is_connect sent.now ≡ true → result ≡ LinkUse.Tunnel }
    ensures exchange { is_connect sent.now ≡ false → result ≡ LinkUse.Exchange }
{
    if is_connect(sent) {
        LinkUse::Tunnel
    } else {
        LinkUse::Exchange
    }
}

// Dials the origin, forwards the request, and gives the dial back.
#[inline(never)]
fn reach<R: Threads + Wait + Sync, C: Ends, M: Meter, D: Dialer>(
    rt: &R,
    alloc: Global,
    client: &mut Duplex<C>,
    request: &JudgedRequest,
    meter: &mut M,
    dialer: &mut D,
) -> Carried
    requires dry { M.dry meter.old ≡ 0 }
    ensures told { ReachesTold (access_of request.now.judged.now)
        (message request.now.sent.now request.now.addr request.now.plan)
        (to_come C.In.left client.old.from) (M.seated meter.old)
        (turn_seen (to_come C.In.left client.new.from) (C.Outgo.Sink.contents client.old.to)
        (C.Outgo.Sink.contents client.new.to)
        (M.granted meter.old) (M.granted meter.new) (D.dialled dialer.old)) (D.dialled dialer.new)
        (Rose (D.faults dialer.old) (D.faults dialer.new)) result }
    ensures cause { EndHasCause
        (Rose (C.In.faults client.old.from.source) (C.In.faults client.new.from.source)
        ⊎ Rose (C.Outgo.Sink.faults client.old.to) (C.Outgo.Sink.faults client.new.to))
        (Rose (D.faults dialer.old) (D.faults dialer.new)) result }
    ensures dry { M.dry meter.new ≡ dry_after result }
    ensures seated { M.seated meter.new ≡ M.seated meter.old }
    ensures besides { M.besides meter.new ≡ M.besides meter.old }
    ensures client_later { C.In.faults client.old.from.source ≤ C.In.faults client.new.from.source }
    ensures to_later { C.Outgo.Sink.faults client.old.to ≤ C.Outgo.Sink.faults client.new.to }
    ensures dialer_later { D.faults dialer.old ≤ D.faults dialer.new }
    ensures dialled { WasTold (D.dialled dialer.old) (D.dialled dialer.new) }
    ensures calls { CallsMore (D.calls dialer.old) (D.calls dialer.new) }
{
    let sent = request.sent;
    let Ok((from, to)) = dialer.dial(alloc, &sent.host, sent.port, link_use(sent)) else {
        return say(alloc, &mut client.to, Own::BadGateway, is_head(sent));
    };
    let mut origin: Duplex<(D::In, D::Outgo)> = Duplex {
        from: Half {
            source: from,
            ahead: Ahead::new(alloc),
        },
        to,
    };
    let carried = forward(rt, alloc, client, &mut origin, meter, request);
    let Duplex { from, to } = origin;
    let Half { source, ahead: _ } = from;
    dialer.give_back(source, to);
    carried
}
