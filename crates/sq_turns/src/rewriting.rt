//! An allowed request, which goes on as the rewriter leaves it.
ghost use Rattle.std.specs.Prelude.{◌≡◌, ◌≤◌, ◌⊎◌, true, false, Ok};
ghost use Rattle.sq_outside.specs.Causes.{Rose};
ghost use Rattle.sq_outside.specs.Dials.{CallsOnce};
ghost use Rattle.sq_forward.specs.Halves.{to_come};
ghost use Rattle.sq_message.specs.BodyPlans.{request_plan};
ghost use Rattle.sq_turns.specs.Steps.{EndHasCause, WasTold, dry_after, turn_seen, front_seen};
ghost use Rattle.sq_turns.specs.Told.{ObeysTold};
ghost use Rattle.sq_forward.specs.Exchanges.{message};

use crate::carrying::carry;
use crate::ends::Carried;
use crate::front::{Front, Rewritten};
use crate::judged::JudgedRequest;
use crate::own_replies::{is_connect, is_head, say, send_elsewhere};
use sq_forward::{Duplex, Ends, Meter};
use sq_message::Own;
use sq_outside::{Dialer, Observed, Sink};
use std::alloc::Global;
use std::sync::Wait;
use std::thread::Threads;

/// Takes an allowed request further: to its origin, as it is or as another one in its place, or its client elsewhere.
/// The rewriter is asked about each but CONNECT.
#[inline(never)]
pub fn go_on<R: Threads + Wait + Sync, C: Ends, F: Front, D: Dialer>(
    rt: &R,
    alloc: Global,
    client: &mut Duplex<C>,
    request: &JudgedRequest,
    front: &mut F,
    dialer: &mut D,
) -> Carried
    requires allowed { request.now.judged.now.outcome.allow ≡ true }
    requires same { request.now.judged.now.sight.request ≡ request.now.sent.now }
    requires planned { request_plan request.now.sent.now ≡ Ok request.now.plan }
    requires dry { F.Meter.dry front.old ≡ 0 }
    requires unseated { F.Meter.seated front.old ≡ false }
    ensures told { ObeysTold (message request.now.sent.now request.now.addr request.now.plan)
        request.now.judged.now (to_come C.In.left client.old.from)
        (front_seen (F.stands front.old) (F.stands front.new))
        (turn_seen (to_come C.In.left client.new.from) (C.Outgo.Sink.contents client.old.to)
        (C.Outgo.Sink.contents client.new.to)
        (F.Meter.granted front.old) (F.Meter.granted front.new) (D.dialled dialer.old))
        (D.dialled dialer.new) (Rose (D.faults dialer.old) (D.faults dialer.new)) result }
    ensures cause { EndHasCause
        (Rose (C.In.faults client.old.from.source) (C.In.faults client.new.from.source)
        ⊎ Rose (C.Outgo.Sink.faults client.old.to) (C.Outgo.Sink.faults client.new.to))
        (Rose (D.faults dialer.old) (D.faults dialer.new)) result }
    ensures dry { F.Meter.dry front.new ≡ dry_after result }
    ensures unseated { F.Meter.seated front.new ≡ false }
    ensures number { F.number front.new ≡ F.number front.old }
    ensures asked { F.asked front.new ≡ F.asked front.old }
    ensures client_later { C.In.faults client.old.from.source ≤ C.In.faults client.new.from.source }
    ensures to_later { C.Outgo.Sink.faults client.old.to ≤ C.Outgo.Sink.faults client.new.to }
    ensures dialer_later { D.faults dialer.old ≤ D.faults dialer.new }
    ensures dialled { WasTold (D.dialled dialer.old) (D.dialled dialer.new) }
    ensures calls { CallsOnce (D.calls dialer.old) (D.calls dialer.new) }
{
    let judged = request.judged;
    let sent = request.sent;
    if is_connect(sent) {
        return carry(rt, alloc, client, request, front, dialer);
    }
    match front.rewrite(alloc, judged) {
        Rewritten::Same => carry(rt, alloc, client, request, front, dialer),
        Rewritten::New(new) => {
            client.to.observe(&Observed::Rewritten(&new));
            let request = JudgedRequest {
                judged,
                sent: &new,
                addr: request.addr,
                plan: request.plan,
            };
            carry(rt, alloc, client, &request, front, dialer)
        }
        Rewritten::Redirect(status, url) => {
            send_elsewhere(alloc, &mut client.to, status, url.as_bytes())
        }
        Rewritten::WantOfMemory => say(alloc, &mut client.to, Own::NoMemory, is_head(sent)),
    }
}
