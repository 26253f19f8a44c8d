//! A question about a request, to its end.
ghost use Rattle.std.specs.Prelude.{◌≡◌, ℕ, ◌≤◌};
ghost use Rattle.sq_outside.specs.Causes.{raised};
ghost use Rattle.sq_turns.specs.Fronts.{Decides, Asks, DecideRefuses};
ghost use Rattle.sq_turns.specs.declared.front.Decided.TheVariants as decided;
ghost use Rattle.sq_turns.specs.Hubs.{HubRefuses, HubFails, DecideFails, decided_of};
ghost use Rattle.sq_turns.specs.Judging.{Finishes, Judges};
ghost use Rattle.sq_turns.specs.Tellings.{Tells};

use crate::front::Decided;
use crate::hub::{Hub, HubFault};
use crate::same::same_request;
use sq_base::{CheckNo, ConnNo, Copying, Request, WantOfMemory};
use sq_checks::Record;
use sq_machine::Refusal;
use sq_model::Stepped;
use std::alloc::Global;
use std::sync::Wait;

/// Asks about a request of this connection, and waits until its check is over.
#[inline(never)]
pub(crate) fn judge<R: Wait, H: Hub>(
    rt: &R,
    alloc: Global,
    hub: &mut H,
    conn: ConnNo,
    request: &Request,
) -> Decided
    ensures told { Tells (Judges conn request.now result) (H.told hub.old) (H.told hub.new) }
    ensures record { Decides request.now result }
    ensures asked { Asks (H.asked hub.old) (H.asked hub.new) result }
    ensures refused { DecideRefuses (H.refused hub.old) (H.refused hub.new) result }
    ensures failed { DecideFails (H.faults hub.old) (H.faults hub.new) result }
    ensures asked_later { H.asked hub.old ≤ H.asked hub.new }
    ensures refused_later { H.refused hub.old ≤ H.refused hub.new }
    ensures granted { H.granted hub.new ≡ H.granted hub.old }
{
    let Ok(copy) = request.copy(alloc) else {
        return Decided::WantOfMemory;
    };
    let check = match hub.ask(alloc, conn, copy) {
        Ok(check) => check,
        Err(fault) => return decided_of(fault),
    };
    match finish(rt, alloc, hub, check) {
        Ok(judged) => compared(alloc, judged, request),
        Err(fault) => decided_of(fault),
    }
}

// Steps a check until it is done, and takes its record.
#[inline(never)]
fn finish<R: Wait, H: Hub>(
    rt: &R,
    alloc: Global,
    hub: &mut H,
    check: CheckNo,
) -> Result<Record, HubFault>
    ensures told { Tells (Finishes check result) (H.told hub.old) (H.told hub.new) }
    ensures refused { HubRefuses (H.refused hub.old) (H.refused hub.new) result }
    ensures failed { HubFails (H.faults hub.old) (H.faults hub.new) result }
    ensures asked { H.asked hub.new ≡ H.asked hub.old }
    ensures refused_later { H.refused hub.old ≤ H.refused hub.new }
    ensures granted { H.granted hub.new ≡ H.granted hub.old }
{
    for _ in rt.forever() {
        match hub.step(alloc, check) {
            Ok(Stepped::Done) => return hub.take(alloc, check),
            Ok(Stepped::Took(_)) => {}
            Ok(Stepped::Waits(_)) => hub.wait(),
            Err(fault) => return Err(fault),
        }
    }
    unreachable!()
}

// What a question comes to that the hub did not take to its end.
fn decided_of(fault: HubFault) -> Decided
    ensures { result ≡ decided_of fault }
{
    match fault {
        HubFault::Refused(Refusal::WantOfMemory) => Decided::WantOfMemory,
        HubFault::Refused(why) => Decided::Refused(why),
        HubFault::JournalFault => Decided::JournalFault,
        HubFault::WantOfMemory => Decided::WantOfMemory,
    }
}

// A record, where it is of this request.
#[inline(never)]
fn compared(alloc: Global, judged: Record, request: &Request) -> Decided
    ensures same { judged.sight.request ≡ request.now → result ≡ decided.Record judged }
    ensures record { Decides request.now result }
    ensures asked { (before : ℕ) → Asks before (raised before) result }
    ensures quiet { (before now : ℕ) → DecideRefuses before now result }
    ensures unfailed { (before now : ℕ) → DecideFails before now result }
{
    if same_request(&judged.sight().request, request) {
        return Decided::Record(judged);
    }
    match judged.sight().request.copy(alloc) {
        Ok(other) => Decided::Mismatch { judged: other },
        Err(WantOfMemory) => Decided::WantOfMemory,
    }
}
