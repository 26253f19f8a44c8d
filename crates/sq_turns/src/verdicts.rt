//! The verdict on a request, before it goes on.
ghost use Rattle.std.specs.Prelude.{◌≡◌, ◌≤◌};
ghost use Rattle.sq_turns.specs.Steps.{front_seen};
ghost use Rattle.sq_turns.specs.Verdicts.{Settles, plan_of, record_of};

use crate::beginning::fits_hosts;
use crate::front::{Decided, Front};
use crate::own_replies::body_own;
use sq_base::{BodyPlan, Request};
use sq_checks::Record;
use sq_forward::Meter;
use sq_message::{Own, request_plan};
use std::alloc::Global;

/// Asks about a request whose body can be read: the record of its check, and its body's plan; or the reply that
/// its client gets instead.
#[inline(never)]
pub fn verdict<F: Front>(
    alloc: Global,
    request: &Request,
    front: &mut F,
) -> Result<(Record, BodyPlan), Own>
    ensures settles { Settles request.now (front_seen (F.stands front.old) (F.stands front.new))
        result }
    ensures number { F.number front.new ≡ F.number front.old }
    ensures asked { F.asked front.old ≤ F.asked front.new }
    ensures seated { F.Meter.seated front.new ≡ F.Meter.seated front.old }
    ensures granted { F.Meter.granted front.new ≡ F.Meter.granted front.old }
    ensures dry { F.Meter.dry front.new ≡ F.Meter.dry front.old }
{
    let plan = match plan_of(request) {
        Ok(plan) => plan,
        Err(own) => return Err(own),
    };
    match record_of(front.decide(alloc, request)) {
        Ok(judged) => Ok((judged, plan)),
        Err(own) => Err(own),
    }
}

// The plan of a request's body, or the reply to a request that the front is not asked about.
fn plan_of(request: &Request) -> Result<BodyPlan, Own>
    ensures { result ≡ plan_of request.now }
{
    if !fits_hosts(request) {
        return Err(Own::BadRequest);
    }
    match request_plan(request) {
        Ok(plan) => Ok(plan),
        Err(bad) => Err(body_own(bad)),
    }
}

// The record of a check, or the reply to a request that has none.
fn record_of(decided: Decided) -> Result<Record, Own>
    ensures { result ≡ record_of decided }
{
    match decided {
        Decided::Record(judged) => Ok(judged),
        Decided::Mismatch { judged: _ } => Err(Own::Inner),
        Decided::Refused(_) => Err(Own::Inner),
        Decided::JournalFault => Err(Own::Stopped),
        Decided::WantOfMemory => Err(Own::NoMemory),
    }
}
