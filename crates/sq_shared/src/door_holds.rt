//! The holds of the listener's lock. Nothing is proved here of what lies under it but what its type keeps; each function
//! takes the lock, makes the one call of its name with the arguments that it was handed, and lets go.
ghost use Rattle.std.specs.Prelude.{◌≡◌, ◌+◌, ◌<◌};
ghost use Rattle.sq_outside.specs.Dials.{IsOpen};
ghost use Rattle.sq_outside.specs.World.{IfLink};
ghost use Rattle.sq_shared.specs.Doors.{ComesFrom};

use crate::door::Door;
use sq_outside::{Accepted, Listener};
use std::alloc::Global;
use std::sync::{Mutex, Wait};

/// Waits for the next link, which is one that the listener gave in some state of it. The lock is held until one comes.
#[tactic(auto, using(crate::proofs::DoorLaws::comes_from))]
#[inline(never)]
pub fn accept<R: Wait, L: Listener + Drop>(
    rt: &R,
    alloc: Global,
    door: &Mutex<Door<L>>,
) -> Accepted<L::In, L::Outgo>
    ensures link { IfLink result
        (λ from to addr port. ComesFrom L.coming addr port (L.In.left from)
        (L.Outgo.Sink.contents to)) }
    ensures open { IfLink result (λ from to addr port. IsOpen (L.Outgo.closed to)) }
    ensures fresh { IfLink result
        (λ from to addr port. (L.In.faults from ≡ 0) × (L.Outgo.Sink.faults to ≡ 0)) }
{
    door.lock(rt).next(alloc)
}

/// Whether the listener said that it failed. Where it waits for a link this is not known, and answered as no.
pub fn has_failed<L: Listener + Drop>(door: &Mutex<Door<L>>) -> bool {
    match door.try_lock() {
        Some(door) => door.has_failed(),
        None => false,
    }
}
