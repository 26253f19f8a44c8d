//! The seat of one connection: which one a record takes, what is granted on it, and that it is given back.
ghost use Rattle.std.specs.Prelude.{◌≡◌, ◌==◌, ◌<◌, ◌≤◌, false, is_some, Some, IfOk, IfSome};
ghost use Rattle.sq_forward.specs.Meters.{granted_after};
ghost use Rattle.sq_turns.specs.Fronts.{takes_seat};
ghost use Rattle.sq_turns.specs.Judging.{GrantsOn, Rises, Seats, emptied_on, unseated_of};
ghost use Rattle.sq_turns.specs.Tellings.{Tells};

use crate::front::SitFault;
use crate::hub::Hub;
use sq_checks::Record;
use sq_machine::SeatPlace;
use sq_pools::{ChooseFault, HeldSeat};
use std::alloc::Global;

/// Takes the seat of a record, if it takes one. It takes memory for a tag where its pool has buckets by tags.
#[inline(never)]
pub(crate) fn take_seat<H: Hub>(
    alloc: Global,
    hub: &mut H,
    judged: &Record,
) -> Result<Option<HeldSeat>, SitFault>
    ensures seats { Tells (Seats judged.now result) (H.told hub.old) (H.told hub.new) }
    ensures seated { IfOk result (λ s. is_some s ≡ takes_seat judged.now) }
    ensures asked { H.asked hub.new ≡ H.asked hub.old }
    ensures refused_later { H.refused hub.old ≤ H.refused hub.new }
    ensures granted { H.granted hub.new ≡ H.granted hub.old }
{
    let Ok(place) = judged.seat_place(alloc) else {
        return Err(SitFault::WantOfMemory);
    };
    let epoch = judged.epoch();
    match place {
        SeatPlace::Nowhere => Ok(None),
        SeatPlace::ByAddress(pool) => {
            let addr = judged.sight().addr;
            match hub.choose(alloc, epoch, judged.config(), pool, addr) {
                Ok(seat) => Ok(Some(HeldSeat::ByAddress(seat))),
                Err(fault) => Err(unseated_of(fault)),
            }
        }
        SeatPlace::ByTag(pool, tag) => {
            match hub.choose_tag(alloc, epoch, judged.config(), pool, &tag) {
                Ok(seat) => Ok(Some(HeldSeat::ByTag(seat))),
                Err(fault) => Err(unseated_of(fault)),
            }
        }
    }
}

// Why a front has no seat that the pools did not give.
fn unseated_of(fault: ChooseFault) -> SitFault
    ensures { result ≡ unseated_of fault }
{
    match fault {
        ChooseFault::Spent => SitFault::Spent,
        ChooseFault::WantOfMemory => SitFault::WantOfMemory,
    }
}

/// What the hub grants on a seat; without one all that is wanted. Where some is wanted it is nothing exactly where a
/// bucket of the seat is empty. It takes no memory.
#[tactic(auto, using(crate::proofs::SeatLaws::grant_empties))]
pub(crate) fn granted<H: Hub>(hub: &mut H, seat: &Option<HeldSeat>, wanted: u64) -> u64
    ensures told { Tells (GrantsOn seat.now wanted result) (H.told hub.old) (H.told hub.new) }
    ensures within { result ≤ wanted }
    ensures all { is_some seat.now ≡ false → result ≡ wanted }
    ensures empty { 0 < wanted
        → IfSome (emptied_on seat.now (H.told hub.old)) (λ e. (result == 0) ≡ e) }
    ensures granted { H.granted hub.new
        ≡ granted_after (is_some seat.now) (H.granted hub.old) result }
    ensures asked { H.asked hub.new ≡ H.asked hub.old }
    ensures refused { H.refused hub.new ≡ H.refused hub.old }
{
    match seat {
        Some(HeldSeat::ByAddress(seat)) => hub.grant(seat, wanted),
        Some(HeldSeat::ByTag(seat)) => hub.grant_tag(seat, wanted),
        None => wanted,
    }
}

/// Gives a seat back. It takes no memory.
pub(crate) fn give_back<H: Hub>(hub: &mut H, seat: HeldSeat)
    ensures rises { Tells (Rises (Some seat)) (H.told hub.old) (H.told hub.new) }
    ensures asked { H.asked hub.new ≡ H.asked hub.old }
    ensures refused_later { H.refused hub.old ≤ H.refused hub.new }
    ensures granted { H.granted hub.new ≡ H.granted hub.old }
{
    match seat {
        HeldSeat::ByAddress(seat) => hub.leave(seat),
        HeldSeat::ByTag(seat) => hub.leave_tag(seat),
    }
}
