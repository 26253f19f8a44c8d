//! Lost questions are handed out.
ghost use Rattle.std.specs.Prelude.{◌≡◌, true, map, is_some, Some};
ghost use Rattle.sq_machine.specs.Rising.{Rises};
ghost use Rattle.sq_class.specs.Parts.{PartState};
ghost use Rattle.sq_checks.specs.OpenChecks.{rows_of};
ghost use Rattle.sq_epochs.specs.EpochStates.{IsChanged, part_at};
ghost use Rattle.sq_engine.specs.Handing.{AreListed, HasHandedOut, all_lost};

use sq_base::{EpochNo, Moment};
use sq_checks::OpenChecks;
use sq_epochs::Epochs;

// Gives the checks that wait for lost questions of this class the fault by which each was lost. It takes no memory.
pub(crate) fn hand_out(
    epochs: &mut Epochs,
    checks: &mut OpenChecks,
    epoch: EpochNo,
    class: u32,
    now: Moment,
)
    requires there { is_some (part_at epochs.old epoch class) ≡ true }
    requires listed { (p : PartState) → part_at epochs.old epoch class ≡ Some p
        → AreListed p checks.old }
    ensures rise { Rises (map (λ h. h.number) (rows_of checks.old)) }
    ensures part { IsChanged epoch class HasHandedOut epochs.old epochs.new }
    ensures checks { (p : PartState) → part_at epochs.old epoch class ≡ Some p
        → checks.new ≡ all_lost p.row.stock.losses now checks.old }
{
    // For the proof: the numbers of the checks rise.
    let _checks = checks.len();
    while let Some(lost) = epochs.next_lost(epoch, class) {
        checks.fault(lost.question, &lost.checks, lost.cause, now);
    }
}
