//! Whether a call may have made an act due, for which the pump is to be woken.
ghost use Rattle.std.specs.Prelude.{◌≡◌, IfSome, false, nat_lt};
ghost use Rattle.sq_shared.specs.Waking.{may_ask, oldest_after};

use sq_base::EpochNo;
use sq_calls::{DeskFault, TellsJournal};
use sq_model::Stepped;

/// Whether a step may have put a question, for a check or to refresh a kept answer.
pub(crate) fn may_ask(gave: &Result<Stepped, DeskFault>) -> bool
    ensures { result ≡ may_ask gave.now }
{
    match gave {
        Ok(Stepped::Took(_)) | Ok(Stepped::Waits(_)) => true,
        Ok(Stepped::Done) | Err(_) => false,
    }
}

/// The epochs that may live: where the last check of an older one goes, the stops of its processes are due.
#[derive(Clone, Copy)]
pub(crate) struct Older {
    oldest: EpochNo,
    current: EpochNo,
}

impl Older {
    // The first epoch lives alone.
    pub(crate) fn new() -> Older
        ensures oldest { result.oldest ≡ 1 }
        ensures current { result.current ≡ 1 }
    {
        Older {
            oldest: EpochNo(1),
            current: EpochNo(1),
        }
    }

    // Whether an epoch may live that is not current.
    pub(crate) fn may_live(&self) -> bool
        ensures { result ≡ nat_lt self.now.oldest self.now.current }
    {
        self.oldest.0 < self.current.0
    }

    // This epoch is current.
    pub(crate) fn begin(&mut self, epoch: EpochNo)
        ensures current { self.new.current ≡ epoch }
        ensures oldest { self.new.oldest ≡ self.old.oldest }
    {
        self.current = epoch;
    }

    // Lets go of the oldest epoch where it lives no more and is not current. A pump that finds nothing due calls it each time.
    pub(crate) fn forget<D: TellsJournal>(&mut self, desk: &D)
        ensures oldest { IfSome (D.configs desk.now self.old.oldest)
            (λ c. self.new.oldest ≡ oldest_after c self.old.oldest self.old.current) }
        ensures alone { nat_lt self.old.oldest self.old.current ≡ false
            → self.new.oldest ≡ self.old.oldest }
        ensures current { self.new.current ≡ self.old.current }
    {
        if self.oldest.0 < self.current.0 && !desk.lives(self.oldest) {
            self.oldest = EpochNo(self.oldest.0 + 1);
        }
    }
}
