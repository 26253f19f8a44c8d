//! What a pump counts of its keepers.
ghost use Rattle.std.specs.Prelude.{◌≡◌, ◌≤◌};
ghost use Rattle.sq_outside.specs.Causes.{count_limit, raised};

use crate::board::PlacedTask;
use sq_outside::raised;

/// How many halves were given to keepers, and how often a keeper could not be had. Each count stays at 2^63 - 1.
#[derive(Drop)]
pub(crate) struct KeeperCounts {
    given: u64,
    unhad: u64,
    ghost given_capped: { given ≤ count_limit },
    ghost unhad_capped: { unhad ≤ count_limit },
}

impl KeeperCounts {
    // Nothing happened yet.
    pub(crate) fn new() -> KeeperCounts
        ensures given { result.given ≡ 0 }
        ensures unhad { result.unhad ≡ 0 }
    {
        KeeperCounts { given: 0, unhad: 0 }
    }

    // A half was given: it was put for a keeper, and was not handed back.
    pub(crate) fn give(&mut self, _placed: PlacedTask)
        ensures given { self.new.given ≡ raised self.old.given }
        ensures unhad { self.new.unhad ≡ self.old.unhad }
    {
        self.given = raised(self.given);
    }

    // A keeper could not be had.
    pub(crate) fn refuse(&mut self)
        ensures given { self.new.given ≡ self.old.given }
        ensures unhad { self.new.unhad ≡ raised self.old.unhad }
    {
        self.unhad = raised(self.unhad);
    }
}
