//! What a pump counts of its keepers.
ghost use Rattle.std.specs.Prelude.{◌≡◌, ◌≤◌};
ghost use Rattle.sq_outside.specs.Causes.{count_limit, raised};

use crate::board::PlacedHalf;
use sq_outside::raised;

/// How many halves were given to keepers, and how often a keeper could not be had. Each count stays at 2^63 - 1.
#[derive(Drop)]
pub(crate) struct HalfCounts {
    given: u64,
    refused: u64,
    ghost given_capped: { given ≤ count_limit },
    ghost refused_capped: { refused ≤ count_limit },
}

impl HalfCounts {
    // Nothing happened yet.
    pub(crate) fn new() -> HalfCounts
        ensures given { result.given ≡ 0 }
        ensures refused { result.refused ≡ 0 }
    {
        HalfCounts {
            given: 0,
            refused: 0,
        }
    }

    // A half was given: it was put for a keeper, and was not handed back.
    pub(crate) fn give(&mut self, _placed: PlacedHalf)
        ensures given { self.new.given ≡ raised self.old.given }
        ensures refused { self.new.refused ≡ self.old.refused }
    {
        self.given = raised(self.given);
    }

    // A keeper could not be had.
    pub(crate) fn refuse(&mut self)
        ensures given { self.new.given ≡ self.old.given }
        ensures refused { self.new.refused ≡ raised self.old.refused }
    {
        self.refused = raised(self.refused);
    }
}
