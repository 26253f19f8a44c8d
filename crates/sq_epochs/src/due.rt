//! `Due`: which classes of an epoch owe a send, and which a start.
ghost use Rattle.std.specs.Prelude.{◌≡◌, ◌<◌, ◌≤◌, ℕ, false, length, IfNone, IfSome};
ghost use Rattle.sq_epochs.specs.Sets.{IsLeast, is_in};
ghost use Rattle.sq_rules.specs.Limits.{most_classes};
ghost use Rattle.sq_epochs.specs.DueSets.{IsDueOf, IsMarked};

use crate::bit_set::BitSet;
use sq_class::Part;
use std::marker::Model;

/// Which classes of an epoch owe a send, and which a start.
#[derive(Drop)]
pub struct Due {
    sends: BitSet,
    starts: BitSet,
}

impl Model for Due {
    ghost use Rattle.sq_epochs.specs.DueSets.{DueState};

    ghost Value = { DueState };

    ghost view = { λ d. record { sends = d.sends; starts = d.starts } };
}

impl Due {
    /// What these parts owe.
    pub fn of(parts: &[Part]) -> Due
        requires { length parts.now ≤ most_classes }
        ensures { IsDueOf parts.now result }
    {
        let mut due = Due {
            sends: BitSet::none(),
            starts: BitSet::none(),
        };
        for (place, part) in parts.iter().enumerate() {
            due.mark(place as u32, part);
        }
        due
    }

    /// Notes what the class at this place owes, by its part.
    pub fn mark(&mut self, class: u32, part: &Part)
        requires { class < most_classes }
        ensures { IsMarked class part.now self.old self.new }
    {
        self.sends.set(class, part.send_due());
        self.starts.set(class, part.start_due());
    }

    /// The first class that owes a send.
    pub fn sender(&self) -> Option<u32>
        ensures first { IfSome result (IsLeast self.now.sends) }
        ensures none { IfNone result ((c : ℕ) → is_in c self.now.sends ≡ false) }
    {
        self.sends.first()
    }

    /// The first class that owes a start.
    pub fn starter(&self) -> Option<u32>
        ensures first { IfSome result (IsLeast self.now.starts) }
        ensures none { IfNone result ((c : ℕ) → is_in c self.now.starts ≡ false) }
    {
        self.starts.first()
    }
}
