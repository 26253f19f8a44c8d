//! The facts of a check: whether each leaf acl holds, read once when the check begins.
ghost use Rattle.std.specs.Prelude.{◌≡◌, ◌+◌, ◌<◌, false, length, slice_index_or};

use sq_base::Steps;
use std::marker::Model;
use std::sync::ledger::Ledger;

/// One truth value for each acl, by its place. That of an acl that is no leaf says nothing. A contract
/// sees their list.
pub struct Facts {
    values: Vec<bool>,
}

impl Drop for Facts {
    fn drop(self) {
        let Facts { values: _ } = self;
    }
}

impl Model for Facts {
    ghost use Rattle.std.specs.Prelude.{List, Bool};

    ghost Value = { List Bool };

    ghost view = { λ f. f.values.items };
}

impl Facts {
    /// The facts of a vector, by the places of the acls, taken over without memory.
    pub fn from_vec(values: Vec<bool>) -> Facts
        ensures { result ≡ values.items }
    {
        Facts { values }
    }

    /// Whether the acl at a place holds. Nothing else reads a fact, and each look is one step of the
    /// counter. It takes no memory.
    pub fn look<L: Ledger>(&self, acl: u32, steps: &mut Steps<L>) -> bool
        requires { acl < length self.now }
        ensures fact { result ≡ slice_index_or self.now acl false }
        ensures step { steps.new ≡ steps.old + 1 }
    {
        steps.tick();
        self.values[acl as usize]
    }
}
