//! The checks that wait for one question.
ghost use Rattle.std.specs.Prelude.{◌≡◌, ◌==◌, ◌||◌, ◌&&◌, ◌∷◌, [], ℕ, not, length, OnOk, OnErr, MatchOption};
ghost use Rattle.std.specs.Map.Iter.{ShowsInOrder, deref};
ghost use Rattle.sq_lookup.specs.Waits.{has_check};

use sq_base::{CheckNo, WantOfMemory};
use std::alloc::Global;
use std::collections::BTreeSet;
use std::collections::btree_set::Iter;
use std::marker::Model;

/// Checks, each once. A contract sees their numbers in ascending order.
pub struct Checks {
    numbers: BTreeSet<CheckNo>,
}

impl Drop for Checks {
    fn drop(self) {
        let Checks { numbers: _ } = self;
    }
}

impl Model for Checks {
    ghost use Rattle.std.specs.Prelude.{List, ℕ};

    ghost Value = { List ℕ };

    ghost view = { λ c. c.numbers.keys };
}

impl Checks {
    /// No checks. It takes no memory.
    pub fn new(alloc: Global) -> Checks
        ensures { result ≡ [] }
    {
        Checks {
            numbers: BTreeSet::new(alloc),
        }
    }

    /// How many checks there are.
    pub fn len(&self) -> usize
        ensures { result ≡ length self.now }
    {
        self.numbers.len()
    }

    /// Whether there is none.
    pub fn is_empty(&self) -> bool
        ensures { result ≡ (length self.now == 0) }
    {
        self.numbers.is_empty()
    }

    /// Whether a check is among them.
    pub fn has(&self, check: CheckNo) -> bool
        ensures { result ≡ has_check check self.now }
    {
        self.numbers.contains(&check)
    }

    /// The checks, lent in ascending order.
    pub fn iter(&self) -> Iter<'_, CheckNo>
        ensures rest { result ≡ self.now }
        ensures runs { ShowsInOrder (deref {X = CheckNo}) }
    {
        self.numbers.iter()
    }

    // Puts a check in. Where it is there already nothing changes.
    pub(crate) fn add(&mut self, check: CheckNo) -> Result<(), WantOfMemory>
        ensures ok { OnOk result
            ((n : ℕ) → has_check n self.new ≡ (n == check || has_check n self.old)) }
        ensures err { OnErr result (self.new ≡ self.old) }
    {
        let _is_new = self.numbers.insert(check)?;
        Ok(())
    }

    // Takes a check out, where it is there. It takes no memory.
    pub(crate) fn remove(&mut self, check: CheckNo)
        ensures { (n : ℕ) → has_check n self.new ≡ (not (n == check) && has_check n self.old) }
    {
        let _was_there = self.numbers.remove(&check);
    }

    /// Takes the first check out. It takes no memory.
    pub fn pop_first(&mut self) -> Option<CheckNo>
        ensures { MatchOption result (self.old ≡ []) (λ n. self.old ≡ n ∷ self.new) }
    {
        self.numbers.pop_first()
    }
}
