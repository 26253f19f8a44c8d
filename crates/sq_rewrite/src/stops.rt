//! `RewriterStops`: the processes of which a stop is due.
ghost use Rattle.std.specs.Prelude.{◌≡◌, ◌∷◌, [], MatchOption, IfNone, OnOk, OnErr};
ghost use Rattle.std.specs.BTreeSet.{insert_key};
ghost use Rattle.std.specs.Ordering.{nat_cmp};

use sq_base::{ProcNo, WantOfMemory};
use std::alloc::Global;
use std::collections::BTreeSet;
use std::marker::Model;

/// Processes by number.
#[derive(Drop)]
pub struct RewriterStops {
    procs: BTreeSet<ProcNo>,
}

impl Model for RewriterStops {
    ghost use Rattle.std.specs.Prelude.{List, ℕ};

    ghost Value = { List ℕ };

    ghost view = { λ s. s.procs.keys };
}

impl RewriterStops {
    /// None. It takes no memory.
    pub fn new(alloc: Global) -> RewriterStops
        ensures { result ≡ [] }
    {
        RewriterStops {
            procs: BTreeSet::new(alloc),
        }
    }

    /// Puts a process to its place.
    pub fn put(&mut self, proc: ProcNo) -> Result<(), WantOfMemory>
        ensures ok { OnOk result (self.new ≡ insert_key nat_cmp self.old proc) }
        ensures err { OnErr result (self.new ≡ self.old) }
    {
        let _is_new = self.procs.insert(proc)?;
        Ok(())
    }

    /// Takes the least process out. It takes no memory.
    pub fn next(&mut self) -> Option<ProcNo>
        ensures least { MatchOption result (self.old ≡ []) (λ k. self.old ≡ k ∷ self.new) }
        ensures same { IfNone result (self.new ≡ self.old) }
    {
        self.procs.pop_first()
    }
}
