//! `MemDesk`: a desk in memory.
ghost use Rattle.std.specs.Prelude.{◌≡◌, ◌+◌, ◌<◌, ◌≤◌, [], ◌∷◌, true, Some};
ghost use Rattle.std.specs.Option.{option_copied};
ghost use Rattle.sq_keeper.specs.Handing.{Adds, taken};
ghost use Rattle.sq_outside.specs.Calls.{is_listed, next_call};
ghost use Rattle.sq_outside.specs.Causes.{Rose};

use crate::desk::{Handed, LineDesk, LineEnd};
use sq_base::{ProcNo, Text};
use sq_outside::Calls;
use std::alloc::Global;

/// A desk that keeps what it was handed, as long as there is memory for that. It wants so many lines,
/// and has no memory at the listed calls.
#[derive(Drop)]
pub struct MemDesk {
    alloc: Global,
    kept: Vec<Handed>,
    whole: bool,
    wants: u64,
    calls: Calls,
}

impl MemDesk {
    ghost use Rattle.sq_keeper.specs.Memory.{desk_handed, desk_refused, desk_wants, desk_lacks, desk_calls};

    /// A desk that was handed nothing. After `wants` lines it ends the reading at the next; it has no
    /// memory at the calls of `line` with these numbers, from 1.
    pub fn new(alloc: Global, wants: u64, lacks: Vec<u64>) -> MemDesk
        ensures handed { desk_handed result ≡ Some [] }
        ensures refused { desk_refused result ≡ 0 }
        ensures wants { desk_wants result ≡ wants }
        ensures lacks { desk_lacks result ≡ lacks.items }
        ensures calls { desk_calls result ≡ 0 }
    {
        MemDesk {
            alloc,
            kept: Vec::new(alloc),
            whole: true,
            wants,
            calls: Calls::new(lacks),
        }
    }

    /// What it was handed, unless memory was wanting to keep that.
    pub fn handed(&self) -> Option<&[Handed]>
        ensures { option_copied result ≡ desk_handed self.now }
    {
        if self.whole {
            Some(self.kept.as_slice())
        } else {
            None
        }
    }

    /// Counts a call of `line`. Answers whether it is listed as one that has no memory.
    fn lacks(&mut self) -> bool
        ensures listed { result ≡ is_listed (desk_lacks self.old) (desk_calls self.new) }
        ensures handed { desk_handed self.new ≡ desk_handed self.old }
        ensures calls { desk_calls self.new ≡ next_call (desk_calls self.old) }
        ensures refused { desk_refused self.old ≤ desk_refused self.new }
        ensures wants { desk_wants self.new ≡ desk_wants self.old }
        ensures list { desk_lacks self.new ≡ desk_lacks self.old }
    {
        self.calls.next().is_err()
    }

    fn keep(&mut self, what: Handed)
        ensures handed { Adds (desk_handed self.old) (desk_handed self.new) (what ∷ []) }
        ensures refused { desk_refused self.new ≡ desk_refused self.old }
        ensures wants { desk_wants self.new ≡ desk_wants self.old }
        ensures calls { desk_calls self.new ≡ desk_calls self.old }
        ensures lacks { desk_lacks self.new ≡ desk_lacks self.old }
    {
        if self.kept.push(what).is_err() {
            self.whole = false;
        }
    }
}

impl LineDesk for MemDesk {
    ghost use Rattle.sq_keeper.specs.Memory.{desk_handed, desk_refused, desk_wants, desk_lacks, desk_calls};

    ghost refused = { desk_refused };

    ghost handed = { desk_handed };

    ghost still = { λ d. tt };

    ghost further = { λ a b c x y. tt };

    fn line(&mut self, proc: ProcNo, bytes: &[u8]) -> LineEnd
        ensures handed { Adds (desk_handed self.old) (desk_handed self.new)
            (taken proc bytes.now result) }
        ensures later { desk_refused self.old ≤ desk_refused self.new }
        ensures refused { result ≡ LineEnd.End
            → Rose (desk_refused self.old) (desk_refused self.new) }
        ensures ends { result ≡ LineEnd.End → desk_wants self.old ≡ 0 }
        ensures ended { result ≡ LineEnd.End → desk_wants self.new ≡ desk_wants self.old }
        ensures goes { result ≡ LineEnd.Go → desk_wants self.old ≡ desk_wants self.new + 1 }
        ensures waits { result ≡ LineEnd.WantOfMemory → desk_wants self.new ≡ desk_wants self.old }
        ensures calls { desk_calls self.new ≡ next_call (desk_calls self.old) }
        ensures lacks { is_listed (desk_lacks self.old) (desk_calls self.new) ≡ true
            → result ≡ LineEnd.WantOfMemory }
        ensures list { desk_lacks self.new ≡ desk_lacks self.old }
    {
        if self.lacks() {
            return LineEnd::WantOfMemory;
        }
        let Ok(text) = Text::from_slice(self.alloc, bytes) else {
            return LineEnd::WantOfMemory;
        };
        self.keep(Handed::Line(proc, text));
        if self.wants == 0 {
            self.keep(Handed::Stop(proc));
            self.calls.raise();
            return LineEnd::End;
        }
        self.wants -= 1;
        LineEnd::Go
    }

    fn died(&mut self, proc: ProcNo)
        ensures handed { Adds (desk_handed self.old) (desk_handed self.new)
            (Handed.Died proc ∷ []) }
        ensures later { desk_refused self.old ≤ desk_refused self.new }
        ensures wants { desk_wants self.new ≡ desk_wants self.old }
        ensures calls { desk_calls self.new ≡ desk_calls self.old }
        ensures list { desk_lacks self.new ≡ desk_lacks self.old }
    {
        self.keep(Handed::Died(proc));
    }
}
