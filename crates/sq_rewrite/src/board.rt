//! What a rewriter's pump and its keepers share, as it lies behind its lock.
ghost use Rattle.std.specs.Prelude.{◌≡◌, ◌+◌, ◌-◌, ◌++◌, ◌∷◌, ◌<◌, ◌≤◌, [], vec_capacity, vec_len, IfSome, IfNone, IfOk, IfErr, OnOk, OnErr};
ghost use Rattle.sq_rewrite.specs.LineViews.{half_proc, placed_proc};

use crate::unread::UnreadHalf;
use sq_base::ProcNo;
use std::alloc::Global;

/// That the half of a process was put for a keeper, and was not handed back. Putting one alone makes it, and taking one back has it.
#[derive(Drop)]
pub(crate) struct PlacedHalf {
    proc: ProcNo,
}

/// The halves of processes that no keeper has taken up so far; how many keepers run or are to run; and the processes of those
/// that have ended, until the pump has let go of these. There is room for the end of each keeper.
#[derive(Drop)]
pub(crate) struct RewriterBoard<P> {
    halves: Vec<UnreadHalf<P>>,
    keepers: usize,
    ends: Vec<ProcNo>,
    ghost fits: { keepers + vec_len ends ≤ vec_capacity ends },
}

impl<P: Drop> RewriterBoard<P> {
    // Nothing lies there yet.
    pub(crate) fn new(alloc: Global) -> RewriterBoard<P>
        ensures halves { result.halves.items ≡ [] }
        ensures keepers { result.keepers ≡ 0 }
        ensures ends { result.ends.items ≡ [] }
    {
        RewriterBoard {
            halves: Vec::new(alloc),
            keepers: 0,
            ends: Vec::new(alloc),
        }
    }

    // Puts a half for a keeper, which is handed back where memory is wanting.
    pub(crate) fn put(&mut self, half: UnreadHalf<P>) -> Result<PlacedHalf, UnreadHalf<P>>
        ensures placed { IfOk result (λ placed. placed_proc placed ≡ half_proc half) }
        ensures back { IfErr result (λ back. back ≡ half) }
        ensures halves { OnOk result
            (self.new.halves.items ≡ self.old.halves.items ++ half ∷ []) }
        ensures keepers { OnOk result (self.new.keepers ≡ self.old.keepers + 1) }
        ensures err_halves { OnErr result (self.new.halves.items ≡ self.old.halves.items) }
        ensures err_keepers { OnErr result (self.new.keepers ≡ self.old.keepers) }
        ensures ends { self.new.ends.items ≡ self.old.ends.items }
    {
        let Some(more) = self.keepers.checked_add(1) else {
            return Err(half);
        };
        if self.halves.reserve(1).is_err() || self.ends.reserve(more).is_err() {
            return Err(half);
        }
        let proc = half.proc();
        self.halves.push_reserved(half);
        self.keepers = more;
        Ok(PlacedHalf { proc })
    }

    // The half that was put last, for a keeper.
    pub(crate) fn take(&mut self) -> Option<UnreadHalf<P>>
        ensures some { IfSome result
            (λ half. self.old.halves.items ≡ self.new.halves.items ++ half ∷ []) }
        ensures none { IfNone result (self.old.halves.items ≡ []) }
        ensures keepers { self.new.keepers ≡ self.old.keepers }
        ensures ends { self.new.ends.items ≡ self.old.ends.items }
    {
        self.halves.pop()
    }

    // The half that was put last, for the pump, in the place of one that was put: its keeper is not to run. Where none is left, what
    // was put stays so.
    pub(crate) fn take_back(&mut self, placed: PlacedHalf) -> Result<UnreadHalf<P>, PlacedHalf>
        ensures ok { IfOk result
            (λ half. self.old.halves.items ≡ self.new.halves.items ++ half ∷ []) }
        ensures err { OnErr result (self.old.halves.items ≡ []) }
        ensures placed { IfErr result (λ still. still ≡ placed) }
        ensures keepers { OnOk result (self.new.keepers ≡ self.old.keepers - 1) }
        ensures err_keepers { OnErr result (self.new.keepers ≡ self.old.keepers) }
        ensures ends { self.new.ends.items ≡ self.old.ends.items }
    {
        match self.halves.pop() {
            None => Err(placed),
            Some(half) => {
                self.keepers = self.keepers.saturating_sub(1);
                Ok(half)
            }
        }
    }

    // The keeper of this half has ended. It takes no memory.
    pub(crate) fn end(&mut self, half: &UnreadHalf<P>)
        ensures ends { 0 < self.old.keepers
            → self.new.ends.items ≡ self.old.ends.items ++ half_proc half.now ∷ [] }
        ensures keepers { self.new.keepers ≡ self.old.keepers - 1 }
        ensures halves { self.new.halves ≡ self.old.halves }
    {
        if self.keepers > 0 {
            self.keepers -= 1;
            self.ends.push_reserved(half.proc());
        }
    }

    // The process whose keeper has ended last, which is forgotten.
    pub(crate) fn ended(&mut self) -> Option<ProcNo>
        ensures some { IfSome result
            (λ proc. self.old.ends.items ≡ self.new.ends.items ++ proc ∷ []) }
        ensures none { IfNone result (self.old.ends.items ≡ []) }
        ensures keepers { self.new.keepers ≡ self.old.keepers }
        ensures halves { self.new.halves ≡ self.old.halves }
    {
        self.ends.pop()
    }
}
