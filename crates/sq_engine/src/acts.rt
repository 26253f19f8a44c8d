//! What is to be done next.
ghost use Rattle.std.specs.Prelude.{◌≡◌, max, IfNone, IfOk, IfSome};
ghost use Rattle.sq_epochs.specs.DueStates.{told_due};
ghost use Rattle.sq_model.specs.Acts.{due_in};
ghost use Rattle.sq_model.specs.States.{IsSame};
ghost use Rattle.sq_engine.specs.Acting.{IsActPromised, after_act, due_now};
ghost use Rattle.sq_engine.specs.EngineViews.{state_of};

use crate::engines::Engine;
use sq_base::{Moment, WantOfMemory};
use sq_machine::{Act, later};
use std::alloc::Global;

impl Engine {
    /// The next act that is due, which counts as made with this call. Where none is, nothing changes, the greatest
    /// moment neither. It takes no memory.
    pub fn act(&mut self, now: Moment) -> Option<Act>
        ensures act { result ≡ told_due (due_now self.old) }
        ensures state { due_now self.old ≡ due_in (state_of self.old) }
        ensures some { IfSome result
            (λ a. IsSame (state_of self.new)
            (after_act (due_now self.old) (max now self.old.latest) (state_of self.old))) }
        ensures none { IfNone result (self.new ≡ self.old) }
        ensures checks { self.new.checks ≡ self.old.checks }
        ensures promised { IsActPromised (state_of self.old) (max now self.old.latest) result
            (state_of self.new) }
    {
        // For the proof: what holds of live epochs.
        self.epochs.facts();
        let Some(act) = self.epochs.act() else {
            return None;
        };
        self.latest = later(now, self.latest);
        Some(act)
    }

    /// A copy of what `act` would answer. Nothing changes.
    pub fn due(&self, alloc: Global) -> Result<Option<Act>, WantOfMemory>
        ensures act { IfOk result (λ a. a ≡ told_due (due_now self.now)) }
        ensures state { due_now self.now ≡ due_in (state_of self.now) }
    {
        // For the proof: what holds of live epochs.
        self.epochs.facts();
        self.epochs.due(alloc)
    }
}
