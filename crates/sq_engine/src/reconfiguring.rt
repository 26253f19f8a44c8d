//! Another configuration.
ghost use Rattle.std.specs.Prelude.{◌≡◌, max, OnOk, OnErr};
ghost use Rattle.sq_machine.specs.declared.entries.Told.TheVariants as told;
ghost use Rattle.sq_model.specs.Answers.{reconfigure_answer};
ghost use Rattle.sq_model.specs.Changes.{after_reconfigured};
ghost use Rattle.sq_model.specs.States.{IsSame};
ghost use Rattle.sq_engine.specs.EngineViews.{state_of};
ghost use Rattle.sq_engine.specs.Promised.{IsPromisedNext};
ghost use Rattle.sq_engine.specs.Tellings.{IsTold};

use crate::current::Current;
use crate::engines::Engine;
use sq_base::{EpochNo, Moment, WantOfMemory};
use sq_machine::{EPOCH_LIMIT, LAST_NUMBER, Refusal, later};
use sq_urlmatch::Setup;
use std::alloc::Global;
use std::sync::Arc;

impl Engine {
    /// Another configuration is current, in an epoch of its own: its number. All memory is taken first.
    pub fn reconfigure(
        &mut self,
        alloc: Global,
        setup: Setup,
        now: Moment,
    ) -> Result<EpochNo, Refusal>
        ensures told { IsTold (λ n. told.Epoch n) (reconfigure_answer (state_of self.old)) result }
        ensures ok { OnOk result
            (IsSame (state_of self.new)
            (after_reconfigured setup (max now self.old.latest) (state_of self.old))) }
        ensures err { OnErr result (self.new ≡ self.old) }
        ensures checks { self.new.checks ≡ self.old.checks }
        ensures promised { IsPromisedNext (λ n. told.Epoch n) (state_of self.old)
            (max now self.old.latest) setup result (state_of self.new) }
    {
        // For the proof: what holds of epochs and homes.
        self.epochs.facts();
        let number = self.epochs.current().0 + 1;
        if number >= LAST_NUMBER {
            return Err(Refusal::Spent(number));
        }
        let busy = self.epochs.busy();
        if busy >= EPOCH_LIMIT as usize {
            return Err(Refusal::TooManyEpochs(EPOCH_LIMIT));
        }
        let config = match Arc::try_clone(setup.config()) {
            Ok(config) => config,
            Err(_) => return Err(Refusal::WantOfMemory),
        };
        let setup = match Current::make(alloc, setup) {
            Ok(setup) => setup,
            Err(WantOfMemory) => return Err(Refusal::WantOfMemory),
        };
        let epoch = match self.epochs.reconfigure(alloc, config, self.seed) {
            Ok(epoch) => epoch,
            Err(WantOfMemory) => return Err(Refusal::WantOfMemory),
        };
        self.setup = setup;
        self.latest = later(now, self.latest);
        Ok(epoch)
    }
}
