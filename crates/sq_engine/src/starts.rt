//! How starts of processes end.
ghost use Rattle.std.specs.Prelude.{◌≡◌, max, true, OnOk, OnErr};
ghost use Rattle.sq_machine.specs.declared.entries.Event.TheVariants as event;
ghost use Rattle.sq_machine.specs.declared.entries.Told.TheVariants as told;
ghost use Rattle.sq_epochs.specs.EpochChanges.{HasFailed};
ghost use Rattle.sq_epochs.specs.EpochProcs.{has_start};
ghost use Rattle.sq_epochs.specs.EpochStates.{IsChanged};
ghost use Rattle.sq_model.specs.Answers.{failed_answer, started_answer};
ghost use Rattle.sq_model.specs.Changes.{after_failed_at, after_started_at};
ghost use Rattle.sq_model.specs.States.{IsSame};
ghost use Rattle.sq_engine.specs.Begun.{AreKept};
ghost use Rattle.sq_engine.specs.EngineViews.{state_of};
ghost use Rattle.sq_engine.specs.Promised.{IsPromisedAt};
ghost use Rattle.sq_engine.specs.Tellings.{IsAlwaysTold, IsTold};

use crate::engines::Engine;
use crate::handing::hand_out;
use sq_base::{EpochNo, Moment, ProcNo};
use sq_epochs::{Epochs, StartedFault};
use sq_machine::{Refusal, later};
use std::alloc::Global;

// A start of this class, of which one is open, failed.
fn fail(epochs: &mut Epochs, epoch: EpochNo, class: u32)
    requires { has_start epochs.old epoch class ≡ true }
    ensures { IsChanged epoch class HasFailed epochs.old epochs.new }
{
    match epochs.start_failed(epoch, class) {
        Ok(()) => {}
        Err(_) => unreachable!(),
    }
}

impl Engine {
    /// A process was started for an open start of a class: its number. Where no start is open, the caller stops the
    /// process itself.
    pub fn started(
        &mut self,
        alloc: Global,
        epoch: EpochNo,
        class: u32,
        now: Moment,
    ) -> Result<ProcNo, Refusal>
        ensures told { IsTold told.Proc
            (started_answer (state_of self.old) (record { epoch = epoch; class = class })) result }
        ensures ok { OnOk result
            (IsSame (state_of self.new)
            (after_started_at (record { epoch = epoch; class = class }) (max now self.old.latest)
            (state_of self.old))) }
        ensures err { OnErr result (self.new ≡ self.old) }
        ensures checks { self.new.checks ≡ self.old.checks }
        ensures promised { IsPromisedAt told.Proc (state_of self.old) (max now self.old.latest)
            event.Started (record { epoch = epoch; class = class }) result (state_of self.new) }
    {
        // For the proof: what holds of homes.
        self.epochs.facts();
        let proc = match self.epochs.started(alloc, epoch, class) {
            Ok(proc) => proc,
            Err(StartedFault::NoStartOpen) => return Err(Refusal::NoStartOpen(epoch, class)),
            Err(StartedFault::Spent) => return Err(Refusal::Spent(self.epochs.procs() + 1)),
            Err(StartedFault::WantOfMemory) => return Err(Refusal::WantOfMemory),
        };
        self.latest = later(now, self.latest);
        Ok(proc)
    }

    /// A start of a class failed. It takes no memory.
    pub fn start_failed(&mut self, epoch: EpochNo, class: u32, now: Moment) -> Result<(), Refusal>
        ensures told { IsAlwaysTold (λ _. told.Fine)
            (failed_answer (state_of self.old) (record { epoch = epoch; class = class })) result }
        ensures ok { OnOk result
            (IsSame (state_of self.new)
            (after_failed_at (record { epoch = epoch; class = class }) (max now self.old.latest)
            (state_of self.old))) }
        ensures err { OnErr result (self.new ≡ self.old) }
        ensures kept { AreKept self.old.checks self.new.checks }
        ensures promised { IsPromisedAt (λ _. told.Fine) (state_of self.old)
            (max now self.old.latest) event.StartFail (record { epoch = epoch; class = class })
            result (state_of self.new) }
    {
        if !self.epochs.has_start(epoch, class) {
            return Err(Refusal::NoStartOpen(epoch, class));
        }
        let moment = later(now, self.latest);
        fail(&mut self.epochs, epoch, class);
        hand_out(&mut self.epochs, &mut self.checks, epoch, class, moment);
        self.latest = moment;
        Ok(())
    }
}
