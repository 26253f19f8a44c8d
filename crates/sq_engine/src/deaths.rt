//! Processes end.
ghost use Rattle.std.specs.Prelude.{◌≡◌, max, false, Some, OnOk, OnErr};
ghost use Rattle.sq_base.specs.declared.helpers.Cause.TheVariants as cause;
ghost use Rattle.sq_machine.specs.DueActs.{ClassId};
ghost use Rattle.sq_machine.specs.declared.entries.Event.TheVariants as event;
ghost use Rattle.sq_machine.specs.declared.entries.Told.TheVariants as told;
ghost use Rattle.sq_epochs.specs.EpochStates.{home_at};
ghost use Rattle.sq_model.specs.Answers.{died_answer};
ghost use Rattle.sq_model.specs.Changes.{after_end_at};
ghost use Rattle.sq_model.specs.States.{IsSame};
ghost use Rattle.sq_engine.specs.Begun.{AreKept};
ghost use Rattle.sq_engine.specs.EngineViews.{state_of};
ghost use Rattle.sq_engine.specs.Promised.{IsPromised};
ghost use Rattle.sq_engine.specs.Tellings.{IsAlwaysTold};

use crate::engines::Engine;
use crate::handing::hand_out;
use sq_base::{Cause, EpochNo, Moment, ProcNo};
use sq_machine::{Refusal, later};

impl Engine {
    // A living process of this class ends, by this cause; where it ends by a line, its stop is due. It takes no memory.
    pub(crate) fn end(
        &mut self,
        epoch: EpochNo,
        class: u32,
        proc: ProcNo,
        cause: Cause,
        by_line: bool,
        moment: Moment,
    )
        requires { home_at self.old.epochs proc ≡ Some (record { epoch = epoch; class = class }) }
        ensures same { IsSame (state_of self.new)
            (after_end_at (record { epoch = epoch; class = class }) proc cause by_line moment
            (state_of self.old)) }
        ensures kept { AreKept self.old.checks self.new.checks }
    {
        self.epochs.end(proc, cause, by_line);
        hand_out(&mut self.epochs, &mut self.checks, epoch, class, moment);
        self.latest = moment;
    }

    /// A process died. It takes no memory.
    pub fn died(&mut self, proc: ProcNo, now: Moment) -> Result<(), Refusal>
        ensures told { IsAlwaysTold (λ _. told.Fine) (died_answer (state_of self.old) proc) result }
        ensures ok { OnOk result
            ((p : ClassId) → home_at self.old.epochs proc ≡ Some p
            → IsSame (state_of self.new)
            (after_end_at p proc cause.Died false (max now self.old.latest) (state_of self.old))) }
        ensures err { OnErr result (self.new ≡ self.old) }
        ensures kept { AreKept self.old.checks self.new.checks }
        ensures promised { IsPromised (λ _. told.Fine) (state_of self.old) (max now self.old.latest)
            (event.Died proc) result (state_of self.new) }
    {
        let Some(home) = self.epochs.home(proc) else {
            return Err(Refusal::UnknownProc(proc));
        };
        let epoch = home.epoch;
        let class = home.class;
        let moment = later(now, self.latest);
        self.end(epoch, class, proc, Cause::Died, false, moment);
        Ok(())
    }
}
