//! Processes end.
ghost use Rattle.std.specs.Prelude.{◌≡◌, ◌<◌, IsErrOf, max, true, false, is_some};
ghost use Rattle.sq_calls.specs.declared.faults.DeskFault.TheVariants as fault;
ghost use Rattle.sq_epochs.specs.EpochStates.{home_at};
ghost use Rattle.sq_machine.specs.declared.entries.Event.TheVariants as event;
ghost use Rattle.sq_machine.specs.declared.entries.Told.TheVariants as told;
ghost use Rattle.sq_model.specs.Answers.{died_answer};
ghost use Rattle.sq_engine.specs.EngineViews.{state_of};
ghost use Rattle.sq_notes.specs.Calling.{Leaves, Makes, after_died, desk_of};

use crate::notes::Notes;
use sq_base::{Moment, ProcNo};
use sq_calls::DeskFault;
use sq_engine::Engine;
use sq_journal::Journal;
use sq_machine::{Entry, Event, Told, later};

/// A process died. The place is there.
pub fn died<J: Journal>(
    engine: &mut Engine,
    notes: &mut Notes<J>,
    proc: ProcNo,
    now: Moment,
) -> Result<(), DeskFault>
    requires { notes.old.stopped ≡ false → is_some (home_at engine.old.epochs proc) ≡ true
        → 0 < notes.old.spare }
    ensures makes { Makes (λ _. told.Fine) (died_answer (state_of engine.old) proc)
        (max now engine.old.latest) (event.Died proc)
        (after_died proc (max now engine.old.latest) (state_of engine.old))
        (desk_of engine.old notes.old) result (desk_of engine.new notes.new) }
    ensures leaves { Leaves notes.old.spare notes.old result notes.new }
    ensures memory { IsErrOf result fault.WantOfMemory → ⊥ }
{
    let moment = later(now, engine.latest());
    match notes.going() {
        Ok(()) => {}
        Err(fault) => return Err(fault),
    }
    match engine.died(proc, now) {
        Ok(()) => {}
        Err(refusal) => return Err(notes.refuse(refusal)),
    }
    let entry = Entry {
        moment,
        event: Event::Died { proc },
        answer: Told::Fine,
    };
    notes.note(entry)
}
