//! How starts of processes end.
ghost use Rattle.std.specs.Prelude.{◌+◌, max};
ghost use Rattle.sq_machine.specs.declared.entries.Event.TheVariants as event;
ghost use Rattle.sq_machine.specs.declared.entries.Told.TheVariants as told;
ghost use Rattle.sq_model.specs.Answers.{failed_answer, name_in, started_answer};
ghost use Rattle.sq_model.specs.Changes.{after_failed_at, after_started_at};
ghost use Rattle.sq_engine.specs.EngineViews.{state_of};
ghost use Rattle.sq_notes.specs.Calling.{Leaves, Makes, desk_of, load_of};

use crate::notes::Notes;
use sq_base::{EpochNo, Moment, ProcNo, WantOfMemory};
use sq_calls::DeskFault;
use sq_engine::Engine;
use sq_journal::Journal;
use sq_machine::{Entry, Event, Told, later};
use std::alloc::Global;

/// A process was started, and a place is made for its death.
pub fn started<J: Journal>(
    engine: &mut Engine,
    notes: &mut Notes<J>,
    alloc: Global,
    epoch: EpochNo,
    class: u32,
    now: Moment,
) -> Result<ProcNo, DeskFault>
    ensures makes { Makes told.Proc
        (started_answer (state_of engine.old) (record { epoch = epoch; class = class }))
        (max now engine.old.latest)
        (event.Started epoch (name_in (state_of engine.old)
        (record { epoch = epoch; class = class })))
        (after_started_at (record { epoch = epoch; class = class }) (max now engine.old.latest)
        (state_of engine.old)) (desk_of engine.old notes.old) result
        (desk_of engine.new notes.new) }
    ensures leaves { Leaves (load_of engine.old + 2) notes.old result notes.new }
{
    let moment = later(now, engine.latest());
    match notes.ready(engine.load(), 2) {
        Ok(()) => {}
        Err(fault) => return Err(fault),
    }
    let name = match engine.name_told(alloc, epoch, class) {
        Ok(name) => name,
        Err(WantOfMemory) => return Err(DeskFault::WantOfMemory),
    };
    let proc = match engine.started(alloc, epoch, class, now) {
        Ok(proc) => proc,
        Err(refusal) => return Err(notes.refuse(refusal)),
    };
    let entry = Entry {
        moment,
        event: Event::Started { epoch, class: name },
        answer: Told::Proc(proc),
    };
    match notes.note(entry) {
        Ok(()) => Ok(proc),
        Err(fault) => Err(fault),
    }
}

/// A start of a class failed.
pub fn start_failed<J: Journal>(
    engine: &mut Engine,
    notes: &mut Notes<J>,
    alloc: Global,
    epoch: EpochNo,
    class: u32,
    now: Moment,
) -> Result<(), DeskFault>
    ensures makes { Makes (λ _. told.Fine)
        (failed_answer (state_of engine.old) (record { epoch = epoch; class = class }))
        (max now engine.old.latest)
        (event.StartFail epoch (name_in (state_of engine.old)
        (record { epoch = epoch; class = class })))
        (after_failed_at (record { epoch = epoch; class = class }) (max now engine.old.latest)
        (state_of engine.old)) (desk_of engine.old notes.old) result
        (desk_of engine.new notes.new) }
    ensures leaves { Leaves (load_of engine.old + 1) notes.old result notes.new }
{
    let moment = later(now, engine.latest());
    match notes.ready(engine.load(), 1) {
        Ok(()) => {}
        Err(fault) => return Err(fault),
    }
    let name = match engine.name_told(alloc, epoch, class) {
        Ok(name) => name,
        Err(WantOfMemory) => return Err(DeskFault::WantOfMemory),
    };
    match engine.start_failed(epoch, class, now) {
        Ok(()) => {}
        Err(refusal) => return Err(notes.refuse(refusal)),
    }
    let entry = Entry {
        moment,
        event: Event::StartFail { epoch, class: name },
        answer: Told::Fine,
    };
    notes.note(entry)
}
