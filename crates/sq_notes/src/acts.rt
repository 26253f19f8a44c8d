//! What is to be done next.
ghost use Rattle.std.specs.Prelude.{◌≡◌, ◌+◌, max, IfOk};
ghost use Rattle.sq_engine.specs.Acting.{IsActPromised};
ghost use Rattle.sq_engine.specs.EngineViews.{state_of};
ghost use Rattle.sq_notes.specs.Calling.{Acts, Leaves, desk_of, load_of, told_due};

use crate::notes::Notes;
use sq_base::{Moment, WantOfMemory};
use sq_calls::DeskFault;
use sq_engine::Engine;
use sq_journal::Journal;
use sq_machine::{Act, Entry, Event, Told, later};
use std::alloc::Global;

// The answer that tells of the act that is due, if one is.
fn told_next(alloc: Global, engine: &Engine) -> Result<Option<Told>, WantOfMemory>
    ensures { IfOk result (λ t. t ≡ told_due engine.now) }
{
    match engine.due(alloc) {
        Ok(Some(act)) => match engine.act_told(alloc, act) {
            Ok(told) => Ok(Some(told)),
            Err(WantOfMemory) => Err(WantOfMemory),
        },
        Ok(None) => Ok(None),
        Err(WantOfMemory) => Err(WantOfMemory),
    }
}

/// The next act that is due, which counts as made.
pub fn act<J: Journal>(
    engine: &mut Engine,
    notes: &mut Notes<J>,
    alloc: Global,
    now: Moment,
) -> Result<Option<Act>, DeskFault>
    ensures acts { Acts (max now engine.old.latest) (desk_of engine.old notes.old) result
        (desk_of engine.new notes.new) }
    ensures leaves { Leaves (load_of engine.old + 1) notes.old result notes.new }
    ensures promised { IfOk result
        (λ a. IsActPromised (state_of engine.old) (max now engine.old.latest) a
        (state_of engine.new)) }
{
    let moment = later(now, engine.latest());
    match notes.ready(engine.load(), 1) {
        Ok(()) => {}
        Err(fault) => return Err(fault),
    }
    let answer = match told_next(alloc, engine) {
        Ok(answer) => answer,
        Err(WantOfMemory) => return Err(DeskFault::WantOfMemory),
    };
    let Some(act) = engine.act(now) else {
        return Ok(None);
    };
    let Some(answer) = answer else {
        unreachable!();
    };
    let entry = Entry {
        moment,
        event: Event::Act,
        answer,
    };
    match notes.note(entry) {
        Ok(()) => Ok(Some(act)),
        Err(fault) => Err(fault),
    }
}
