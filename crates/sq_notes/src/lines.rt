//! Lines of processes.
ghost use Rattle.std.specs.Prelude.{◌≡◌, ◌+◌, max};
ghost use Rattle.sq_engine.specs.EngineViews.{state_of};
ghost use Rattle.sq_engine.specs.Lines.{got_told};
ghost use Rattle.sq_machine.specs.declared.entries.Event.TheVariants as event;
ghost use Rattle.sq_notes.specs.Calling.{IsLinePromised, Leaves, Reads, desk_of, load_of};

use crate::notes::Notes;
use sq_base::{Moment, ProcNo, Text, WantOfMemory};
use sq_calls::DeskFault;
use sq_channel::Got;
use sq_engine::Engine;
use sq_journal::Journal;
use sq_machine::{Entry, Event, Told, later};
use std::alloc::Global;

// The answer that tells what a line comes to.
fn told_of(got: &Got) -> Told
    ensures { result ≡ got_told got.now }
{
    match got {
        Got::Reply(question, reply) => Told::Reply {
            question: *question,
            word: reply.word,
        },
        Got::Bad => Told::Bad,
        Got::Stray => Told::Stray,
    }
}

/// A line of a process.
pub fn line<J: Journal>(
    engine: &mut Engine,
    notes: &mut Notes<J>,
    alloc: Global,
    proc: ProcNo,
    bytes: &[u8],
    now: Moment,
) -> Result<Got, DeskFault>
    ensures reads { Reads (max now engine.old.latest) proc bytes.now (desk_of engine.old notes.old)
        result (desk_of engine.new notes.new) }
    ensures leaves { Leaves (load_of engine.old + 1) notes.old result notes.new }
    ensures promised { IsLinePromised (state_of engine.old) (max now engine.old.latest) proc
        bytes.now result (state_of engine.new) }
{
    let moment = later(now, engine.latest());
    match notes.ready(engine.load(), 1) {
        Ok(()) => {}
        Err(fault) => return Err(fault),
    }
    let text = match Text::from_slice(alloc, bytes) {
        Ok(text) => text,
        Err(WantOfMemory) => return Err(DeskFault::WantOfMemory),
    };
    let got = match engine.line(alloc, proc, bytes, now) {
        Ok(got) => got,
        Err(refusal) => return Err(notes.refuse(refusal)),
    };
    let answer = told_of(&got);
    let entry = Entry {
        moment,
        event: Event::Line { proc, bytes: text },
        answer,
    };
    match notes.note(entry) {
        Ok(()) => {}
        Err(fault) => return Err(fault),
    }
    match &got {
        Got::Reply(_, _) => {}
        Got::Bad => notes.count(),
        Got::Stray => notes.count(),
    }
    Ok(got)
}
