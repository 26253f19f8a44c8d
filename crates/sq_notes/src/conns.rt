//! Connections open and close.
ghost use Rattle.std.specs.Prelude.{◌≡◌, ◌+◌, ◌<◌, IsErrOf, max, true, false, is_some};
ghost use Rattle.sq_calls.specs.declared.faults.DeskFault.TheVariants as fault;
ghost use Rattle.sq_checks.specs.Conns.{client_in};
ghost use Rattle.sq_machine.specs.declared.entries.Event.TheVariants as event;
ghost use Rattle.sq_machine.specs.declared.entries.Told.TheVariants as told;
ghost use Rattle.sq_model.specs.Answers.{close_answer, open_answer};
ghost use Rattle.sq_model.specs.Changes.{after_close, after_open};
ghost use Rattle.sq_engine.specs.EngineViews.{state_of};
ghost use Rattle.sq_notes.specs.Calling.{Leaves, Makes, desk_of, load_of};

use crate::notes::Notes;
use sq_base::{Addr, ConnNo, Moment};
use sq_calls::DeskFault;
use sq_engine::Engine;
use sq_journal::Journal;
use sq_machine::{Entry, Event, Told, later};

/// A client's connection opens, and a place is made for its close.
#[inline(never)]
pub fn open<J: Journal>(
    engine: &mut Engine,
    notes: &mut Notes<J>,
    conn: ConnNo,
    addr: Addr,
    port: u16,
    now: Moment,
) -> Result<(), DeskFault>
    ensures makes { Makes (λ _. told.Fine) (open_answer (state_of engine.old) conn)
        (max now engine.old.latest) (event.Open conn addr port)
        (after_open conn (record { addr = addr; port = port }) (max now engine.old.latest)
        (state_of engine.old)) (desk_of engine.old notes.old) result
        (desk_of engine.new notes.new) }
    ensures leaves { Leaves (load_of engine.old + 2) notes.old result notes.new }
{
    let moment = later(now, engine.latest());
    match notes.ready(engine.load(), 2) {
        Ok(()) => {}
        Err(fault) => return Err(fault),
    }
    match engine.open(conn, addr, port, now) {
        Ok(()) => {}
        Err(refusal) => return Err(notes.refuse(refusal)),
    }
    let entry = Entry {
        moment,
        event: Event::Open { conn, addr, port },
        answer: Told::Fine,
    };
    notes.note(entry)
}

/// A connection closes. The place is there.
#[inline(never)]
pub fn close<J: Journal>(
    engine: &mut Engine,
    notes: &mut Notes<J>,
    conn: ConnNo,
    now: Moment,
) -> Result<(), DeskFault>
    requires { notes.old.stopped ≡ false → is_some (client_in engine.old.conns conn) ≡ true
        → 0 < notes.old.spare }
    ensures makes { Makes (λ _. told.Fine) (close_answer (state_of engine.old) conn)
        (max now engine.old.latest) (event.Close conn)
        (after_close conn (max now engine.old.latest) (state_of engine.old))
        (desk_of engine.old notes.old) result (desk_of engine.new notes.new) }
    ensures leaves { Leaves notes.old.spare notes.old result notes.new }
    ensures memory { IsErrOf result fault.WantOfMemory → ⊥ }
{
    let moment = later(now, engine.latest());
    match notes.going() {
        Ok(()) => {}
        Err(fault) => return Err(fault),
    }
    match engine.close(conn, now) {
        Ok(()) => {}
        Err(refusal) => return Err(notes.refuse(refusal)),
    }
    let entry = Entry {
        moment,
        event: Event::Close { conn },
        answer: Told::Fine,
    };
    notes.note(entry)
}
