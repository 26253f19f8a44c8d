//! Requests arrive.
ghost use Rattle.std.specs.Prelude.{◌≡◌, ◌+◌, max, true, is_some, IfOk};
ghost use Rattle.sq_base.specs.Requests.{have_plain_names};
ghost use Rattle.sq_base.specs.Targets.{target_of};
ghost use Rattle.sq_rules.specs.Sights.{asked_request, unversioned};
ghost use Rattle.sq_machine.specs.declared.entries.Event.TheVariants as event;
ghost use Rattle.sq_machine.specs.declared.entries.Told.TheVariants as told;
ghost use Rattle.sq_model.specs.Answers.{ask_answer, asked_in};
ghost use Rattle.sq_model.specs.Changes.{after_ask};
ghost use Rattle.sq_engine.specs.EngineViews.{state_of};
ghost use Rattle.sq_notes.specs.Calling.{Leaves, Makes, desk_of, load_of};
ghost use Rattle.sq_notes.specs.Noting.{IsReady, done_of};

use crate::notes::Notes;
use sq_base::{CheckNo, ConnNo, Copying, Moment, Request, WantOfMemory};
use sq_calls::DeskFault;
use sq_engine::Engine;
use sq_journal::Journal;
use sq_machine::{Entry, Event, Told, later};
use std::alloc::Global;

// What holds of every request.
fn formed(request: &Request)
    ensures parts { unversioned request.now
        ≡ asked_request request.now.method request.now.target request.now.fields }
    ensures target { is_some (target_of request.now.method request.now.target) ≡ true }
    ensures names { have_plain_names request.now.fields ≡ true }
{
    let _minor = request.minor;
}

// The event of a request, with copies of its method, target and fields.
#[inline(never)]
fn asked(alloc: Global, conn: ConnNo, request: &Request) -> Result<Event, WantOfMemory>
    ensures { IfOk result
        (λ e. e ≡ event.Ask conn request.now.method request.now.target request.now.fields) }
{
    let method = request.method.copy(alloc)?;
    let target = request.target.copy(alloc)?;
    let fields = request.fields.copy(alloc)?;
    Ok(Event::Ask {
        conn,
        method,
        target,
        fields,
    })
}

// Makes a place for the entry of a request, and its event.
#[inline(never)]
fn ready<J: Journal>(
    alloc: Global,
    notes: &mut Notes<J>,
    load: u128,
    conn: ConnNo,
    request: &Request,
) -> Result<Event, DeskFault>
    ensures event { IfOk result
        (λ e. e ≡ event.Ask conn request.now.method request.now.target request.now.fields) }
    ensures ready { IsReady (load + 1) notes.old (done_of result) notes.new }
{
    match notes.ready(load, 1) {
        Ok(()) => {}
        Err(fault) => return Err(fault),
    }
    match asked(alloc, conn, request) {
        Ok(event) => Ok(event),
        Err(WantOfMemory) => Err(DeskFault::WantOfMemory),
    }
}

/// A request arrives on a connection, and its check begins.
#[inline(never)]
pub fn ask<J: Journal>(
    engine: &mut Engine,
    notes: &mut Notes<J>,
    alloc: Global,
    conn: ConnNo,
    request: Request,
    now: Moment,
) -> Result<CheckNo, DeskFault>
    ensures makes { Makes (λ n. told.Check n) (ask_answer (state_of engine.old) conn)
        (max now engine.old.latest) (event.Ask conn request.method request.target request.fields)
        (after_ask (asked_in (state_of engine.old) (max now engine.old.latest) conn request.method
        request.target request.fields) (max now engine.old.latest) (state_of engine.old))
        (desk_of engine.old notes.old) result (desk_of engine.new notes.new) }
    ensures leaves { Leaves (load_of engine.old + 1) notes.old result notes.new }
    ensures formed { is_some (target_of request.method request.target) ≡ true }
{
    let moment = later(now, engine.latest());
    formed(&request);
    let event = match ready(alloc, notes, engine.load(), conn, &request) {
        Ok(event) => event,
        Err(fault) => return Err(fault),
    };
    let check = match engine.ask(alloc, conn, request, now) {
        Ok(check) => check,
        Err(refusal) => return Err(notes.refuse(refusal)),
    };
    let entry = Entry {
        moment,
        event,
        answer: Told::Check(check),
    };
    match notes.note(entry) {
        Ok(()) => Ok(check),
        Err(fault) => Err(fault),
    }
}
