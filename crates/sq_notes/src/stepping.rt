//! Checks go on.
ghost use Rattle.std.specs.Prelude.{◌≡◌, ◌+◌, ◌≤◌, [], max, vec_len, vec_capacity, IfOk};
ghost use Rattle.sq_machine.specs.declared.entries.Event.TheVariants as event;
ghost use Rattle.sq_model.specs.Answers.{name_in};
ghost use Rattle.sq_engine.specs.EngineViews.{state_of};
ghost use Rattle.sq_engine.specs.Stepping.{after_step_now, epoch_of, step_now, stepped_told};
ghost use Rattle.sq_notes.specs.Calling.{Leaves, Makes, desk_of, load_of};

use crate::notes::Notes;
use sq_base::{CheckNo, EpochNo, Moment, Text, WantOfMemory};
use sq_calls::DeskFault;
use sq_engine::Engine;
use sq_journal::Journal;
use sq_machine::{Entry, Event, Told, later};
use sq_model::Stepped;
use std::alloc::Global;

/// The bytes that the name of a class has at most.
const NAME_LIMIT: usize = 255;

// Room for the name of a class.
fn room(alloc: Global) -> Result<Vec<u8>, WantOfMemory>
    ensures items { IfOk result (λ v. v.items ≡ []) }
    ensures len { IfOk result (λ v. vec_len v ≡ 0) }
    ensures room { IfOk result (λ v. 255 ≤ vec_capacity v) }
{
    let room = Vec::with_capacity(alloc, NAME_LIMIT)?;
    Ok(room)
}

// The name of the class at a place of an epoch, in this room; no byte where there is none.
fn named(engine: &Engine, epoch: EpochNo, class: u32, mut room: Vec<u8>) -> Text
    requires items { room.items ≡ [] }
    requires len { vec_len room ≡ 0 }
    requires room { 255 ≤ vec_capacity room }
    ensures { result ≡ name_in (state_of engine.now) (record { epoch = epoch; class = class }) }
{
    if let Some(class) = engine.class(epoch, class) {
        room.extend_from_slice(class.name.as_bytes()).unwrap();
    }
    Text::from_vec(room)
}

// The answer that tells of a step of a check of this epoch.
fn told_of(engine: &Engine, epoch: EpochNo, stepped: &Stepped, room: Vec<u8>) -> Told
    requires items { room.items ≡ [] }
    requires len { vec_len room ≡ 0 }
    requires room { 255 ≤ vec_capacity room }
    ensures { result ≡ stepped_told (state_of engine.now) epoch stepped.now }
{
    match stepped {
        Stepped::Took(class) => Told::Took(named(engine, epoch, *class, room)),
        Stepped::Waits(question) => Told::Waits(*question),
        Stepped::Done => Told::Done,
    }
}

/// A check goes on.
pub fn step<J: Journal>(
    engine: &mut Engine,
    notes: &mut Notes<J>,
    alloc: Global,
    check: CheckNo,
    now: Moment,
) -> Result<Stepped, DeskFault>
    ensures makes { Makes (stepped_told (state_of engine.old)
        (epoch_of (state_of engine.old) check))
        (step_now (state_of engine.old) check (max now engine.old.latest))
        (max now engine.old.latest) (event.Step check)
        (after_step_now (state_of engine.old) check (max now engine.old.latest))
        (desk_of engine.old notes.old) result (desk_of engine.new notes.new) }
    ensures leaves { Leaves (load_of engine.old + 1) notes.old result notes.new }
{
    let moment = later(now, engine.latest());
    match notes.ready(engine.load(), 1) {
        Ok(()) => {}
        Err(fault) => return Err(fault),
    }
    let room = match room(alloc) {
        Ok(room) => room,
        Err(WantOfMemory) => return Err(DeskFault::WantOfMemory),
    };
    let epoch = engine.epoch_of(check);
    let stepped = match engine.step(alloc, check, now) {
        Ok(stepped) => stepped,
        Err(refusal) => return Err(notes.refuse(refusal)),
    };
    let answer = told_of(engine, epoch, &stepped, room);
    let entry = Entry {
        moment,
        event: Event::Step { check },
        answer,
    };
    match notes.note(entry) {
        Ok(()) => Ok(stepped),
        Err(fault) => Err(fault),
    }
}
