//! Outcomes of checks are taken.
ghost use Rattle.std.specs.Prelude.{◌≡◌, ◌+◌, max, Some, IfOk};
ghost use Rattle.sq_checks.specs.OpenChecks.{CheckParts};
ghost use Rattle.sq_checks.specs.Records.{judged_of};
ghost use Rattle.sq_checks.specs.Tables.{value_at};
ghost use Rattle.sq_machine.specs.declared.entries.Event.TheVariants as event;
ghost use Rattle.sq_machine.specs.declared.entries.Told.TheVariants as told;
ghost use Rattle.sq_model.specs.Answers.{take_answer};
ghost use Rattle.sq_model.specs.Changes.{after_take};
ghost use Rattle.sq_engine.specs.EngineViews.{state_of};
ghost use Rattle.sq_engine.specs.Stepping.{epoch_of};
ghost use Rattle.sq_engine.specs.Tellings.{IsTold};
ghost use Rattle.sq_notes.specs.Calling.{Leaves, Makes, desk_of, load_of};

use crate::notes::Notes;
use sq_base::{CheckNo, Moment, WantOfMemory};
use sq_calls::DeskFault;
use sq_checks::Record;
use sq_engine::Engine;
use sq_journal::Journal;
use sq_machine::{Entry, Event, Refusal, Told, later};
use sq_model::copy_outcome;
use sq_rules::Outcome;
use std::alloc::Global;

// A copy of the outcome of a check that would be taken.
fn outcome_copy(alloc: Global, engine: &Engine, check: CheckNo) -> Result<Outcome, Refusal>
    ensures { IsTold (λ o. told.Judged (epoch_of (state_of engine.now) check) o)
        (take_answer (state_of engine.now) check) result }
{
    let outcome = engine.outcome(check)?;
    match copy_outcome(alloc, outcome) {
        Ok(copy) => Ok(copy),
        Err(WantOfMemory) => Err(Refusal::WantOfMemory),
    }
}

/// The outcome of a check is taken, and the check is over.
#[inline(never)]
pub fn take<J: Journal>(
    engine: &mut Engine,
    notes: &mut Notes<J>,
    alloc: Global,
    check: CheckNo,
    now: Moment,
) -> Result<Record, DeskFault>
    ensures makes { Makes (λ r. told.Judged r.epoch r.outcome)
        (take_answer (state_of engine.old) check) (max now engine.old.latest) (event.Take check)
        (after_take check (max now engine.old.latest) (state_of engine.old))
        (desk_of engine.old notes.old) result (desk_of engine.new notes.new) }
    ensures leaves { Leaves (load_of engine.old + 1) notes.old result notes.new }
    ensures record { IfOk result
        (λ r. (k : CheckParts) → value_at engine.old.checks check ≡ Some k
        → r ≡ judged_of check r.outcome k) }
{
    let moment = later(now, engine.latest());
    match notes.ready(engine.load(), 1) {
        Ok(()) => {}
        Err(fault) => return Err(fault),
    }
    let outcome = match outcome_copy(alloc, engine, check) {
        Ok(outcome) => outcome,
        Err(refusal) => return Err(notes.refuse(refusal)),
    };
    let record = match engine.take(check, now) {
        Ok(record) => record,
        Err(_) => unreachable!(),
    };
    // For the proof: its outcome is the verdict.
    let _outcome = record.outcome();
    let entry = Entry {
        moment,
        event: Event::Take { check },
        answer: Told::Judged {
            epoch: record.epoch(),
            outcome,
        },
    };
    match notes.note(entry) {
        Ok(()) => Ok(record),
        Err(fault) => Err(fault),
    }
}
