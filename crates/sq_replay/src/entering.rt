//! Entries, whose lines are written, and the acts that follow them.
ghost use Rattle.std.specs.Prelude.{◌≡◌, ◌++◌, ◌∷◌, ◌≤◌, ℕ, List, Option, true, IfOk, IsErrOf, OnOk};
ghost use Rattle.sq_outside.specs.Causes.{Rose};
ghost use Rattle.sq_rules.specs.Configurations.{Configuration};
ghost use Rattle.sq_machine.specs.Entries.{History, is_event, is_row, entry_at};
ghost use Rattle.sq_journal.specs.EntryText.{entry_line, entry_text, written};
ghost use Rattle.sq_replay.specs.Entering.{Arrives};
ghost use Rattle.sq_replay.specs.MachineViews.{machine_of};
ghost use Rattle.sq_replay.specs.RunText.{acts};
ghost use Rattle.sq_replay.specs.Runs.{At, Is, Wrote, WroteFront, WrotePart};

use crate::machines::ScriptMachine;
use crate::page::{Unwritten, put_line};
use sq_base::{Moment, Text, WantOfMemory};
use sq_journal::print_entry;
use sq_machine::{Entry, Event, Told};
use sq_outside::Sink;
use std::alloc::Global;

// The text of an entry.
fn text_of(alloc: Global, moment: Moment, event: Event, answer: Told) -> Result<Text, WantOfMemory>
    requires event { is_event event ≡ true }
    requires row { is_row event answer ≡ true }
    ensures { IfOk result (λ text. text ≡ entry_text (entry_at moment event answer)) }
{
    let entry = Entry {
        moment,
        event,
        answer,
    };
    print_entry(alloc, &entry)
}

// Puts the line of an entry on the page.
fn page_entry<O: Sink>(
    alloc: Global,
    moment: Moment,
    event: Event,
    answer: Told,
    page: &mut Vec<u8>,
    out: &mut O,
) -> Result<(), Unwritten>
    requires event { is_event event ≡ true }
    requires row { is_row event answer ≡ true }
    ensures ok { OnOk result
        ((base : Option (List ℕ)) (text : List ℕ)
        → Wrote base (O.contents out.old) page.old.items text
        → Wrote base (O.contents out.new) page.new.items
        (text ++ entry_line (entry_at moment event answer))) }
    ensures failed { IsErrOf result Unwritten.Failed → (base : Option (List ℕ)) (text : List ℕ)
        → Wrote base (O.contents out.old) page.old.items text
        → WrotePart base (O.contents out.new) (text ++ entry_line (entry_at moment event answer)) }
    ensures memory { IsErrOf result Unwritten.WantOfMemory
        → (base : Option (List ℕ)) (text : List ℕ)
        → Wrote base (O.contents out.old) page.old.items text
        → WroteFront base (O.contents out.new) page.new.items
        (text ++ entry_line (entry_at moment event answer)) }
    ensures later { O.faults out.old ≤ O.faults out.new }
    ensures cause { IsErrOf result Unwritten.Failed → Rose (O.faults out.old) (O.faults out.new) }
    ensures quiet { (IsErrOf result Unwritten.Failed → ⊥) → O.faults out.new ≡ O.faults out.old }
{
    match text_of(alloc, moment, event, answer) {
        Ok(text) => put_line(text.as_bytes(), page, out),
        Err(WantOfMemory) => Err(Unwritten::WantOfMemory),
    }
}

// Makes the acts that are due, one after another, and puts their lines on the page.
fn write_acts<O: Sink>(
    alloc: Global,
    machine: &mut ScriptMachine,
    page: &mut Vec<u8>,
    out: &mut O,
) -> Result<(), Unwritten>
    ensures arrives { (base : Option (List ℕ)) (configs : List Configuration) (h : History)
        → At (machine_of machine.old) base (O.contents out.old) page.old.items configs h
        → Arrives (machine_of machine.new) base (O.contents out.new) page.new.items configs
        (acts configs h) result }
    ensures later { O.faults out.old ≤ O.faults out.new }
    ensures cause { IsErrOf result Unwritten.Failed → Rose (O.faults out.old) (O.faults out.new) }
    ensures quiet { (IsErrOf result Unwritten.Failed → ⊥) → O.faults out.new ≡ O.faults out.old }
{
    'acts: loop {
        let answer = match machine.act(alloc) {
            Ok(Some(answer)) => answer,
            Ok(None) => return Ok(()),
            Err(WantOfMemory) => return Err(Unwritten::WantOfMemory),
        };
        match page_entry(alloc, machine.latest(), Event::Act, answer, page, out) {
            Ok(()) => {}
            Err(Unwritten::Failed) => return Err(Unwritten::Failed),
            Err(Unwritten::WantOfMemory) => return Err(Unwritten::WantOfMemory),
        }
    }
}

/// Puts the line of an entry that the machine has made on the page, and then makes the acts that are due.
pub fn enter<O: Sink>(
    alloc: Global,
    moment: Moment,
    event: Event,
    answer: Told,
    machine: &mut ScriptMachine,
    page: &mut Vec<u8>,
    out: &mut O,
) -> Result<(), Unwritten>
    requires event { is_event event ≡ true }
    requires row { is_row event answer ≡ true }
    ensures arrives { (base : Option (List ℕ)) (configs : List Configuration) (h : History)
        → Is (machine_of machine.old) configs (entry_at moment event answer ∷ h)
        → Wrote base (O.contents out.old) page.old.items (written h)
        → Arrives (machine_of machine.new) base (O.contents out.new) page.new.items configs
        (acts configs (entry_at moment event answer ∷ h)) result }
    ensures later { O.faults out.old ≤ O.faults out.new }
    ensures cause { IsErrOf result Unwritten.Failed → Rose (O.faults out.old) (O.faults out.new) }
    ensures quiet { (IsErrOf result Unwritten.Failed → ⊥) → O.faults out.new ≡ O.faults out.old }
{
    match page_entry(alloc, moment, event, answer, page, out) {
        Ok(()) => write_acts(alloc, machine, page, out),
        Err(Unwritten::Failed) => Err(Unwritten::Failed),
        Err(Unwritten::WantOfMemory) => Err(Unwritten::WantOfMemory),
    }
}
