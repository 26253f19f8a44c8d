//! The lines of a script, run one after another.
ghost use Rattle.std.specs.Prelude.{◌≡◌, ◌≤◌, ℕ, List, Option, Some, true, false, IfErr, IfSome, IsErrOf, OnOk};
ghost use Rattle.std.specs.Io.KnownBytes.{prepend_known};
ghost use Rattle.sq_outside.specs.Causes.{Rose};
ghost use Rattle.sq_outside.specs.SourceLines.{lines, total_limit};
ghost use Rattle.sq_outside.specs.Told.{IsNotTold};
ghost use Rattle.sq_rules.specs.Configurations.{Configuration};
ghost use Rattle.sq_machine.specs.Entries.{History, is_event};
ghost use Rattle.sq_machine.specs.Events.{begins_epoch};
ghost use Rattle.sq_machine.specs.Readings.{current};
ghost use Rattle.sq_machine.specs.declared.entries.Event.TheVariants as event;
ghost use Rattle.sq_replay.specs.Entering.{IfMissed, IsPlainEnd, StepHasCauses, named_of};
ghost use Rattle.sq_replay.specs.MachineViews.{machine_of};
ghost use Rattle.sq_replay.specs.Openings.{Added, ReachesEnd, RunOpened, StepOpened, name_in, name_of};
ghost use Rattle.sq_replay.specs.RunText.{Shelf, event_step, run_lines, stated};
ghost use Rattle.sq_replay.specs.Runs.{Adds, AddsCount, At, Goes, HasNext, IsRunEnd, IsStepEnd, LineGoes, RunHasCauses, RunsOver, Tells, missed, missed_by, openings_in, openings_of, paged, run_at, told_files};
ghost use Rattle.sq_replay.specs.declared.ends.RunEnd.TheVariants as ends;

use crate::ends::RunEnd;
use crate::entering::enter;
use crate::machines::ScriptMachine;
use crate::named::read_named;
use crate::page::Unwritten;
use crate::stops::Stop;
use sq_base::{Moment, Text};
use sq_journal::{EntryFault, read_event};
use sq_machine::Event;
use sq_outside::{Files, Held, LineFound, Sink, Source, Unread, next_line};
use std::alloc::Global;

/// How far a script was read.
#[derive(Drop)]
pub struct ScriptReader {
    /// What was read ahead.
    pub held: Held,
    /// How many bytes stood before that.
    pub place: u64,
}

// The name of a reconfiguration's file, and any other event as it is.
fn named_of(event: Event) -> Result<Text, Event>
    requires { is_event event ≡ true }
    ensures named { result ≡ named_of event }
    ensures event { IfErr result (λ e. is_event e ≡ true) }
    ensures plain { IfErr result (λ e. begins_epoch e ≡ false) }
{
    match event {
        Event::Reconfigure { text } => Ok(text),
        event => Err(event),
    }
}

// Runs the event of line `number`, which names no file.
fn run_plain<O: Sink>(
    alloc: Global,
    number: u64,
    now: Moment,
    event: Event,
    machine: &mut ScriptMachine,
    page: &mut Vec<u8>,
    out: &mut O,
) -> Result<(), RunEnd>
    requires event { is_event event ≡ true }
    requires plain { begins_epoch event ≡ false }
    ensures goes { (base : Option (List ℕ)) (configs : List Configuration) (h : History)
        (shelf : Shelf) → At (machine_of machine.old) base (O.contents out.old) page.old.items
        configs h
        → Goes (machine_of machine.new) base (O.contents out.new) page.new.items configs h
        (event_step shelf configs h number now event) result }
    ensures later { O.faults out.old ≤ O.faults out.new }
    ensures write { IsErrOf result ends.WriteFault → Rose (O.faults out.old) (O.faults out.new) }
    ensures quiet { (IsErrOf result ends.WriteFault → ⊥) → O.faults out.new ≡ O.faults out.old }
    ensures end { IfErr result (IsPlainEnd number) }
{
    let answer = match machine.make(alloc, &event, now) {
        Ok(answer) => answer,
        Err(Stop::Refused) => return Err(RunEnd::Script(number)),
        Err(Stop::WantOfMemory) => return Err(RunEnd::WantOfMemory),
    };
    match enter(alloc, machine.latest(), event, answer, machine, page, out) {
        Ok(()) => Ok(()),
        Err(Unwritten::Failed) => Err(RunEnd::WriteFault),
        Err(Unwritten::WantOfMemory) => Err(RunEnd::WantOfMemory),
    }
}

// Runs the reconfiguration of line `number` by the file of this name.
fn run_named<F: Files, O: Sink>(
    alloc: Global,
    number: u64,
    now: Moment,
    name: Text,
    machine: &mut ScriptMachine,
    files: &mut F,
    page: &mut Vec<u8>,
    out: &mut O,
) -> Result<(), RunEnd>
    ensures goes { (base : Option (List ℕ)) (configs : List Configuration) (h : History)
        (shelf : Shelf) → At (machine_of machine.old) base (O.contents out.old) page.old.items
        configs h
        → Tells (F.texts files.old) (F.opened files.old) (F.opened files.new) shelf (current h)
        (missed_by result) → HasNext shelf configs h (event.Reconfigure name)
        → Goes (machine_of machine.new) base (O.contents out.new) page.new.items configs h
        (event_step shelf configs h number now (event.Reconfigure name)) result }
    ensures adds { Adds (F.opened files.old) (F.opened files.new) }
    ensures counts { OnOk result (AddsCount (F.opened files.old) (F.opened files.new) 1) }
    ensures opens { Added (F.opened files.old) (F.opened files.new)
        (StepOpened number (Some name) result) }
    ensures missing { IfMissed (missed_by result) (IsNotTold (F.texts files.old)) }
    ensures causes { StepHasCauses (F.faults files.old) (F.faults files.new) (O.faults out.old)
        (O.faults out.new) result }
    ensures texts { F.texts files.new ≡ F.texts files.old }
    ensures end { IfErr result IsStepEnd }
{
    let (text, setup) = match read_named(alloc, name, files) {
        Ok(named) => named,
        Err(end) => return Err(end),
    };
    let answer = match machine.reconfigure(alloc, setup, now) {
        Ok(answer) => answer,
        Err(Stop::Refused) => return Err(RunEnd::Script(number)),
        Err(Stop::WantOfMemory) => return Err(RunEnd::WantOfMemory),
    };
    let event = Event::Reconfigure { text };
    match enter(alloc, machine.latest(), event, answer, machine, page, out) {
        Ok(()) => Ok(()),
        Err(Unwritten::Failed) => Err(RunEnd::WriteFault),
        Err(Unwritten::WantOfMemory) => Err(RunEnd::WantOfMemory),
    }
}

/// Runs the event of line `number`, at this moment.
pub fn run_event<F: Files, O: Sink>(
    alloc: Global,
    number: u64,
    now: Moment,
    event: Event,
    machine: &mut ScriptMachine,
    files: &mut F,
    page: &mut Vec<u8>,
    out: &mut O,
) -> Result<(), RunEnd>
    requires { is_event event ≡ true }
    ensures goes { (base : Option (List ℕ)) (configs : List Configuration) (h : History)
        (shelf : Shelf) → At (machine_of machine.old) base (O.contents out.old) page.old.items
        configs h
        → Tells (F.texts files.old) (F.opened files.old) (F.opened files.new) shelf (current h)
        (missed_by result) → HasNext shelf configs h event
        → Goes (machine_of machine.new) base (O.contents out.new) page.new.items configs h
        (event_step shelf configs h number now event) result }
    ensures adds { Adds (F.opened files.old) (F.opened files.new) }
    ensures counts { OnOk result
        (AddsCount (F.opened files.old) (F.opened files.new) (openings_of event)) }
    ensures opens { Added (F.opened files.old) (F.opened files.new)
        (StepOpened number (name_of event) result) }
    ensures missing { IfMissed (missed_by result) (IsNotTold (F.texts files.old)) }
    ensures causes { StepHasCauses (F.faults files.old) (F.faults files.new) (O.faults out.old)
        (O.faults out.new) result }
    ensures texts { F.texts files.new ≡ F.texts files.old }
    ensures end { IfErr result IsStepEnd }
{
    match named_of(event) {
        Ok(name) => run_named(alloc, number, now, name, machine, files, page, out),
        Err(event) => run_plain(alloc, number, now, event, machine, page, out),
    }
}

// Runs line `number`.
fn run_line<F: Files, O: Sink>(
    alloc: Global,
    number: u64,
    line: &[u8],
    machine: &mut ScriptMachine,
    files: &mut F,
    page: &mut Vec<u8>,
    out: &mut O,
) -> Result<(), RunEnd>
    ensures goes { (base : Option (List ℕ)) (configs : List Configuration)
        → LineGoes (run_at (machine_of machine.old)
        (paged base (O.contents out.old) page.old.items))
        (run_at (machine_of machine.new) (paged base (O.contents out.new) page.new.items))
        (told_files (F.texts files.old) (F.opened files.old) (F.opened files.new)) configs number
        line.now result }
    ensures adds { Adds (F.opened files.old) (F.opened files.new) }
    ensures counts { OnOk result
        (AddsCount (F.opened files.old) (F.opened files.new) (openings_in (stated line.now))) }
    ensures opens { Added (F.opened files.old) (F.opened files.new)
        (StepOpened number (name_in (stated line.now)) result) }
    ensures missing { IfMissed (missed_by result) (IsNotTold (F.texts files.old)) }
    ensures causes { StepHasCauses (F.faults files.old) (F.faults files.new) (O.faults out.old)
        (O.faults out.new) result }
    ensures texts { F.texts files.new ≡ F.texts files.old }
    ensures end { IfErr result IsStepEnd }
{
    match read_event(alloc, line) {
        Ok((now, event)) => run_event(alloc, number, now, event, machine, files, page, out),
        Err(EntryFault::BadEntry) => Err(RunEnd::Script(number)),
        Err(EntryFault::WantOfMemory) => Err(RunEnd::WantOfMemory),
    }
}

/// Runs the lines that are left, from line 2 on.
pub fn run_rest<S: Source, F: Files, O: Sink>(
    alloc: Global,
    reader: &mut ScriptReader,
    machine: &mut ScriptMachine,
    script: &mut S,
    files: &mut F,
    page: &mut Vec<u8>,
    out: &mut O,
) -> RunEnd
    requires { reader.old.place ≤ total_limit }
    ensures runs { (base : Option (List ℕ)) (configs : List Configuration) (h : History)
        → At (machine_of machine.old) base (O.contents out.old) page.old.items configs h
        → RunsOver (told_files (F.texts files.old) (F.opened files.old) (F.opened files.new))
        (prepend_known reader.old.held (S.left script.old))
        (paged base (O.contents out.new) page.new.items) configs h
        (λ shelf bytes. run_lines shelf configs h 2 reader.old.place (lines bytes)) result }
    ensures adds { Adds (F.opened files.old) (F.opened files.new) }
    ensures opens { IfSome (prepend_known reader.old.held (S.left script.old))
        (λ bytes. Added (F.opened files.old) (F.opened files.new)
        (RunOpened 1 (lines bytes) result)) }
    ensures reached { ReachesEnd result (prepend_known reader.old.held (S.left script.old))
        (S.left script.new) }
    ensures missing { IfMissed (missed result) (IsNotTold (F.texts files.old)) }
    ensures causes { RunHasCauses (S.faults script.old) (S.faults script.new) (F.faults files.old)
        (F.faults files.new) (O.faults out.old) (O.faults out.new) result }
    ensures texts { F.texts files.new ≡ F.texts files.old }
    ensures end { IsRunEnd result }
{
    let mut number = 2;
    let mut line = Vec::new(alloc);
    'lines: loop {
        match next_line(&mut reader.held, script, &mut reader.place, &mut line) {
            Ok(LineFound::Whole) => {}
            Ok(LineFound::End) => return RunEnd::Ok,
            Ok(LineFound::Faulty) => return RunEnd::Script(number),
            Err(Unread::Failed) => return RunEnd::ReadFault,
            Err(Unread::WantOfMemory) => return RunEnd::WantOfMemory,
        }
        match run_line(alloc, number, line.as_slice(), machine, files, page, out) {
            Ok(()) => {}
            Err(end) => return end,
        }
        number += 1;
    }
}
