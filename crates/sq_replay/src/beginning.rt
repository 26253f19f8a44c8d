//! The run of a script over a configuration, from its beginning.
ghost use Rattle.std.specs.Prelude.{◌≡◌, ◌≤◌, ◌∷◌, [], ℕ, List, Option, true, Some, IfErr, IfSome, IsErrOf};
ghost use Rattle.std.specs.Io.KnownBytes.{prepend_known};
ghost use Rattle.sq_outside.specs.Causes.{Rose};
ghost use Rattle.sq_outside.specs.SourceLines.{SourceLine, lines, total_limit};
ghost use Rattle.sq_outside.specs.Told.{IsNotTold};
ghost use Rattle.sq_rules.specs.Configurations.{Configuration, IsConfiguration};
ghost use Rattle.sq_machine.specs.Entries.{is_event};
ghost use Rattle.sq_machine.specs.Epochs.{config_of};
ghost use Rattle.sq_machine.specs.declared.entries.Event.TheVariants as event;
ghost use Rattle.sq_model.specs.Given.{EachOf};
ghost use Rattle.sq_replay.specs.Entering.{Begins, IfMissed, IsBeginEnd, IsEmptyEnd, first_kind};
ghost use Rattle.sq_replay.specs.Openings.{Added, ReachesEnd, RunOpened};
ghost use Rattle.sq_replay.specs.RunText.{Shelf, begun_history, run_first, run_from, run_lines, run_script, run_stated, stated};
ghost use Rattle.sq_replay.specs.Runs.{Adds, FirstRuns, IsRunEnd, Reaches, RunHasCauses, ScriptRuns, Wrote, missed, paged, told_files, whole_line};
ghost use Rattle.sq_replay.specs.declared.ends.RunEnd.TheVariants as ends;

use crate::ends::RunEnd;
use crate::entering::enter;
use crate::lines::{ScriptReader, run_event, run_rest};
use crate::machines::ScriptMachine;
use crate::page::Unwritten;
use sq_base::{EpochNo, Moment, WantOfMemory};
use sq_journal::{EntryFault, read_event};
use sq_machine::{Event, Offset, Told};
use sq_outside::{Files, Held, LineFound, Sink, Source, Unread, next_line};
use sq_urlmatch::Setup;
use std::alloc::Global;

/// How many bytes of a script are read at once.
const CHUNK: usize = 65_536;

/// What the first line of a script states.
#[derive(Clone, Copy)]
pub enum FirstEvent {
    /// Where the machine begins.
    Begin { offset: Offset },
    /// An act, which no line of a script states.
    Act,
    /// Any other event, which a machine that began at its moment is asked to make.
    Other,
}

// The moment and the event that the first line states.
#[derive(Drop)]
struct FirstLine {
    moment: Moment,
    event: Event,
}

// Where a machine begins: its moment, and the offset of its local time.
#[derive(Clone, Copy)]
struct Beginning {
    moment: Moment,
    offset: Offset,
}

// What an event is in the first line.
fn first_kind(event: &Event) -> FirstEvent
    ensures { result ≡ first_kind event.now }
{
    match event {
        Event::Begin { offset } => FirstEvent::Begin { offset: *offset },
        Event::Act => FirstEvent::Act,
        _ => FirstEvent::Other,
    }
}

// Begins the machine at a moment and an offset, and puts the line of that and of the acts that are due on the page.
fn begin<O: Sink>(
    alloc: Global,
    setup: Setup,
    at: Beginning,
    page: &mut Vec<u8>,
    out: &mut O,
) -> Result<ScriptMachine, RunEnd>
    ensures begins { (base : Option (List ℕ)) (configs : List Configuration)
        → EachOf IsConfiguration configs → config_of configs 1 ≡ Some setup
        → Wrote base (O.contents out.old) page.old.items []
        → Begins base (O.contents out.new) page.new.items configs at.moment at.offset result }
    ensures later { O.faults out.old ≤ O.faults out.new }
    ensures write { IsErrOf result ends.WriteFault → Rose (O.faults out.old) (O.faults out.new) }
    ensures quiet { (IsErrOf result ends.WriteFault → ⊥) → O.faults out.new ≡ O.faults out.old }
    ensures end { IfErr result IsBeginEnd }
{
    let mut machine = match ScriptMachine::begin(alloc, setup, at.offset, at.moment) {
        Ok(machine) => machine,
        Err(WantOfMemory) => return Err(RunEnd::WantOfMemory),
    };
    let event = Event::Begin { offset: at.offset };
    let answer = Told::Epoch(EpochNo(1));
    match enter(alloc, at.moment, event, answer, &mut machine, page, out) {
        Ok(()) => Ok(machine),
        Err(Unwritten::Failed) => Err(RunEnd::WriteFault),
        Err(Unwritten::WantOfMemory) => Err(RunEnd::WantOfMemory),
    }
}

// Runs a script from its first line on, by a machine that began at that line's moment with offset 0.
fn run_from<S: Source, F: Files, O: Sink>(
    alloc: Global,
    setup: Setup,
    first: FirstLine,
    reader: &mut ScriptReader,
    script: &mut S,
    files: &mut F,
    page: &mut Vec<u8>,
    out: &mut O,
) -> RunEnd
    requires good { IsConfiguration setup }
    requires event { is_event first.event ≡ true }
    requires place { reader.old.place ≤ total_limit }
    ensures runs { (base : Option (List ℕ)) (l : SourceLine) → stated l.bytes ≡ Some
        (first.moment, first.event)
        → Wrote base (O.contents out.old) page.old.items []
        → FirstRuns (told_files (F.texts files.old) (F.opened files.old) (F.opened files.new))
        (prepend_known reader.old.held (S.left script.old))
        (paged base (O.contents out.new) page.new.items) setup l
        (λ shelf configs bytes. run_from shelf configs reader.old.place (lines bytes) first.moment
        first.event) result }
    ensures adds { Adds (F.opened files.old) (F.opened files.new) }
    ensures opens { (l : SourceLine) → stated l.bytes ≡ Some (first.moment, first.event)
        → IfSome (prepend_known reader.old.held (S.left script.old))
        (λ bytes. Added (F.opened files.old) (F.opened files.new)
        (RunOpened 0 (l ∷ lines bytes) result)) }
    ensures reached { ReachesEnd result (prepend_known reader.old.held (S.left script.old))
        (S.left script.new) }
    ensures missing { IfMissed (missed result) (IsNotTold (F.texts files.old)) }
    ensures causes { RunHasCauses (S.faults script.old) (S.faults script.new) (F.faults files.old)
        (F.faults files.new) (O.faults out.old) (O.faults out.new) result }
    ensures texts { F.texts files.new ≡ F.texts files.old }
    ensures end { IsRunEnd result }
{
    let at = Beginning {
        moment: first.moment,
        offset: Offset(0),
    };
    let mut machine = match begin(alloc, setup, at, page, out) {
        Ok(machine) => machine,
        Err(end) => return end,
    };
    match run_event(
        alloc,
        1,
        first.moment,
        first.event,
        &mut machine,
        files,
        page,
        out,
    ) {
        Ok(()) => {}
        Err(end) => return end,
    }
    run_rest(alloc, reader, &mut machine, script, files, page, out)
}

// Runs a script whose first line says where the machine begins.
fn run_begun<S: Source, F: Files, O: Sink>(
    alloc: Global,
    setup: Setup,
    at: Beginning,
    reader: &mut ScriptReader,
    script: &mut S,
    files: &mut F,
    page: &mut Vec<u8>,
    out: &mut O,
) -> RunEnd
    requires good { IsConfiguration setup }
    requires place { reader.old.place ≤ total_limit }
    ensures runs { (base : Option (List ℕ)) (l : SourceLine)
        → stated l.bytes ≡ Some (at.moment, event.Begin at.offset)
        → Wrote base (O.contents out.old) page.old.items []
        → FirstRuns (told_files (F.texts files.old) (F.opened files.old) (F.opened files.new))
        (prepend_known reader.old.held (S.left script.old))
        (paged base (O.contents out.new) page.new.items) setup l
        (λ shelf configs bytes. run_lines shelf configs (begun_history configs at.moment at.offset)
        2 reader.old.place
        (lines bytes)) result }
    ensures adds { Adds (F.opened files.old) (F.opened files.new) }
    ensures opens { (l : SourceLine) → stated l.bytes ≡ Some (at.moment, event.Begin at.offset)
        → IfSome (prepend_known reader.old.held (S.left script.old))
        (λ bytes. Added (F.opened files.old) (F.opened files.new)
        (RunOpened 0 (l ∷ lines bytes) result)) }
    ensures reached { ReachesEnd result (prepend_known reader.old.held (S.left script.old))
        (S.left script.new) }
    ensures missing { IfMissed (missed result) (IsNotTold (F.texts files.old)) }
    ensures causes { RunHasCauses (S.faults script.old) (S.faults script.new) (F.faults files.old)
        (F.faults files.new) (O.faults out.old) (O.faults out.new) result }
    ensures texts { F.texts files.new ≡ F.texts files.old }
    ensures end { IsRunEnd result }
{
    let mut machine = match begin(alloc, setup, at, page, out) {
        Ok(machine) => machine,
        Err(end) => return end,
    };
    run_rest(alloc, reader, &mut machine, script, files, page, out)
}

// Runs a script without a line.
fn run_empty<O: Sink>(alloc: Global, setup: Setup, page: &mut Vec<u8>, out: &mut O) -> RunEnd
    requires { IsConfiguration setup }
    ensures runs { (base : Option (List ℕ)) (shelf : Shelf)
        → Wrote base (O.contents out.old) page.old.items []
        → Reaches base (O.contents out.new) page.new.items (run_script shelf setup []) result }
    ensures later { O.faults out.old ≤ O.faults out.new }
    ensures write { result ≡ ends.WriteFault → Rose (O.faults out.old) (O.faults out.new) }
    ensures quiet { (result ≡ ends.WriteFault → ⊥) → O.faults out.new ≡ O.faults out.old }
    ensures end { IsEmptyEnd result }
{
    let at = Beginning {
        moment: Moment(0),
        offset: Offset(0),
    };
    match begin(alloc, setup, at, page, out) {
        Ok(_) => RunEnd::Ok,
        Err(end) => end,
    }
}

// Runs a script from its first line on, which states this moment and event.
fn run_first<S: Source, F: Files, O: Sink>(
    alloc: Global,
    setup: Setup,
    first: FirstLine,
    reader: &mut ScriptReader,
    script: &mut S,
    files: &mut F,
    page: &mut Vec<u8>,
    out: &mut O,
) -> RunEnd
    requires good { IsConfiguration setup }
    requires event { is_event first.event ≡ true }
    requires place { reader.old.place ≤ total_limit }
    ensures runs { (base : Option (List ℕ)) (l : SourceLine) → stated l.bytes ≡ Some
        (first.moment, first.event)
        → Wrote base (O.contents out.old) page.old.items []
        → FirstRuns (told_files (F.texts files.old) (F.opened files.old) (F.opened files.new))
        (prepend_known reader.old.held (S.left script.old))
        (paged base (O.contents out.new) page.new.items) setup l
        (λ shelf configs bytes. run_first shelf configs reader.old.place (lines bytes) first.moment
        first.event) result }
    ensures adds { Adds (F.opened files.old) (F.opened files.new) }
    ensures opens { (l : SourceLine) → stated l.bytes ≡ Some (first.moment, first.event)
        → IfSome (prepend_known reader.old.held (S.left script.old))
        (λ bytes. Added (F.opened files.old) (F.opened files.new)
        (RunOpened 0 (l ∷ lines bytes) result)) }
    ensures reached { ReachesEnd result (prepend_known reader.old.held (S.left script.old))
        (S.left script.new) }
    ensures missing { IfMissed (missed result) (IsNotTold (F.texts files.old)) }
    ensures causes { RunHasCauses (S.faults script.old) (S.faults script.new) (F.faults files.old)
        (F.faults files.new) (O.faults out.old) (O.faults out.new) result }
    ensures texts { F.texts files.new ≡ F.texts files.old }
    ensures end { IsRunEnd result }
{
    match first_kind(&first.event) {
        FirstEvent::Begin { offset } => {
            let at = Beginning {
                moment: first.moment,
                offset,
            };
            run_begun(alloc, setup, at, reader, script, files, page, out)
        }
        FirstEvent::Act => RunEnd::Script(1),
        FirstEvent::Other => run_from(alloc, setup, first, reader, script, files, page, out),
    }
}

// Runs a script from this first line on.
fn run_stated<S: Source, F: Files, O: Sink>(
    alloc: Global,
    setup: Setup,
    line: &[u8],
    reader: &mut ScriptReader,
    script: &mut S,
    files: &mut F,
    page: &mut Vec<u8>,
    out: &mut O,
) -> RunEnd
    requires good { IsConfiguration setup }
    requires place { reader.old.place ≤ total_limit }
    ensures runs { (base : Option (List ℕ)) → Wrote base (O.contents out.old) page.old.items []
        → FirstRuns (told_files (F.texts files.old) (F.opened files.old) (F.opened files.new))
        (prepend_known reader.old.held (S.left script.old))
        (paged base (O.contents out.new) page.new.items) setup (whole_line line.now)
        (λ shelf configs bytes. run_stated shelf configs reader.old.place (lines bytes)
        (stated line.now)) result }
    ensures adds { Adds (F.opened files.old) (F.opened files.new) }
    ensures opens { IfSome (prepend_known reader.old.held (S.left script.old))
        (λ bytes. Added (F.opened files.old) (F.opened files.new)
        (RunOpened 0 (whole_line line.now ∷ lines bytes) result)) }
    ensures reached { ReachesEnd result (prepend_known reader.old.held (S.left script.old))
        (S.left script.new) }
    ensures missing { IfMissed (missed result) (IsNotTold (F.texts files.old)) }
    ensures causes { RunHasCauses (S.faults script.old) (S.faults script.new) (F.faults files.old)
        (F.faults files.new) (O.faults out.old) (O.faults out.new) result }
    ensures texts { F.texts files.new ≡ F.texts files.old }
    ensures end { IsRunEnd result }
{
    match read_event(alloc, line) {
        Ok((moment, event)) => {
            let first = FirstLine { moment, event };
            run_first(alloc, setup, first, reader, script, files, page, out)
        }
        Err(EntryFault::BadEntry) => RunEnd::Script(1),
        Err(EntryFault::WantOfMemory) => RunEnd::WantOfMemory,
    }
}

/// Runs a script over a configuration. A reconfiguration names its file, which is opened among these; each line's entry is
/// written, and the acts that are due then. What is not written at the end is on the page.
pub fn replay<S: Source, F: Files, O: Sink>(
    alloc: Global,
    setup: Setup,
    script: &mut S,
    files: &mut F,
    page: &mut Vec<u8>,
    out: &mut O,
) -> RunEnd
    // What it comes to, where the script and the files tell, by the texts of names or by openings: the run of the script's lines.
    ensures runs { (base : Option (List ℕ)) → Wrote base (O.contents out.old) page.old.items []
        → ScriptRuns (told_files (F.texts files.old) (F.opened files.old) (F.opened files.new))
        (S.left script.old) (paged base (O.contents out.new) page.new.items) setup result }
    // Openings are added alone.
    ensures adds { Adds (F.opened files.old) (F.opened files.new) }
    // Where the script tells: each file that it names in a line which was run was opened once, in the order of the lines; and at the line at which
    // the run ended, the file that it names, at most.
    ensures opens { IfSome (S.left script.old)
        (λ bytes. Added (F.opened files.old) (F.opened files.new)
        (RunOpened 0 (lines bytes) result)) }
    // After `Ok` nothing of the script is left to be read.
    ensures reached { ReachesEnd result (S.left script.old) (S.left script.new) }
    // A file that is missed is told nowhere.
    ensures missing { IfMissed (missed result) (IsNotTold (F.texts files.old)) }
    // A fault has its cause, and no fault leaves the counts.
    ensures causes { RunHasCauses (S.faults script.old) (S.faults script.new) (F.faults files.old)
        (F.faults files.new) (O.faults out.old) (O.faults out.new) result }
    ensures texts { F.texts files.new ≡ F.texts files.old }
    ensures end { IsRunEnd result }
{
    // For the proof: what holds of the configuration.
    setup.config().facts();
    let held = match Held::new(alloc, CHUNK) {
        Ok(held) => held,
        Err(WantOfMemory) => return RunEnd::WantOfMemory,
    };
    let mut reader = ScriptReader { held, place: 0 };
    let mut line = Vec::new(alloc);
    match next_line(&mut reader.held, script, &mut reader.place, &mut line) {
        Ok(LineFound::Whole) => {}
        Ok(LineFound::End) => return run_empty(alloc, setup, page, out),
        Ok(LineFound::Faulty) => return RunEnd::Script(1),
        Err(Unread::Failed) => return RunEnd::ReadFault,
        Err(Unread::WantOfMemory) => return RunEnd::WantOfMemory,
    }
    run_stated(
        alloc,
        setup,
        line.as_slice(),
        &mut reader,
        script,
        files,
        page,
        out,
    )
}
