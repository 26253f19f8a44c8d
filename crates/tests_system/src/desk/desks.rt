//! A desk that runs the job, and what comes of it.
ghost use Rattle.std.specs.Prelude.{◌≡◌, pos, []};
ghost use Rattle.sq_journal.specs.Memory.{mem_history};

use crate::desk::calls::{Gave, call, call_helper, call_hub, is_same, setup_of};
use crate::desk::jobs::{BEGIN, CONF, LINES};
use sq_base::Moment;
use sq_cache::HashSeed;
use sq_calls::{DeskCalls, DeskFault, HelperCalls};
use sq_desk::{Desk, DeskStart};
use sq_journal::{Journal, MemJournal, print_entry, read_entry, read_event};
use sq_machine::{Entry, Event, Offset, Told};
use sq_turns::Hub;
use sq_urlmatch::Setup;
use std::alloc::Global;
use std::marker::Brand;
use std::process::Abort;

/// For how many entries a journal has room.
const ROOM: usize = 100;

/// What came of the job. Each call has a mark: `.` where it was made and told what the line says, `B` of a bad or stray
/// line, `-` where no act was due, `R` where the machine refused it, `J` where the note failed, `S` where the desk had
/// stopped, `M` where memory was wanting, and `x` where something else came than the line says.
#[derive(Drop)]
pub struct Ran {
    pub marks: String,
    pub journal: MemJournal,
    pub refusals: u64,
}

// The mark of a fault.
fn fault_mark(fault: DeskFault) -> &'static str {
    match fault {
        DeskFault::Stopped => "S",
        DeskFault::Engine(_) => "R",
        DeskFault::JournalFault => "J",
        DeskFault::WantOfMemory => "M",
    }
}

// The mark of an answer, where this is wanted.
fn told_mark(rt: &impl Abort, alloc: Global, told: &Told, wanted: &Told) -> &'static str {
    if !is_same(rt, alloc, told, wanted) {
        return "x";
    }
    match told {
        Told::Bad | Told::Stray => "B",
        _ => ".",
    }
}

/// The mark of what a call gave, where this is wanted.
pub fn gave_mark(rt: &impl Abort, alloc: Global, gave: &Gave, wanted: &Told) -> &'static str {
    match gave {
        Ok(Some(told)) => told_mark(rt, alloc, told, wanted),
        Ok(None) => "x",
        Err(fault) => fault_mark(*fault),
    }
}

/// The mark of a line whose call a hub makes, at the moment of its clock.
pub fn hub_mark<H: Hub>(rt: &impl Abort, alloc: Global, hub: &mut H, row: &str) -> &'static str {
    let Entry { event, answer, .. } = read_entry(alloc, row.as_bytes()).expect(rt, "an entry");
    gave_mark(rt, alloc, &call_hub(rt, alloc, hub, event), &answer)
}

/// Whether the call of a line adds an entry, where nothing fails.
pub fn is_noted(row: &str) -> bool {
    !(row.ends_with(" => refused") || row.ends_with(" => none"))
}

// The moment and the event of a line, and the answer that is wanted, where its call adds an entry.
fn read_row(rt: &impl Abort, alloc: Global, row: &str) -> (Moment, Event, Option<Told>) {
    if is_noted(row) {
        let entry = read_entry(alloc, row.as_bytes()).expect(rt, "an entry");
        return (entry.moment, entry.event, Some(entry.answer));
    }
    let (line, _) = row.split_once(" => ").expect(rt, "an answer");
    let (moment, event) = read_event(alloc, line.as_bytes()).expect(rt, "an event");
    (moment, event, None)
}

// The mark of what a call gave, where this is wanted, or no entry.
fn row_mark(rt: &impl Abort, alloc: Global, gave: &Gave, wanted: &Option<Told>) -> &'static str {
    match (wanted, gave) {
        (Some(wanted), gave) => gave_mark(rt, alloc, gave, wanted),
        (None, Ok(None)) => "-",
        (None, Ok(Some(_))) => "x",
        (None, Err(fault)) => fault_mark(*fault),
    }
}

// The mark of a line.
fn mark<D: DeskCalls>(rt: &impl Abort, alloc: Global, desk: &mut D, row: &str) -> &'static str {
    let (moment, event, wanted) = read_row(rt, alloc, row);
    let gave = call(rt, alloc, desk, event, moment);
    row_mark(rt, alloc, &gave, &wanted)
}

/// The mark of a line whose call a thread of a helper process makes.
pub fn helper_mark<D: HelperCalls>(
    rt: &impl Abort,
    alloc: Global,
    desk: &mut D,
    row: &str,
) -> &'static str {
    let (moment, event, wanted) = read_row(rt, alloc, row);
    let gave = call_helper(rt, alloc, desk, event, moment);
    row_mark(rt, alloc, &gave, &wanted)
}

/// Puts a part behind a text.
pub fn append(rt: &impl Abort, text: &mut String, part: &str) {
    text.push_str(part).expect(rt, "memory");
}

// Makes the calls of the job.
fn run_lines<D: DeskCalls>(rt: &impl Abort, alloc: Global, desk: &mut D) -> String {
    let mut marks = String::new(alloc);
    for row in LINES.lines() {
        append(rt, &mut marks, mark(rt, alloc, desk, row));
    }
    marks
}

// A desk begins over the journal, and runs the job.
fn run_job<R: Abort, F: DeskStart>(rt: &R, alloc: Global, setup: Setup, journal: MemJournal) -> Ran
    requires first { F.first ≡ record { config = setup; offset = pos 0 } }
    requires empty { mem_history journal ≡ [] }
{
    let seed = HashSeed::fixed();
    let begun = Desk::<MemJournal, F>::new(alloc, setup, Offset(0), journal, Moment(0), seed);
    match begun {
        Ok(mut desk) => {
            let marks = run_lines(rt, alloc, &mut desk);
            let refusals = desk.refusals();
            Ran {
                marks,
                journal: desk.finish(),
                refusals,
            }
        }
        Err((fault, journal)) => {
            let mut marks = String::new(alloc);
            append(rt, &mut marks, fault_mark(fault));
            Ran {
                marks,
                journal,
                refusals: 0,
            }
        }
    }
}

/// What comes of the job over a journal of which these notes fail.
pub fn run<R: Abort>(rt: &R, alloc: Global, fails: Vec<u64>) -> Ran {
    let setup = setup_of(rt, alloc, CONF.as_bytes());
    let journal = MemJournal::new(alloc, ROOM, fails, Vec::new(alloc)).expect(rt, "memory");
    run_job::<R, Brand>(rt, alloc, setup, journal)
}

// Whether the text of an entry is this.
fn is_text(rt: &impl Abort, alloc: Global, entry: &Entry, text: &str) -> bool {
    let printed = print_entry(alloc, entry).expect(rt, "memory");
    printed.as_bytes() == text.as_bytes()
}

/// Whether these entries are the first of the job that is made whole.
pub fn is_front(rt: &impl Abort, alloc: Global, entries: &[Entry]) -> bool {
    let mut rest = entries.iter();
    let Some(first) = rest.next() else {
        return true;
    };
    if !is_text(rt, alloc, first, BEGIN) {
        return false;
    }
    for row in LINES.lines() {
        if is_noted(row) {
            let Some(entry) = rest.next() else {
                return true;
            };
            if !is_text(rt, alloc, entry, row) {
                return false;
            }
        }
    }
    rest.next().is_none()
}
