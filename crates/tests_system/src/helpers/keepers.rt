//! What a keeper reads of a helper's process, and hands to a desk.
use KeeperEnd::{Ended, ReadFault, Told};
use sq_base::{ProcNo, Text, WantOfMemory};
use sq_keeper::{Handed, KeeperEnd, MemDesk, read_lines};
use sq_outside_mem::MemSource;
use std::alloc::Global;
use std::process::Abort;
use std::sync::Wait;

/// A process that writes these bytes, of which a read gives at most `step`, and the listed reads fail;
/// and a desk that ends the reading at the line behind `wants` others, and has no memory at the listed
/// calls.
#[derive(Clone, Copy)]
struct Case {
    written: &'static [u8],
    step: usize,
    fails: &'static [u64],
    wants: u64,
    lacks: &'static [u64],
}

/// How the reading ends, and what the desk was handed: lines as `line|`, a stop and a death as `!stop|` and `!died|`.
type Outcome = (KeeperEnd, &'static [u8]);

static CASES: [(Case, Outcome); 3] = [
    (
        Case {
            written: b"OK\n\nER",
            step: 1,
            fails: &[],
            wants: 9,
            lacks: &[],
        },
        (Ended, b"OK||!died|"),
    ),
    (
        Case {
            written: b"OK\nERR\n",
            step: 9,
            fails: &[1],
            wants: 9,
            lacks: &[],
        },
        (ReadFault, b"!died|"),
    ),
    (
        Case {
            written: b"OK\nERR\n",
            step: 9,
            fails: &[],
            wants: 0,
            lacks: &[1],
        },
        (Told, b"OK|!stop|"),
    ),
];

fn put(shown: &mut Text, proc: ProcNo, what: &[u8]) -> Result<(), WantOfMemory> {
    if proc != ProcNo(7) {
        shown.append(b"!another ")?;
    }
    shown.append(what)?;
    shown.append(b"|")
}

fn put_one(shown: &mut Text, one: &Handed) -> Result<(), WantOfMemory> {
    match one {
        Handed::Line(proc, line) => put(shown, *proc, line.as_bytes()),
        Handed::Stop(proc) => put(shown, *proc, b"!stop"),
        Handed::Died(proc) => put(shown, *proc, b"!died"),
    }
}

fn put_all(shown: &mut Text, handed: &[Handed]) -> Result<(), WantOfMemory> {
    for one in handed {
        put_one(shown, one)?;
    }
    Ok(())
}

/// What the desk was handed of process 7, as the table writes it down.
fn shown<R: Abort>(rt: &R, alloc: Global, handed: &[Handed]) -> Text {
    let mut shown = Text::new(alloc);
    put_all(&mut shown, handed).expect(rt, "memory");
    shown
}

fn check_handed<R: Abort>(rt: &R, alloc: Global, desk: &MemDesk, wanted: &[u8]) {
    let handed = desk.handed().expect(rt, "all that was handed");
    let shown = shown(rt, alloc, handed);
    assert!(rt; shown.as_bytes() == wanted, "at {wanted:?}");
}

/// Ends the process unless a keeper that reads this source ends so, and the desk is handed this.
fn check_kept<R: Abort + Wait + Sync>(
    rt: &R,
    alloc: Global,
    source: &mut MemSource,
    desk: &mut MemDesk,
    end: KeeperEnd,
    wanted: &[u8],
) {
    let ended = read_lines(rt, alloc, source, ProcNo(7), desk);
    assert!(rt; ended == end, "at {wanted:?}");
    check_handed(rt, alloc, desk, wanted);
}

fn check_case<R: Abort + Wait + Sync>(
    rt: &R,
    alloc: Global,
    case: &Case,
    end: KeeperEnd,
    wanted: &[u8],
) {
    let text = Vec::from_slice(alloc, case.written).expect(rt, "memory");
    let fails = Vec::from_slice(alloc, case.fails).expect(rt, "memory");
    let mut source = MemSource::new(text, case.step, fails);
    let lacks = Vec::from_slice(alloc, case.lacks).expect(rt, "memory");
    let mut desk = MemDesk::new(alloc, case.wants, lacks);
    check_kept(rt, alloc, &mut source, &mut desk, end, wanted);
}

#[test]
fn keepers_hand_on_lines_and_then_one_death(rt: HostRuntime) {
    for (case, (end, handed)) in &CASES {
        check_case(&rt, rt.alloc(), case, *end, handed);
    }
}
