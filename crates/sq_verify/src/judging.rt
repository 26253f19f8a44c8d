//! The lines of a journal, judged one after another.
ghost use Rattle.std.specs.Prelude.{◌≡◌, ◌+◌, ◌-◌, ◌<◌, ◌≤◌, ◌^◌, List, true};
ghost use Rattle.std.specs.Io.KnownBytes.{prepend_known};
ghost use Rattle.sq_outside.specs.SourceLines.{lines, total_limit};
ghost use Rattle.sq_rules.specs.Configurations.{Configuration};
ghost use Rattle.sq_machine.specs.Entries.{History, is_event};
ghost use Rattle.sq_verify.specs.JournalLines.{noted_in};
ghost use Rattle.sq_verify.specs.Judging.{event_line, found_at, judged_lines, line_number, stated_line};
ghost use Rattle.sq_verify.specs.Promised.{ComparesNext, Goes, HasNext, IsNext, JudgeHasCauses, JudgesOver, ReachesEnd, Stands, halt_for};

use crate::comparing::{compare, epoch_behind, read_line};
use crate::findings::Finding;
use crate::halts::Halt;
use crate::players::Player;
use crate::playing::play;
use crate::taking::journal_line;
use crate::versions::Version;
use sq_base::{EpochNo, Moment, Text};
use sq_journal::EntryFault;
use sq_machine::{Entry, Event, later};
use sq_outside::{Held, LineFound, Source, Unread};
use sq_replay::Stop;
use std::alloc::Global;

// How a stop ends a journal.
fn halt_for(stop: Stop) -> Halt
    ensures { result ≡ halt_for stop }
{
    match stop {
        Stop::Refused => Halt::NoLine,
        Stop::WantOfMemory => Halt::WantOfMemory,
    }
}

// Compares a line with the text of the entry behind so many, the last of which has this epoch. The answer is the epoch of
// the entry.
fn compare_next(
    alloc: Global,
    version: Version,
    count: u64,
    epoch: EpochNo,
    entry: &Entry,
    line: &[u8],
) -> Result<EpochNo, Halt>
    requires { count < 2 ^ 63 - 1 }
    ensures { ComparesNext version count epoch entry.now line.now result }
{
    let next = epoch_behind(epoch, &entry.event);
    match compare(alloc, version, count + 1, next, entry, line) {
        Ok(()) => Ok(next),
        Err(halt) => Err(halt),
    }
}

// Judges the event of a line behind so many entries, the last of which has this epoch. The answer is the epoch of its entry.
fn judge_event<M: Player>(
    alloc: Global,
    version: Version,
    count: u64,
    epoch: EpochNo,
    line: &[u8],
    now: Moment,
    event: Event,
    machine: &mut M,
) -> Result<EpochNo, Halt>
    requires event { is_event event ≡ true }
    requires count { count < 2 ^ 63 - 1 }
    ensures goes { (configs : List Configuration) (h : History)
        → Stands (M.machine machine.old) count epoch configs h → HasNext configs h event
        → Goes (M.machine machine.new) (count + 1) configs
        (event_line version configs h line.now now event) result }
{
    let moment = later(now, machine.latest());
    let answer = match play(alloc, machine, &event, now) {
        Ok(answer) => answer,
        Err(stop) => return Err(halt_for(stop)),
    };
    let entry = Entry {
        moment,
        event,
        answer,
    };
    compare_next(alloc, version, count, epoch, &entry, line)
}

// Judges a line behind so many entries.
fn judge_line<M: Player>(
    alloc: Global,
    version: Version,
    count: u64,
    epoch: EpochNo,
    line: &[u8],
    machine: &mut M,
) -> Result<EpochNo, Halt>
    requires { count < 2 ^ 63 - 1 }
    ensures goes { (configs : List Configuration) (h : History)
        → Stands (M.machine machine.old) count epoch configs h
        → IsNext configs h (noted_in version line.now)
        → Goes (M.machine machine.new) (count + 1) configs
        (stated_line version configs h line.now (noted_in version line.now)) result }
{
    let entry = match read_line(alloc, version, line) {
        Ok(entry) => entry,
        Err(EntryFault::BadEntry) => return Err(Halt::NoLine),
        Err(EntryFault::WantOfMemory) => return Err(Halt::WantOfMemory),
    };
    let now = entry.moment;
    judge_event(
        alloc,
        version,
        count,
        epoch,
        line,
        now,
        entry.event,
        machine,
    )
}

/// The number of the line behind so many entries.
pub fn line_number(version: Version, count: u64) -> u64
    requires { count < 2 ^ 63 - 1 }
    ensures { result ≡ line_number version count }
{
    match version {
        Version::One => count + 1,
        Version::Two => count + 2,
    }
}

/// What is found where a line ends the journal, behind so many entries.
pub fn halted(version: Version, count: u64, line: Vec<u8>, halt: Halt) -> Finding
    requires { count < 2 ^ 63 - 1 }
    ensures { result ≡ found_at version count line.items halt }
{
    match halt {
        Halt::NoLine => Finding::Script(line_number(version, count)),
        Halt::Differs(machine) => Finding::Differs {
            line: line_number(version, count),
            machine,
            journal: Text::from_vec(line),
        },
        Halt::WantOfMemory => Finding::WantOfMemory,
    }
}

/// Judges the lines behind the first entry, where `place` bytes came before them.
pub fn judge_rest<M: Player, S: Source>(
    alloc: Global,
    version: Version,
    machine: &mut M,
    place: u64,
    held: &mut Held,
    journal: &mut S,
) -> Finding
    requires { place ≤ total_limit }
    ensures judges { (configs : List Configuration) (h : History)
        → Stands (M.machine machine.old) 1 1 configs h
        → JudgesOver (prepend_known held.old (S.left journal.old)) version configs h
        (λ bytes. judged_lines version configs h place (lines bytes)) result }
    ensures end { ReachesEnd result (prepend_known held.old (S.left journal.old))
        (prepend_known held.new (S.left journal.new)) }
    ensures causes { JudgeHasCauses (S.faults journal.old) (S.faults journal.new) result }
{
    let mut count = 1;
    let mut epoch = EpochNo(1);
    let mut place = place;
    let mut line = Vec::new(alloc);
    'lines: loop {
        match journal_line(version, held, journal, &mut place, &mut line) {
            Ok(LineFound::Whole) => {}
            Ok(LineFound::End) => return Finding::Verified(count),
            Ok(LineFound::Faulty) => return halted(version, count, line, Halt::NoLine),
            Err(Unread::Failed) => return Finding::ReadFault,
            Err(Unread::WantOfMemory) => return Finding::WantOfMemory,
        }
        match judge_line(alloc, version, count, epoch, line.as_slice(), machine) {
            Ok(next) => epoch = next,
            Err(halt) => return halted(version, count, line, halt),
        }
        count += 1;
    }
}
