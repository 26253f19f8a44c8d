//! A journal, judged from its beginning.
ghost use Rattle.std.specs.Prelude.{◌≡◌, ◌≤◌, Some, length, IfErr, IfSome, OnOk};
ghost use Rattle.std.specs.Io.KnownBytes.{prepend_known};
ghost use Rattle.sq_outside.specs.SourceLines.{FindsWithin, Moves, lines, total_limit};
ghost use Rattle.sq_machine.specs.Entries.{History, entry_at};
ghost use Rattle.sq_verify.specs.Audits.{Audits, text_of};
ghost use Rattle.sq_verify.specs.JournalLines.{line_limit, noted_in, text_in};
ghost use Rattle.sq_machine.specs.declared.entries.Event.TheVariants as event;
ghost use Rattle.sq_machine.specs.declared.entries.Told.TheVariants as told;
ghost use Rattle.sq_verify.specs.Judging.{begun_line, epochs_of, judged, judged_behind, judged_first, stated_first};
ghost use Rattle.sq_verify.specs.Promised.{Begins, BeginsLine, Comes, Compares, JudgeHasCauses, LacksLine, ReachesEnd};
ghost use Rattle.sq_verify.specs.Tellable.{IsTellable, Verifies};
ghost use Rattle.sq_verify.specs.declared.versions.Version.{Version};
ghost use Rattle.sq_verify.specs.declared.versions.Version.TheVariants as version;

use crate::comparing::{compare, read_line};
use crate::findings::Finding;
use crate::halts::Halt;
use crate::judging::{halted, judge_rest, line_number};
use crate::players::Player;
use crate::playing::configuration_facts;
use crate::taking::journal_line;
use crate::versions::{Version, is_version_line};
use sq_base::{EpochNo, Moment, WantOfMemory};
use sq_journal::EntryFault;
use sq_machine::{Entry, Event, Offset, Told};
use sq_outside::{Held, LineFound, Source, Unread};
use sq_urlmatch::Setup;
use std::alloc::Global;

/// How many bytes of a journal are read at once.
const CHUNK: usize = 65_536;

// Compares the line of the first entry with the text of it.
fn compare_first(
    alloc: Global,
    version: Version,
    line: &[u8],
    now: Moment,
    offset: Offset,
) -> Result<(), Halt>
    ensures { Compares (text_in version 1 1 (entry_at now (event.Begin offset) (told.Epoch 1)))
        line.now result }
{
    let entry = Entry {
        moment: now,
        event: Event::Begin { offset },
        answer: Told::Epoch(EpochNo(1)),
    };
    compare(alloc, version, 1, EpochNo(1), &entry, line)
}

// Begins the machine where the first entry says, and compares its line.
fn begin<M: Player>(
    alloc: Global,
    version: Version,
    setup: Setup,
    line: &[u8],
    now: Moment,
    offset: Offset,
) -> Result<M, Halt>
    ensures { BeginsLine M.machine setup (begun_line version line.now now (event.Begin offset))
        result }
{
    let machine = match M::begin(alloc, setup, offset, now) {
        Ok(machine) => machine,
        Err(WantOfMemory) => return Err(Halt::WantOfMemory),
    };
    match compare_first(alloc, version, line, now, offset) {
        Ok(()) => Ok(machine),
        Err(halt) => Err(halt),
    }
}

// The moment and the offset at which the line of the first entry has the machine begin.
fn beginning(alloc: Global, version: Version, line: &[u8]) -> Result<(Moment, Offset), Halt>
    ensures { Begins version line.now (stated_first version line.now (noted_in version line.now))
        result }
{
    let entry = match read_line(alloc, version, line) {
        Ok(entry) => entry,
        Err(EntryFault::BadEntry) => return Err(Halt::NoLine),
        Err(EntryFault::WantOfMemory) => return Err(Halt::WantOfMemory),
    };
    match &entry.event {
        Event::Begin { offset } => Ok((entry.moment, *offset)),
        _ => Err(Halt::NoLine),
    }
}

// Begins the machine by the line of the first entry.
fn begin_line<M: Player>(
    alloc: Global,
    version: Version,
    setup: Setup,
    line: &[u8],
) -> Result<M, Halt>
    ensures { BeginsLine M.machine setup (stated_first version line.now (noted_in version line.now))
        result }
{
    match beginning(alloc, version, line) {
        Ok(at) => begin(alloc, version, setup, line, at.0, at.1),
        Err(halt) => Err(halt),
    }
}

// Judges a journal from the line of its first entry on, which can be read; `place` bytes came with it and before it.
fn judge_from<M: Player, S: Source>(
    alloc: Global,
    version: Version,
    setup: Setup,
    line: Vec<u8>,
    place: u64,
    held: &mut Held,
    journal: &mut S,
) -> Finding
    requires { place ≤ total_limit }
    ensures judges { IfSome (prepend_known held.old (S.left journal.old))
        (λ bytes. Comes (judged_behind version setup line.items place (lines bytes)) result) }
    ensures end { ReachesEnd result (prepend_known held.old (S.left journal.old))
        (prepend_known held.new (S.left journal.new)) }
    ensures causes { JudgeHasCauses (S.faults journal.old) (S.faults journal.new) result }
{
    configuration_facts(&setup);
    let mut machine: M = match begin_line(alloc, version, setup, line.as_slice()) {
        Ok(machine) => machine,
        Err(halt) => return halted(version, 0, line, halt),
    };
    judge_rest(alloc, version, &mut machine, place, held, journal)
}

// Takes the first line of a journal, or the one behind it; or says what is found without one that can be read.
fn first_line<S: Source>(
    version: Version,
    held: &mut Held,
    journal: &mut S,
    place: &mut u64,
    line: &mut Vec<u8>,
) -> Result<(), Finding>
    requires { place.old ≤ total_limit }
    ensures whole { OnOk result
        (FindsWithin (line_limit version) place.old (prepend_known held.old (S.left journal.old))
        (prepend_known held.new (S.left journal.new)) line.new.items LineFound.Whole) }
    ensures place { OnOk result (Moves place.old place.new line.new.items LineFound.Whole) }
    ensures lacks { IfErr result
        (λ f. LacksLine version place.old (prepend_known held.old (S.left journal.old)) f) }
    ensures quiet { OnOk result (S.faults journal.new ≡ S.faults journal.old) }
    ensures causes { IfErr result
        (λ f. JudgeHasCauses (S.faults journal.old) (S.faults journal.new) f) }
{
    match journal_line(version, held, journal, place, line) {
        Ok(LineFound::Whole) => Ok(()),
        Ok(LineFound::End | LineFound::Faulty) => Err(Finding::Script(line_number(version, 0))),
        Err(Unread::Failed) => Err(Finding::ReadFault),
        Err(Unread::WantOfMemory) => Err(Finding::WantOfMemory),
    }
}

// Judges a journal of version 2 behind its first line.
fn judge_second<M: Player, S: Source>(
    alloc: Global,
    setup: Setup,
    place: u64,
    held: &mut Held,
    journal: &mut S,
) -> Finding
    requires { place ≤ total_limit }
    ensures judges { IfSome (prepend_known held.old (S.left journal.old))
        (λ bytes. Comes (judged_first version.Two (epochs_of version.Two setup (lines bytes)) place
        (lines bytes)) result) }
    ensures end { ReachesEnd result (prepend_known held.old (S.left journal.old))
        (prepend_known held.new (S.left journal.new)) }
    ensures causes { JudgeHasCauses (S.faults journal.old) (S.faults journal.new) result }
{
    let mut place = place;
    let mut line = Vec::new(alloc);
    match first_line(Version::Two, held, journal, &mut place, &mut line) {
        Ok(()) => judge_from::<M, S>(alloc, Version::Two, setup, line, place, held, journal),
        Err(finding) => finding,
    }
}

// Judges what is held and left of a journal, from its first line on.
fn judge_held<M: Player, S: Source>(
    alloc: Global,
    setup: Setup,
    held: &mut Held,
    journal: &mut S,
) -> Finding
    ensures judges { IfSome (prepend_known held.old (S.left journal.old))
        (λ bytes. Comes (judged setup (lines bytes)) result) }
    ensures end { ReachesEnd result (prepend_known held.old (S.left journal.old))
        (prepend_known held.new (S.left journal.new)) }
    ensures causes { JudgeHasCauses (S.faults journal.old) (S.faults journal.new) result }
{
    let mut place = 0;
    let mut line = Vec::new(alloc);
    match first_line(Version::One, held, journal, &mut place, &mut line) {
        Ok(()) => {}
        Err(finding) => return finding,
    }
    if is_version_line(line.as_slice()) {
        judge_second::<M, S>(alloc, setup, place, held, journal)
    } else {
        judge_from::<M, S>(alloc, Version::One, setup, line, place, held, journal)
    }
}

// Judges a journal from its first line on.
fn judge_all<M: Player, S: Source>(alloc: Global, setup: Setup, journal: &mut S) -> Finding
    ensures judges { IfSome (S.left journal.old)
        (λ bytes. Comes (judged setup (lines bytes)) result) }
    ensures end { ReachesEnd result (S.left journal.old) (S.left journal.new) }
    ensures causes { JudgeHasCauses (S.faults journal.old) (S.faults journal.new) result }
{
    match Held::new(alloc, CHUNK) {
        Ok(mut held) => judge_held::<M, S>(alloc, setup, &mut held, journal),
        Err(WantOfMemory) => Finding::WantOfMemory,
    }
}

/// Judges a journal of version 1 or 2, line by line, over the configuration that it begins with: each line against the line
/// that the machine has for its event. What is verified is, byte for byte, the text of a history of which all holds that
/// holds of every run, and was read to its end.
pub fn judge<M: Player, S: Source>(alloc: Global, setup: Setup, journal: &mut S) -> Finding
    ensures judges { IfSome (S.left journal.old)
        (λ bytes. Comes (judged setup (lines bytes)) result) }
    ensures audits { Audits setup (S.left journal.old) result }
    // A journal that tells a legal history is verified, unless a read fails or memory is wanting.
    ensures complete { (v : Version) (h : History) → IsTellable setup v h
        → S.left journal.old ≡ Some (text_of v h) → Verifies result (length h) }
    ensures end { ReachesEnd result (S.left journal.old) (S.left journal.new) }
    ensures causes { JudgeHasCauses (S.faults journal.old) (S.faults journal.new) result }
{
    configuration_facts(&setup);
    judge_all::<M, S>(alloc, setup, journal)
}
