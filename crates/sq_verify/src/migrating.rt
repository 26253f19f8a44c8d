//! A journal of version 1 written as one of version 2.
ghost use Rattle.std.specs.Prelude.{◌≡◌, ◌+◌, ◌-◌, ◌^◌, ◌<◌, ◌≤◌, ◌++◌, ◌∷◌, [], ℕ, List, Option, IfErr, IfSome, IsErrOf, OnOk, true};
ghost use Rattle.std.specs.Io.KnownBytes.{IsAtEnd};
ghost use Rattle.sq_outside.specs.Causes.{Rose};
ghost use Rattle.sq_outside.specs.SourceLines.{lines};
ghost use Rattle.sq_machine.specs.Events.{is_begin};
ghost use Rattle.sq_journal.specs.Lines.{spaced_words};
ghost use Rattle.sq_journal.specs.ToldReading.{entry_of};
ghost use Rattle.sq_verify.specs.Migrating.{MigrateHasCauses, Migrates, MigratesLine, PutsEntry, PutsText, first_behind, is_in_place, placed, read_journal};
ghost use Rattle.sq_journal.specs.Reading.{ReadsText};
ghost use Rattle.sq_replay.specs.Runs.{Wrote};
ghost use Rattle.sq_replay.specs.declared.page.Unwritten.TheVariants as untold;
ghost use Rattle.sq_verify.specs.declared.migrating.MigrateFault.TheVariants as fault;

use crate::comparing::epoch_behind;
use sq_base::{EpochNo, WantOfMemory};
use sq_journal::{EntryFault, print_numbered, read_entry};
use sq_machine::{Entry, Event};
use sq_outside::{Held, LineFound, Sink, Source, Unread, next_line};
use sq_replay::{Unwritten, put_line};
use std::alloc::Global;
use thiserror::Error;

/// How many bytes are read from a source at a time.
const CHUNK: usize = 65_536;

/// Why a journal was not migrated to its end.
#[derive(Clone, Copy, Debug, Error)]
pub enum MigrateFault {
    /// The line with this number, from 1, is no entry in its place, has no LF, or is over a limit.
    #[error("line {0} is no entry in its place")]
    Script(u64),
    /// The source failed, behind lines whose entries were written, or are on the page.
    #[error("a read failed")]
    ReadFault,
    /// The sink failed; a part of what the page held was written.
    #[error("a write failed")]
    WriteFault,
    /// Memory was refused, behind lines whose entries were written, or are on the page; a part of the next may be there too.
    #[error("out of memory")]
    WantOfMemory,
}

// The entry of a line, in its place.
fn line_entry(alloc: Global, is_first: bool, line: &[u8]) -> Result<Entry, EntryFault>
    ensures { ReadsText result (placed is_first (entry_of (spaced_words line.now))) }
{
    match read_entry(alloc, line) {
        Ok(entry) => {
            if is_in_place(is_first, &entry.event) {
                Ok(entry)
            } else {
                Err(EntryFault::BadEntry)
            }
        }
        Err(fault) => Err(fault),
    }
}

fn is_in_place(is_first: bool, event: &Event) -> bool
    ensures { result ≡ is_in_place is_first event.now }
{
    if is_first {
        is_begin(event)
    } else {
        !is_begin(event)
    }
}

fn is_begin(event: &Event) -> bool
    ensures { result ≡ is_begin event.now }
{
    match event {
        Event::Begin { offset: _ } => true,
        _ => false,
    }
}

// Puts a line on the page behind the version line.
fn put_first<O: Sink>(text: &[u8], page: &mut Vec<u8>, out: &mut O) -> Result<(), Unwritten>
    ensures puts { PutsText (O.contents out.old) (O.contents out.new) page.old.items page.new.items
        result (first_behind true (text.now ++ 10 ∷ [])) }
    ensures later { O.faults out.old ≤ O.faults out.new }
    ensures cause { IsErrOf result untold.Failed → Rose (O.faults out.old) (O.faults out.new) }
    ensures quiet { (IsErrOf result untold.Failed → ⊥) → O.faults out.new ≡ O.faults out.old }
{
    match put_line(b"journal 2", page, out) {
        Ok(()) => {}
        Err(untold) => return Err(untold),
    }
    put_line(text, page, out)
}

// Puts a line on the page, behind the version line where it is the first.
fn put_next<O: Sink>(
    is_first: bool,
    text: &[u8],
    page: &mut Vec<u8>,
    out: &mut O,
) -> Result<(), Unwritten>
    ensures puts { PutsText (O.contents out.old) (O.contents out.new) page.old.items page.new.items
        result (first_behind is_first (text.now ++ 10 ∷ [])) }
    ensures later { O.faults out.old ≤ O.faults out.new }
    ensures cause { IsErrOf result untold.Failed → Rose (O.faults out.old) (O.faults out.new) }
    ensures quiet { (IsErrOf result untold.Failed → ⊥) → O.faults out.new ≡ O.faults out.old }
{
    if is_first {
        put_first(text, page, out)
    } else {
        put_line(text, page, out)
    }
}

// Puts the line of an entry on the page, behind so many others, the last of which has this epoch. The answer is its epoch.
fn put_entry<O: Sink>(
    alloc: Global,
    count: u64,
    epoch: EpochNo,
    entry: &Entry,
    page: &mut Vec<u8>,
    out: &mut O,
) -> Result<EpochNo, MigrateFault>
    requires { count < 2 ^ 63 - 1 }
    ensures puts { PutsEntry (O.contents out.old) (O.contents out.new) page.old.items page.new.items
        count epoch entry.now result }
    ensures later { O.faults out.old ≤ O.faults out.new }
    ensures write { IsErrOf result fault.WriteFault → Rose (O.faults out.old) (O.faults out.new) }
    ensures quiet { (IsErrOf result fault.WriteFault → ⊥) → O.faults out.new ≡ O.faults out.old }
{
    let next = epoch_behind(epoch, &entry.event);
    let text = match print_numbered(alloc, count + 1, next, entry) {
        Ok(text) => text,
        Err(WantOfMemory) => return Err(MigrateFault::WantOfMemory),
    };
    match put_next(count == 0, text.as_bytes(), page, out) {
        Ok(()) => Ok(next),
        Err(Unwritten::Failed) => Err(MigrateFault::WriteFault),
        Err(Unwritten::WantOfMemory) => Err(MigrateFault::WantOfMemory),
    }
}

// Puts the entry of a line on the page, behind so many others, the last of which has this epoch. The answer is its epoch.
fn migrate_line<O: Sink>(
    alloc: Global,
    count: u64,
    epoch: EpochNo,
    line: &[u8],
    page: &mut Vec<u8>,
    out: &mut O,
) -> Result<EpochNo, MigrateFault>
    requires { count < 2 ^ 63 - 1 }
    ensures line { MigratesLine (O.contents out.old) (O.contents out.new) page.old.items
        page.new.items count epoch line.now result }
    ensures later { O.faults out.old ≤ O.faults out.new }
    ensures write { IsErrOf result fault.WriteFault → Rose (O.faults out.old) (O.faults out.new) }
    ensures quiet { (IsErrOf result fault.WriteFault → ⊥) → O.faults out.new ≡ O.faults out.old }
{
    let entry = match line_entry(alloc, count == 0, line) {
        Ok(entry) => entry,
        Err(EntryFault::BadEntry) => return Err(MigrateFault::Script(count + 1)),
        Err(EntryFault::WantOfMemory) => return Err(MigrateFault::WantOfMemory),
    };
    put_entry(alloc, count, epoch, &entry, page, out)
}

// How a journal with so many entries ends.
fn ended(count: u64) -> Result<(), MigrateFault>
    ensures some { OnOk result (0 < count) }
    ensures none { IfErr result (λ f. (f ≡ fault.Script 1) × (count ≡ 0)) }
{
    if count == 0 {
        Err(MigrateFault::Script(1))
    } else {
        Ok(())
    }
}

/// Reads a journal of version 1 and writes it as one of version 2, line by line. It judges no answer. The first line that
/// is no entry, a first entry that is no `begin`, a later one that is, and a journal without an entry end it. What is
/// written is gathered on the page; what that holds at the end is left to the caller. After `Ok` all entries were written
/// or are on the page, and the journal is read to its end.
pub fn migrate<S: Source, O: Sink>(
    alloc: Global,
    journal: &mut S,
    page: &mut Vec<u8>,
    out: &mut O,
) -> Result<(), MigrateFault>
    ensures migrates { IfSome (S.left journal.old)
        (λ bytes. (base : Option (List ℕ)) → Wrote base (O.contents out.old) page.old.items []
        → Migrates base (O.contents out.new) page.new.items (read_journal (lines bytes)) result) }
    ensures end { OnOk result
        (IfSome (S.left journal.old) (λ bytes. IsAtEnd (S.left journal.new))) }
    ensures causes { MigrateHasCauses (S.faults journal.old) (S.faults journal.new)
        (O.faults out.old) (O.faults out.new) result }
{
    let mut held = match Held::new(alloc, CHUNK) {
        Ok(held) => held,
        Err(WantOfMemory) => return Err(MigrateFault::WantOfMemory),
    };
    let mut line = Vec::new(alloc);
    let mut place = 0;
    let mut count = 0;
    let mut epoch = EpochNo(1);
    'lines: loop {
        match next_line(&mut held, journal, &mut place, &mut line) {
            Ok(LineFound::Whole) => {}
            Ok(LineFound::End) => return ended(count),
            Ok(LineFound::Faulty) => return Err(MigrateFault::Script(count + 1)),
            Err(Unread::Failed) => return Err(MigrateFault::ReadFault),
            Err(Unread::WantOfMemory) => return Err(MigrateFault::WantOfMemory),
        }
        match migrate_line(alloc, count, epoch, line.as_slice(), page, out) {
            Ok(next) => epoch = next,
            Err(fault) => return Err(fault),
        }
        count += 1;
    }
}
