//! Lines of a journal of version 2, written without memory.
ghost use Rattle.std.specs.Prelude.{◌≡◌, ◌++◌, ◌<◌, ◌^◌};
ghost use Rattle.sq_journal.specs.Journals.{next_number, numbered_line, version_line};
ghost use Rattle.sq_journal.specs.Putting.{Puts};
ghost use Rattle.sq_journal.specs.Sinks.{epoch_behind, line_after};

use crate::numbered::write_numbered;
use sq_base::EpochNo;
use sq_machine::{Entry, Event};
use sq_outside::{COUNT_LIMIT, Failed, Sink, write_all};

// Writes the line of a numbered entry.
fn write_entry_line<O: Sink>(
    number: u64,
    epoch: EpochNo,
    entry: &Entry,
    to: &mut O,
) -> Result<(), Failed>
    ensures { Puts (O.contents to.old) (O.contents to.new) (O.faults to.old) (O.faults to.new)
        result (numbered_line number epoch entry.now) }
{
    match write_numbered(number, epoch, entry, to) {
        Ok(()) => {}
        Err(Failed) => return Err(Failed),
    }
    put(b"\n", to)
}

// Writes these bytes.
fn put<O: Sink>(bytes: &[u8], to: &mut O) -> Result<(), Failed>
    ensures { Puts (O.contents to.old) (O.contents to.new) (O.faults to.old) (O.faults to.new)
        result bytes.now }
{
    write_all(to, bytes)
}

// Writes the version line, and then the line of a numbered entry.
fn write_first<O: Sink>(
    number: u64,
    epoch: EpochNo,
    entry: &Entry,
    to: &mut O,
) -> Result<(), Failed>
    ensures { Puts (O.contents to.old) (O.contents to.new) (O.faults to.old) (O.faults to.new)
        result (version_line ++ numbered_line number epoch entry.now) }
{
    match put(b"journal 2\n", to) {
        Ok(()) => {}
        Err(Failed) => return Err(Failed),
    }
    write_entry_line(number, epoch, entry, to)
}

/// Writes the line of an entry with its number and its epoch, behind the version line where it is the first.
pub fn write_next<O: Sink>(
    is_first: bool,
    number: u64,
    epoch: EpochNo,
    entry: &Entry,
    to: &mut O,
) -> Result<(), Failed>
    ensures { Puts (O.contents to.old) (O.contents to.new) (O.faults to.old) (O.faults to.new)
        result (line_after is_first number epoch entry.now) }
{
    if is_first {
        write_first(number, epoch, entry, to)
    } else {
        write_entry_line(number, epoch, entry, to)
    }
}

/// The numbers of entries and epochs stay at the greatest number.
pub fn next_number(number: u64) -> u64
    ensures next { result ≡ next_number number }
    ensures bound { result < 2 ^ 63 }
{
    number.saturating_add(1).min(COUNT_LIMIT)
}

/// The epoch of an entry, where that of the one before is this.
pub fn next_epoch(epoch: EpochNo, event: &Event) -> EpochNo
    ensures { result ≡ epoch_behind epoch event.now }
{
    match event {
        Event::Reconfigure { text: _ } => EpochNo(next_number(epoch.0)),
        _ => epoch,
    }
}
