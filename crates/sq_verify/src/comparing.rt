//! Lines of a journal, read and compared with the machine's.
ghost use Rattle.std.specs.Prelude.{◌≡◌, ◌<◌, ◌^◌, IfOk};
ghost use Rattle.sq_journal.specs.Reading.{ReadsText};
ghost use Rattle.sq_journal.specs.Journals.{next_number};
ghost use Rattle.sq_journal.specs.Sinks.{epoch_behind};
ghost use Rattle.sq_verify.specs.JournalLines.{noted_in, text_in};
ghost use Rattle.sq_verify.specs.Promised.{Compares};
ghost use Rattle.sq_verify.specs.declared.versions.Version.TheVariants as version;

use crate::halts::Halt;
use crate::versions::Version;
use sq_base::{EpochNo, Text, WantOfMemory};
use sq_journal::{EntryFault, print_entry, print_numbered, read_entry, read_numbered};
use sq_machine::{Entry, Event};
use sq_outside::COUNT_LIMIT;
use std::alloc::Global;

/// The entry that a line states, which stands without its LF.
pub fn read_line(alloc: Global, version: Version, line: &[u8]) -> Result<Entry, EntryFault>
    ensures { ReadsText result (noted_in version line.now) }
{
    match version {
        Version::One => read_entry(alloc, line),
        Version::Two => read_second(alloc, line),
    }
}

// The entry of a numbered line.
fn read_second(alloc: Global, line: &[u8]) -> Result<Entry, EntryFault>
    ensures { ReadsText result (noted_in version.Two line.now) }
{
    match read_numbered(alloc, line) {
        Ok((_, _, entry)) => Ok(entry),
        Err(fault) => Err(fault),
    }
}

// The text of an entry with this number and this epoch.
fn print_line(
    alloc: Global,
    version: Version,
    number: u64,
    epoch: EpochNo,
    entry: &Entry,
) -> Result<Text, WantOfMemory>
    requires { number < 2 ^ 63 }
    ensures { IfOk result (λ text. text ≡ text_in version number epoch entry.now) }
{
    match version {
        Version::One => print_entry(alloc, entry),
        Version::Two => print_numbered(alloc, number, epoch, entry),
    }
}

/// Compares a line with the text of an entry.
pub fn compare(
    alloc: Global,
    version: Version,
    number: u64,
    epoch: EpochNo,
    entry: &Entry,
    line: &[u8],
) -> Result<(), Halt>
    requires { number < 2 ^ 63 }
    ensures { Compares (text_in version number epoch entry.now) line.now result }
{
    let text = match print_line(alloc, version, number, epoch, entry) {
        Ok(text) => text,
        Err(WantOfMemory) => return Err(Halt::WantOfMemory),
    };
    if text.as_bytes() == line {
        Ok(())
    } else {
        Err(Halt::Differs(text))
    }
}

// The next number; one stays at the greatest.
fn next_number(epoch: EpochNo) -> u64
    ensures next { result ≡ next_number epoch }
    ensures bound { result < 2 ^ 63 }
{
    epoch.0.saturating_add(1).min(COUNT_LIMIT)
}

/// The epoch of an entry, where that of the one before is this.
pub fn epoch_behind(epoch: EpochNo, event: &Event) -> EpochNo
    ensures { result ≡ epoch_behind epoch event.now }
{
    match event {
        Event::Reconfigure { text: _ } => EpochNo(next_number(epoch)),
        _ => epoch,
    }
}
