//! Entries with their numbers and epochs, as the lines of a journal of version 2 have them.
ghost use Rattle.std.specs.Prelude.{◌≡◌, ℕ, IfOk};
ghost use Rattle.sq_machine.specs.Entries.{Noted};
ghost use Rattle.sq_journal.specs.Journals.{numbered_text};
ghost use Rattle.sq_journal.specs.Lines.{spaced_words};
ghost use Rattle.sq_journal.specs.Putting.{Puts};
ghost use Rattle.sq_journal.specs.Reading.{ReadsText, Is};
ghost use Rattle.sq_journal.specs.ToldReading.{numbered_of};
ghost use Rattle.sq_journal.specs.Values.{IsNumber, IsNoted};

use crate::entries::{entry, write_entry};
use crate::faults::EntryFault;
use crate::putting::{Printed, put, put_decimal, put_epoch};
use crate::values::number;
use crate::words::EntryWords;
use sq_base::{EpochNo, Text, WantOfMemory};
use sq_machine::Entry;
use sq_outside::{Failed, Sink};
use std::alloc::Global;

/// Writes the text of an entry after its number and its epoch, without LF, piece by piece and without memory.
/// After a fault a front of it was written, and not all.
pub fn write_numbered<O: Sink>(
    number: u64,
    epoch: EpochNo,
    entry: &Entry,
    to: &mut O,
) -> Result<(), Failed>
    ensures { Puts (O.contents to.old) (O.contents to.new) (O.faults to.old) (O.faults to.new)
        result (numbered_text number epoch entry.now) }
{
    match put_decimal(to, number) {
        Ok(()) => {}
        Err(Failed) => return Err(Failed),
    }
    match put_epoch(to, epoch) {
        Ok(()) => {}
        Err(Failed) => return Err(Failed),
    }
    match put(to, b" ") {
        Ok(()) => {}
        Err(Failed) => return Err(Failed),
    }
    write_entry(entry, to)
}

/// The text of an entry after its number, which is at most 2^63 - 1, and its epoch, without LF.
pub fn print_numbered(
    alloc: Global,
    number: u64,
    epoch: EpochNo,
    entry: &Entry,
) -> Result<Text, WantOfMemory>
    requires { IsNumber number }
    ensures { IfOk result (λ text. text ≡ numbered_text number epoch entry.now) }
{
    let mut printed = Printed::new(alloc);
    match write_numbered(number, epoch, entry, &mut printed) {
        Ok(()) => Ok(printed.into_text()),
        Err(Failed) => Err(WantOfMemory),
    }
}

/// The number, the epoch and the entry whose text the line is, which stands without its LF.
pub fn read_numbered(alloc: Global, line: &[u8]) -> Result<(u64, EpochNo, Entry), EntryFault>
    // What is read is printed so.
    ensures found { IfOk result
        (λ r. IsNumber r.0 × IsNumber r.1 × IsNoted r.2 × (line.now ≡ numbered_text r.0 r.1 r.2)) }
    // What is printed so is read, unless memory runs out: there is no other entry, and no fault.
    ensures only { (number epoch : ℕ) (e : Noted) → IsNumber number → IsNumber epoch → IsNoted e
        → line.now ≡ numbered_text number epoch e
        → Is (number, epoch, e) result }
    // No two numbered entries have one text.
    ensures one { (m n i j : ℕ) (a b : Noted) → IsNumber m → IsNumber n → IsNumber i → IsNumber j
        → IsNoted a → IsNoted b
        → numbered_text m i a ≡ numbered_text n j b → (m ≡ n) × (i ≡ j) × (a ≡ b) }
    // So it is what the reading of the line's words gives.
    ensures read { ReadsText result (numbered_of (spaced_words line.now)) }
{
    numbered(alloc, line)
}

// The number, the epoch and the entry of the line's words.
#[tactic(auto, using(crate::proofs::NumberedLaws::no_entry), unfolding(crate::specs::ToldReading::numbered_of))]
fn numbered(alloc: Global, line: &[u8]) -> Result<(u64, EpochNo, Entry), EntryFault>
    ensures { ReadsText result (numbered_of (spaced_words line.now)) }
{
    let mut words = EntryWords::new(line);
    let place = number(&mut words)?;
    let epoch = EpochNo(number(&mut words)?);
    match words.rest() {
        None => Err(EntryFault::BadEntry),
        Some(rest) => match entry(alloc, rest) {
            Ok(entry) => Ok((place, epoch, entry)),
            Err(fault) => Err(fault),
        },
    }
}
