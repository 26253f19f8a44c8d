//! Entries printed and read.
ghost use Rattle.std.specs.Prelude.{◌≡◌, ◌∷◌, ◌++◌, [], ℕ, IfOk, codes};
ghost use Rattle.sq_machine.specs.Entries.{Noted};
ghost use Rattle.sq_machine.specs.declared.entries.Event.{Event};
ghost use Rattle.sq_journal.specs.EntryText.{entry_text, dated_text, event_words, told_words};
ghost use Rattle.sq_journal.specs.Lines.{after_spaces, spaced_words};
ghost use Rattle.sq_journal.specs.Putting.{Puts};
ghost use Rattle.sq_journal.specs.Reading.{ReadsText, Is, dated_of};
ghost use Rattle.sq_journal.specs.ToldReading.{entry_of};
ghost use Rattle.sq_journal.specs.Values.{IsNumber, IsEvent, IsNoted};

use crate::answers::told;
use crate::events::event;
use crate::faults::EntryFault;
use crate::names::arrow;
use crate::printing::{put_event, put_name};
use crate::putting::{Printed, put_moment};
use crate::rows::is_row;
use crate::told_printing::put_told;
use crate::values::number;
use crate::words::EntryWords;
use sq_base::{Moment, Text, WantOfMemory};
use sq_machine::{Entry, Event, Told};
use sq_outside::{Failed, Sink};
use std::alloc::Global;

/// Writes the text of an entry, its line without LF, piece by piece and without memory. After a fault a front
/// of it was written, and not all.
pub fn write_entry<O: Sink>(entry: &Entry, to: &mut O) -> Result<(), Failed>
    ensures { Puts (O.contents to.old) (O.contents to.new) (O.faults to.old) (O.faults to.new)
        result (entry_text entry.now) }
{
    match put_moment(to, entry.moment) {
        Ok(()) => {}
        Err(Failed) => return Err(Failed),
    }
    put_rest(to, &entry.event, &entry.answer)
}

// Puts what follows the moment.
fn put_rest<O: Sink>(to: &mut O, event: &Event, answer: &Told) -> Result<(), Failed>
    ensures { Puts (O.contents to.old) (O.contents to.new) (O.faults to.old) (O.faults to.new)
        result (after_spaces (event_words event.now)
        ++ (after_spaces (codes "=>" ∷ []) ++ after_spaces (told_words answer.now))) }
{
    match put_event(to, event) {
        Ok(()) => {}
        Err(Failed) => return Err(Failed),
    }
    match put_name(to, b"=>") {
        Ok(()) => {}
        Err(Failed) => return Err(Failed),
    }
    put_told(to, answer)
}

/// The text of an entry: its line without LF.
pub fn print_entry(alloc: Global, entry: &Entry) -> Result<Text, WantOfMemory>
    ensures { IfOk result (λ text. text ≡ entry_text entry.now) }
{
    let mut printed = Printed::new(alloc);
    match write_entry(entry, &mut printed) {
        Ok(()) => Ok(printed.into_text()),
        Err(Failed) => Err(WantOfMemory),
    }
}

/// The entry whose text the line is, which stands without its LF.
pub fn read_entry(alloc: Global, line: &[u8]) -> Result<Entry, EntryFault>
    // What is read is printed so.
    ensures found { IfOk result (λ e. IsNoted e × (line.now ≡ entry_text e)) }
    // What is printed so is read, unless memory runs out: there is no other entry, and no fault.
    ensures only { (e : Noted) → IsNoted e → line.now ≡ entry_text e → Is e result }
    // So it is what the reading of the line's words gives.
    ensures read { ReadsText result (entry_of (spaced_words line.now)) }
    // No two entries have one text.
    ensures one { (a b : Noted) → IsNoted a → IsNoted b → entry_text a ≡ entry_text b → a ≡ b }
{
    entry(alloc, line)
}

/// The moment and the event whose text the line is, as a script's line has them, without its LF.
pub fn read_event(alloc: Global, line: &[u8]) -> Result<(Moment, Event), EntryFault>
    // What is read is printed so.
    ensures found { IfOk result
        (λ r. IsNumber r.0 × IsEvent r.1 × (line.now ≡ dated_text r.0 r.1)) }
    // What is printed so is read, unless memory runs out: there is no other event, and no fault.
    ensures only { (moment : ℕ) (event : Event) → IsNumber moment → IsEvent event
        → line.now ≡ dated_text moment event → Is (moment, event) result }
    // A line is one event: no two events with their moments have one text.
    ensures one { (m n : ℕ) (a b : Event) → IsNumber m → IsNumber n → IsEvent a → IsEvent b
        → dated_text m a ≡ dated_text n b → (m ≡ n) × (a ≡ b) }
    // So it is what the reading of the line's words gives.
    ensures read { ReadsText result (dated_of (spaced_words line.now)) }
{
    dated(alloc, line)
}

/// The entry of the line's words.
#[tactic(auto, unfolding(crate::specs::ToldReading::entry_of))]
pub fn entry(alloc: Global, line: &[u8]) -> Result<Entry, EntryFault>
    ensures { ReadsText result (entry_of (spaced_words line.now)) }
{
    let mut words = EntryWords::new(line);
    let moment = Moment(number(&mut words)?);
    let event = event(alloc, &mut words)?;
    arrow(&mut words)?;
    let answer = told(alloc, &mut words)?;
    if words.is_done() && is_row(&event, &answer) {
        Ok(Entry {
            moment,
            event,
            answer,
        })
    } else {
        Err(EntryFault::BadEntry)
    }
}

// The moment and the event of the line's words.
#[tactic(auto, unfolding(crate::specs::Reading::dated_of))]
fn dated(alloc: Global, line: &[u8]) -> Result<(Moment, Event), EntryFault>
    ensures { ReadsText result (dated_of (spaced_words line.now)) }
{
    let mut words = EntryWords::new(line);
    let moment = Moment(number(&mut words)?);
    let event = event(alloc, &mut words)?;
    if words.is_done() {
        Ok((moment, event))
    } else {
        Err(EntryFault::BadEntry)
    }
}
