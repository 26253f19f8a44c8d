//! Events read from words.
ghost use Rattle.std.specs.Prelude.{Some};
ghost use Rattle.sq_journal.specs.Reading.{ReadsFront, event_after, event_in, fields_from};
ghost use Rattle.sq_journal.specs.declared.names.EventName.TheVariants as name;

use crate::faults::EntryFault;
use crate::names::{EventName, event_name};
use crate::values::{address, below, number, offset, read_field, text};
use crate::words::EntryWords;
use sq_base::{CheckNo, ConnNo, EpochNo, Fields, Listed, ProcNo, SeatNo};
use sq_machine::Event;
use std::alloc::Global;

/// An event, by its name.
#[tactic(auto, unfolding(crate::specs::Reading::event_in))]
pub fn event(alloc: Global, words: &mut EntryWords) -> Result<Event, EntryFault>
    ensures { ReadsFront result words.new (event_in words.old) }
{
    let name = event_name(words)?;
    event_after(alloc, name, words)
}

// What stands after an event's name.
#[tactic(auto, unfolding(crate::specs::Reading::event_after))]
fn event_after(alloc: Global, name: EventName, words: &mut EntryWords) -> Result<Event, EntryFault>
    ensures { ReadsFront result words.new (event_after name words.old) }
{
    match name {
        EventName::Begin => begin(words),
        EventName::Open => open(alloc, words),
        EventName::Close => {
            let conn = ConnNo(number(words)?);
            Ok(Event::Close { conn })
        }
        EventName::Ask => ask(alloc, words),
        EventName::Step => {
            let check = CheckNo(number(words)?);
            Ok(Event::Step { check })
        }
        EventName::Take => {
            let check = CheckNo(number(words)?);
            Ok(Event::Take { check })
        }
        EventName::Started => started(alloc, words),
        EventName::StartFail => start_fail(alloc, words),
        EventName::Line => line(alloc, words),
        EventName::Died => {
            let proc = ProcNo(number(words)?);
            Ok(Event::Died { proc })
        }
        EventName::Act => Ok(Event::Act),
        EventName::Reconfigure => reconfigure(alloc, words),
        EventName::Seat => {
            let conn = ConnNo(number(words)?);
            Ok(Event::Seat { conn })
        }
        EventName::Grant => grant(words),
        EventName::Leave => {
            let seat = SeatNo(number(words)?);
            Ok(Event::Leave { seat })
        }
    }
}

// `begin OFFSET`
#[tactic(auto, unfolding(crate::specs::Reading::event_after))]
fn begin(words: &mut EntryWords) -> Result<Event, EntryFault>
    ensures { ReadsFront result words.new (event_after name.Begin words.old) }
{
    let offset = offset(words)?;
    Ok(Event::Begin { offset })
}

// `open CONN ADDR PORT`
#[tactic(auto, unfolding(crate::specs::Reading::event_after))]
fn open(alloc: Global, words: &mut EntryWords) -> Result<Event, EntryFault>
    ensures { ReadsFront result words.new (event_after name.Open words.old) }
{
    let conn = ConnNo(number(words)?);
    let addr = address(alloc, words)?;
    let port = below(words, 65536)? as u16;
    Ok(Event::Open { conn, addr, port })
}

// `ask CONN METHOD TARGET FIELD ..`
#[tactic(auto, unfolding(crate::specs::Reading::event_after))]
fn ask(alloc: Global, words: &mut EntryWords) -> Result<Event, EntryFault>
    ensures { ReadsFront result words.new (event_after name.Ask words.old) }
{
    let conn = ConnNo(number(words)?);
    let method = text(alloc, words)?;
    let target = text(alloc, words)?;
    let fields = fields(alloc, words)?;
    Ok(Event::Ask {
        conn,
        method,
        target,
        fields,
    })
}

// The fields at the front, up to the first word that is no field's.
fn fields(alloc: Global, words: &mut EntryWords) -> Result<Fields, EntryFault>
    ensures { ReadsFront result words.new (Some (fields_from words.old)) }
{
    let mut fields = Listed::new(alloc);
    while let Some(word) = words.peek() {
        match read_field(alloc, word) {
            Ok(field) => {
                fields.push(field)?;
                let _field = words.next();
            }
            Err(EntryFault::BadEntry) => break,
            Err(EntryFault::WantOfMemory) => return Err(EntryFault::WantOfMemory),
        }
    }
    Ok(fields)
}

// `started EPOCH CLASS`
#[tactic(auto, unfolding(crate::specs::Reading::event_after))]
fn started(alloc: Global, words: &mut EntryWords) -> Result<Event, EntryFault>
    ensures { ReadsFront result words.new (event_after name.Started words.old) }
{
    let epoch = EpochNo(number(words)?);
    let class = text(alloc, words)?;
    Ok(Event::Started { epoch, class })
}

// `startfail EPOCH CLASS`
#[tactic(auto, unfolding(crate::specs::Reading::event_after))]
fn start_fail(alloc: Global, words: &mut EntryWords) -> Result<Event, EntryFault>
    ensures { ReadsFront result words.new (event_after name.StartFail words.old) }
{
    let epoch = EpochNo(number(words)?);
    let class = text(alloc, words)?;
    Ok(Event::StartFail { epoch, class })
}

// `line PROC BYTES`
#[tactic(auto, unfolding(crate::specs::Reading::event_after))]
fn line(alloc: Global, words: &mut EntryWords) -> Result<Event, EntryFault>
    ensures { ReadsFront result words.new (event_after name.Line words.old) }
{
    let proc = ProcNo(number(words)?);
    let bytes = text(alloc, words)?;
    Ok(Event::Line { proc, bytes })
}

// `reconfigure TEXT`
#[tactic(auto, unfolding(crate::specs::Reading::event_after))]
fn reconfigure(alloc: Global, words: &mut EntryWords) -> Result<Event, EntryFault>
    ensures { ReadsFront result words.new (event_after name.Reconfigure words.old) }
{
    let text = text(alloc, words)?;
    Ok(Event::Reconfigure { text })
}

// `grant SEAT WANTED`
#[tactic(auto, unfolding(crate::specs::Reading::event_after))]
fn grant(words: &mut EntryWords) -> Result<Event, EntryFault>
    ensures { ReadsFront result words.new (event_after name.Grant words.old) }
{
    let seat = SeatNo(number(words)?);
    let wanted = number(words)?;
    Ok(Event::Grant { seat, wanted })
}
