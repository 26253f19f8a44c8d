//! The words of events, put to a sink without memory.
ghost use Rattle.std.specs.Prelude.{◌∷◌, [], map, decimal};
ghost use Rattle.std.specs.Fmt.{signed_decimal};
ghost use Rattle.sq_base.specs.Bytes.{space};
ghost use Rattle.sq_base.specs.Escapes.{text_word};
ghost use Rattle.sq_journal.specs.EntryText.{event_words, field_word};
ghost use Rattle.sq_journal.specs.Lines.{after_spaces};
ghost use Rattle.sq_journal.specs.Printing.{piece_text};
ghost use Rattle.sq_journal.specs.Putting.{Puts};
ghost use Rattle.sq_machine.specs.declared.entries.Event.TheVariants as event;

use crate::addresses::put_address;
use crate::escapes::{put_escaped, put_text};
use crate::putting::{put, put_decimal};
use itoa::Buffer;
use sq_base::{Addr, ConnNo, Field, SeatNo, Text};
use sq_machine::{Event, Offset};
use sq_outside::{Failed, Sink};

/// A word of a line, and what it says.
#[derive(Clone, Copy)]
pub enum EntryPiece<'a> {
    Plain(&'a [u8]),
    Number(u64),
    Offset(i32),
    Address(Addr),
    Escaped(&'a [u8]),
    Channel(Option<u32>),
}

// Puts a word.
fn put_piece<O: Sink>(to: &mut O, piece: &EntryPiece<'_>) -> Result<(), Failed>
    ensures { Puts (O.contents to.old) (O.contents to.new) (O.faults to.old) (O.faults to.new)
        result (piece_text piece.now) }
{
    match piece {
        EntryPiece::Plain(bytes) => put(to, bytes),
        EntryPiece::Number(number) => put_decimal(to, *number),
        EntryPiece::Offset(minutes) => put_offset(to, *minutes),
        EntryPiece::Address(addr) => put_address(to, *addr),
        EntryPiece::Escaped(bytes) => put_text(to, bytes),
        EntryPiece::Channel(None) => put(to, b"-"),
        EntryPiece::Channel(Some(number)) => put_decimal(to, *number as u64),
    }
}

// Puts minutes, with a sign where they are below zero.
fn put_offset<O: Sink>(to: &mut O, minutes: i32) -> Result<(), Failed>
    ensures { Puts (O.contents to.old) (O.contents to.new) (O.faults to.old) (O.faults to.new)
        result (signed_decimal minutes) }
{
    let mut buffer = Buffer::new();
    put(to, buffer.format(minutes).as_bytes())
}

// Puts a space and a word.
fn put_spaced<O: Sink>(to: &mut O, piece: &EntryPiece<'_>) -> Result<(), Failed>
    ensures { Puts (O.contents to.old) (O.contents to.new) (O.faults to.old) (O.faults to.new)
        result (space ∷ piece_text piece.now) }
{
    match put(to, b" ") {
        Ok(()) => {}
        Err(Failed) => return Err(Failed),
    }
    put_piece(to, piece)
}

/// Puts each word after a space.
pub fn put_pieces<O: Sink>(to: &mut O, pieces: &[EntryPiece]) -> Result<(), Failed>
    ensures { Puts (O.contents to.old) (O.contents to.new) (O.faults to.old) (O.faults to.new)
        result (after_spaces (map piece_text pieces.now)) }
{
    for piece in pieces {
        match put_spaced(to, piece) {
            Ok(()) => {}
            Err(Failed) => return Err(Failed),
        }
    }
    Ok(())
}

/// Puts a name alone.
pub fn put_name<O: Sink>(to: &mut O, name: &[u8]) -> Result<(), Failed>
    ensures { Puts (O.contents to.old) (O.contents to.new) (O.faults to.old) (O.faults to.new)
        result (after_spaces (name.now ∷ [])) }
{
    put_pieces(to, &[EntryPiece::Plain(name)])
}

/// Puts a name and a number.
pub fn put_number<O: Sink>(to: &mut O, name: &[u8], number: u64) -> Result<(), Failed>
    ensures { Puts (O.contents to.old) (O.contents to.new) (O.faults to.old) (O.faults to.new)
        result (after_spaces (name.now ∷ decimal number ∷ [])) }
{
    put_pieces(to, &[EntryPiece::Plain(name), EntryPiece::Number(number)])
}

/// Puts a name, a number and a text.
pub fn put_pair<'a, O: Sink>(
    to: &mut O,
    name: &'a [u8],
    number: u64,
    text: &'a Text,
) -> Result<(), Failed>
    ensures { Puts (O.contents to.old) (O.contents to.new) (O.faults to.old) (O.faults to.new)
        result (after_spaces (name.now ∷ decimal number ∷ text_word text.now ∷ [])) }
{
    put_pieces(
        to,
        &[
            EntryPiece::Plain(name),
            EntryPiece::Number(number),
            EntryPiece::Escaped(text.as_bytes()),
        ],
    )
}

/// Puts a name and a text.
pub fn put_named<'a, O: Sink>(to: &mut O, name: &'a [u8], text: &'a Text) -> Result<(), Failed>
    ensures { Puts (O.contents to.old) (O.contents to.new) (O.faults to.old) (O.faults to.new)
        result (after_spaces (name.now ∷ text_word text.now ∷ [])) }
{
    put_pieces(
        to,
        &[
            EntryPiece::Plain(name),
            EntryPiece::Escaped(text.as_bytes()),
        ],
    )
}

// Puts a space, and a field's name, `:` and value as one word.
fn put_field<O: Sink>(to: &mut O, field: &Field) -> Result<(), Failed>
    ensures { Puts (O.contents to.old) (O.contents to.new) (O.faults to.old) (O.faults to.new)
        result (space ∷ field_word field.now) }
{
    match put(to, b" ") {
        Ok(()) => {}
        Err(Failed) => return Err(Failed),
    }
    match put_escaped(to, field.name.as_bytes()) {
        Ok(()) => {}
        Err(Failed) => return Err(Failed),
    }
    match put(to, b":") {
        Ok(()) => {}
        Err(Failed) => return Err(Failed),
    }
    put_escaped(to, field.value.as_bytes())
}

// Puts the word of each field after a space.
fn put_fields<O: Sink>(to: &mut O, fields: &[Field]) -> Result<(), Failed>
    ensures { Puts (O.contents to.old) (O.contents to.new) (O.faults to.old) (O.faults to.new)
        result (after_spaces (map field_word fields.now)) }
{
    for field in fields {
        match put_field(to, field) {
            Ok(()) => {}
            Err(Failed) => return Err(Failed),
        }
    }
    Ok(())
}

/// Puts the words of an event.
pub fn put_event<O: Sink>(to: &mut O, event: &Event) -> Result<(), Failed>
    ensures { Puts (O.contents to.old) (O.contents to.new) (O.faults to.old) (O.faults to.new)
        result (after_spaces (event_words event.now)) }
{
    match event {
        Event::Begin { offset } => put_begin(to, *offset),
        Event::Open { conn, addr, port } => put_open(to, *conn, *addr, *port),
        Event::Close { conn } => put_number(to, b"close", conn.0),
        Event::Ask {
            conn,
            method,
            target,
            fields,
        } => put_ask(to, *conn, method, target, fields.as_slice()),
        Event::Step { check } => put_number(to, b"step", check.0),
        Event::Take { check } => put_number(to, b"take", check.0),
        Event::Started { epoch, class } => put_pair(to, b"started", epoch.0, class),
        Event::StartFail { epoch, class } => put_pair(to, b"startfail", epoch.0, class),
        Event::Line { proc, bytes } => put_pair(to, b"line", proc.0, bytes),
        Event::Died { proc } => put_number(to, b"died", proc.0),
        Event::Act => put_name(to, b"act"),
        Event::Reconfigure { text } => put_named(to, b"reconfigure", text),
        Event::Seat { conn } => put_number(to, b"seat", conn.0),
        Event::Grant { seat, wanted } => put_grant(to, *seat, *wanted),
        Event::Leave { seat } => put_number(to, b"leave", seat.0),
    }
}

// Puts the words of a `begin`.
fn put_begin<O: Sink>(to: &mut O, offset: Offset) -> Result<(), Failed>
    ensures { Puts (O.contents to.old) (O.contents to.new) (O.faults to.old) (O.faults to.new)
        result (after_spaces (event_words (event.Begin offset))) }
{
    put_pieces(
        to,
        &[EntryPiece::Plain(b"begin"), EntryPiece::Offset(offset.0)],
    )
}

// Puts the words of an `open`.
fn put_open<O: Sink>(to: &mut O, conn: ConnNo, addr: Addr, port: u16) -> Result<(), Failed>
    ensures { Puts (O.contents to.old) (O.contents to.new) (O.faults to.old) (O.faults to.new)
        result (after_spaces (event_words (event.Open conn addr port))) }
{
    put_pieces(
        to,
        &[
            EntryPiece::Plain(b"open"),
            EntryPiece::Number(conn.0),
            EntryPiece::Address(addr),
            EntryPiece::Number(port as u64),
        ],
    )
}

// Puts the words of an `ask`.
fn put_ask<O: Sink>(
    to: &mut O,
    conn: ConnNo,
    method: &Text,
    target: &Text,
    fields: &[Field],
) -> Result<(), Failed>
    ensures { Puts (O.contents to.old) (O.contents to.new) (O.faults to.old) (O.faults to.new)
        result (after_spaces (event_words (event.Ask conn method.now target.now fields.now))) }
{
    match put_request(to, conn, method, target) {
        Ok(()) => {}
        Err(Failed) => return Err(Failed),
    }
    put_fields(to, fields)
}

// Puts the words of an `ask` up to its fields.
fn put_request<'a, O: Sink>(
    to: &mut O,
    conn: ConnNo,
    method: &'a Text,
    target: &'a Text,
) -> Result<(), Failed>
    ensures { Puts (O.contents to.old) (O.contents to.new) (O.faults to.old) (O.faults to.new)
        result (after_spaces (event_words (event.Ask conn method.now target.now []))) }
{
    put_pieces(
        to,
        &[
            EntryPiece::Plain(b"ask"),
            EntryPiece::Number(conn.0),
            EntryPiece::Escaped(method.as_bytes()),
            EntryPiece::Escaped(target.as_bytes()),
        ],
    )
}

// Puts the words of a `grant`.
fn put_grant<O: Sink>(to: &mut O, seat: SeatNo, wanted: u64) -> Result<(), Failed>
    ensures { Puts (O.contents to.old) (O.contents to.new) (O.faults to.old) (O.faults to.new)
        result (after_spaces (event_words (event.Grant seat wanted))) }
{
    put_pieces(
        to,
        &[
            EntryPiece::Plain(b"grant"),
            EntryPiece::Number(seat.0),
            EntryPiece::Number(wanted),
        ],
    )
}
