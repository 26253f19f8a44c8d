//! That every entry is made of values of its types: numbers below their limits, and bytes.
ghost use Rattle.std.specs.Prelude.{◌≡◌, true};
ghost use Rattle.sq_machine.specs.Entries.{is_event};
ghost use Rattle.sq_base.specs.Texts.{AreBytes};
ghost use Rattle.sq_journal.specs.Values.{AreFields, HoldsValues, IsTold, IsWhy, IsNoted, IsChannel, has_amount};

use sq_base::{Field, Text};
use sq_machine::{Entry, Event, Told};
use sq_rules::Why;

/// Every entry is one of those of which `read_entry` speaks. This is a law: it changes nothing.
pub fn holds_values(entry: &Entry)
    ensures { IsNoted entry.now }
{
    let _moment = entry.moment.0;
    event_values(&entry.event);
    told_values(&entry.answer);
}

// Every event holds values of its types.
fn event_values(event: &Event)
    requires { is_event event.now ≡ true }
    ensures { HoldsValues event.now }
{
    match event {
        Event::Begin { offset } => read_minutes(offset.0),
        Event::Open { conn, addr, port } => {
            read_number(conn.0);
            read_number(*port as u64);
            read_address(addr.v6, addr.number)
        }
        Event::Close { conn } | Event::Seat { conn } => read_number(conn.0),
        Event::Ask {
            conn,
            method,
            target,
            fields,
        } => {
            read_pair(conn.0, method);
            read_text(target);
            field_values(fields.as_slice())
        }
        Event::Step { check } | Event::Take { check } => read_number(check.0),
        Event::Started { epoch, class } | Event::StartFail { epoch, class } => {
            read_pair(epoch.0, class)
        }
        Event::Line { proc, bytes } => read_pair(proc.0, bytes),
        Event::Died { proc } => read_number(proc.0),
        Event::Act => {}
        Event::Reconfigure { text } => read_text(text),
        Event::Grant { seat, wanted: _ } | Event::Leave { seat } => read_number(seat.0),
    }
}

// Reads a number, which its type bounds.
fn read_number(_number: u64) {}

// Reads the minutes of an offset, which its type bounds.
fn read_minutes(_minutes: i32) {}

// Reads an address, which its type bounds.
fn read_address(_v6: bool, _number: u128) {}

// A channel is below its type's limit.
fn read_channel(channel: Option<u32>)
    ensures { IsChannel channel }
{
    match channel {
        None => {}
        Some(number) => read_number(number as u64),
    }
}

// A text is of bytes.
fn read_text(text: &Text)
    ensures { AreBytes text.now }
{
    let _bytes = text.as_bytes();
}

// The same of a text beside a number.
fn read_pair(_number: u64, text: &Text)
    ensures { AreBytes text.now }
{
    read_text(text);
}

// Every field is of bytes.
fn field_values(fields: &[Field])
    ensures { AreFields fields.now }
{
    for field in fields {
        read_text(&field.name);
        read_text(&field.value);
    }
}

// Every answer holds values of its types.
fn told_values(answer: &Told)
    requires { has_amount answer.now ≡ true }
    ensures { IsTold answer.now }
{
    match answer {
        Told::Epoch(epoch) => read_number(epoch.0),
        Told::Check(check) => read_number(check.0),
        Told::Took(class) => read_text(class),
        Told::Waits(question) => read_number(question.0),
        Told::Judged { epoch, outcome } => {
            read_number(epoch.0);
            why_values(&outcome.why)
        }
        Told::Proc(proc) | Told::Stop(proc) => read_number(proc.0),
        Told::Reply { question, word: _ } => read_number(question.0),
        Told::Start { epoch, class } => read_pair(epoch.0, class),
        Told::Send {
            proc,
            question,
            channel,
            key,
        } => {
            read_channel(*channel);
            read_number(proc.0);
            read_pair(question.0, key)
        }
        Told::Seat { seat, pool } => {
            read_number(seat.0);
            read_number(*pool as u64)
        }
        Told::Granted(bytes) => read_number(*bytes),
        Told::Fine | Told::Done | Told::Bad | Told::Stray | Told::NoSeat => {}
    }
}

// Every reason holds values of its types.
fn why_values(why: &Why)
    ensures { IsWhy why.now }
{
    match why {
        Why::Rule(number) => read_number(*number as u64),
        Why::Fault {
            rule,
            acl,
            cause: _,
        } => read_pair(*rule as u64, acl),
        Why::Default | Why::Empty => {}
    }
}
