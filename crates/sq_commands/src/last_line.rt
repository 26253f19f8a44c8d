//! The last line of a command, which takes no memory.
ghost use Rattle.std.specs.Prelude.{◌≡◌, ◌≤◌, ◌++◌, ◌∷◌, [], true, decimal, OnOk, OnErr};
ghost use Rattle.std.specs.Io.KnownBytes.{Appends};
ghost use Rattle.sq_base.specs.Escapes.{escaped, text_word};
ghost use Rattle.sq_outside.specs.Causes.{HasCause};
ghost use Rattle.sq_outside.specs.Output.{Grew, IsPrefix, IsWritten};
ghost use Rattle.sq_commands.specs.Ends.{config_line, end_of, is_silent, last_line};
ghost use Rattle.sq_verify.specs.FindingText.{differs_text};

use crate::ends::Status;
use itoa::Buffer;
use percent_encoding::percent_encode;
use sq_journal::ESCAPES;
use sq_outside::{Failed, Sink, write_all, write_line};
use sq_verify::write_differs;

/// What a command answers to words that are none.
const USAGE: &[u8] =
    b"usage: aclproxy parse CONF | replay CONF SCRIPT | verify CONF JOURNAL | migrate JOURNAL | rehearse N | serve CONF [--port P] [--workers W] [--utc-offset M]";

// Writes bytes escaped, piece by piece.
fn write_escaped<O: Sink>(out: &mut O, bytes: &[u8]) -> Result<(), Failed>
    ensures ok { OnOk result
        (Appends (O.contents out.old) (O.contents out.new) (escaped bytes.now)) }
    ensures err { OnErr result
        (Grew (O.contents out.old) (O.contents out.new)
        (λ part. IsPrefix part (escaped bytes.now))) }
    ensures cause { HasCause (O.faults out.old) (O.faults out.new) result }
{
    for piece in percent_encode(bytes, ESCAPES) {
        match write_all(out, piece.as_bytes()) {
            Ok(()) => {}
            Err(Failed) => return Err(Failed),
        }
    }
    Ok(())
}

// Writes the word of a text.
#[tactic(auto, unfolding(sq_base::specs::Escapes::text_word))]
fn write_text<O: Sink>(out: &mut O, bytes: &[u8]) -> Result<(), Failed>
    ensures ok { OnOk result
        (Appends (O.contents out.old) (O.contents out.new) (text_word bytes.now)) }
    ensures err { OnErr result
        (Grew (O.contents out.old) (O.contents out.new)
        (λ part. IsPrefix part (text_word bytes.now))) }
    ensures cause { HasCause (O.faults out.old) (O.faults out.new) result }
{
    if bytes.is_empty() {
        return write_all(out, b"-");
    }
    if bytes == b"-".as_slice() {
        return write_all(out, b"%2D");
    }
    write_escaped(out, bytes)
}

// Writes a line that ends with the word of a text.
fn write_text_line<O: Sink>(out: &mut O, head: &[u8], bytes: &[u8]) -> Result<(), Failed>
    ensures ok { OnOk result
        (Appends (O.contents out.old) (O.contents out.new)
        (head.now ++ text_word bytes.now ++ 10 ∷ [])) }
    ensures err { OnErr result (Grew (O.contents out.old) (O.contents out.new)
        (λ part. IsPrefix part (head.now ++ text_word bytes.now ++ 10 ∷ []))) }
    ensures cause { HasCause (O.faults out.old) (O.faults out.new) result }
{
    match write_all(out, head) {
        Ok(()) => {}
        Err(Failed) => return Err(Failed),
    }
    match write_text(out, bytes) {
        Ok(()) => {}
        Err(Failed) => return Err(Failed),
    }
    match write_all(out, b"\n") {
        Ok(()) => Ok(()),
        Err(Failed) => Err(Failed),
    }
}

// Writes a line that ends with a number.
fn write_number_line<O: Sink>(out: &mut O, head: &[u8], number: u64) -> Result<(), Failed>
    ensures ok { OnOk result
        (Appends (O.contents out.old) (O.contents out.new)
        (head.now ++ decimal number ++ 10 ∷ [])) }
    ensures err { OnErr result (Grew (O.contents out.old) (O.contents out.new)
        (λ part. IsPrefix part (head.now ++ decimal number ++ 10 ∷ []))) }
    ensures cause { HasCause (O.faults out.old) (O.faults out.new) result }
{
    let mut buffer = Buffer::new();
    write_line(out, head, buffer.format(number).as_bytes())
}

// Writes a line that ends with two words.
fn write_pair_line<O: Sink>(
    out: &mut O,
    head: &[u8],
    first: &[u8],
    second: &[u8],
) -> Result<(), Failed>
    ensures ok { OnOk result
        (Appends (O.contents out.old) (O.contents out.new)
        (head.now ++ first.now ++ (32 ∷ (second.now ++ 10 ∷ [])))) }
    ensures err { OnErr result (Grew (O.contents out.old) (O.contents out.new)
        (λ part. IsPrefix part (head.now ++ first.now ++ (32 ∷ (second.now ++ 10 ∷ []))))) }
    ensures cause { HasCause (O.faults out.old) (O.faults out.new) result }
{
    match write_all(out, head) {
        Ok(()) => {}
        Err(Failed) => return Err(Failed),
    }
    match write_all(out, first) {
        Ok(()) => {}
        Err(Failed) => return Err(Failed),
    }
    match write_line(out, b" ", second) {
        Ok(()) => Ok(()),
        Err(Failed) => Err(Failed),
    }
}

// Writes the line of a configuration's fault.
fn write_config_line<O: Sink>(out: &mut O, line: u32, kind: u8) -> Result<(), Failed>
    ensures ok { OnOk result
        (Appends (O.contents out.old) (O.contents out.new) (config_line line kind)) }
    ensures err { OnErr result
        (Grew (O.contents out.old) (O.contents out.new)
        (λ part. IsPrefix part (config_line line kind))) }
    ensures cause { HasCause (O.faults out.old) (O.faults out.new) result }
{
    let mut first = Buffer::new();
    let mut second = Buffer::new();
    let line = first.format(line).as_bytes();
    let kind = second.format(kind).as_bytes();
    write_pair_line(out, b"error config ", line, kind)
}

// Writes the three lines of a line that differs.
fn write_differs_lines<O: Sink>(
    out: &mut O,
    line: u64,
    machine: &[u8],
    journal: &[u8],
) -> Result<(), Failed>
    ensures ok { OnOk result
        (Appends (O.contents out.old) (O.contents out.new)
        (differs_text line machine.now journal.now)) }
    ensures err { OnErr result
        (Grew (O.contents out.old) (O.contents out.new)
        (λ part. IsPrefix part (differs_text line machine.now journal.now))) }
    ensures cause { HasCause (O.faults out.old) (O.faults out.new) result }
{
    write_differs(out, line, machine, journal)
}

// Writes the last line of a status.
fn write_last_line<O: Sink>(out: &mut O, status: &Status) -> Result<(), Failed>
    ensures ok { OnOk result
        (Appends (O.contents out.old) (O.contents out.new) (last_line status.now)) }
    ensures err { OnErr result
        (Grew (O.contents out.old) (O.contents out.new)
        (λ part. IsPrefix part (last_line status.now))) }
    ensures cause { HasCause (O.faults out.old) (O.faults out.new) result }
    ensures silent { is_silent (end_of status.now) ≡ true → out.new ≡ out.old }
{
    match status {
        Status::Usage => write_line(out, USAGE, b""),
        Status::Config { line, kind } => write_config_line(out, *line, kind.number()),
        Status::Script(line) => write_number_line(out, b"error script ", *line),
        Status::ReadFault => write_line(out, b"error read", b""),
        Status::JournalFault => write_line(out, b"error journal", b""),
        Status::Net => write_line(out, b"error net", b""),
        Status::Differs {
            line,
            machine,
            journal,
        } => write_differs_lines(out, *line, machine.as_bytes(), journal.as_bytes()),
        Status::Missing(name) => write_text_line(out, b"error missing ", name.as_bytes()),
        Status::Ok => Ok(()),
        Status::WriteFault => Ok(()),
        Status::WantOfMemory => Ok(()),
    }
}

/// Writes the last line, and hands the status on whether or not that succeeds.
pub fn finish<O: Sink>(out: &mut O, status: Status) -> Status
    ensures same { result ≡ status }
    ensures written { Grew (O.contents out.old) (O.contents out.new)
        (IsWritten (O.faults out.old) (O.faults out.new) (last_line status)) }
    ensures later { O.faults out.old ≤ O.faults out.new }
    ensures silent { is_silent (end_of status) ≡ true → out.new ≡ out.old }
{
    let _ = write_last_line(out, &status);
    status
}
