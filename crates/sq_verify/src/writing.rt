//! What is written of a finding, without memory.
ghost use Rattle.std.specs.Prelude.{[], OnOk, OnErr};
ghost use Rattle.std.specs.Io.KnownBytes.{Appends};
ghost use Rattle.sq_outside.specs.Causes.{HasCause};
ghost use Rattle.sq_outside.specs.Output.{Grew, IsProperPrefix};
ghost use Rattle.sq_verify.specs.FindingText.{differs_text, finding_text, number_line, texts_lines};

use crate::findings::Finding;
use itoa::Buffer;
use sq_outside::{Failed, Sink, write_line};

// Writes a line that ends with a number.
fn write_number_line<O: Sink>(out: &mut O, head: &[u8], number: u64) -> Result<(), Failed>
    ensures ok { OnOk result
        (Appends (O.contents out.old) (O.contents out.new) (number_line head.now number)) }
    ensures short { OnErr result
        (Grew (O.contents out.old) (O.contents out.new)
        (λ part. IsProperPrefix part (number_line head.now number))) }
    ensures cause { HasCause (O.faults out.old) (O.faults out.new) result }
{
    let mut buffer = Buffer::new();
    write_line(out, head, buffer.format(number).as_bytes())
}

// Writes the machine's text and the journal's, each in a line.
fn write_texts<O: Sink>(out: &mut O, machine: &[u8], journal: &[u8]) -> Result<(), Failed>
    ensures ok { OnOk result
        (Appends (O.contents out.old) (O.contents out.new) (texts_lines machine.now journal.now)) }
    ensures short { OnErr result
        (Grew (O.contents out.old) (O.contents out.new)
        (λ part. IsProperPrefix part (texts_lines machine.now journal.now))) }
    ensures cause { HasCause (O.faults out.old) (O.faults out.new) result }
{
    match write_line(out, b"machine ", machine) {
        Ok(()) => {}
        Err(Failed) => return Err(Failed),
    }
    write_line(out, b"journal ", journal)
}

/// Writes how a line differs, in three lines: its number, and the machine's text and the journal's without LF.
pub fn write_differs<O: Sink>(
    out: &mut O,
    line: u64,
    machine: &[u8],
    journal: &[u8],
) -> Result<(), Failed>
    ensures ok { OnOk result
        (Appends (O.contents out.old) (O.contents out.new)
        (differs_text line machine.now journal.now)) }
    ensures short { OnErr result
        (Grew (O.contents out.old) (O.contents out.new)
        (λ part. IsProperPrefix part (differs_text line machine.now journal.now))) }
    ensures cause { HasCause (O.faults out.old) (O.faults out.new) result }
{
    match write_number_line(out, b"differs ", line) {
        Ok(()) => {}
        Err(Failed) => return Err(Failed),
    }
    write_texts(out, machine, journal)
}

/// Writes what was found, in a line or three; or a front of it, and not all, before a fault.
pub fn write_finding<O: Sink>(out: &mut O, finding: &Finding) -> Result<(), Failed>
    ensures ok { OnOk result
        (Appends (O.contents out.old) (O.contents out.new) (finding_text finding.now)) }
    ensures short { OnErr result
        (Grew (O.contents out.old) (O.contents out.new)
        (λ part. IsProperPrefix part (finding_text finding.now))) }
    ensures cause { HasCause (O.faults out.old) (O.faults out.new) result }
{
    match finding {
        Finding::Verified(count) => write_number_line(out, b"verified ", *count),
        Finding::Script(line) => write_number_line(out, b"error script ", *line),
        Finding::Differs {
            line,
            machine,
            journal,
        } => write_differs(out, *line, machine.as_bytes(), journal.as_bytes()),
        Finding::ReadFault => write_line(out, b"error read", b""),
        Finding::WantOfMemory => Ok(()),
    }
}
