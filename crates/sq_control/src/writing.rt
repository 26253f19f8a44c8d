//! The lines that a control writes. They take no memory.
ghost use Rattle.std.specs.Prelude.{◌++◌, ◌∷◌, [], codes, decimal, OnOk, OnErr};
ghost use Rattle.std.specs.Io.KnownBytes.{Appends};
ghost use Rattle.sq_outside.specs.Causes.{HasCause};
ghost use Rattle.sq_outside.specs.Output.{Grew, IsProperPrefix};
ghost use Rattle.sq_control.specs.ControlText.{listening_text, reread_text};

use crate::control::Reread;
use itoa::Buffer;
use sq_outside::{Failed, Sink, write_all, write_line};

// Writes a line that ends with a number.
fn write_number<O: Sink>(out: &mut O, head: &[u8], number: u64) -> Result<(), Failed>
    ensures ok { OnOk result
        (Appends (O.contents out.old) (O.contents out.new)
        (head.now ++ decimal number ++ 10 ∷ [])) }
    ensures short { OnErr result (Grew (O.contents out.old) (O.contents out.new)
        (λ part. IsProperPrefix part (head.now ++ decimal number ++ 10 ∷ []))) }
    ensures cause { HasCause (O.faults out.old) (O.faults out.new) result }
{
    let mut buffer = Buffer::new();
    write_line(out, head, buffer.format(number).as_bytes())
}

// Writes a line that ends with two words.
fn write_pair<O: Sink>(out: &mut O, head: &[u8], first: &[u8], second: &[u8]) -> Result<(), Failed>
    ensures ok { OnOk result
        (Appends (O.contents out.old) (O.contents out.new)
        (head.now ++ first.now ++ (32 ∷ (second.now ++ 10 ∷ [])))) }
    ensures short { OnErr result (Grew (O.contents out.old) (O.contents out.new)
        (λ part. IsProperPrefix part (head.now ++ first.now ++ (32 ∷ (second.now ++ 10 ∷ []))))) }
    ensures cause { HasCause (O.faults out.old) (O.faults out.new) result }
{
    match write_all(out, head) {
        Ok(()) => {}
        Err(Failed) => return Err(Failed),
    }
    match write_all(out, first) {
        Ok(()) => {}
        Err(Failed) => return Err(Failed),
    }
    match write_line(out, b" ", second) {
        Ok(()) => Ok(()),
        Err(Failed) => Err(Failed),
    }
}

// Writes the line of a configuration's fault.
fn write_kept<O: Sink>(out: &mut O, line: u32, kind: u8) -> Result<(), Failed>
    ensures ok { OnOk result
        (Appends (O.contents out.old) (O.contents out.new)
        (codes "kept old " ++ decimal line ++ (32 ∷ (decimal kind ++ 10 ∷ [])))) }
    ensures short { OnErr result (Grew (O.contents out.old) (O.contents out.new)
        (λ part. IsProperPrefix part
        (codes "kept old " ++ decimal line ++ (32 ∷ (decimal kind ++ 10 ∷ []))))) }
    ensures cause { HasCause (O.faults out.old) (O.faults out.new) result }
{
    let mut first = Buffer::new();
    let mut second = Buffer::new();
    let line = first.format(line).as_bytes();
    let kind = second.format(kind).as_bytes();
    write_pair(out, b"kept old ", line, kind)
}

/// Writes the line that says at which port a server listens, or a front of it, and not all, before a fault. It takes no
/// memory.
pub fn write_listening<O: Sink>(out: &mut O, port: u16) -> Result<(), Failed>
    ensures ok { OnOk result
        (Appends (O.contents out.old) (O.contents out.new) (listening_text port)) }
    ensures short { OnErr result
        (Grew (O.contents out.old) (O.contents out.new)
        (λ part. IsProperPrefix part (listening_text port))) }
    ensures cause { HasCause (O.faults out.old) (O.faults out.new) result }
{
    write_number(out, b"listening ", u64::from(port))
}

/// Writes the line that says what became of a reconfiguration, or a front of it, and not all, before a fault. It takes no
/// memory.
pub fn write_reread<O: Sink>(out: &mut O, reread: &Reread) -> Result<(), Failed>
    ensures ok { OnOk result
        (Appends (O.contents out.old) (O.contents out.new) (reread_text reread.now)) }
    ensures short { OnErr result
        (Grew (O.contents out.old) (O.contents out.new)
        (λ part. IsProperPrefix part (reread_text reread.now))) }
    ensures cause { HasCause (O.faults out.old) (O.faults out.new) result }
{
    match reread {
        Reread::Made(epoch) => write_number(out, b"reconfigured ", epoch.0),
        Reread::At(fault) => write_kept(out, fault.line, fault.kind.number()),
        Reread::Missing => write_line(out, b"kept old missing", b""),
        Reread::Read => write_line(out, b"kept old read", b""),
        Reread::Epochs => write_line(out, b"kept old epochs", b""),
        Reread::Spent => write_line(out, b"kept old spent", b""),
        Reread::WantOfMemory => write_line(out, b"kept old memory", b""),
        Reread::Journal => Ok(()),
    }
}
