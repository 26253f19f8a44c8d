//! A sink whose lines go out whole.
ghost use Rattle.std.specs.Prelude.{◌≡◌, ◌-◌, ◌^◌, ◌≤◌, None};
ghost use Rattle.sq_outside.specs.Causes.{HasCause};

use crate::again::raise;
use sq_base::WantOfMemory;
use sq_outside::{Failed, Sink};
use std::alloc::Global;
use std::io::Write;

/// So many bytes of a line that has no end yet are held.
const ROOM: usize = 65_536;

/// A sink over a writer of std, which gets a line and its end in one call, when the end comes. A line that is longer than
/// 65,536 bytes goes out in pieces. It tells no bytes, since those of a line without an end are not written yet.
#[derive(Drop)]
pub struct RealLines<W> {
    inner: W,
    held: Vec<u8>,
    faults: u64,
    ghost capped: { faults ≤ 2 ^ 63 - 1 },
}

impl<W: Drop> RealLines<W> {
    ghost use Rattle.std.specs.Prelude.{IfOk};
    ghost use Rattle.sq_system.specs.System.{lines_faults, lines_writer};

    /// A sink over this writer, with the count 0.
    pub fn new(alloc: Global, inner: W) -> Result<RealLines<W>, WantOfMemory>
        ensures inner { IfOk result (λ s. lines_writer s ≡ inner) }
        ensures faults { IfOk result (λ s. lines_faults s ≡ 0) }
    {
        Ok(RealLines {
            inner,
            held: Vec::with_capacity(alloc, ROOM)?,
            faults: 0,
        })
    }
}

// Writes what is held, in one call where the writer takes it whole.
fn put_out<W: Write>(inner: &mut W, held: &mut Vec<u8>, faults: &mut u64) -> Result<(), Failed>
    requires { faults.old ≤ 2 ^ 63 - 1 }
    ensures cause { HasCause faults.old faults.new result }
    ensures capped { faults.new ≤ 2 ^ 63 - 1 }
{
    if inner.write_all(held.as_slice()).is_err() {
        raise(faults);
        return Err(Failed);
    }
    held.clear();
    Ok(())
}

// Holds these bytes, for which there is room.
fn hold(held: &mut Vec<u8>, bytes: &[u8], faults: &mut u64) -> Result<(), Failed>
    requires { faults.old ≤ 2 ^ 63 - 1 }
    ensures cause { HasCause faults.old faults.new result }
    ensures capped { faults.new ≤ 2 ^ 63 - 1 }
{
    if held.extend_from_slice(bytes).is_err() {
        raise(faults);
        return Err(Failed);
    }
    Ok(())
}

impl<W: Write> Sink for RealLines<W> {
    ghost contents = { λ _. None };

    ghost faults = { λ s. s.faults };

    ghost capped = { λ s. s.capped };

    fn write(&mut self, bytes: &[u8]) -> Result<usize, Failed> {
        let RealLines {
            inner,
            held,
            faults,
            ..
        } = self;
        let (piece, _) = bytes.split_at(bytes.len().min(ROOM));
        if piece.len() > ROOM.saturating_sub(held.len()) {
            put_out(inner, held, faults)?;
        }
        hold(held, piece, faults)?;
        if piece.ends_with(b"\n") {
            put_out(inner, held, faults)?;
        }
        Ok(piece.len())
    }
}
