//! Calls of the system that are made again where they were interrupted, and the count of those that failed.
ghost use Rattle.std.specs.Prelude.{◌≡◌, ◌-◌, ◌^◌, ◌≤◌, ◌<◌, length, IfOk};
ghost use Rattle.std.specs.Io.{ReadsAtMost, WritesAtMost};
ghost use Rattle.std.specs.Io.KnownBytes.{ReadConsumes, WriteAppends};
ghost use Rattle.sq_outside.specs.Causes.{HasCause, raised};

use sq_outside::{Failed, raised};
use std::io::{ErrorKind, Read, Write};

/// How often a call that was interrupted is made again.
pub const TRIES: u32 = 1000;

/// One more fault.
pub fn raise(faults: &mut u64)
    requires { faults.old ≤ 2 ^ 63 - 1 }
    ensures { faults.new ≡ raised faults.old }
{
    *faults = raised(*faults);
}

/// Reads, and again where that was interrupted. Any other error is a fault.
pub fn read_again<R: Read>(from: &mut R, into: &mut [u8], faults: &mut u64) -> Result<usize, Failed>
    requires { faults.old ≤ 2 ^ 63 - 1 }
    ensures bound { ReadsAtMost result into.new }
    ensures bytes { ReadConsumes (R.remaining from.old) (R.remaining from.new) result into.new }
    ensures cause { HasCause faults.old faults.new result }
    ensures capped { faults.new ≤ 2 ^ 63 - 1 }
{
    for _ in 0..TRIES {
        match from.read(into) {
            Ok(count) => return Ok(count),
            Err(e) if e.kind() == ErrorKind::Interrupted => {}
            Err(_) => break,
        }
    }
    raise(faults);
    Err(Failed)
}

/// Writes, and again where that was interrupted. Any other error is a fault, and so is a write of nothing.
pub fn write_again<W: Write>(to: &mut W, bytes: &[u8], faults: &mut u64) -> Result<usize, Failed>
    requires { faults.old ≤ 2 ^ 63 - 1 }
    ensures bound { WritesAtMost result bytes.now }
    ensures some { IfOk result (λ n. 0 < length bytes.now → 0 < n) }
    ensures bytes { WriteAppends (W.contents to.old) (W.contents to.new) result bytes.now }
    ensures cause { HasCause faults.old faults.new result }
    ensures capped { faults.new ≤ 2 ^ 63 - 1 }
{
    for _ in 0..TRIES {
        match to.write(bytes) {
            Ok(count) if count > 0 || bytes.is_empty() => return Ok(count),
            Err(e) if e.kind() == ErrorKind::Interrupted => {}
            _ => break,
        }
    }
    raise(faults);
    Err(Failed)
}
