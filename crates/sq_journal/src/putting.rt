//! Texts put to a sink, without memory, and the sink that a printed text is.
ghost use Rattle.std.specs.Prelude.{◌≡◌, ◌-◌, ◌^◌, ◌<◌, ◌≤◌, ◌++◌, [], codes, decimal, length, Some, IfOk};
ghost use Rattle.std.specs.Io.{WritesAtMost};
ghost use Rattle.std.specs.Io.KnownBytes.{WriteAppends};
ghost use Rattle.sq_outside.specs.Causes.{HasCause};
ghost use Rattle.sq_journal.specs.Putting.{Puts};

use itoa::Buffer;
use sq_base::{EpochNo, Moment, Text, WantOfMemory};
use sq_outside::{COUNT_LIMIT, Failed, Sink, write_all};
use std::alloc::Global;

/// Puts these bytes.
pub fn put<O: Sink>(to: &mut O, bytes: &[u8]) -> Result<(), Failed>
    ensures { Puts (O.contents to.old) (O.contents to.new) (O.faults to.old) (O.faults to.new)
        result bytes.now }
{
    write_all(to, bytes)
}

/// Puts a number.
pub fn put_decimal<O: Sink>(to: &mut O, number: u64) -> Result<(), Failed>
    ensures { Puts (O.contents to.old) (O.contents to.new) (O.faults to.old) (O.faults to.new)
        result (decimal number) }
{
    let mut buffer = Buffer::new();
    put(to, buffer.format(number).as_bytes())
}

/// Puts a moment.
pub fn put_moment<O: Sink>(to: &mut O, moment: Moment) -> Result<(), Failed>
    ensures { Puts (O.contents to.old) (O.contents to.new) (O.faults to.old) (O.faults to.new)
        result (decimal moment) }
{
    put_decimal(to, moment.0)
}

// Puts the number of an epoch.
fn put_epoch_number<O: Sink>(to: &mut O, epoch: EpochNo) -> Result<(), Failed>
    ensures { Puts (O.contents to.old) (O.contents to.new) (O.faults to.old) (O.faults to.new)
        result (decimal epoch) }
{
    put_decimal(to, epoch.0)
}

/// Puts a space and the number of an epoch.
pub fn put_epoch<O: Sink>(to: &mut O, epoch: EpochNo) -> Result<(), Failed>
    ensures { Puts (O.contents to.old) (O.contents to.new) (O.faults to.old) (O.faults to.new)
        result (codes " " ++ decimal epoch) }
{
    match put(to, b" ") {
        Ok(()) => {}
        Err(Failed) => return Err(Failed),
    }
    put_epoch_number(to, epoch)
}

/// A text that is written to. A write fails where memory runs out, and only there.
#[derive(Drop)]
pub struct Printed {
    text: Text,
    faults: u64,
    ghost capped: { faults ≤ 2 ^ 63 - 1 },
}

impl Printed {
    ghost use Rattle.sq_journal.specs.PrintedText.{printed_text};

    /// Nothing was written. It takes no memory.
    pub fn new(alloc: Global) -> Printed
        ensures { printed_text result ≡ [] }
    {
        Printed {
            text: Text::new(alloc),
            faults: 0,
        }
    }

    /// What was written.
    pub fn into_text(self) -> Text
        ensures { result ≡ printed_text self }
    {
        self.text
    }
}

impl Sink for Printed {
    ghost use Rattle.sq_journal.specs.PrintedText.{printed_text, printed_faults};

    ghost contents = { λ p. Some (printed_text p) };

    ghost faults = { printed_faults };

    ghost capped = { λ p. p.capped };

    fn write(&mut self, bytes: &[u8]) -> Result<usize, Failed>
        ensures bound { WritesAtMost result bytes.now }
        ensures some { IfOk result (λ n. 0 < length bytes.now → 0 < n) }
        ensures bytes { WriteAppends (Some (printed_text self.old)) (Some (printed_text self.new))
            result bytes.now }
        ensures cause { HasCause (printed_faults self.old) (printed_faults self.new) result }
    {
        match self.text.append(bytes) {
            Ok(()) => Ok(bytes.len()),
            Err(WantOfMemory) => {
                if self.faults < COUNT_LIMIT {
                    self.faults += 1;
                }
                Err(Failed)
            }
        }
    }
}
