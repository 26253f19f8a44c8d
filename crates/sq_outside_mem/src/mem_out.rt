//! `MemOut`: a half of a link in memory that is written to, and `MemPair`, both halves of one.
ghost use Rattle.std.specs.Prelude.{◌≡◌, ◌+◌, ◌<◌, [], false, true, length, max, Some, IfOk, OnErr, is_err};
ghost use Rattle.std.specs.Io.{WritesAtMost};
ghost use Rattle.std.specs.Io.KnownBytes.{WriteAppends};
ghost use Rattle.sq_outside.specs.Calls.{next_call, counted};
ghost use Rattle.sq_outside.specs.Causes.{HasCause};
ghost use Rattle.sq_outside_mem.specs.Memory.{sink_bytes, sink_room, sink_takes, sink_step, sink_fails, sink_fails_next, sink_calls, sink_faults};
ghost use Rattle.sq_outside_mem.specs.Memory.{source_left, source_text, source_step, source_fails, source_calls, source_faults};

use crate::mem_sink::MemSink;
use crate::mem_source::MemSource;
use crate::wire::Wire;
use sq_base::{Text, WantOfMemory};
use sq_outside::{Failed, Out, Sink};
use std::alloc::Global;

/// A sink in memory that can be closed. A wire, where it has one, gets the same bytes, and its end, too, where the sink is let go
/// without being closed.
pub struct MemOut<'a> {
    pub(crate) sink: MemSink,
    pub(crate) closed: bool,
    pub(crate) wire: Option<&'a Wire>,
}

// Whoever reads what a program wrote is told of its end as of a real one's, however that half was let go.
impl<'a> Drop for MemOut<'a> {
    fn drop(self) {
        let MemOut {
            sink: _,
            closed: _,
            wire,
        } = self;
        if let Some(wire) = wire {
            wire.close();
        }
    }
}

impl<'a> MemOut<'a> {
    ghost use Rattle.sq_outside_mem.specs.MemoryLinks.{out_sink, out_closed};

    /// An open half over this sink.
    pub fn new(sink: MemSink, wire: Option<&'a Wire>) -> MemOut<'a>
        ensures sink { out_sink result ≡ sink }
        ensures open { out_closed result ≡ false }
    {
        MemOut {
            sink,
            closed: false,
            wire,
        }
    }

    // The sink alone. The wire stays as it is.
    pub(crate) fn into_sink(self) -> MemSink
        ensures { result ≡ out_sink self.entry }
    {
        let MemOut {
            sink,
            closed: _,
            wire: _,
        } = self;
        sink
    }
}

impl<'a> Sink for MemOut<'a> {
    ghost use Rattle.sq_outside_mem.specs.MemoryLinks.{out_sink, out_closed};

    ghost contents = { λ s. Some (sink_bytes (out_sink s)) };

    ghost faults = { λ s. sink_faults (out_sink s) };

    ghost capped = { λ s. s.sink.calls.capped };

    fn write(&mut self, bytes: &[u8]) -> Result<usize, Failed>
        ensures bound { WritesAtMost result bytes.now }
        ensures some { IfOk result (λ n. 0 < length bytes.now → 0 < n) }
        ensures bytes { WriteAppends (Some (sink_bytes (out_sink self.old)))
            (Some (sink_bytes (out_sink self.new))) result bytes.now }
        ensures cause { HasCause (sink_faults (out_sink self.old)) (sink_faults (out_sink self.new))
            result }
        // It takes as many bytes as its sink, and fails where that fails, and only there.
        ensures count { IfOk result (λ n. n ≡ sink_takes (out_sink self.old) (length bytes.now)) }
        ensures room { IfOk result
            (λ n. sink_room (out_sink self.new) + n ≡ sink_room (out_sink self.old)) }
        ensures kept { OnErr result
            (sink_room (out_sink self.new) ≡ sink_room (out_sink self.old)) }
        ensures fails { is_err result ≡ sink_fails_next (out_sink self.old) (length bytes.now) }
        ensures counts { sink_faults (out_sink self.new)
            ≡ counted (sink_fails_next (out_sink self.old) (length bytes.now))
            (sink_faults (out_sink self.old)) }
        ensures calls { sink_calls (out_sink self.new)
            ≡ next_call (sink_calls (out_sink self.old)) }
        ensures list { sink_fails (out_sink self.new) ≡ sink_fails (out_sink self.old) }
        ensures step { sink_step (out_sink self.new) ≡ sink_step (out_sink self.old) }
        // A write does not close it.
        ensures closed { out_closed self.new ≡ out_closed self.old }
    {
        let count = self.sink.write(bytes)?;
        if let Some(wire) = self.wire {
            wire.put(&bytes[..count]);
        }
        Ok(count)
    }
}

impl<'a> Out for MemOut<'a> {
    ghost use Rattle.sq_outside.specs.Dials.{IsClosed};
    ghost use Rattle.sq_outside_mem.specs.MemoryLinks.{out_sink, out_closed};
    ghost use Rattle.std.specs.Prelude.{◌≤◌};

    ghost closed = { λ s. Some (out_closed s) };

    fn close(&mut self)
        ensures contents { Some (sink_bytes (out_sink self.new))
            ≡ Some (sink_bytes (out_sink self.old)) }
        ensures closed { IsClosed (Some (out_closed self.new)) }
        ensures later { sink_faults (out_sink self.old) ≤ sink_faults (out_sink self.new) }
        // Nothing else changes, and no fault is counted.
        ensures sink { out_sink self.new ≡ out_sink self.old }
    {
        self.closed = true;
        if let Some(wire) = self.wire {
            wire.close();
        }
    }
}

/// How the halves of a link in memory behave: each gives or takes at most `step` bytes in a call, `room` bytes
/// can be written, and the listed reads and writes are to fail.
#[derive(Drop)]
pub struct MemShape {
    pub step: usize,
    pub room: usize,
    pub reads: Vec<u64>,
    pub writes: Vec<u64>,
}

/// Both halves of a link in memory, before anything was read or written.
#[derive(Drop)]
pub struct MemPair<'a> {
    pub(crate) from: MemSource,
    pub(crate) to: MemOut<'a>,
    ghost unread: { source_left from ≡ source_text from },
    ghost no_read_fault: { source_faults from ≡ 0 },
    ghost unwritten: { to.sink.bytes.items ≡ [] },
    ghost no_write_fault: { to.sink.calls.faults ≡ 0 },
    ghost open: { to.closed ≡ false },
}

impl<'a> MemPair<'a> {
    ghost use Rattle.sq_outside_mem.specs.MemoryLinks.{pair_from, pair_to, out_sink};

    /// A link of which this text comes. A step of 0 counts as 1.
    pub fn new(
        alloc: Global,
        text: Text,
        shape: MemShape,
        wire: Option<&'a Wire>,
    ) -> Result<MemPair<'a>, WantOfMemory>
        ensures text { IfOk result (λ p. source_text (pair_from p) ≡ text) }
        ensures reads { IfOk result (λ p. source_fails (pair_from p) ≡ shape.reads.items) }
        ensures gives { IfOk result (λ p. source_step (pair_from p) ≡ max shape.step 1) }
        ensures room { IfOk result (λ p. sink_room (out_sink (pair_to p)) ≡ shape.room) }
        ensures writes { IfOk result (λ p. sink_fails (out_sink (pair_to p)) ≡ shape.writes.items) }
        ensures takes { IfOk result (λ p. sink_step (out_sink (pair_to p)) ≡ max shape.step 1) }
        ensures calls { IfOk result (λ p. source_calls (pair_from p) ≡ 0) }
        ensures write_calls { IfOk result (λ p. sink_calls (out_sink (pair_to p)) ≡ 0) }
    {
        let MemShape {
            step,
            room,
            reads,
            writes,
        } = shape;
        let sink = MemSink::new(alloc, room, step, writes)?;
        Ok(MemPair {
            from: MemSource::new(text.into_vec(), step, reads),
            to: MemOut::new(sink, wire),
        })
    }
}
