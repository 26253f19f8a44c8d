//! `MemSink`: a sink in memory.
ghost use Rattle.std.specs.Prelude.{◌≡◌, ◌+◌, ◌<◌, ◌≤◌, [], length, vec_len, vec_capacity, max, Some, IfOk, OnErr, is_err};
ghost use Rattle.std.specs.Io.{WritesAtMost};
ghost use Rattle.std.specs.Io.KnownBytes.{WriteAppends};
ghost use Rattle.sq_outside.specs.Calls.{next_call, counted};
ghost use Rattle.sq_outside.specs.Causes.{HasCause};

use sq_base::WantOfMemory;
use sq_outside::{Calls, Failed, Sink};
use std::alloc::Global;

/// A sink with room for a stated number of bytes, which takes at most `step` of them in a call.
#[derive(Drop)]
pub struct MemSink {
    pub(crate) bytes: Vec<u8>,
    pub(crate) room: usize,
    pub(crate) step: usize,
    pub(crate) calls: Calls,
    ghost held: { vec_len bytes ≤ room },
    ghost fits: { room ≤ vec_capacity bytes },
    ghost steps: { 0 < step },
}

impl MemSink {
    ghost use Rattle.sq_outside_mem.specs.Memory.{sink_bytes, sink_room, sink_step, sink_fails, sink_calls, sink_faults};

    /// A sink with this room, of which the listed writes are to fail. A step of 0 counts as 1.
    pub fn new(
        alloc: Global,
        room: usize,
        step: usize,
        fails: Vec<u64>,
    ) -> Result<MemSink, WantOfMemory>
        ensures empty { IfOk result (λ s. sink_bytes s ≡ []) }
        ensures room { IfOk result (λ s. sink_room s ≡ room) }
        ensures step { IfOk result (λ s. sink_step s ≡ max step 1) }
        ensures fails { IfOk result (λ s. sink_fails s ≡ fails.items) }
        ensures calls { IfOk result (λ s. sink_calls s ≡ 0) }
        ensures faults { IfOk result (λ s. sink_faults s ≡ 0) }
    {
        let bytes = Vec::with_capacity(alloc, room)?;
        Ok(MemSink {
            bytes,
            room,
            step: step.max(1),
            calls: Calls::new(fails),
        })
    }

    /// The bytes that were written.
    pub fn bytes(&self) -> &[u8]
        ensures { result.now ≡ sink_bytes self.now }
    {
        self.bytes.as_slice()
    }

    /// The bytes that were written, taken over. It takes no memory.
    pub fn into_bytes(self) -> Vec<u8>
        ensures { result.items ≡ sink_bytes self }
    {
        self.bytes
    }
}

impl Sink for MemSink {
    ghost use Rattle.sq_outside_mem.specs.Memory.{sink_bytes, sink_room, sink_takes, sink_step, sink_fails, sink_calls, sink_fails_next, sink_faults};

    ghost contents = { λ s. Some (sink_bytes s) };

    ghost faults = { sink_faults };

    ghost capped = { λ s. s.calls.capped };

    fn write(&mut self, bytes: &[u8]) -> Result<usize, Failed>
        ensures bound { WritesAtMost result bytes.now }
        ensures some { IfOk result (λ n. 0 < length bytes.now → 0 < n) }
        ensures bytes { WriteAppends (Some (sink_bytes self.old)) (Some (sink_bytes self.new))
            result bytes.now }
        ensures cause { HasCause (sink_faults self.old) (sink_faults self.new) result }
        ensures count { IfOk result (λ n. n ≡ sink_takes self.old (length bytes.now)) }
        ensures room { IfOk result (λ n. sink_room self.new + n ≡ sink_room self.old) }
        ensures kept { OnErr result (sink_room self.new ≡ sink_room self.old) }
        // A call fails where it is listed, or has bytes and no room is left, and only there; each failure is counted.
        ensures fails { is_err result ≡ sink_fails_next self.old (length bytes.now) }
        ensures counts { sink_faults self.new
            ≡ counted (sink_fails_next self.old (length bytes.now)) (sink_faults self.old) }
        ensures calls { sink_calls self.new ≡ next_call (sink_calls self.old) }
        // With an empty list a call fails only where it has bytes and no room is left.
        ensures quiet { sink_fails self.old ≡ [] → 0 < sink_room self.old
            → sink_faults self.new ≡ sink_faults self.old }
        ensures quiet_none { sink_fails self.old ≡ [] → length bytes.now ≡ 0
            → sink_faults self.new ≡ sink_faults self.old }
        ensures list { sink_fails self.new ≡ sink_fails self.old }
        ensures step { sink_step self.new ≡ sink_step self.old }
    {
        self.calls.next()?;
        let room = self.room - self.bytes.len();
        let count = bytes.len().min(room).min(self.step);
        if count == 0 && !bytes.is_empty() {
            self.calls.raise();
            return Err(Failed);
        }
        self.bytes.extend_from_slice(&bytes[..count]).unwrap();
        Ok(count)
    }
}
