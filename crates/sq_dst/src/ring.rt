//! The bytes in a pipe.
ghost use Rattle.std.specs.Prelude.{◌≡◌, ◌≤◌, ◌<◌, vec_len, length, false};

use sq_base::WantOfMemory;
use std::alloc::Global;

/// So many bytes a pipe holds: more than the line of a question has.
const ROOM: usize = 16384;

/// The bytes that were written and not read so far, in room that is made once, and which of both halves are there.
#[derive(Drop)]
pub(crate) struct Ring {
    bytes: Vec<u8>,
    from: usize,
    count: usize,
    has_writer: bool,
    has_reader: bool,
    ghost room: { vec_len bytes ≡ 16384 },
    ghost begins: { from < 16384 },
    ghost within: { count ≤ 16384 },
}

impl Ring {
    ghost use Rattle.sq_dst.specs.Rings.{is_full};

    /// No byte, and both halves.
    pub(crate) fn new(alloc: Global) -> Result<Ring, WantOfMemory> {
        let mut bytes = Vec::new(alloc);
        bytes.resize(ROOM, 0u8)?;
        Ok(Ring {
            bytes,
            from: 0,
            count: 0,
            has_writer: true,
            has_reader: true,
        })
    }

    /// Whether a write has to wait: there is no room, and both halves are there.
    pub(crate) fn is_full(&self) -> bool
        ensures { result ≡ is_full self.now }
    {
        self.count == ROOM && self.has_reader && self.has_writer
    }

    /// Whether a read has to wait: there is no byte, and one half to write some.
    pub(crate) fn is_dry(&self) -> bool {
        self.count == 0 && self.has_writer
    }

    // Puts a byte at the end, where there is room.
    fn push(&mut self, byte: u8) {
        if self.count == ROOM {
            return;
        }
        let place = (self.from + self.count) % ROOM;
        self.bytes[place] = byte;
        self.count += 1;
    }

    // Takes the first byte, where there is one.
    fn pop(&mut self) -> u8 {
        if self.count == 0 {
            return 0;
        }
        let byte = self.bytes[self.from];
        self.from = (self.from + 1) % ROOM;
        self.count -= 1;
        byte
    }

    /// Puts bytes at the end, as many as there is room for. What nobody will read is dropped. Answers how many were taken.
    pub(crate) fn put(&mut self, bytes: &[u8]) -> usize
        ensures bound { result ≤ length bytes.now }
        ensures some { is_full self.old ≡ false → 0 < length bytes.now → 0 < result }
    {
        if !self.has_reader || !self.has_writer {
            return bytes.len();
        }
        let count = bytes.len().min(ROOM - self.count);
        for &byte in &bytes[..count] {
            self.push(byte);
        }
        count
    }

    /// Takes bytes from the front. Answers how many.
    pub(crate) fn take(&mut self, into: &mut [u8]) -> usize
        ensures bound { result ≤ length into.new }
        ensures same { length into.new ≡ length into.old }
    {
        let count = into.len().min(self.count);
        for place in 0..count {
            into[place] = self.pop();
        }
        count
    }

    /// The half that is written to has gone, or was closed.
    pub(crate) fn end_writing(&mut self) {
        self.has_writer = false;
    }

    /// The half that is read has gone.
    pub(crate) fn end_reading(&mut self) {
        self.has_reader = false;
    }
}
