//! A pipe between two threads. Nothing is claimed of the bytes that pass it, and no call of it fails.
ghost use Rattle.std.proofs.Common.{rules};
ghost use Rattle.std.specs.Prelude.{None};

use crate::ring::Ring;
use sq_base::WantOfMemory;
use sq_outside::{Failed, Out, Sink, Source};
use std::alloc::Global;
use std::sync::{Arc, Condvar, Mutex, Wait};

// What both halves share: the bytes behind their lock, and where either half sleeps until the other was at it.
#[derive(Drop)]
struct Shared {
    ring: Mutex<Ring>,
    changed: Condvar,
}

impl Shared {
    // Nothing more will be written.
    fn end_writing<R: Wait>(&self, rt: &R) {
        self.ring.lock(rt).end_writing();
        self.changed.notify_all();
    }

    // Nothing more will be read.
    fn end_reading<R: Wait>(&self, rt: &R) {
        self.ring.lock(rt).end_reading();
        self.changed.notify_all();
    }
}

/// The half of a pipe that is written to. A write waits for room as long as the other half is there; what is written after that
/// has gone, or after a close, is dropped. To close it, or to let it go, is the end for the other half.
pub struct PipeIn<'a, R: Wait> {
    rt: &'a R,
    shared: Arc<Shared>,
}

/// The half of a pipe that is read. A read waits for a byte as long as the other half is there and was not closed. Letting it go
/// wakes a write that waits.
pub struct PipeOut<'a, R: Wait> {
    rt: &'a R,
    shared: Arc<Shared>,
}

impl<'a, R: Wait> PipeIn<'a, R> {
    fn new(rt: &'a R, shared: Arc<Shared>) -> PipeIn<'a, R> {
        PipeIn { rt, shared }
    }
}

impl<'a, R: Wait> PipeOut<'a, R> {
    fn new(rt: &'a R, shared: Arc<Shared>) -> PipeOut<'a, R> {
        PipeOut { rt, shared }
    }
}

/// Both halves of a pipe that holds 16,384 bytes. It takes all its memory here.
pub fn pipe<'a, R: Wait>(
    rt: &'a R,
    alloc: Global,
) -> Result<(PipeIn<'a, R>, PipeOut<'a, R>), WantOfMemory> {
    let shared = Arc::new(
        alloc,
        Shared {
            ring: Mutex::new(Ring::new(alloc)?),
            changed: Condvar::new(),
        },
    )?;
    let other = Arc::try_clone(&shared)?;
    Ok((PipeIn::new(rt, shared), PipeOut::new(rt, other)))
}

impl<'a, R: Wait> Sink for PipeIn<'a, R> {
    ghost contents = { λ _. None };

    ghost faults = { λ _. 0 };

    ghost capped = { λ _. Prim.search rules };

    fn write(&mut self, bytes: &[u8]) -> Result<usize, Failed> {
        if bytes.is_empty() {
            return Ok(0);
        }
        let guard = self.shared.ring.lock(self.rt);
        let mut ring = self
            .shared
            .changed
            .wait_while(self.rt, guard, |ring| ring.is_full());
        let count = ring.put(bytes);
        drop(ring);
        self.shared.changed.notify_all();
        Ok(count)
    }
}

impl<'a, R: Wait> Out for PipeIn<'a, R> {
    ghost closed = { λ _. None };

    fn close(&mut self) {
        self.shared.end_writing(self.rt);
    }
}

impl<'a, R: Wait> Drop for PipeIn<'a, R> {
    fn drop(self) {
        let PipeIn { rt, shared } = self;
        shared.end_writing(rt);
    }
}

impl<'a, R: Wait> Source for PipeOut<'a, R> {
    ghost left = { λ _. None };

    ghost origin = { λ _. None };

    ghost faults = { λ _. 0 };

    ghost capped = { λ _. Prim.search rules };

    fn read(&mut self, into: &mut [u8]) -> Result<usize, Failed> {
        if into.is_empty() {
            return Ok(0);
        }
        let guard = self.shared.ring.lock(self.rt);
        let mut ring = self
            .shared
            .changed
            .wait_while(self.rt, guard, |ring| ring.is_dry());
        let count = ring.take(into);
        drop(ring);
        self.shared.changed.notify_all();
        Ok(count)
    }
}

impl<'a, R: Wait> Drop for PipeOut<'a, R> {
    fn drop(self) {
        let PipeOut { rt, shared } = self;
        shared.end_reading(rt);
    }
}
