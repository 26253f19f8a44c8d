//! `Wire`: what was written to a link in memory, seen from outside while others write.
use sq_base::{Text, WantOfMemory};
use std::alloc::Global;
use std::sync::atomic::{AtomicBool, AtomicU64, AtomicUsize, Ordering};

/// A copy of the bytes that one writer wrote, which a test reads while the writer runs. Nothing is claimed of
/// its bytes: what was written is told by the half that wrote it.
#[derive(Drop)]
pub struct Wire {
    slots: Vec<AtomicU64>,
    filled: AtomicUsize,
    lines: AtomicUsize,
    closed: AtomicBool,
}

impl Wire {
    /// An empty wire with room for so many bytes; what comes behind them is not kept.
    pub fn new(alloc: Global, room: usize) -> Result<Wire, WantOfMemory> {
        let mut slots = Vec::with_capacity(alloc, room)?;
        for _ in 0..room {
            slots.push(AtomicU64::new(0))?;
        }
        Ok(Wire {
            slots,
            filled: AtomicUsize::new(0),
            lines: AtomicUsize::new(0),
            closed: AtomicBool::new(false),
        })
    }

    /// Adds bytes. One thread alone may add.
    pub fn put(&self, bytes: &[u8]) {
        let filled = self.filled.load(Ordering::SeqCst);
        let places = self.slots.iter().skip(filled);
        let mut count = 0usize;
        let mut lines = self.lines();
        for (slot, byte) in places.zip(bytes.iter()) {
            slot.store(*byte as u64, Ordering::SeqCst);
            count = count.saturating_add(1);
            if *byte == b'\n' {
                lines = lines.saturating_add(1);
            }
        }
        let filled = filled.saturating_add(count);
        self.filled.store(filled, Ordering::SeqCst);
        self.lines.store(lines, Ordering::SeqCst);
    }

    /// How many bytes were added.
    pub fn count(&self) -> usize {
        self.filled.load(Ordering::SeqCst)
    }

    /// How many of the added bytes are LF.
    pub fn lines(&self) -> usize {
        self.lines.load(Ordering::SeqCst)
    }

    /// The bytes that were added so far.
    pub fn text(&self, alloc: Global) -> Result<Text, WantOfMemory> {
        let count = self.count();
        let mut bytes = Vec::with_capacity(alloc, count.min(self.slots.len()))?;
        for slot in self.slots.iter().take(count) {
            let byte = slot.load(Ordering::SeqCst) % 256;
            bytes.push(byte as u8)?;
        }
        Ok(Text::from_vec(bytes))
    }

    /// Says that no more bytes come.
    pub fn close(&self) {
        self.closed.store(true, Ordering::SeqCst);
    }

    /// Whether it was closed.
    pub fn is_closed(&self) -> bool {
        self.closed.load(Ordering::SeqCst)
    }
}
