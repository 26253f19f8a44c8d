//! A line while it is gathered.
ghost use Rattle.std.specs.Prelude.{◌≡◌, ◌++◌, ◌∷◌, [], IfOk};
ghost use Rattle.sq_keeper.specs.Lines.{cut};

use sq_base::WantOfMemory;
use std::alloc::Global;
use std::marker::Model;

/// A line is kept up to this many bytes: one more than a reply line may have.
const ROOM: usize = 65537;

/// A line so far, up to its first 65,537 bytes. Its room is made once. A contract sees its bytes.
#[derive(Drop)]
pub struct LineBuffer {
    bytes: Vec<u8>,
}

impl Model for LineBuffer {
    ghost use Rattle.std.specs.Prelude.{◌≤◌, List, ℕ, vec_len, vec_capacity};

    ghost Value = { List ℕ };

    ghost view = { λ l. l.bytes.items };

    ghost invariant = { λ l. (65537 ≤ vec_capacity l.bytes) × (vec_len l.bytes ≤ 65537) };
}

impl LineBuffer {
    /// An empty line, with its room.
    pub fn new(alloc: Global) -> Result<LineBuffer, WantOfMemory>
        ensures { IfOk result (λ l. l ≡ []) }
    {
        let bytes = Vec::with_capacity(alloc, ROOM)?;
        Ok(LineBuffer { bytes })
    }

    /// Takes one more byte. Past its room the line stays.
    #[tactic(auto, using(crate::proofs::CutLaws::cut_whole, crate::proofs::CutLaws::cut_full))]
    pub fn take(&mut self, byte: u8)
        ensures { self.new ≡ cut (self.old ++ byte ∷ []) }
    {
        if self.bytes.len() >= ROOM {
            return;
        }
        self.bytes.push(byte).unwrap();
    }

    /// Begins the next line.
    pub fn clear(&mut self)
        ensures { self.new ≡ [] }
    {
        self.bytes.clear();
    }

    /// The bytes, lent.
    pub fn as_bytes(&self) -> &[u8]
        ensures { result.now ≡ self.now }
    {
        self.bytes.as_slice()
    }
}
