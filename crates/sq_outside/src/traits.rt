//! What the program reads, writes and opens. Each object counts its faults, and may tell its content.
ghost use Rattle.std.specs.Prelude.{◌≡◌, ℕ, ◌<◌, ◌≤◌, List, length, IfOk, IsErrOf};
ghost use Rattle.std.specs.declared.option.Option.{Option};
ghost use Rattle.std.specs.Io.{ReadsAtMost, WritesAtMost};
ghost use Rattle.std.specs.Io.KnownBytes.{ReadConsumes, WriteAppends};
ghost use Rattle.sq_outside.specs.Causes.{HasCause, OpenHasCause, TakesBack, count_limit};
ghost use Rattle.sq_outside.specs.Dials.{Origin};
ghost use Rattle.sq_outside.specs.Soon.{CameAtMost, CameConsumes};
ghost use Rattle.sq_outside.specs.Told.{Texts, GivesText, IsNotTold, Openings, Opens};

use crate::observing::Observed;
use sq_base::{Text, WantOfMemory};
use std::alloc::Global;
use thiserror::Error;

/// A call of the object failed.
#[derive(Clone, Copy, Debug, PartialEq, Eq, Error)]
#[error("the call failed")]
pub struct Failed;

/// Why a file was not opened.
#[derive(Clone, Copy, Debug, PartialEq, Eq, Error)]
pub enum NoOpen {
    /// There is no file of this name.
    #[error("there is no file of this name")]
    Missing,
    /// The opening failed, and was counted.
    #[error("the opening failed")]
    Failed,
    /// There was no memory.
    #[error("out of memory")]
    WantOfMemory,
}

impl From<WantOfMemory> for NoOpen {
    ghost use Rattle.sq_outside.specs.declared.traits.NoOpen.TheVariants.{WantOfMemory};

    ghost from_gives = { λ _ e. e ≡ WantOfMemory };

    fn from(_: WantOfMemory) -> NoOpen {
        NoOpen::WantOfMemory
    }
}

/// What a reader expects next of its source.
#[derive(Clone, Copy, PartialEq, Eq)]
pub enum Expected {
    /// The first byte of a message, which may take as long as it likes.
    Nothing,
    /// More of a head.
    Head,
    /// A line of a chunk, or a trailer.
    Line,
    /// The bytes of a body or of a tunnel.
    Data,
}

/// What bytes are read from, in pieces.
pub trait Source {
    /// The bytes that reads will give from here on, where the source tells them.
    ghost left: { Self → Option (List ℕ) };

    /// What was dialled for it, with all its bytes from the beginning, where it was dialled and tells that.
    ghost origin: { Self → Option Origin };

    /// How often it has failed.
    ghost faults: { Self → ℕ };

    /// Reads some bytes. 0 for a slice that is not empty is the end.
    fn read(&mut self, into: &mut [u8]) -> Result<usize, Failed>
        ensures bound { ReadsAtMost result into.new }
        ensures bytes { ReadConsumes (left self.old) (left self.new) result into.new }
        ensures origin { origin self.new ≡ origin self.old }
        ensures cause { HasCause (faults self.old) (faults self.new) result };

    /// Reads some bytes, as `read` does. Where none came for some seconds it answers None, and none was read.
    fn read_soon(&mut self, into: &mut [u8]) -> Result<Option<usize>, Failed>
        ensures bound { CameAtMost result into.new }
        ensures bytes { CameConsumes (left self.old) (left self.new) result into.new }
        ensures origin { origin self.new ≡ origin self.old }
        ensures cause { HasCause (faults self.old) (faults self.new) result }
    {
        match self.read(into) {
            Ok(count) => Ok(Some(count)),
            Err(Failed) => Err(Failed),
        }
    }

    /// Hears what its reader expects from now on, so that it can limit the time for that. It reads nothing. Until the first
    /// call data is expected.
    fn expect(&mut self, _what: Expected)
        ensures left { left self.new ≡ left self.old }
        ensures origin { origin self.new ≡ origin self.old }
        ensures faults { faults self.new ≡ faults self.old }
    {}

    ghost capped: { (source : Self) → faults source ≤ count_limit };
}

/// What bytes are written to, in pieces.
pub trait Sink {
    /// The bytes that were written, where the sink tells them.
    ghost contents: { Self → Option (List ℕ) };

    /// How often it has failed.
    ghost faults: { Self → ℕ };

    /// Writes some of the bytes, and never none of a piece that is not empty.
    fn write(&mut self, bytes: &[u8]) -> Result<usize, Failed>
        ensures bound { WritesAtMost result bytes.now }
        ensures some { IfOk result (λ n. 0 < length bytes.now → 0 < n) }
        ensures bytes { WriteAppends (contents self.old) (contents self.new) result bytes.now }
        ensures cause { HasCause (faults self.old) (faults self.new) result };

    /// Hears what comes of the turns of the connection that it belongs to. It changes nothing that anybody is told, takes no
    /// memory and waits for nobody.
    fn observe(&self, _what: &Observed) {}

    ghost capped: { (sink : Self) → faults sink ≤ count_limit };
}

/// Files that are opened by name, read and given back.
pub trait Files {
    type Src: Source;

    /// The files that are there, with their bytes, where the object tells them.
    ghost texts: { Self → Texts };

    /// The openings that gave a source, newest first, where the object tells them.
    ghost opened: { Self → Openings };

    /// How often it has failed, and how many sources came back that had failed.
    ghost faults: { Self → ℕ };

    /// Opens the file of this name, with the count 0. It is `Missing` only where no such file is told, and
    /// a file that was opened is told, with the text that the source has left.
    fn open(&mut self, alloc: Global, name: &Text) -> Result<Self::Src, NoOpen>
        ensures opened { IfOk result
            (λ source. GivesText (texts self.old) name.now (Self.Src.left source)) }
        ensures opened_list { Opens Self.Src.left (opened self.old) (opened self.new) name.now
            result }
        ensures fresh { IfOk result (λ source. Self.Src.faults source ≡ 0) }
        ensures missing { IsErrOf result NoOpen.Missing → IsNotTold (texts self.old) name.now }
        ensures texts { texts self.new ≡ texts self.old }
        ensures cause { OpenHasCause (faults self.old) (faults self.new) result };

    /// Takes a source back.
    fn give_back(&mut self, source: Self::Src)
        ensures texts { texts self.new ≡ texts self.old }
        ensures opened_list { opened self.new ≡ opened self.old }
        ensures cause { TakesBack (faults self.old) (faults self.new) (Self.Src.faults source) };

    ghost capped: { (files : Self) → faults files ≤ count_limit };
}
