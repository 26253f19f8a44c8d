//! Want of memory, and values that are copied where memory allows.
ghost use Rattle.std.specs.Prelude.{◌≡◌, IfOk};

use std::alloc::{AllocError, AllocFailed, Global};
use std::fmt;
use thiserror::Error;

/// There was no memory.
#[derive(Clone, Copy, PartialEq, Eq, Debug, Error)]
#[error("out of memory")]
pub struct WantOfMemory;

impl From<AllocError> for WantOfMemory {
    fn from(_error: AllocError) -> WantOfMemory {
        WantOfMemory
    }
}

impl<T: Drop> From<AllocFailed<T>> for WantOfMemory {
    fn from(_error: AllocFailed<T>) -> WantOfMemory {
        WantOfMemory
    }
}

/// A value that is copied where memory allows. The copy is the same value.
pub trait Copying: Sized {
    fn copy(&self, alloc: Global) -> Result<Self, WantOfMemory>
        ensures { IfOk result (λ x. x ≡ self.now) };
}

impl Copying for u32 {
    fn copy(&self, _alloc: Global) -> Result<u32, WantOfMemory> {
        Ok(*self)
    }
}
