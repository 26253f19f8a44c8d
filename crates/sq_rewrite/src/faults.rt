//! Why a rewriter refuses a call.
use sq_base::{ProcNo, QuestionNo, WantOfMemory};
use std::fmt;
use thiserror::Error;

/// Why a rewriter refuses a call. A refused call changes nothing.
#[derive(Clone, Copy, Debug, Error)]
pub enum RewriteFault {
    /// As many questions wait as may.
    #[error("the queue is full")]
    Full,
    /// No start is open.
    #[error("no start is open")]
    NoStartOpen,
    /// The process does not live.
    #[error("process {} does not live", .0.0)]
    UnknownProc(ProcNo),
    /// The question was not asked, or it was taken.
    #[error("question {} is not known", .0.0)]
    UnknownQuestion(QuestionNo),
    /// The number that would be given is the last.
    #[error("{0} is the last number")]
    Spent(u64),
    /// There was no memory.
    #[error("out of memory")]
    WantOfMemory,
}

impl From<WantOfMemory> for RewriteFault {
    ghost use Rattle.std.specs.Prelude.{◌≡◌};
    ghost use Rattle.sq_rewrite.specs.declared.faults.RewriteFault.TheVariants as fault;

    ghost from_gives = { λ _ e. e ≡ fault.WantOfMemory };

    fn from(_error: WantOfMemory) -> RewriteFault {
        RewriteFault::WantOfMemory
    }
}
