//! Why a reply line was not read.
use sq_base::WantOfMemory;
use std::fmt;
use thiserror::Error;

/// Why a reply line was not read.
#[derive(Clone, Copy, PartialEq, Eq, Debug, Error)]
pub enum ReplyFault {
    /// The line is outside the grammar of reply lines.
    #[error("the line is no reply")]
    Bad,
    #[error("out of memory")]
    WantOfMemory,
}

impl From<WantOfMemory> for ReplyFault {
    ghost use Rattle.std.specs.Prelude.{◌≡◌};
    ghost use Rattle.sq_reply.specs.declared.faults.ReplyFault.TheVariants as fault;

    ghost from_gives = { λ _ e. e ≡ fault.WantOfMemory };

    fn from(_error: WantOfMemory) -> ReplyFault {
        ReplyFault::WantOfMemory
    }
}
