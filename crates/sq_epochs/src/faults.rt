//! Why a start is refused.
use sq_base::WantOfMemory;
use std::fmt;
use thiserror::Error;

/// Why a process was not noted as started.
#[derive(Clone, Copy, Debug, Error)]
pub enum StartedFault {
    #[error("no start is open")]
    NoStartOpen,
    /// No number is left for it.
    #[error("no number is left for a process")]
    Spent,
    #[error("out of memory")]
    WantOfMemory,
}

impl From<WantOfMemory> for StartedFault {
    ghost use Rattle.std.specs.Prelude.{◌≡◌};
    ghost use Rattle.sq_epochs.specs.declared.faults.StartedFault.TheVariants as fault;

    ghost from_gives = { λ _ e. e ≡ fault.WantOfMemory };

    fn from(_error: WantOfMemory) -> StartedFault {
        StartedFault::WantOfMemory
    }
}
