//! Why a step is refused.
use sq_base::WantOfMemory;
use std::fmt;
use thiserror::Error;

/// Why a step was not made.
#[derive(Clone, Copy, Debug, Error)]
pub enum ResolveFault {
    /// A question is to be put, and no number is left for it.
    #[error("no number is left for a question")]
    Spent,
    #[error("out of memory")]
    WantOfMemory,
}

impl From<WantOfMemory> for ResolveFault {
    ghost use Rattle.std.specs.Prelude.{◌≡◌};
    ghost use Rattle.sq_class.specs.declared.faults.ResolveFault.TheVariants as fault;

    ghost from_gives = { λ _ e. e ≡ fault.WantOfMemory };

    fn from(_error: WantOfMemory) -> ResolveFault {
        ResolveFault::WantOfMemory
    }
}
