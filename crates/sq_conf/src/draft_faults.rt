//! Why no configuration could be made of what was stated.
use sq_base::WantOfMemory;
use thiserror::Error;

/// Why no configuration could be made of what was stated.
#[derive(Clone, Copy, PartialEq, Eq, Debug, Error)]
pub enum FinishFault {
    /// A delay pool has no class, or no parameters.
    #[error("a delay pool has no class or no parameters")]
    Incomplete,
    /// There was no memory.
    #[error("out of memory")]
    WantOfMemory,
}

impl From<WantOfMemory> for FinishFault {
    ghost use Rattle.std.specs.Prelude.{◌≡◌};
    ghost use Rattle.sq_conf.specs.declared.draft_faults.FinishFault.TheVariants as fault;

    ghost from_gives = { λ _ e. e ≡ fault.WantOfMemory };

    fn from(_error: WantOfMemory) -> FinishFault {
        FinishFault::WantOfMemory
    }
}
