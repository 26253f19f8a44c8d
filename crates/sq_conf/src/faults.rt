//! Why a text was not read.
use sq_base::WantOfMemory;
use sq_rules::{ConfError, Kind};
use thiserror::Error;

/// Why a line was not read: its first fault, or want of memory.
#[derive(Clone, Copy, Debug)]
pub enum ReadFault {
    Memory,
    Fault(Kind),
}

impl From<WantOfMemory> for ReadFault {
    ghost use Rattle.std.specs.Prelude.{◌≡◌};
    ghost use Rattle.sq_conf.specs.declared.faults.ReadFault.TheVariants as fault;

    ghost from_gives = { λ _ e. e ≡ fault.Memory };

    fn from(_error: WantOfMemory) -> ReadFault {
        ReadFault::Memory
    }
}

/// Why a text is no configuration.
#[derive(Clone, Copy, Debug, Error)]
pub enum ConfFault {
    /// Its first fault.
    #[error("{0}")]
    At(ConfError),
    /// There was no memory, or a pattern takes more of it than a pattern may.
    #[error("out of memory")]
    WantOfMemory,
}

impl From<WantOfMemory> for ConfFault {
    ghost use Rattle.std.specs.Prelude.{◌≡◌};
    ghost use Rattle.sq_conf.specs.declared.faults.ConfFault.TheVariants as fault;

    ghost from_gives = { λ _ e. e ≡ fault.WantOfMemory };

    fn from(_error: WantOfMemory) -> ConfFault {
        ConfFault::WantOfMemory
    }
}
