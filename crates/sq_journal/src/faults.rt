//! Why a line was not read.
use sq_base::WantOfMemory;
use thiserror::Error;

/// No entry, or no event, has this text; or memory ran out.
#[derive(Clone, Copy, Debug, Error)]
pub enum EntryFault {
    #[error("no entry")]
    BadEntry,
    #[error("out of memory")]
    WantOfMemory,
}

impl From<WantOfMemory> for EntryFault {
    ghost use Rattle.std.specs.Prelude.{◌≡◌};
    ghost use Rattle.sq_journal.specs.declared.faults.EntryFault.TheVariants as fault;

    ghost from_gives = { λ _ e. e ≡ fault.WantOfMemory };

    fn from(_error: WantOfMemory) -> EntryFault {
        EntryFault::WantOfMemory
    }
}
