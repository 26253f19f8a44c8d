//! Why a call of a desk was not made.
ghost use Rattle.std.specs.Prelude.{◌≡◌};
ghost use Rattle.sq_calls.specs.Faults.{fault_of};
ghost use Rattle.sq_calls.specs.Telling.{reports_stop};

use sq_machine::Refusal;
use thiserror::Error;

/// Why a call of a desk was not made, or not noted.
#[derive(Clone, Copy, Debug, Error)]
pub enum DeskFault {
    /// A note failed before, and the desk is stopped.
    #[error("the journal failed before")]
    Stopped,
    /// The machine refuses the event, for another reason than want of memory. Nothing is noted.
    #[error("{0}")]
    Engine(Refusal),
    /// The note failed: the desk is stopped from here on.
    #[error("the journal failed")]
    JournalFault,
    /// There was no memory. Nothing is noted.
    #[error("out of memory")]
    WantOfMemory,
}

impl DeskFault {
    /// The fault of a refusal of the machine. Want of memory is a fault of its own, and no refusal.
    pub fn of(refusal: Refusal) -> DeskFault
        ensures { result ≡ fault_of refusal }
    {
        match refusal {
            Refusal::WantOfMemory => DeskFault::WantOfMemory,
            other => DeskFault::Engine(other),
        }
    }
}

/// Whether a call reported that the desk has stopped, or that its journal failed.
pub fn reports_stop<T>(gave: &Result<T, DeskFault>) -> bool
    ensures { result ≡ reports_stop gave.now }
{
    matches!(gave, Err(DeskFault::Stopped | DeskFault::JournalFault))
}
