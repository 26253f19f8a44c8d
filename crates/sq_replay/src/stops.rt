//! Why an event was not made.
ghost use Rattle.std.specs.Prelude.{◌≡◌};
ghost use Rattle.sq_replay.specs.Making.{stop_for};

use sq_machine::Refusal;

/// Why an event was not made.
#[derive(Clone, Copy)]
pub enum Stop {
    /// It is refused, or stands where it may not.
    Refused,
    /// There was no memory.
    WantOfMemory,
}

// The stop by a refusal of the engine.
pub(crate) fn stop_by(refusal: Refusal) -> Stop
    ensures { result ≡ stop_for refusal }
{
    match refusal {
        Refusal::WantOfMemory => Stop::WantOfMemory,
        _ => Stop::Refused,
    }
}
