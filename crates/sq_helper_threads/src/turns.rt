//! What a turn of a pump answers, and what it may leave.
use sq_base::{EpochNo, ProcNo};
use sq_machine::Act;

/// What a turn did.
#[derive(Drop)]
pub enum Turn {
    /// This act was performed.
    Acted(Act),
    /// Nothing was left, and nothing is due.
    Idle,
    /// The desk has stopped.
    Ended,
    /// There was no memory. What is to be done is left for the next turn.
    WantOfMemory,
}

/// What a turn left: an act that the desk gave and that is to be performed, or the entry that it still needs. `P` is
/// the half of a program that is read, `A` that of a thread that answers look-ups, and `Q` the one of either that is
/// written to.
#[derive(Drop)]
pub enum Left<P, Q, A> {
    /// The whole act.
    Whole(Act),
    /// The entry of a start that the spawner failed.
    Failed {
        epoch: EpochNo,
        class: u32,
    },
    /// The entry of a process that was started.
    Started {
        epoch: EpochNo,
        class: u32,
        from: P,
        to: Q,
    },
    /// The entry of a thread that is to answer look-ups of names.
    Asked {
        epoch: EpochNo,
        class: u32,
        from: A,
        to: Q,
    },
    /// The entry of a process whose half failed in this act.
    Died {
        proc: ProcNo,
        act: Act,
    },
}
