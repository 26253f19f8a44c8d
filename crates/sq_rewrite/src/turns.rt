//! What a turn of a rewriter's pump answers, and what it may leave.
use crate::acts::RewriteAct;

/// What a turn did.
#[derive(Drop)]
pub enum RewriterTurn {
    /// This act was performed.
    Acted(RewriteAct),
    /// Nothing was left, and nothing is due.
    Idle,
    /// There was no memory. What is to be done is left for the next turn.
    WantOfMemory,
}

/// A process that was started and is not noted yet: the half that is read, and the one that is written to.
#[derive(Drop)]
pub struct StartedHalves<P, Q> {
    pub from: P,
    pub to: Q,
}
