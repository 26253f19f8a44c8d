//! How far a driver is.
use sq_base::{CheckNo, ConnNo, EpochNo, ProcNo, Text};

/// What a driver does next.
#[derive(Drop)]
pub enum DriverStage {
    /// The next request's connection opens.
    Opening,
    /// Its request arrives.
    Asking,
    /// The check that is driven goes on.
    Stepping,
    /// The act that is due after that step is made.
    Acting,
    /// The start that was such an act succeeds.
    Starting { epoch: EpochNo, class: Text },
    /// The first question that was sent and has no answer is answered.
    Replying,
    /// The outcome of the check that is driven is taken.
    Taking,
    /// And its connection closes.
    Closing,
    /// Nothing: the rehearsal is over.
    Over,
}

/// What the last step of a check said.
#[derive(Clone, Copy)]
pub enum StepKind {
    /// An answer was taken: the check goes on.
    Took,
    /// The check waits for a question.
    Waits,
    /// The check has its outcome.
    Done,
}

/// An open check, its connection, and how many turns it has left.
#[derive(Clone, Copy, Drop)]
pub struct Pending {
    pub check: CheckNo,
    pub conn: ConnNo,
    pub more: u8,
}

/// A question that was sent and has no answer: to which process, on which channel, and whether it is answered OK.
#[derive(Clone, Copy, Drop)]
pub struct SentQuestion {
    pub proc: ProcNo,
    pub channel: Option<u32>,
    pub ok: bool,
}
