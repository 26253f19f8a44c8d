//! What a machine wants done.
use sq_base::{EpochNo, ProcNo, QuestionNo, Text};

/// What is to be done next.
#[derive(Drop)]
pub enum Act {
    /// The process is to be stopped.
    Stop(ProcNo),
    /// The question is to be written to a process, on this channel where its lines have channel numbers.
    Send {
        proc: ProcNo,
        question: QuestionNo,
        channel: Option<u32>,
        text: Text,
    },
    /// A process of this class is to be started.
    Start {
        epoch: EpochNo,
        class: u32,
    },
}
