//! What a farm asks for next.
use sq_base::{ProcNo, QuestionNo, Text};
use std::marker::Model;

/// A question that waits for a process, and its text.
#[derive(Drop)]
pub struct Waiting {
    pub question: QuestionNo,
    pub text: Text,
}

impl Model for Waiting {
    ghost use Rattle.sq_machine.specs.Farms.{Waiting};

    ghost Value = { Waiting };

    ghost view = { λ w. record { question = w.question; text = w.text } };
}

/// What a farm asks for next.
#[derive(Drop)]
pub enum FarmAct {
    /// This question is to be written to this process.
    Send {
        proc: ProcNo,
        question: QuestionNo,
        channel: Option<u32>,
        text: Text,
    },
    /// A process is to be started.
    Start,
}
