//! The model of the machine: its state as rows and as a whole, what each event makes of both, and the laws that join
//! them to histories.
//!
//! The rows say what an open check, and a helper class of a live epoch, are as a history leaves them (`CheckRows`,
//! `ClassRows`), and what a step, a line of a helper, a death, a start and an act make of such a row. The engine's parts
//! are proved against these changes and know of no history.
//!
//! The readings of `sq_machine` say what a history comes to. Laws join the two: each reading of a history with one entry
//! more is the change of the row of the history before.
//!
//! `State` has a part for each reading of a history. `Answers` says what the machine answers to an event, `Changes` what
//! the event leaves, both by the state alone. Laws join them to histories: a state that stands for a legal history
//! answers what is next, and after the event it stands for the history with the entry added.
//!
//! The calls are about moments, copy an outcome, and say what a reply ends its question with, and for which question a
//! check was told to wait (`Stepped::question`).
#![tactic(auto)]

mod moments;
mod outcomes;
mod replies;
mod stepping;

pub use moments::minute_of_week;
pub use outcomes::copy_outcome;
pub use replies::what_of;
pub use stepping::{StepEffect, Stepped};
