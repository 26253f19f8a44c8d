//! One helper process: which question is open on which of its channels, and what its lines answer.
//!
//! `Process::ask` puts a question on the least free channel. `look` says what a line answers and changes
//! nothing, `settle` frees the channel of one question, and `got` is both. `drain` takes the open questions
//! out. Channels without a question and open questions together are the channels, and a question is open on
//! one channel. No call but `new`, `look` and `got` takes memory, and none searches through the channels
//! but `drain`.
#![tactic(auto)]

mod channels;
mod processes;
mod questions;
mod replies;

pub use processes::Process;
pub use replies::Got;
