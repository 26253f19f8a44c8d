//! The two halves of a helper process: a keeper reads the lines that it writes, and hands them to a desk; pipes have the
//! half that is written to.
//!
//! `LineDesk` is what takes lines: it says what it was handed, where it tells that, and how often it
//! refused. `read_lines` reads a source to its end and hands on each line that LF ends, in order,
//! without its LF; of a longer line the first 65,537 bytes. Where the desk has no memory it hands the
//! same line again, so it may wait. Where the input ended or the source failed it tells the desk once
//! that the process died; where the desk ended the reading it doesn't. `MemDesk` is a desk in memory.
//!
//! `write_question` writes a question's line piece by piece, without memory. `Pipes` keeps the writing half of each process
//! that was started, found by the process's number: `send` writes a question to one and closes it where that fails, `stop`
//! closes one, and `sweep` lets go of those that were closed. Room for one more is made before a process is started, so `put`
//! takes no memory. `has_waited` says whether a process has had as long as it may owe an answer.
#![tactic(auto)]

mod desk;
mod keeper;
mod line_buffer;
mod mem_desk;
mod pipes;
mod questions;
mod waiting;

pub use desk::{Handed, LineDesk, LineEnd};
pub use keeper::{KeeperEnd, hand, read_lines};
pub use line_buffer::LineBuffer;
pub use mem_desk::MemDesk;
pub use pipes::{Pipe, Pipes, SendEnd};
pub use questions::write_question;
pub use waiting::has_waited;
