//! Reply lines and question lines of helper programs.
//!
//! `read_reply` reads one reply line without its LF, `print_reply` writes one, and `print_question`
//! writes a question line. A line is read exactly where it is in the grammar, which `sq_base` states as
//! trees with their texts, and it has one meaning. What `print_reply` writes, where it is no longer than
//! a line may be, reads as the same channel and reply. A line without pairs is read in one pass and
//! without memory; any other line is read in two.
#![tactic(auto)]

mod bytes;
mod faults;
mod pairs;
mod printing;
mod reading;
mod values;
mod words;

pub use faults::ReplyFault;
pub use printing::{print_question, print_reply};
pub use reading::read_reply;
