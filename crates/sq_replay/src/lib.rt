//! What a run of a script comes to, on the machine with helpers, epochs and delay pools.
//!
//! `RunText` says what the text of a run is and how it ends; `Headline` what is so of the history of every run. The laws of
//! `proofs/` show that it is so, that the acts after a line come to an end, and that a run only adds to its text. `ScriptMachine` is
//! the engine with its delay pools: each of its calls is one event, and what it answers and leaves is said over every history
//! that it stands for.
#![tactic(auto)]

mod beginning;
mod ends;
mod entering;
mod events;
mod helping;
mod lines;
mod machines;
mod named;
mod names;
mod page;
mod pooling;
mod riders;
mod seats;
mod stops;

pub use beginning::replay;
pub use ends::RunEnd;
pub use machines::ScriptMachine;
pub use page::{Unwritten, put_line, write_page};
pub use stops::Stop;
