//! The threads that serve helper processes: the pump's, and one keeper for each process.
//!
//! `pump_all` performs the acts of a desk behind its lock until no more is to be done, and has a keeper thread for each
//! process that it started; it returns once every keeper has. A process of the class by which names are looked up is no
//! program: its keeper answers its questions itself, over what a resolver finds. Where a keeper has ended, the pump lets go of its process
//! before its next turn. A keeper that cannot be had is tried again in each round, for as long as a process may owe an answer:
//! then, where nothing else is due, the process is ended as if it had died. The two share a `Shelf`.
//! It claims nothing of when a thread gets on.
//!
//! The pump goes a round at a time, and in each a turn. `ServePump` performs the acts of a desk: it starts programs, writes questions to them, and
//! ends those whose output has ended. `Reader` is the half of a process that is read, with its number and the moment of its start. `ServeLines` hands a
//! desk its lines and its death, each at a moment of the clock. What a turn did, and at which moment it noted what, its answer
//! says.
#![tactic(auto)]

mod asking;
mod board;
mod halves;
mod keeper_counts;
mod keeper_halves;
mod keeping;
mod lines;
mod pump;
mod pumping;
mod reader;
mod reporting;
mod rounds;
mod shelf;
mod site;
mod starting;
mod taking;
mod turning;
mod turns;

pub use halves::{AskerOut, ProcIn};
pub use lines::ServeLines;
pub use pump::ServePump;
pub use pumping::{KeeperParts, PumpParts, PumpTools, pump_all};
pub use reader::Reader;
pub use shelf::Shelf;
pub use turns::{Left, Turn};
