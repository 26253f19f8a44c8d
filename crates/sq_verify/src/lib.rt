//! Journals judged: each line of a journal against the line that the machine has for its event. Journals migrated: one of
//! version 1 written as one of version 2.
//!
//! `Judging` says what a journal of either version comes to over a configuration. `judge` reads a journal line by line, plays
//! each event and compares; `write_finding` writes what was found. `migrate` reads a journal of version 1 line by line, and writes
//! version 2 in pages.
#![tactic(auto)]

mod beginning;
mod comparing;
mod findings;
mod halts;
mod judging;
mod machine_player;
mod migrating;
mod players;
mod playing;
mod taking;
mod versions;
mod writing;

pub use beginning::judge;
pub use findings::Finding;
pub use migrating::{MigrateFault, migrate};
pub use players::Player;
pub use writing::{write_differs, write_finding};
