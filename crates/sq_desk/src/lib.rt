//! The machine with the journal of what it did.
//!
//! `Desk` has the calls of the engine. Each makes the engine's call and notes exactly one entry, or notes nothing. A
//! call is refused as the machine refuses it (`DeskFault::Engine`), for want of memory, because its note failed, or because
//! an earlier note did: then the desk is stopped for good. Until then the machine's state stands for the journal, where
//! that tells its entries, and there is a spare place for the close of each open connection and the death of each living
//! process. A journal that tells is legal, also once the desk is stopped: over the configuration with which the desk
//! began and those of its reconfigurations, each of which its source states. It counts the reconfigurations that it noted,
//! and until a note failed the number of the current epoch is one above them. To those who make its calls it is a
//! `DeskCalls`, which tells its journal and its counts.
#![tactic(auto)]

mod calls;
mod desks;

pub use desks::{Desk, DeskStart};
pub use sq_calls::DeskFault;
