//! The threads of a server, begun and joined.
//!
//! Over a desk of any kind and pools that are in their locks, `OpenedBooks::run` runs the pump and the rewriter's pump with
//! their keepers, the workers and a panel beside one another, and hands back what they held when all have returned.
#![tactic(auto)]

mod running;

pub use running::{OpenedBooks, REFUSALS, RewriterStart, ServerRun, ThreadTools, Tools, Wholes};
