//! `MemHub`: a machine, its rewriter and its delay pools in memory, as one connection calls them.
//!
//! It is a hub that tells: each of its calls is the event of its name at the moment that it was made with. While a
//! check waits it makes the acts that are due, says of each start that the process is there, and gives the process that
//! was asked last the next of its listed lines; where none is left, that process dies. While a question to the rewriter
//! waits it does the same with the rewriter and lines of its own. It is for tests of what stands on a hub.
#![tactic(auto)]

mod acting;
mod mem_hub;
mod rewriting;

pub use mem_hub::MemHub;
