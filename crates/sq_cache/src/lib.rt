//! The verdicts of helpers that are kept, so that a question is asked once as long as its answer is fresh.
//!
//! `Kept` has the verdicts of one class under their keys, the newest use first, up to a limit. `peek` looks
//! a fresh verdict up, `promote` moves its key to the front, and `take` does both. `put` puts a verdict in
//! front and lets the least lately used go. `exchange` exchanges the verdicts of two classes. Each is one
//! move of the definition (`KeptLists` and `Freshness` of `sq_machine`). `HashSeed` seeds the hashes of keys,
//! which strangers choose.
#![tactic(auto)]

mod freshness;
mod kept;
mod seed;

pub use kept::{Kept, Taken};
pub use seed::HashSeed;
