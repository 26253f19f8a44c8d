//! The lookups that are open, so that whoever needs an answer waits for the question that is put already.
//!
//! `Lookups` has the open questions of one class with their keys, and the checks that wait for them. A key has
//! one open question at most, and a check waits for one question at most. `pending` finds the question of a
//! key, `open` begins one, `join` lets a check wait for it, `leave` takes a check away, `waiting` lends the
//! list of those that wait, and `answered` hands it out and ends the question. `Checks` is such a list. Nothing
//! here is a hash table, so the keys, which strangers choose, cannot slow a look-up down.
#![tactic(auto)]

mod checks;
mod keys;
mod lookups;
mod rows;
mod waiters;

pub use checks::Checks;
pub use lookups::Lookups;
