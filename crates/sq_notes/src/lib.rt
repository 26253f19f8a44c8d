//! The events of a desk: each makes the engine's call, and notes its entry.
//!
//! `Notes` is a journal with the word whether a note failed, the count of refusals and that of noted reconfigurations.
//! Each event is a function over an engine and notes: it makes what the entry needs, a place in the journal, copies of
//! texts, room for a name; then the engine's call; and notes exactly one entry, or nothing where the call is refused or no act
//! is due. `good` says for proofs what holds of every configuration.
#![tactic(auto)]

pub mod acts;
pub mod checks;
pub mod conns;
pub mod ends;
pub mod lines;
mod notes;
pub mod reconfiguring;
pub mod starts;
pub mod stepping;
pub mod taking;

pub use notes::Notes;
