//! The machine: connections, checks and live epochs together.
//!
//! Each call of `Engine` is one event. Its clauses say what it answers and what it leaves by the machine's state
//! alone, as `sq_model` defines both (`state_of` is the state of an engine); no history is in them. A call that is
//! refused, or that wants memory, leaves the state as it is. What holds of every engine is `IsEngine`: its parts
//! agree with each other.
#![tactic(auto)]

mod acts;
mod asking;
mod current;
mod deaths;
mod ending;
mod engines;
mod handing;
mod holding;
mod lines;
mod opening;
mod readers;
mod reconfiguring;
mod starts;
mod stepping;
mod telling;

pub use engines::Engine;
