//! The machine as definitions: its events and answers, what a history of them says, and what it answers next.
//!
//! `Entry` is one line of a journal: a moment, an event and its answer. The definitions of `specs/` say what a
//! history of entries says of connections (`Connections`), checks (`Checks`), epochs (`Epochs`), processes
//! (`Processes`), questions (`Questions`), cached replies (`KeptReadings`) and buckets (`PoolReadings`), by plain
//! records where a lower crate keeps the same (`Channels`, `Farms`, `KeptLists`, `OpenLookups`, `BucketLevels`);
//! which act is due (`Act`, `DueActs`), what a step says (`StepRule`), and what the machine answers next (`Machine`).
//! Nothing that reads a configuration stands on them.
#![tactic(auto)]

mod acts;
mod entries;
mod kept;
mod limits;
mod moments;
mod places;
mod refusals;

pub use acts::Act;
pub use entries::{Entry, Event, Offset, Told};
pub use kept::CachedReply;
pub use limits::{CONN_LIMIT, EPOCH_LIMIT, LAST_NUMBER};
pub use moments::later;
pub use places::SeatPlace;
pub use refusals::Refusal;
