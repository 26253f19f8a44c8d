//! The open connections and the open checks, with the rules of each check, evaluated by a place in them that is stored and
//! goes on from where it stopped.
//!
//! `Conns` has the open connections, each with its client and its open check, and counts them by client
//! address. `OpenCheck` is a check from its request to its outcome: `come_to` goes on with its rules over its
//! answers, from where it stopped, `note` and `finish` take what a step says, `serve` gives it the answer of the
//! question that it waits for.
//! `OpenChecks` holds them by number, and `Record` is what is left of one whose outcome was taken; `seat_place` says
//! where that is seated; where the buckets of its pool are by tags, by the tag that the helpers of its check named, the
//! first one of the walk over its answers. A check that waits has its own copy of the key, so the end of its question is delivered
//! without memory.
//!
//! `Frames` holds the place: in the list of rules, and in each open group and line of it. `run` goes on from there
//! to a verdict, or to the first external acl that no value was given for. `give` gives that value, and it is kept
//! for each later place of the acl. At each stop the answer is that of the rules over the values given so far, and all
//! runs of one check together have looked as often as the walk of the rules over these values has leaf acls, by the
//! counters that they were handed. Neither call takes memory. `Slots` has the places of a configuration's external acls
//! in the table of given values, and how deep its groups nest, once for all checks over it.
#![tactic(auto)]

mod answers;
mod check_state;
mod conns;
mod counts;
mod depths;
mod frames;
mod going;
mod looking;
mod open_check;
mod open_checks;
mod positions;
mod records;
mod seat_places;
mod slots;
mod spots;
mod stages;
mod stepping;
mod tables;
mod tags;
mod walk_inputs;

pub use answers::{Given, Place, Ran};
pub use conns::{Conns, Link};
pub use frames::Frames;
pub use going::class_of;
pub use open_check::OpenCheck;
pub use open_checks::OpenChecks;
pub use records::Record;
pub use slots::Slots;
pub use stages::{CheckStage, Need};
