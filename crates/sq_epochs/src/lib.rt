//! The live epochs with a part for each of their classes, of which epoch and class each process is, and due stops.
//!
//! `Epochs` finds an epoch by its number, by a binary search over the few that live, and a class by its place in the
//! epoch's configuration; a process's home by a binary search over the living. A call on one class changes its part as
//! `sq_class` says (`IsChanged`); a start and an end change homes too, and `act` makes the first act that is due. Of each
//! epoch it is kept which classes owe an act, as sets of places in one word each (`BitSet`), so the search for it looks
//! at no class that owes none. `began` and `ended` count the open checks of an epoch, which ends with its last one unless
//! it is current; then its processes are taken out, and their stops are due. `reconfigure` begins an epoch, whose classes
//! have what was kept of those that are alike. No call here knows of a history.
#![tactic(auto)]

mod acts;
mod bit_set;
mod due;
mod epoch;
mod epochs;
mod faults;
mod homes;
mod lives;
mod procs;
mod stops;

pub use epochs::Epochs;
pub use faults::StartedFault;
