//! The helper processes of one class: which questions wait, which process has which, and what to do next.
//!
//! A question that was `put` stands in one place until a reply names it or `next_lost` hands it out: it is
//! queued, open on one channel of one living process, or lost with its cause. `act` says what is to be done
//! next, a send before a start, and makes that change. `started` and `start_failed` tell how a start ended,
//! `got` what a process wrote, and `died` that it ended; `look` and `settle` are the two halves of `got`.
//! `act`, `settle`, `start_failed`, `died` and `next_lost` take no memory: `put` made their room.
#![tactic(auto)]

mod acts;
mod farms;
mod faults;
mod losses;
mod procs;
mod readings;

pub use acts::{FarmAct, Waiting};
pub use farms::Farm;
pub use faults::{FarmFault, PutFault, StartFault};
pub use losses::Loss;
pub use procs::Living;
pub use readings::{channel_readings, loss_readings, process_readings};
pub use sq_channel::Got;
