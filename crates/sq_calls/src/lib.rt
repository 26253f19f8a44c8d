//! The calls of a desk, as those see them who make them.
//!
//! They are three traits by who makes them: `ConnCalls` those of a client's session, `HelperCalls` those of the threads
//! of helper processes, `ControlCalls` those of the control; `TellsJournal` is what all of them see, and `DeskCalls`
//! all calls together. Where the desk tells its journal, each call that was made added its entry and nothing else, and
//! one that was refused added nothing. The entry's moment is that of the call, or the latest so far; its answer, and a
//! refusal, is what the machine answers next over the told history. A refusal, and a note that failed, was counted. A
//! desk that lies behind a lock tells no journal, since other threads note entries too, and what is proved over these
//! traits holds of it all the same. `Moments` has words for those who take a desk's moments from a clock.
#![tactic(auto)]

mod calls;
mod faults;

pub use calls::{ConnCalls, ControlCalls, DeskCalls, HelperCalls, TellsJournal};
pub use faults::{DeskFault, reports_stop};
