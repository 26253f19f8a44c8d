//! What the threads of a server share round its desk, each value behind a lock of its own.
//!
//! `Ledgers` names the ledgers of a server's four books by one type, and `NetTypes` the types of an opened net's parts. `Hall` is
//! the desk with the books of its requests, reconfigurations and refusals; `Door` is the listener with the word whether it
//! failed. Their methods say what a call does to the value and to the shares that are handed in, and their types keep what
//! their books count. `Room` is the desk's lock; `LockDesk` is the desk behind it, as a thread of helper processes sees it,
//! and `ControlDesk` as the control does. The lines that take a lock stand in `holds`, which sessions call, `lock_desk`,
//! `control_desk`, `door_holds` and `waits`.
#![tactic(auto)]

mod awaited;
mod control_desk;
mod counting;
mod door;
mod door_holds;
mod hall;
mod hall_calls;
pub mod holds;
mod ledgers;
mod lock_desk;
mod net_types;
mod older;
mod room;
mod wait_queues;
mod waits;

pub use control_desk::ControlDesk;
pub use door::Door;
pub use door_holds::{accept, has_failed};
pub use hall::Hall;
pub use ledgers::{Asks, Grants, Ledgers, Makes, Refusals};
pub use lock_desk::LockDesk;
pub use net_types::{HelperTypes, NetTypes, WorkerTypes};
pub use room::{Room, WaitPlaces};
pub use waits::{
    changes, is_awaited, is_stopped, number_told, set_done, tell_end, wait_answered, wait_due,
    wake_after_step, wake_if_stopped,
};
