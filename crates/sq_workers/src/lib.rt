//! The workers of a server.
//!
//! `LockHub` is the engine, the rewriter and the pools behind their locks, as the sessions of one worker see them: what it
//! asked and was granted are its shares of the books, and each of its calls that has the name of a call of the desk or of
//! the pools, or puts a question to the rewriter or takes what it came to, is one hold of that lock; only a grant that is not the
//! seat's turn pauses, with no lock held, and is tried again. `work_all` runs workers
//! beside one another; each takes a link from the door, serves it, and takes the next, until the listener stops. What
//! comes back are the sums over all sessions, which are the shares of the books.
#![tactic(auto)]

mod attending;
mod hub_waits;
mod lent_seats;
mod lock_hub;
mod rooms;
mod sums;
mod tallies;
mod working;

pub use lock_hub::{LockHub, Shares};
pub use rooms::SessionRooms;
pub use sums::Sums;
pub use working::{WorkerTools, work_all};
