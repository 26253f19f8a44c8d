//! What the program reads, writes and opens, each object behind a trait that counts its faults.
//!
//! `Source`, `Sink` and `Files` say what an object's calls do to what it tells: the bytes that it has
//! left, those that were written, the text of each name and the openings. `Out`, `Dialer` and `Listener`
//! are links, `Spawner` starts helper processes, `Clock` and `Resolver` tell moments and addresses, and a
//! `Net` opens them all at a port. A call answers a fault only where the object's count rose. The forms in
//! memory, which tell all and fail where a list says so, are a crate of their own, `sq_outside_mem`, and so are
//! the adapters over the system, `sq_system`. `Calls` counts the calls of a form in memory.
//! `Observed` is what a link is told of the turns of its connection, for who keeps a log of them; no clause speaks of it.
//! `read_whole`, `read_file`, `write_all` and `write_line` read and write whole texts. `next_line` reads a
//! script line by line: each line of the source that can be read, in order, and then its end or a line that
//! no LF ends or that is over a limit; `next_line_within` does so with another limit for the line.
#![tactic(auto)]

mod calls;
mod held;
mod input;
mod lines;
mod links;
mod net;
mod observing;
mod output;
mod traits;
mod world;

pub use calls::{COUNT_LIMIT, Calls, raised, raised_by};
pub use held::Held;
pub use input::{Unread, read_file, read_whole};
pub use lines::{LINE_LIMIT, LineFound, TOTAL_LIMIT, next_line, next_line_within};
pub use links::{Accepted, Dialer, LinkUse, Listener, Out};
pub use net::{Net, Parts, Stopper};
pub use observing::{DialFault, DialSeen, Observed, TurnEnd};
pub use output::{write_all, write_line};
pub use traits::{Expected, Failed, Files, NoOpen, Sink, Source};
pub use world::{Another, Clock, LookFault, Resolver, Spawner};
