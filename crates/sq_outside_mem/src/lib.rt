//! The traits of `sq_outside` in memory: forms that tell all, and fail where a list says so. They are for tests alone.
//!
//! `MemSource`, `MemSink` and `MemFiles` are texts and files; `MemOut`, `MemDialer` and `MemListener` links, `MemSpawner`
//! helper processes, `MemClock` and `MemResolver` moments and addresses, and `MemNet` a net of them. Each is made with all
//! that it will give, with its room, and with the numbers of the calls that are to fail. A `Wire` shows what was written
//! to a link while others write.
#![tactic(auto)]

mod mem_child;
mod mem_clock;
mod mem_dialer;
mod mem_files;
mod mem_listener;
mod mem_net;
mod mem_out;
mod mem_sink;
mod mem_source;
mod mem_spawner;
mod wire;

pub use mem_child::{MemChildOut, MemWait};
pub use mem_clock::{MemClock, MemName, MemResolver};
pub use mem_dialer::{MemDial, MemDialer, MemIn, MemOrigin};
pub use mem_files::{MemFile, MemFiles, MemOpening};
pub use mem_listener::{MemLink, MemListener, MemStopper};
pub use mem_net::{MemNet, MemParts};
pub use mem_out::{MemOut, MemPair, MemShape};
pub use mem_sink::MemSink;
pub use mem_source::MemSource;
pub use mem_spawner::{MemChild, MemSpawner};
pub use wire::Wire;
