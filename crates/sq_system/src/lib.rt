//! The adapters over the system: files and streams, sockets, helper programs, names and the clock, as objects of
//! the traits of `sq_outside`. They are the trusted edge: that what they hand on are the true bytes is for the
//! reader to see, and `tests_system` tries them on the loopback.
//!
//! Over readers and writers of std that tell what they hold, an adapter tells the same, but for `RealLines`, which holds bytes
//! that are not written yet; the system's tell nothing.
//! A host is dialled in its one spelling alone (`has_one_spelling`), and links, dials and answers of
//! helper programs have limits of time (`LinkTimes`).
//! A call answers a fault only where the object's count rose, and each error of the system raises it.
#![tactic(auto)]

mod access_line;
mod access_log;
mod again;
mod arrivals;
mod children;
mod dialling;
mod doorkeeper;
mod handed;
mod hosts;
mod house;
mod line_text;
mod lines;
mod link_stream;
mod look_ups;
mod messages;
mod names;
mod open_files;
mod owed;
mod process;
mod ready;
mod real_clock;
mod real_net;
mod seats;
mod system;
mod tcp;
mod tcp_client;
mod tcp_server;
mod times;
mod turn_log;

pub use access_log::AccessLog;
pub use children::{RealChildIn, RealChildOut, RealSpawner};
pub use doorkeeper::KeeperPost;
pub use hosts::has_one_spelling;
pub use lines::RealLines;
pub use names::{Goal, asked, hosts_addresses, tried_so};
pub use real_clock::RealClock;
pub use real_net::RealNet;
pub use system::{RealFiles, RealSink, RealSource};
pub use tcp::{RealIn, RealOut};
pub use tcp_client::{RealDialer, RealResolver};
pub use tcp_server::{Listening, RealListener, RealStopper};
pub use times::LinkTimes;
