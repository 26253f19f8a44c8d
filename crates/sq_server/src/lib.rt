//! A server: the machine with its journal, the rewriter, the delay pools and the listener behind their locks, and the
//! threads round them; and a server by its words.
//!
//! `serve` makes the desk, and runs the threads of `sq_server_threads`: the pump and the rewriter's pump with their keepers, the
//! workers and a panel beside one another. When the panel's run has ended, the listener is stopped; once every open session has ended no more is to be done,
//! the processes are stopped, and all threads have returned. Then it hands back the listener, the journal, the pools and the
//! panel. A journal that tells is legal, its requests are the sum of those that the sessions counted, and what the pools of
//! both kinds granted is the sum of what they were granted. It says whether the journal or the listener failed, each only where the count of
//! its object rose.
//!
//! `serve_service` opens and reads the configuration, opens the net, runs `serve` with a control as its panel, and
//! writes how it ended. Each status has its cause, and what came of it by the files, streams, journal and net that it was handed is
//! `IsService`. `World` names the kinds of these by one type, and `Platform` is what a call runs on.
#![tactic(auto)]

mod beginning;
mod held;
mod service;
mod serving;
mod starting;
mod threads;
mod watched;
mod world;

pub use service::serve_service;
pub use serving::serve;
pub use starting::{Served, Start, Unserved};
pub use world::{Platform, World};
