//! The program's commands, over files and a sink that are handed in.
//!
//! `run_command` is all of the top call that needs neither a net nor a runtime, and so returns. It takes any list of words,
//! any files and any sink. Each status has its cause. Where files and sink tell their bytes, it promises what it writes and
//! how it ends: a run's text is that of the machine's history, whose answers are each the next one by the definitions of the
//! machine, and a journal that is verified is the text of such a history. `read_service` reads the words of a server,
//! `open_conf` its configuration, and `finish` writes the last line of any of them.
//!
//! `rehearse` runs a rehearsal, a large valid input that is made from a number, on the machine, and sums it up: it drives the
//! machine over a configuration, so connections open, requests are asked, their checks go on, helpers are started, questions
//! are answered, outcomes are taken. It keeps no history, but what it counts is promised over the history that the machine and
//! the driver's definition give.
#![tactic(auto)]

mod answering;
mod command;
mod drivers;
mod ends;
mod going;
mod last_line;
mod migrating;
mod options;
mod parsing;
mod queues;
mod rehearsal_stages;
mod rehearsals;
mod rehearsed_requests;
mod rehearsing;
mod stages;
mod summaries;
mod top;
mod verifying;

pub use ends::Status;
pub use last_line::finish;
pub use options::{Options, Service, Workers, read_service};
pub use rehearsals::{configuration, rehearse};
pub use stages::open_conf;
pub use summaries::Summary;
pub use top::run_command;
