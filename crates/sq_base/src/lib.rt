//! The plain types that all crates share, and the grammars that several of them cite.
//!
//! `Text`, the numbers of connections, checks and the like, addresses, requests, helper replies and
//! answers, lists of them, their copies, and a counter of steps. Contracts see a text as the list of
//! its bytes, a number as a number, and a list as a list. The grammars of decimal numbers, escaped
//! words, addresses, ranges, lines of squid.conf and request targets are definitions of `specs/`.
#![tactic(auto)]

mod addresses;
mod bytes;
mod config_lines;
mod counting;
mod decimals;
mod helpers;
mod listed;
mod memory;
mod name_tables;
mod numbers;
mod plans;
mod requests;

pub use addresses::{Addr, Addrs, Range, Ranges};
pub use bytes::{Text, Texts};
pub use config_lines::{Lexed, Line, LineFault, Lines};
pub use counting::Steps;
pub use decimals::{PORT_LIMIT, number_of};
pub use helpers::{Answer, Answers, Cause, Pair, Pairs, Reply, What, Word};
pub use listed::Listed;
pub use memory::{Copying, WantOfMemory};
pub use name_tables::{is_among, named};
pub use numbers::{CheckNo, ConnNo, EpochNo, Moment, ProcNo, QuestionNo, SeatNo};
pub use plans::BodyPlan;
pub use requests::{Field, Fields, Request};
