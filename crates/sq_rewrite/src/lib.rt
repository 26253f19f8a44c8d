//! The rewriter of requests: the processes of a redirector, and the questions to them (configuration reference,
//! `url_rewrite_program`); its lock, its pump, and the keepers of its processes.
//!
//! `Rewriter::ask` puts the question about a request, and `take` hands out what it came to, once. `act` says what is to
//! be done next: a process to be stopped, a question to be written, a process to be started. `started` and
//! `start_failed` tell how a start ended, `line` what a process wrote, and `died` that it ended. Questions and processes
//! have numbers of its own, from 1. `rewriting_of` says what a reply makes of a request, and `is_redirect` whether a
//! client may be sent elsewhere with a status and a URL. `rewriting_laws` has as its clauses what every list of these
//! calls keeps.
//!
//! `RewriterHall` is the rewriter with what its threads look at: its methods say what a call does to both. `RewriterRoom` is
//! its lock, and where threads sleep. The lines that take the lock stand in `rewriter_room`.
//!
//! `RewritePump` performs the acts of a rewriter: it starts processes of the program that rewrites, writes questions to them
//! and stops them; what a turn does is said by its clauses, and where the rewriter tells its state, what that is behind the
//! turn. `RewriterLines` hands a rewriter the lines of a process, and counts its own refusals. Both work over any
//! `RewriterCalls`; `LockRewriter` is the rewriter behind its lock. `rewrite_all` runs a pump with a keeper thread for each
//! process that it started, and returns once every keeper has; the two share a `RewriterShelf`. It claims nothing of when a
//! thread gets on.
#![tactic(auto)]

mod acts;
mod board;
mod calls;
mod faults;
mod half_counts;
mod keeping;
mod laws;
mod lines;
mod lock_rewriter;
mod pump;
mod pumping;
mod rewriter_hall;
mod rewriter_room;
mod rewriter_shelf;
mod rewriters;
mod rewritings;
mod rounds;
mod rows;
mod sleepers;
mod stops;
mod turning;
mod turns;
mod unread;

pub use acts::RewriteAct;
pub use calls::RewriterCalls;
pub use faults::RewriteFault;
pub use laws::rewriting_laws;
pub use lines::RewriterLines;
pub use lock_rewriter::LockRewriter;
pub use pump::RewritePump;
pub use pumping::rewrite_all;
pub use rewriter_room::RewriterRoom;
pub use rewriter_shelf::RewriterShelf;
pub use rewriters::Rewriter;
pub use rewritings::{Rewriting, is_redirect, question_text, rewriting_of};
pub use sq_farm::Got;
pub use turns::{RewriterTurn, StartedHalves};
pub use unread::UnreadHalf;
