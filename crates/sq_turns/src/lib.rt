//! One turn of a client's connection, a request and its answer: what it is, the front that it asks, and its parts.
//!
//! `Front` is the engine, the rewriter and the pools as one connection sees them. `next_request` reads the head of a
//! request, and `heard_of` says what becomes of it; `verdict` asks the front about it, and `go_on` takes an allowed one
//! to its origin and the reply back: all but CONNECT goes on as the rewriter left it, and of the heads that are passed
//! on, those fields go on that the configuration of its record allows. `say` and `deny` are what the proxy says itself;
//! `is_head` says whether that has no body, and `denied_closes` whether the connection closes behind a denial. Where
//! links, front and dialer tell what they hold, what was written is what the definition of a turn gives of the client's
//! bytes, the front's answers and the origin's bytes, or a front of it behind a fault. A fault is answered only where
//! the count of its object rose.
//!
//! `Hub` has the calls of the engine, of the rewriter and of the pools that a connection makes, with its counts of
//! questions, of refusals and of granted bytes. `HubFront` is the front of one connection over a hub: it asks about a
//! request, steps its check and waits until it is done, takes the record, puts the question about an allowed request to
//! the rewriter, waits until that has ended and takes what it came to, and holds a seat: in a pool with buckets by tags
//! only for a tag.
#![tactic(auto)]

mod asked_rewriter;
mod beginning;
mod carrying;
mod ends;
mod forwarding;
mod front;
mod hub;
mod hub_front;
mod judged;
mod judging;
mod own_replies;
mod rewriting;
mod same;
mod seating;
mod verdicts;

pub use beginning::{Begun, Heard, heard_of, next_request};
pub use ends::{Carried, End};
pub use front::{CloseFault, Counts, Decided, Front, Opened, Rewritten, SitFault};
pub use hub::{Hub, HubFault};
pub use hub_front::HubFront;
pub use judged::JudgedRequest;
pub use own_replies::{denied_closes, deny, is_head, say};
pub use rewriting::go_on;
pub use verdicts::verdict;
