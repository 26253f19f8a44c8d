//! What goes through the proxy to an origin and back: which fields of heads go on, exchanges of one request and its reply,
//! and tunnels, whose bytes go both ways at once.
//!
//! `allows` says of one name whether it goes on, by the rules of `request_header_access` and `reply_header_access`.
//! `request_head` is the head of a request as the origin gets it, and `reply_head` that of a reply as the client gets it:
//! those of `sq_message` without the lines of fields that are not allowed, those of the proxy included; the lines Host,
//! Content-Length, Transfer-Encoding and Connection always stay. All three are asked with the facts of a check. Where
//! rules are many, they are looked at once for a head, each by its name.
//!
//! `Half` is a source with the bytes that were read `Ahead` of it, `Duplex` that and a sink, of the types that its
//! `Ends` names, and `Meter` grants the bytes that go to a client; `MemMeter` is one in memory. `find_head` reads until
//! a head stands ahead. `exchange` sends an `Outgoing` request and brings its reply, `tunnel` copies both ways to their
//! ends. Where links tell what they hold,
//! what was written is what the definition gives of what was to come, or a front of it before a fault; what
//! came from an origin was granted before it went to the client. A link's fault is answered only where that
//! link counted one.
#![tactic(auto)]

mod access_table;
mod ahead;
mod allowed_heads;
mod allowing;
mod copying;
mod deciding;
mod duplex;
mod exchanging;
mod free;
mod half;
mod heads;
mod mem_meter;
mod meter;
mod outgoing;
mod paying;
mod replies;
mod requests;
mod searching;
mod standing;
mod tunnels;
mod ways;

pub use ahead::Ahead;
pub use allowed_heads::{reply_head, request_head};
pub use allowing::allows;
pub use duplex::{Duplex, Ends};
pub use exchanging::{Exchanged, exchange};
pub use half::Half;
pub use heads::{HeadFound, find_head};
pub use mem_meter::MemMeter;
pub use meter::Meter;
pub use outgoing::Outgoing;
pub use tunnels::{Tunnelled, tunnel};
