//! One client's connection, from its first byte to its last.
//!
//! `session` serves a connection: it reads one request after the other, asks the front about each, and answers it. Where
//! links, front and dialer tell what they hold, what was written is what the definition of a turn gives of the client's
//! bytes, the front's answers and the origins' bytes, or a front of it behind a fault: no byte goes to an origin without a
//! record that allows its request. A fault is answered only where the count of its object rose.
#![tactic(auto)]

mod sessions;
mod turning;

pub use sessions::{SessionEnd, session};
