//! One helper class of one epoch: what is kept of it, which questions are open and who waits, and its farm.
//!
//! `Part::resolve` is the rule of a step on this class: a cached reply is taken, the check joins an open question or
//! puts one, or a fault is taken. `send` and `start` make what is due, `started` and `start_failed` tell how a start
//! ended, `look` says what a line of a process comes to, `reply` and `end` make its change, and `next_lost` hands the
//! questions out that ended with a process or a start. Each call does to the class's row what `sq_model` says, and no
//! more. A call that fails for want of memory changes nothing, and `send`, `start`, `end`, `start_failed`,
//! `next_lost`, `leave` and `exchange_kept` take no memory.
#![tactic(auto)]

mod endings;
mod faults;
mod lost;
mod parts;
mod resolving;
mod sends;

pub use faults::ResolveFault;
pub use lost::Lost;
pub use parts::Part;
pub use sends::Sending;
