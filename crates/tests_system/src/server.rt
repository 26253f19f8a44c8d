//! The top call: a command over devices that fail, and servers over nets in memory.
//!
//! `faults` lets each call of a device fail in turn; what a command comes to where none fails is in `cases/`. `serving` has
//! servers from their words to their journals, where `tests/serve.sh` cannot say which comes first. What is expected comes from
//! the machine's definitions, from the forms of lines and replies, and from the order in which a server begins.
mod devices;
mod faults;
mod nets;
mod served;
mod serving;
mod spawners;
