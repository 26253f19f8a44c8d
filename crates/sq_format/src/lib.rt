//! Keys of external acls: the question that a helper is asked about a request.
//!
//! `key` puts the texts of the class's tokens behind one another, with a space between them. What it puts
//! is the key that the definitions of the rules state, token by token. It takes memory for the key alone,
//! and time in the key's length.
#![tactic(auto)]

mod escapes;
mod fields;
mod keys;
mod tokens;

pub use keys::key;
