//! Heads of replies as values.
use sq_base::{Fields, Text};

/// The head of a reply: the 1 of HTTP/1.1, a status from 0 to 999, a phrase that may be empty, and the fields.
#[derive(Drop)]
pub struct ReplyHead {
    pub minor: u8,
    pub status: u16,
    pub reason: Text,
    pub fields: Fields,
}

/// What a reply's head says of what follows: whether its body comes in chunks, and whether the connection
/// closes behind it.
#[derive(Clone, Copy)]
pub struct Shape {
    pub chunked: bool,
    pub closes: bool,
}
