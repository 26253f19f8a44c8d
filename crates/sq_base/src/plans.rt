//! How the end of a message's body is found.

/// How the end of a body is found. The heads of a message decide it, and a cursor goes by it: RFC 9112
/// section 6.3.
#[derive(Clone, Copy, PartialEq, Eq)]
pub enum BodyPlan {
    /// There is no body.
    None,
    /// So many bytes.
    Length(u64),
    /// In chunks: the last one, of size 0, and its trailers end it.
    Chunked,
    /// Up to where the sender closes.
    ToClose,
}
