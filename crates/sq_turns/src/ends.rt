//! How a session and its turns end.

/// Why a session ended.
#[derive(Clone, Copy, Debug, PartialEq, Eq)]
pub enum End {
    /// The input ended between requests, or a complete reply or an ended tunnel closed the connection.
    Finished,
    /// The client's input ended in a head or in a body, or the body is refused.
    Cut,
    /// The client's link failed.
    ClientFault,
    /// Behind the reply's head the origin's input ended in the body, or its chunks are refused.
    OriginCut,
    /// The origin's link failed behind the reply's head.
    OriginFault,
    /// For too long each grant found a bucket empty.
    Starved,
    /// There was no memory.
    WantOfMemory,
}

/// How a turn ended.
#[derive(Clone, Copy)]
pub enum Carried {
    /// The reply is complete, and the connection stays.
    Stays,
    /// The reply is complete, or the tunnel has ended, and the connection closes.
    Closes,
    /// It is over by this, which is not `Finished`.
    Over(End),
}
