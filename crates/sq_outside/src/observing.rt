//! What comes of the turns of a connection, as it is told to the link of the client.
use sq_base::{Addr, CheckNo, ConnNo, Request, Text};

/// Why a dial gave no link.
#[derive(Clone, Copy, Debug, PartialEq, Eq)]
pub enum DialFault {
    /// There is no address of this name, or no such name.
    NameNotFound,
    /// The addresses of the name could not be asked for, or no answer came in time.
    LookUpFailed,
    /// The address refused the connection.
    Refused,
    /// No address answered in time.
    TimedOut,
    /// There is no way to the address.
    Unreachable,
    /// The client reset its link meanwhile.
    ClientGone,
    /// No thread could be had.
    NoThread,
    /// There was no memory.
    OutOfMemory,
    /// It ended since other clients wait for a worker.
    GaveWay,
    /// The server is stopped.
    Shutdown,
    /// Something else.
    Other,
}

/// What a dialer tells of its last dial.
#[derive(Clone, Copy)]
pub struct DialSeen {
    /// The address that was reached, or else the one that was tried last.
    pub addr: Option<Addr>,
    /// Why there was no link.
    pub fault: Option<DialFault>,
    /// How many bytes were written to the link.
    pub written: u64,
    /// How many bytes were read from it.
    pub read: u64,
    /// Whether a limit of time ended it.
    pub timed_out: bool,
}

impl DialSeen {
    /// What is told where there was no dial, or where the dialer tells nothing. It takes no memory.
    pub fn nothing() -> DialSeen {
        DialSeen {
            addr: None,
            fault: None,
            written: 0,
            read: 0,
            timed_out: false,
        }
    }
}

/// How a turn of a connection ended.
#[derive(Clone, Copy, Debug, PartialEq, Eq)]
pub enum TurnEnd {
    /// The reply is complete, and the connection stays.
    Stays,
    /// The reply is complete, or the tunnel has ended, and the connection closes. Where no request came, the input ended.
    Closes,
    /// The client's input ended in a head or in a body, or the body is refused.
    Cut,
    /// The client's link failed.
    ClientFault,
    /// The origin's input ended in the body of the reply, or its chunks are refused.
    OriginCut,
    /// The origin's link failed behind the reply's head.
    OriginFault,
    /// For too long each grant found a bucket empty.
    Starved,
    /// There was no memory.
    WantOfMemory,
}

/// What happens in the turns of a connection, in the order in which it is told. The refusal of a connection is told as a turn
/// without a request.
#[derive(Clone, Copy)]
pub enum Observed<'a> {
    /// The link is served as the connection of this number, for a client of this address and port.
    Served {
        conn: ConnNo,
        addr: Addr,
        port: u16,
    },
    /// A request came.
    Asked(&'a Request),
    /// Its check is over: whether it is allowed, by which rule, from 1, if by one, and the first tag that helpers gave it, if any.
    Judged {
        check: CheckNo,
        allow: bool,
        rule: Option<u32>,
        tag: Option<&'a Text>,
    },
    /// This request goes on in its place.
    Rewritten(&'a Request),
    /// The head of a final reply with this status is sent next.
    Replies(u16),
    /// The next reply is the proxy's own, since there was no memory.
    OutOfMemory,
    /// The origin's reply is none that can be passed on.
    NoReply,
    /// The dial of this turn is over.
    Dialled(DialSeen),
    /// The turn is over.
    Ended(TurnEnd),
}
