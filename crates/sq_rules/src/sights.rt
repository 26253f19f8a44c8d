//! What a check sees of its request and client, read once when it begins.
use sq_base::{Addr, Request};

/// The client of a connection.
#[derive(Clone, Copy, PartialEq, Eq)]
pub struct Peer {
    pub addr: Addr,
    pub port: u16,
}

/// The request, the client's address and port, the local minute of the week (0 is Sunday 00:00), and
/// how many connections are open from the address, this one counted.
pub struct Sight {
    pub request: Request,
    pub addr: Addr,
    pub port: u16,
    pub minute: u32,
    pub conns: u32,
}

impl Drop for Sight {
    fn drop(self) {
        let Sight {
            request: _,
            addr: _,
            port: _,
            minute: _,
            conns: _,
        } = self;
    }
}
