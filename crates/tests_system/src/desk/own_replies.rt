//! Those replies of the proxy's own that no run of the program comes to, byte by byte. The others stand in
//! `tests/corpus`.
use sq_message::{Own, error_text};
use std::alloc::Global;
use std::process::Abort;

/// A reply, and its text.
static ERRORS: [(Own, &[u8]); 2] = [
    (
        Own::Inner,
        b"HTTP/1.1 500 Internal Server Error\r\nContent-Type: text/plain\r\nContent-Length: 15\r\nConnection: close\r\n\r\ninternal error\n",
    ),
    (
        Own::TooManyConns,
        b"HTTP/1.1 503 Service Unavailable\r\nContent-Type: text/plain\r\nContent-Length: 21\r\nConnection: close\r\n\r\ntoo many connections\n",
    ),
];

fn check_error<R: Abort>(rt: &R, alloc: Global, own: Own, no_body: bool, wanted: &[u8]) {
    let text = error_text(alloc, own, no_body).expect(rt, "memory");
    assert!(rt; text.as_bytes() == wanted, "{own:?} {text}");
}

#[test]
fn own_replies_have_their_bytes(rt: HostRuntime) {
    let alloc = rt.alloc();
    for (own, wanted) in &ERRORS {
        check_error(&rt, alloc, *own, false, wanted);
    }
}
