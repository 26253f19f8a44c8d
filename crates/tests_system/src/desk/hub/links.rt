//! How far sessions go of which each call of each half of both links, and each dial, fails in turn.
use crate::desk::hub::running::Place::{
    self, ClientRead, ClientWrite, Dial, OriginRead, OriginWrite,
};
use crate::desk::hub::running::{Fault, Links, run_over};
use End::{ClientFault, Finished, OriginFault, Starved};
use sq_base::Text;
use sq_turns::End;
use std::alloc::Global;
use std::process::Abort;
use std::sync::Wait;
use std::thread::Threads;

/// The most bytes of a read and of a write.
pub const STEP: usize = 40;

/// What each origin sends, a head of 39 bytes and a body of 40.
pub const REPLY: &str =
    "HTTP/1.1 200 OK\r\nContent-Length: 40\r\n\r\n0123456789012345678901234567890123456789";

/// What a client hears of an origin that is not reached, or whose link fails before the head of its reply.
const NO_REPLY: &str =
    "HTTP/1.1 502 Bad Gateway\r\nContent-Type: text/plain\r\nContent-Length: 12\r\n\
    Connection: close\r\n\r\nbad gateway\n";

/// What a client sends, and what it is sent and the origins are where nothing fails.
pub struct Session {
    pub input: &'static str,
    to_client: &'static str,
    to_origins: &'static str,
}

/// A request of 48 bytes that is denied before any dial; one with a head of 94 bytes and a body of 60, which the
/// redirector sends to another host; and one of 45 bytes that goes on as it is, to a host in capitals with an
/// empty port, which is 80. The client is sent a denial of 86 bytes, and two replies with heads of 58 and bodies of 40.
/// One host is sent a head of 122 bytes and the body, the other one a head of 102.
pub static THREE: Session = Session {
    input: "GET http://denied.example/ HTTP/1.1\r\nHost: h\r\n\r\n\
        POST http://a.example/x HTTP/1.1\r\nHost: a\r\nX-Hop: 1\r\nConnection: X-Hop\r\nContent-Length: 60\r\n\r\n\
        012345678901234567890123456789012345678901234567890123456789\
        GET http://A.Example:/z HTTP/1.1\r\nHost: a\r\n\r\n",
    to_client: "HTTP/1.1 403 Forbidden\r\nContent-Type: text/plain\r\nContent-Length: 14\r\n\r\ndenied rule 1\n\
        HTTP/1.1 200 OK\r\nContent-Length: 40\r\nVia: 1.1 aclproxy\r\n\r\n0123456789012345678901234567890123456789\
        HTTP/1.1 200 OK\r\nContent-Length: 40\r\nVia: 1.1 aclproxy\r\n\r\n0123456789012345678901234567890123456789",
    to_origins: "POST /y HTTP/1.1\r\nHost: b.example\r\nContent-Length: 60\r\n\
        Via: 1.1 aclproxy\r\nX-Forwarded-For: 10.1.2.3\r\nConnection: close\r\n\r\n\
        012345678901234567890123456789012345678901234567890123456789\
        GET /z HTTP/1.1\r\nHost: A.Example:\r\n\
        Via: 1.1 aclproxy\r\nX-Forwarded-For: 10.1.2.3\r\nConnection: close\r\n\r\n",
};

/// A tunnel: a head of 47 bytes and 80 more. The client is sent 39 bytes, and what the origin sends.
pub static TUNNEL: Session = Session {
    input: "CONNECT [2001:db8::2]:443 HTTP/1.1\r\nHost: a\r\n\r\n\
        01234567890123456789012345678901234567890123456789012345678901234567890123456789",
    to_client: "HTTP/1.1 200 Connection established\r\n\r\n\
        HTTP/1.1 200 OK\r\nContent-Length: 40\r\n\r\n0123456789012345678901234567890123456789",
    to_origins: "01234567890123456789012345678901234567890123456789012345678901234567890123456789",
};

/// A request whose pool has 50 bytes, which 100 Continue is not taken from.
static POOR: Session = Session {
    input: "PUT http://poor.example/ HTTP/1.1\r\nHost: a\r\nExpect: 100-Continue\r\nContent-Length: 2\r\n\r\nhi",
    to_client: "HTTP/1.1 100 Continue\r\n\r\n\
        HTTP/1.1 200 OK\r\nContent-Length: 40\r\nVia: 1.1 aclproxy\r\n\r\n",
    to_origins: "PUT /y HTTP/1.1\r\nHost: b.example\r\nContent-Length: 2\r\n\
        Via: 1.1 aclproxy\r\nX-Forwarded-For: 10.1.2.3\r\nConnection: close\r\n\r\nhi",
};

/// A tunnel whose pool has so many, which the line that begins it is not taken from either.
static POOR_TUNNEL: Session = Session {
    input: "CONNECT poor.example:443 HTTP/1.1\r\nHost: a\r\n\r\n0123456789",
    to_client: "HTTP/1.1 200 Connection established\r\n\r\n\
        HTTP/1.1 200 OK\r\nContent-Length: 40\r\n\r\n0123456789012345678901234567890123456789",
    to_origins: "0123456789",
};

/// The call of an object that fails, from 1; how the session ends, and how many bytes the client and the origins were
/// sent. Where it is finished with less than all, the client hears of no reply behind them.
type Row = (Place, u64, End, usize, usize);

static OF_THREE: [Row; 35] = [
    // The requests come by reads of 40, 40, 40, 40, 40, 40 and 7 bytes; behind that is the end.
    (ClientRead, 1, ClientFault, 0, 0),
    (ClientRead, 2, ClientFault, 0, 0),
    (ClientRead, 3, ClientFault, 86, 0),
    (ClientRead, 4, ClientFault, 86, 0),
    (ClientRead, 5, ClientFault, 86, 140),
    (ClientRead, 6, ClientFault, 86, 180),
    (ClientRead, 7, ClientFault, 184, 182),
    (ClientRead, 8, ClientFault, 282, 284),
    (ClientRead, 9, Finished, 282, 284),
    // The denial goes out by writes of 40, 40 and 6 bytes, a reply's head by 40 and 18, its body by 1 and 39.
    (ClientWrite, 1, ClientFault, 0, 0),
    (ClientWrite, 2, ClientFault, 40, 0),
    (ClientWrite, 3, ClientFault, 80, 0),
    (ClientWrite, 4, ClientFault, 86, 182),
    (ClientWrite, 5, ClientFault, 126, 182),
    (ClientWrite, 6, ClientFault, 144, 182),
    (ClientWrite, 7, ClientFault, 145, 182),
    (ClientWrite, 8, ClientFault, 184, 284),
    (ClientWrite, 9, ClientFault, 224, 284),
    (ClientWrite, 10, ClientFault, 242, 284),
    (ClientWrite, 11, ClientFault, 243, 284),
    (ClientWrite, 12, Finished, 282, 284),
    // A reply comes by reads of 40 and 39 bytes, of which the first has one of the body.
    (OriginRead, 1, Finished, 86, 182),
    (OriginRead, 2, OriginFault, 145, 182),
    (OriginRead, 3, Finished, 282, 284),
    // The first head goes out by writes of 40, 40, 40 and 2 bytes, its body by 18, 40 and 2.
    (OriginWrite, 1, Finished, 86, 0),
    (OriginWrite, 2, Finished, 86, 40),
    (OriginWrite, 3, Finished, 86, 80),
    (OriginWrite, 4, Finished, 86, 120),
    (OriginWrite, 5, Finished, 86, 122),
    (OriginWrite, 6, Finished, 86, 140),
    (OriginWrite, 7, Finished, 86, 180),
    (OriginWrite, 8, Finished, 282, 284),
    (Dial, 1, Finished, 86, 0),
    (Dial, 2, Finished, 184, 182),
    (Dial, 3, Finished, 282, 284),
];

static OF_TUNNEL: [Row; 20] = [
    // The head comes by two reads, with 33 bytes behind it; then come 40 and 7, and the end. Where one way fails, the
    // other goes on.
    (ClientRead, 1, ClientFault, 0, 0),
    (ClientRead, 2, ClientFault, 0, 0),
    (ClientRead, 3, ClientFault, 118, 33),
    (ClientRead, 4, ClientFault, 118, 73),
    (ClientRead, 5, ClientFault, 118, 80),
    (ClientRead, 6, Finished, 118, 80),
    (ClientWrite, 1, ClientFault, 0, 0),
    (ClientWrite, 2, ClientFault, 39, 80),
    (ClientWrite, 3, ClientFault, 79, 80),
    (ClientWrite, 4, Finished, 118, 80),
    // The origin's bytes come by reads of 40 and 39 bytes, and the end.
    (OriginRead, 1, OriginFault, 39, 80),
    (OriginRead, 2, OriginFault, 79, 80),
    (OriginRead, 3, OriginFault, 118, 80),
    (OriginRead, 4, Finished, 118, 80),
    (OriginWrite, 1, OriginFault, 118, 0),
    (OriginWrite, 2, OriginFault, 118, 33),
    (OriginWrite, 3, OriginFault, 118, 73),
    (OriginWrite, 4, Finished, 118, 80),
    (Dial, 1, Finished, 0, 0),
    (Dial, 2, Finished, 118, 80),
];

// So many bytes at the front of a text.
fn front<'a>(rt: &impl Abort, text: &'a str, count: usize) -> &'a [u8] {
    text.as_bytes().get(..count).expect(rt, "so many bytes")
}

// Ends the process unless a session ends, and goes as far on all links, as the row says.
fn check<R: Threads + Wait + Sync + Abort>(rt: &R, alloc: Global, whole: &Session, row: &Row) {
    let (place, call, end, to_client, to_origins) = row;
    let links = Links {
        step: STEP,
        reply: REPLY,
        fault: Fault {
            place: *place,
            call: *call,
        },
    };
    let input = Text::from_slice(alloc, whole.input.as_bytes()).expect(rt, "memory");
    let ran = run_over(rt, alloc, &input, 0, &links);
    let as_far = front(rt, whole.to_client, *to_client);
    let mut text = Text::from_slice(alloc, as_far).expect(rt, "memory");
    if *end == Finished && *to_client < whole.to_client.as_bytes().len() {
        text.append(NO_REPLY.as_bytes()).expect(rt, "memory");
    }
    assert!(rt; ran.end.why == *end, "{place:?} {call} {:?}", ran.end);
    assert!(rt; ran.text == text, "{place:?} {call} {}", ran.text);
    let as_far = front(rt, whole.to_origins, *to_origins);
    assert!(rt;
        ran.sent.as_bytes() == as_far,
        "{place:?} {call} {}",
        ran.sent
    );
}

#[test]
fn each_call_of_a_link_fails_in_turn(rt: HostRuntime) {
    for row in &OF_THREE {
        check(&rt, rt.alloc(), &THREE, row);
    }
    for row in &OF_TUNNEL {
        check(&rt, rt.alloc(), &TUNNEL, row);
    }
}

/// No more is granted to a request, or to a tunnel, than the pool has, and nothing comes into it.
#[test]
fn empty_pools_end_their_sessions(rt: HostRuntime) {
    check(&rt, rt.alloc(), &POOR, &(Dial, 0, Starved, 75, 122));
    check(&rt, rt.alloc(), &POOR_TUNNEL, &(Dial, 0, Starved, 89, 10));
}
