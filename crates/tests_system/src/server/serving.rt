//! Servers over nets in memory.
use crate::server::served::{Job, run};

/// What a client asks who wants a page, and ends.
const REQUEST: &[u8] = b"GET http://a.example/ HTTP/1.1\r\nHost: a.example\r\n\r\n";

/// A reply with two bytes.
const REPLY: &[u8] = b"HTTP/1.1 200 OK\r\nContent-Length: 2\r\n\r\nhi";

/// A server of one worker that denies all, to which nobody comes.
fn job<'a>() -> Job<'a> {
    Job {
        workers: b"1",
        conf: b"http_access deny all\n",
        fails: &[],
        clients: &[],
        origin: (b"a.example", 80, REPLY),
        rewriter: b"",
        names: &[],
    }
}

/// Three replies of rule 1.
const DENIED: &str =
    "HTTP/1.1 403 Forbidden\r\nContent-Type: text/plain\r\nContent-Length: 14\r\n\r\ndenied rule 1\nHTTP/1.1 403 Forbidden\r\nContent-Type: text/plain\r\nContent-Length: 14\r\n\r\ndenied rule 1\nHTTP/1.1 403 Forbidden\r\nContent-Type: text/plain\r\nContent-Length: 14\r\n\r\ndenied rule 1\n";

/// The journal of these.
const JOURNAL: &str =
    "7 begin 0 => epoch 1\n7 open 1 10.0.0.1 4000 => ok\n7 ask 1 GET http://a.example/ Host:a.example => check 1\n7 step 1 => done\n7 take 1 => epoch 1 denied rule 1\n7 close 1 => ok\n7 open 1 10.0.0.2 4000 => ok\n7 ask 1 GET http://a.example/ Host:a.example => check 2\n7 step 2 => done\n7 take 2 => epoch 1 denied rule 1\n7 close 1 => ok\n7 open 1 10.0.0.3 4000 => ok\n7 ask 1 GET http://a.example/ Host:a.example => check 3\n7 step 3 => done\n7 take 3 => epoch 1 denied rule 1\n7 close 1 => ok\n";

#[test]
fn one_worker_serves_each_link(rt: HostRuntime) {
    let three = Job {
        clients: &[
            (0x0a00_0001, REQUEST),
            (0x0a00_0002, REQUEST),
            (0x0a00_0003, REQUEST),
        ],
        ..job()
    };
    let came = run(&rt, rt.alloc(), &three);
    assert!(rt; came.code == 0);
    assert!(rt; came.out.as_str() == "listening 3128\nstopped\n");
    assert!(rt; came.journal.as_str() == JOURNAL);
    assert!(rt; came.got.as_str() == DENIED);
}

#[test]
fn four_thousand_workers_serve_three_links(rt: HostRuntime) {
    let three = Job {
        workers: b"4096",
        clients: &[
            (0x0a00_0001, REQUEST),
            (0x0a00_0002, REQUEST),
            (0x0a00_0003, REQUEST),
        ],
        ..job()
    };
    let came = run(&rt, rt.alloc(), &three);
    assert!(rt; came.code == 0);
    assert!(rt; came.out.as_str() == "listening 3128\nstopped\n");
    assert!(rt; came.got.as_str() == DENIED);
    let more = Job {
        workers: b"4097",
        ..three
    };
    let came = run(&rt, rt.alloc(), &more);
    assert!(rt; came.code == 1);
    assert!(rt; came.got.as_str() == "");
}

/// Connections from 10.0.0.1 wait for the helper, which answers once the second client has its reply.
const GATE: &[u8] =
    b"external_acl_type v %>rd /bin/h\nacl slow src 10.0.0.1\nacl x external v\nhttp_access deny slow x\nhttp_access deny all\n";

/// The replies of rule 1 and rule 2.
const BOTH: &str =
    "HTTP/1.1 403 Forbidden\r\nContent-Type: text/plain\r\nContent-Length: 14\r\n\r\ndenied rule 1\nHTTP/1.1 403 Forbidden\r\nContent-Type: text/plain\r\nContent-Length: 14\r\n\r\ndenied rule 2\n";

#[test]
fn a_worker_serves_while_another_waits_for_a_helper(rt: HostRuntime) {
    let two = Job {
        workers: b"2",
        conf: GATE,
        clients: &[(0x0a00_0001, REQUEST), (0x0a00_0002, REQUEST)],
        ..job()
    };
    let came = run(&rt, rt.alloc(), &two);
    assert!(rt; came.out.as_str() == "listening 3128\nstopped\n");
    assert!(rt; came.got.as_str() == BOTH);
}

/// Two replies of rule 1 and one of rule 2.
const THREE: &str =
    "HTTP/1.1 403 Forbidden\r\nContent-Type: text/plain\r\nContent-Length: 14\r\n\r\ndenied rule 1\nHTTP/1.1 403 Forbidden\r\nContent-Type: text/plain\r\nContent-Length: 14\r\n\r\ndenied rule 1\nHTTP/1.1 403 Forbidden\r\nContent-Type: text/plain\r\nContent-Length: 14\r\n\r\ndenied rule 2\n";

#[test]
fn an_answer_wakes_all_who_wait_for_it(rt: HostRuntime) {
    // Two ask the helper the same, which says its one line once the third has its reply.
    let three = Job {
        workers: b"3",
        conf: GATE,
        clients: &[
            (0x0a00_0001, REQUEST),
            (0x0a00_0001, REQUEST),
            (0x0a00_0002, REQUEST),
        ],
        ..job()
    };
    let came = run(&rt, rt.alloc(), &three);
    assert!(rt; came.out.as_str() == "listening 3128\nstopped\n");
    assert!(rt; came.got.as_str() == THREE);
}

/// The reply where an entry could not be noted, and that of rule 2.
const UNNOTED: &str =
    "HTTP/1.1 500 Internal Server Error\r\nContent-Type: text/plain\r\nContent-Length: 16\r\nConnection: close\r\n\r\njournal stopped\nHTTP/1.1 403 Forbidden\r\nContent-Type: text/plain\r\nContent-Length: 14\r\n\r\ndenied rule 2\n";

#[test]
fn who_waits_for_a_helper_is_told_that_the_journal_failed(rt: HostRuntime) {
    // Eleven notes come before the helper's answer: the beginning, three until the one client waits, three of the pump, and
    // four until the other has its reply. The next one fails, whosever it is.
    let stopped = Job {
        workers: b"2",
        conf: GATE,
        fails: &[12],
        clients: &[(0x0a00_0001, REQUEST), (0x0a00_0002, REQUEST)],
        ..job()
    };
    let came = run(&rt, rt.alloc(), &stopped);
    assert!(rt; came.code == 6);
    assert!(rt; came.out.as_str() == "listening 3128\nerror journal\n");
    assert!(rt; came.got.as_str() == UNNOTED);
}

/// Who comes from the inside may ask for these ports.
const PORTS: &[u8] =
    b"acl lan src 10.0.0.0/8\nacl web port 80 443 8080\nhttp_access allow lan web\n";

/// A request with a field for this connection alone.
const HOP: &[u8] =
    b"GET http://a.example:8080/x?y HTTP/1.1\r\nHost: other\r\nConnection: X-Hop\r\nX-Hop: 1\r\nAccept: */*\r\n\r\n";

/// What the client from the outside gets, the one from the inside, and the origin, which answers one dial.
const PASSED: &str =
    "HTTP/1.1 403 Forbidden\r\nContent-Type: text/plain\r\nContent-Length: 15\r\n\r\ndenied default\nHTTP/1.1 200 OK\r\nContent-Length: 2\r\nVia: 1.1 aclproxy\r\n\r\nhiGET /x?y HTTP/1.1\r\nHost: a.example:8080\r\nAccept: */*\r\nVia: 1.1 aclproxy\r\nX-Forwarded-For: 10.1.2.3\r\nConnection: close\r\n\r\n";

#[test]
fn an_origin_is_reached_by_whom_the_rules_allow(rt: HostRuntime) {
    let two = Job {
        conf: PORTS,
        clients: &[(0xc000_0201, HOP), (0x0a01_0203, HOP)],
        origin: (b"a.example", 8080, REPLY),
        ..job()
    };
    let came = run(&rt, rt.alloc(), &two);
    assert!(rt; came.code == 0);
    assert!(rt; came.got.as_str() == PASSED);
}

/// A program is asked about each request that is allowed.
const REWRITES: &[u8] =
    b"url_rewrite_program /bin/r\nacl out src 192.0.2.0/24\nhttp_access deny out\nhttp_access allow all\n";

/// What a client asks who wants another page, and ends.
const PAGE: &[u8] = b"GET http://a.example/x HTTP/1.1\r\nHost: a.example\r\n\r\n";

/// What it says to the first request, and to the second.
const SAYS: &[u8] =
    b"OK rewrite-url=\"http://b.example/y\"\nOK status=302 url=\"http://c.example/\"\n";

/// What the three clients get, the last of whom is denied, and the origin, which answers one dial.
const REWRITTEN: &str =
    "HTTP/1.1 200 OK\r\nContent-Length: 2\r\nVia: 1.1 aclproxy\r\n\r\nhiHTTP/1.1 302 Found\r\nLocation: http://c.example/\r\nContent-Length: 0\r\nConnection: close\r\n\r\nHTTP/1.1 403 Forbidden\r\nContent-Type: text/plain\r\nContent-Length: 14\r\n\r\ndenied rule 1\nGET /y HTTP/1.1\r\nHost: b.example\r\nVia: 1.1 aclproxy\r\nX-Forwarded-For: 10.1.2.3\r\nConnection: close\r\n\r\n";

#[test]
fn a_program_that_rewrites_is_asked_about_what_is_allowed(rt: HostRuntime) {
    let three = Job {
        conf: REWRITES,
        clients: &[
            (0x0a01_0203, PAGE),
            (0x0a01_0204, PAGE),
            (0xc000_0201, PAGE),
        ],
        origin: (b"b.example", 80, REPLY),
        rewriter: SAYS,
        ..job()
    };
    let came = run(&rt, rt.alloc(), &three);
    assert!(rt; came.out.as_str() == "listening 3128\nstopped\n");
    assert!(rt; came.got.as_str() == REWRITTEN);
    assert!(rt;
        came.asked.as_str()
            == "http://a.example/x 10.1.2.3/- - GET\nhttp://a.example/x 10.1.2.4/- - GET\n"
    );
}

/// Names are looked up, and none of this machine may be asked for.
const LOOKUPS: &[u8] = b"dst_lookup on\nhttp_access deny to_localhost\nhttp_access allow all\n";

/// A request of such a name.
const HERE: &[u8] = b"GET http://localhost/ HTTP/1.1\r\nHost: localhost\r\n\r\n";

/// What the first gets, what another name gets, and the origin of that.
const FOUND: &str =
    "HTTP/1.1 403 Forbidden\r\nContent-Type: text/plain\r\nContent-Length: 14\r\n\r\ndenied rule 1\nHTTP/1.1 200 OK\r\nContent-Length: 2\r\nVia: 1.1 aclproxy\r\n\r\nhiGET / HTTP/1.1\r\nHost: a.example\r\nVia: 1.1 aclproxy\r\nX-Forwarded-For: 10.0.0.2\r\nConnection: close\r\n\r\n";

/// One thread answers for all names, and ends with the server.
const LOOKED_UP: &str =
    "7 begin 0 => epoch 1\n7 open 1 10.0.0.1 4000 => ok\n7 ask 1 GET http://localhost/ Host:localhost => check 1\n7 step 1 => waits 1\n7 act => start 1 dst%20lookup\n7 started 1 dst%20lookup => proc 1\n7 act => send 1 1 - localhost%20to_localhost%2520lookup%20-\n7 line 1 OK => reply 1 ok\n7 step 1 => done\n7 take 1 => epoch 1 denied rule 1\n7 close 1 => ok\n7 open 1 10.0.0.2 4000 => ok\n7 ask 1 GET http://a.example/ Host:a.example => check 2\n7 step 2 => waits 2\n7 act => send 1 2 - a.example%20to_localhost%2520lookup%20-\n7 line 1 ERR => reply 2 err\n7 step 2 => done\n7 take 2 => epoch 1 allowed rule 2\n7 close 1 => ok\n7 died 1 => ok\n";

#[test]
fn a_name_of_this_machine_is_denied_by_its_address(rt: HostRuntime) {
    let two = Job {
        conf: LOOKUPS,
        clients: &[(0x0a00_0001, HERE), (0x0a00_0002, REQUEST)],
        names: &[(b"localhost", 0x7f00_0001), (b"a.example", 0xc000_0201)],
        ..job()
    };
    let came = run(&rt, rt.alloc(), &two);
    assert!(rt; came.code == 0);
    assert!(rt; came.got.as_str() == FOUND);
    assert!(rt; came.journal.as_str() == LOOKED_UP);
}
