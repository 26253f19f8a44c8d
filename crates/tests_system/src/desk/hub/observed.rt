//! What a link is told of the turns of its connection.
use crate::desk::hub::links::{REPLY, STEP, THREE, TUNNEL};
use crate::desk::hub::running::Place::{self, ClientWrite, Dial, OriginRead};
use crate::desk::hub::running::{Fault, Links, run_over};
use sq_base::Text;
use std::alloc::Global;
use std::process::Abort;
use std::sync::Wait;
use std::thread::Threads;

// Ends the process unless the client's link is told this where that call fails.
fn check<R: Threads + Wait + Sync + Abort>(
    rt: &R,
    alloc: Global,
    input: &str,
    place: Place,
    call: u64,
    heard: &str,
) {
    let links = Links {
        step: STEP,
        reply: REPLY,
        fault: Fault { place, call },
    };
    let input = Text::from_slice(alloc, input.as_bytes()).expect(rt, "memory");
    let ran = run_over(rt, alloc, &input, 0, &links);
    assert!(rt;
        ran.heard.as_bytes() == heard.as_bytes(),
        "{place:?} {call} {}",
        ran.heard
    );
}

/// A denial, a request that goes to another host, and one that goes on as it is, each told from its head to its end; and then the
/// end of the input.
#[test]
fn each_turn_is_told(rt: HostRuntime) {
    check(
        &rt,
        rt.alloc(),
        THREE.input,
        Dial,
        0,
        "asked http://denied.example/\ncheck 1 deny 1\nreplies 403\nstays\n\
        asked http://a.example/x\ncheck 2 allow 2\nrewritten http://b.example/y\n\
        replies 200\ndialled\nstays\n\
        asked http://A.Example:/z\ncheck 3 allow 2\nreplies 200\ndialled\nstays\n\
        closes\n",
    );
    check(
        &rt,
        rt.alloc(),
        TUNNEL.input,
        Dial,
        0,
        "asked [2001:db8::2]:443\ncheck 1 allow 2\nreplies 200\ndialled\ncloses\n",
    );
}

/// A dial that fails, an origin whose link fails before its reply's head and behind it, and a client whose link fails in
/// the reply.
#[test]
fn each_fault_is_told(rt: HostRuntime) {
    let denied = "asked http://denied.example/\ncheck 1 deny 1\nreplies 403\nstays\n";
    let asked = "asked http://a.example/x\ncheck 2 allow 2\nrewritten http://b.example/y\n";
    for (place, call, rest) in [
        (Dial, 1, "replies 502\ndialled\ncloses\n"),
        (OriginRead, 1, "no reply\nreplies 502\ndialled\ncloses\n"),
        (OriginRead, 2, "replies 200\ndialled\norigin fault\n"),
        (ClientWrite, 4, "replies 200\ndialled\nclient fault\n"),
    ] {
        let mut heard = Text::from_slice(rt.alloc(), denied.as_bytes()).expect(&rt, "memory");
        heard.append(asked.as_bytes()).expect(&rt, "memory");
        heard.append(rest.as_bytes()).expect(&rt, "memory");
        let heard = str::from_utf8(heard.as_bytes()).expect(&rt, "a text");
        check(&rt, rt.alloc(), THREE.input, place, call, heard);
    }
}
