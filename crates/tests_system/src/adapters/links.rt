//! A link between two ends on this machine.
use crate::adapters::fixtures::{accepts, dials, receives, sends};
use sq_outside::{Another, Dialer, Sink, Source};
use sq_system::{LinkTimes, RealDialer, RealListener};
use std::alloc::Global;
use std::rt::Files;
use std::sync::Wait;
use std::{thread, time};

/// The other side: reads a long text to its end, and then sends one. Whether all went well.
fn replies<R: time::Clock + Files + Wait + Copy + Send + Drop>(
    alloc: Global,
    mut listener: RealListener<R>,
) -> bool {
    let Some((mut from, mut to)) = accepts(alloc, &mut listener) else {
        return false;
    };
    receives(alloc, &mut from, 1) && sends(&mut to, 2)
}

#[test]
fn each_side_sends_1_mib_and_closes(rt: HostRuntime) {
    let alloc = rt.alloc();
    let net = RealListener::listen(alloc, rt, 0, LinkTimes::of_server()).expect(&rt, "a port");
    let listener = net.listener;
    let port = listener.port().expect(&rt, "a port");
    let other = thread::spawn(&rt, move || replies(alloc, listener)).expect(&rt, "a thread");
    let mut dialer = RealDialer::new(alloc, rt, LinkTimes::of_server()).another();
    let (mut from, mut to) = dials(alloc, &mut dialer, b"127.0.0.1", port).expect(
        &rt,
        "not reached",
    );
    assert!(rt; sends(&mut to, 1));
    assert!(rt; receives(alloc, &mut from, 2));
    assert!(rt; !from.has_failed() && !to.has_failed());
    dialer.give_back(from, to);
    assert!(rt; other.join(&rt));
}
