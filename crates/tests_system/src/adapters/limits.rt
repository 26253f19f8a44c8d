//! Limits of time, with short ticks: links on which nothing passes, and those on which something does in one direction. Those that
//! are shorter in a server, and what ends with a client or with the server, `tests/links.py` shows. A limit that is shown lies far
//! below the next one that could end the link, since a loaded machine may be late.
use crate::adapters::fixtures::{accepts, dials};
use sq_outside::{Clock, Expected, Sink, Source};
use sq_system::{LinkTimes, RealClock, RealDialer, RealListener};
use std::thread;
use std::time::Duration;

// Ticks of 20 milliseconds. A link may be silent for a minute.
fn short() -> LinkTimes {
    LinkTimes {
        tick: Duration::from_millis(20),
        silent: Duration::from_secs(60),
        soon: Duration::from_millis(300),
        end: Duration::from_secs(3),
        ..LinkTimes::of_server()
    }
}

// The same, but that a link may be silent for a second.
fn silent() -> LinkTimes {
    LinkTimes {
        silent: Duration::from_secs(1),
        ..short()
    }
}

// The same, but that a head may take a second.
fn hasty() -> LinkTimes {
    LinkTimes {
        head: Duration::from_secs(1),
        ..short()
    }
}

/// After how many milliseconds a read fails. More than all of them where it does not.
fn fails_after<S: Source, C: Clock>(from: &mut S, clock: &mut C) -> u64 {
    let begun = clock.now();
    let mut chunk = [0u8; 16];
    match from.read(&mut chunk) {
        Ok(_) => u64::MAX,
        Err(_) => clock.now().0.saturating_sub(begun.0),
    }
}

#[test]
fn a_silent_link_fails_in_time(rt: HostRuntime) {
    let alloc = rt.alloc();
    let mut listener = RealListener::listen(alloc, rt, 0, silent())
        .expect(&rt, "a port")
        .listener;
    let port = listener.port().expect(&rt, "a port");
    let mut dialer = RealDialer::new(alloc, rt, silent());
    let (mut from, mut to) = dials(alloc, &mut dialer, b"127.0.0.1", port).expect(
        &rt,
        "not reached",
    );
    let other = accepts(alloc, &mut listener).expect(&rt, "a link");
    let time = fails_after(&mut from, &mut RealClock::new(rt));
    assert!(rt;
        from.has_failed() && (950..30_000).contains(&time),
        "after {time}"
    );
    // What its other side does not read piles up, until a write stands still for as long.
    let piece = [0u8; 65536];
    let mut fails = false;
    for _ in 0..1000 {
        if to.write(&piece).is_err() {
            fails = true;
            break;
        }
    }
    assert!(rt; fails && to.has_failed());
    drop(other);
}

#[test]
fn what_is_written_keeps_the_half_that_is_read(rt: HostRuntime) {
    let alloc = rt.alloc();
    let mut listener = RealListener::listen(alloc, rt, 0, short())
        .expect(&rt, "a port")
        .listener;
    let port = listener.port().expect(&rt, "a port");
    let mut dialer = RealDialer::new(alloc, rt, silent());
    let (mut from, mut to) = dials(alloc, &mut dialer, b"127.0.0.1", port).expect(
        &rt,
        "not reached",
    );
    let mut other = accepts(alloc, &mut listener).expect(&rt, "a link");
    let reading = thread::spawn(&rt, move || {
        let mut chunk = [0u8; 16];
        from.read(&mut chunk)
    })
    .expect(&rt, "a thread");
    // Three seconds, three times as long as the link may be silent.
    let mut clock = RealClock::new(rt);
    for _ in 0..300 {
        assert!(rt; to.write(b".").is_ok());
        clock.pause();
    }
    assert!(rt; other.1.write(b"late").is_ok());
    assert!(rt; reading.join(&rt) == Ok(4));
}

#[test]
fn a_read_that_is_to_return_soon_finds_that_nothing_came(rt: HostRuntime) {
    let alloc = rt.alloc();
    let mut listener = RealListener::listen(alloc, rt, 0, short())
        .expect(&rt, "a port")
        .listener;
    let port = listener.port().expect(&rt, "a port");
    let mut dialer = RealDialer::new(alloc, rt, short());
    let (mut from, _to) = dials(alloc, &mut dialer, b"127.0.0.1", port).expect(&rt, "not reached");
    let mut other = accepts(alloc, &mut listener).expect(&rt, "a link");
    let mut clock = RealClock::new(rt);
    let begun = clock.now();
    let mut chunk = [0u8; 16];
    assert!(rt; from.read_soon(&mut chunk) == Ok(None));
    let time = clock.now().0.saturating_sub(begun.0);
    assert!(rt; (290..30_000).contains(&time), "after {time}");
    assert!(rt; other.1.write(b"late").is_ok());
    assert!(rt; from.read_soon(&mut chunk) == Ok(Some(4)));
    assert!(rt; !from.has_failed());
}

#[test]
fn a_head_ends_in_time_however_slowly_it_comes(rt: HostRuntime) {
    let alloc = rt.alloc();
    let mut listener = RealListener::listen(alloc, rt, 0, hasty())
        .expect(&rt, "a port")
        .listener;
    let port = listener.port().expect(&rt, "a port");
    let mut dialer = RealDialer::new(alloc, rt, short());
    let (_from, mut to) = dials(alloc, &mut dialer, b"127.0.0.1", port).expect(&rt, "not reached");
    let mut other = accepts(alloc, &mut listener).expect(&rt, "a link");
    let reading = thread::spawn(&rt, move || {
        let mut clock = RealClock::new(rt);
        let begun = clock.now();
        let mut chunk = [0u8; 1];
        let mut count = 0u64;
        for _ in 0..100_000 {
            if other.0.read(&mut chunk).is_err() {
                break;
            }
            other.0.expect(Expected::Head);
            count = count.saturating_add(1);
        }
        (count, clock.now().0.saturating_sub(begun.0))
    })
    .expect(&rt, "a thread");
    // A byte each 10 milliseconds or so, for three times as long as a head may take.
    let mut clock = RealClock::new(rt);
    for _ in 0..300 {
        if to.write(b".").is_err() {
            break;
        }
        clock.pause();
    }
    let (count, time) = reading.join(&rt);
    assert!(rt;
        count > 1 && (950..55_000).contains(&time),
        "{count} after {time}"
    );
}
