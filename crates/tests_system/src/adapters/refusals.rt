//! What is not there: programs, ports, hosts. And what always is: the time, and this machine's own name.
use crate::adapters::fixtures::{dials, words};
use sq_base::Text;
use sq_outside::{Another, Clock, LookFault, Net, Resolver, Spawner};
use sq_system::{
    LinkTimes, RealClock, RealDialer, RealListener, RealNet, RealResolver, RealSpawner,
};

#[test]
fn what_is_no_program_is_not_started(rt: HostRuntime) {
    let alloc = rt.alloc();
    let mut spawner = RealSpawner::new(rt, LinkTimes::of_server());
    let commands: [&[&[u8]]; 6] = [
        &[],
        &[b""],
        &[b"/bin/no-such-program", b"word"],
        &[b"no-such-program"],
        &[b"/bin/\xff"],
        &[b"/bin/cat", b"a\0b"],
    ];
    for &command in &commands {
        let made = words(alloc, command).expect(&rt, "the words");
        assert!(rt;
            spawner.start(alloc, made.as_slice()).is_err(),
            "at {command:?}"
        );
    }
}

/// Hosts that no look-up finds, none of which is asked of a server of names: no word, and no text.
static NO_HOSTS: [&[u8]; 3] = [b"", b"\xff.example", b"a\0b"];

#[test]
fn what_is_no_host_is_not_reached(rt: HostRuntime) {
    let alloc = rt.alloc();
    let mut dialer = RealDialer::new(alloc, rt, LinkTimes::of_server());
    let mut resolver = RealResolver::new(rt).another();
    for &host in &NO_HOSTS {
        assert!(rt; dials(alloc, &mut dialer, host, 80).is_err(), "at {host:?}");
        let name = Text::from_slice(alloc, host).expect(&rt, "a name");
        match resolver.look(alloc, &name) {
            Err(LookFault::Failed) => {}
            _ => assert!(rt; false, "at {host:?}"),
        }
    }
}

#[test]
fn a_port_is_taken_once_and_free_again(rt: HostRuntime) {
    let alloc = rt.alloc();
    let mut net = RealNet::new(rt);
    let parts = net.parts(alloc, 0, 1).expect(&rt, "a port");
    let port = parts.listener.port().expect(&rt, "a port");
    assert!(rt; RealListener::listen(alloc, rt, port, LinkTimes::of_server()).is_err());
    assert!(rt; net.parts(alloc, port, 1).is_err());
    let mut dialer = parts.dialer;
    assert!(rt; dials(alloc, &mut dialer, b"127.0.0.1", port).is_ok());
    net.give_back(parts.listener);
    // Nobody listens there any more.
    assert!(rt; dials(alloc, &mut dialer, b"127.0.0.1", port).is_err());
    assert!(rt; dials(alloc, &mut dialer, b"localhost", port).is_err());
}

#[test]
fn the_clock_gives_this_century_and_goes_on(rt: HostRuntime) {
    let mut clock = RealClock::new(rt).another();
    let before = clock.now();
    assert!(rt; before.0 > 1_700_000_000_000, "at {}", before.0);
    clock.pause();
    let after = clock.now();
    assert!(rt; after.0 > before.0, "at {} behind {}", after.0, before.0);
}

#[test]
fn the_own_name_has_the_own_address(rt: HostRuntime) {
    let alloc = rt.alloc();
    let mut resolver = RealResolver::new(rt);
    let name = Text::from_slice(alloc, b"localhost").expect(&rt, "a name");
    let found = resolver.look(alloc, &name).expect(&rt, "an address");
    let mut own = false;
    for addr in found.as_slice() {
        own = own || addr.number == if addr.v6 { 1 } else { 0x7f00_0001 };
    }
    assert!(rt; own);
}
