//! A net in memory with one client, and a process that waits for what it is asked. No call of theirs fails.
use sq_base::{Addr, Moment, Text};
use sq_outside::{Accepted, Listener, Net, Parts, Stopper};
use sq_outside_mem::{
    MemChild, MemClock, MemDialer, MemLink, MemName, MemNet, MemPair, MemParts, MemResolver,
    MemShape, MemSpawner, MemWait, Wire,
};
use std::alloc::Global;
use std::process::Abort;
use std::sync::atomic::AtomicBool;

/// An empty wire.
pub fn wire<R: Abort>(rt: &R, alloc: Global) -> Wire {
    Wire::new(alloc, 64).expect(rt, "memory")
}

/// A link of which this text comes, in pieces of four bytes.
fn link<'a, R: Abort>(rt: &R, alloc: Global, bytes: &[u8], wire: &'a Wire) -> MemPair<'a> {
    let text = Text::from_slice(alloc, bytes).expect(rt, "memory");
    let shape = MemShape {
        step: 4,
        room: 64,
        reads: Vec::new(alloc),
        writes: Vec::new(alloc),
    };
    MemPair::new(alloc, text, shape, Some(wire)).expect(rt, "memory")
}

/// The one word of a program.
pub fn words_of<R: Abort>(rt: &R, alloc: Global, word: &[u8]) -> Vec<Text> {
    let word = Text::from_slice(alloc, word).expect(rt, "memory");
    let mut words = Vec::new(alloc);
    words.push(word).expect(rt, "memory");
    words
}

/// A spawner with one child of this word, which says these lines as it is asked over the wire.
pub fn spawner<'a, R: Abort>(
    rt: &R,
    alloc: Global,
    word: &[u8],
    lines: &[u8],
    wire: &'a Wire,
) -> MemSpawner<'a> {
    let words = words_of(rt, alloc, word);
    let pair = link(rt, alloc, lines, wire);
    let waits = Some(MemWait {
        wire,
        other: None,
        turns: 10,
    });
    let mut children = Vec::new(alloc);
    let child = MemChild { words, pair, waits };
    children.push(child).expect(rt, "memory");
    MemSpawner::new(alloc, children, Vec::new(alloc)).expect(rt, "memory")
}

// The one client.
fn clients<'a, R: Abort>(rt: &R, alloc: Global, wire: &'a Wire) -> Vec<MemLink<'a>> {
    let pair = link(rt, alloc, b"ask a\n", wire);
    let addr = Addr {
        v6: false,
        number: 0x0a00_0001,
    };
    let client = MemLink {
        addr,
        port: 4000,
        pair,
    };
    let mut links = Vec::new(alloc);
    links.push(client).expect(rt, "memory");
    links
}

/// A net with one client, and nothing to dial or to start.
pub fn net<'a, R: Abort>(
    rt: &R,
    alloc: Global,
    names: &'a [MemName],
    word: &'a AtomicBool,
    wire: &'a Wire,
) -> MemNet<'a> {
    let clients = clients(rt, alloc, wire);
    let dialer = MemDialer::new(alloc, Vec::new(alloc), Vec::new(alloc)).expect(rt, "memory");
    let spawner = MemSpawner::new(alloc, Vec::new(alloc), Vec::new(alloc)).expect(rt, "memory");
    let clock = MemClock::new(alloc, Moment(7), Vec::new(alloc));
    let resolver = MemResolver::new(alloc, names, Vec::new(alloc));
    let links = Vec::new(alloc);
    let parts = MemParts::new(clients, word, links, dialer, spawner, clock, resolver);
    MemNet::new(parts, Vec::new(alloc))
}

/// Opens the net, asks its listener to stop, and says whether it then stopped.
pub fn stops(alloc: Global, net: &mut MemNet<'_>) -> bool {
    match net.parts(alloc, 3128, 1) {
        Ok(parts) => {
            let Parts {
                mut listener,
                stopper,
                dialer: _,
                spawner: _,
                clock: _,
                resolver: _,
            } = parts;
            stopper.stop();
            let stopped = matches!(listener.next(alloc), Accepted::Stopped);
            net.give_back(listener);
            stopped
        }
        Err(_) => false,
    }
}
