//! Nets in memory with clients that send their bytes at once, one origin, one helper, one program that rewrites, and
//! names. What fails ends the process.
use crate::server::spawners::PairedNet;
use sq_base::{Addr, Addrs, Moment, Text};
use sq_outside_mem::{
    MemChild, MemClock, MemDialer, MemLink, MemName, MemNet, MemOrigin, MemPair, MemParts,
    MemResolver, MemShape, MemSpawner, MemWait, Wire,
};
use std::alloc::Global;
use std::process::Abort;
use std::sync::atomic::AtomicBool;

/// A client: its IPv4 address as a number, and what it sends. It comes from port 4000.
pub type Client<'a> = (u32, &'a [u8]);

/// An origin: its name and its port, and what it replies to one dial.
pub type Origin<'a> = (&'a [u8], u16, &'a [u8]);

/// A name, and its one IPv4 address as a number.
pub type Named<'a> = (&'a [u8], u32);

// A link of these bytes that no call fails.
fn pair<'a>(rt: &impl Abort, alloc: Global, bytes: &[u8], wire: Option<&'a Wire>) -> MemPair<'a> {
    let shape = MemShape {
        step: 4096,
        room: 4096,
        reads: Vec::new(alloc),
        writes: Vec::new(alloc),
    };
    let text = Text::from_slice(alloc, bytes).expect(rt, "a text");
    MemPair::new(alloc, text, shape, wire).expect(rt, "a link")
}

// The IPv4 address of this number.
fn address(number: u32) -> Addr {
    Addr {
        v6: false,
        number: u128::from(number),
    }
}

/// These names, each with its address.
pub fn names(rt: &impl Abort, alloc: Global, named: &[Named<'_>]) -> Vec<MemName> {
    let mut names = Vec::new(alloc);
    for &(host, number) in named {
        let host = Text::from_slice(alloc, host).expect(rt, "a name");
        let mut addrs = Addrs::new(alloc);
        addrs.push(address(number)).expect(rt, "an address");
        names.push(MemName { host, addrs }).expect(rt, "a name");
    }
    names
}

/// The links of these clients, each with its wire.
pub fn links<'a>(
    rt: &impl Abort,
    alloc: Global,
    clients: &[Client<'_>],
    wires: &'a [Wire],
) -> Vec<MemLink<'a>> {
    let mut links = Vec::new(alloc);
    for (&(number, bytes), wire) in clients.iter().zip(wires.iter()) {
        let link = MemLink {
            addr: address(number),
            port: 4000,
            pair: pair(rt, alloc, bytes, Some(wire)),
        };
        links.push(link).expect(rt, "a link");
    }
    links
}

/// The origin, with its wire.
pub fn origins<'a>(
    rt: &impl Abort,
    alloc: Global,
    origin: Origin<'_>,
    wire: &'a Wire,
) -> Vec<MemOrigin<'a>> {
    let (host, port, reply) = origin;
    let host = Text::from_slice(alloc, host).expect(rt, "a name");
    let pair = pair(rt, alloc, reply, Some(wire));
    let mut origins = Vec::new(alloc);
    origins
        .push(MemOrigin { host, port, pair })
        .expect(rt, "an origin");
    origins
}

/// A program that says these lines, each once it was asked once more and a line more was written to another wire, or ends
/// after 4,000,000 turns of waiting. What it is asked goes over the first wire.
pub fn program<'a>(
    rt: &impl Abort,
    alloc: Global,
    name: &[u8],
    lines: &[u8],
    asked: &'a Wire,
    wire: Option<&'a Wire>,
) -> Vec<MemChild<'a>> {
    let mut words = Vec::new(alloc);
    let name = Text::from_slice(alloc, name).expect(rt, "a program");
    words.push(name).expect(rt, "a program");
    let pair = pair(rt, alloc, lines, Some(asked));
    let waits = Some(MemWait {
        wire: asked,
        other: wire,
        turns: 4_000_000,
    });
    let mut children = Vec::new(alloc);
    let child = MemChild { words, pair, waits };
    children.push(child).expect(rt, "a program");
    children
}

/// A net with these links, origins, helpers and programs that rewrite, and a clock that stands at 7.
pub fn net<'a>(
    rt: &impl Abort,
    alloc: Global,
    links: Vec<MemLink<'a>>,
    origins: Vec<MemOrigin<'a>>,
    children: Vec<MemChild<'a>>,
    rewriters: Vec<MemChild<'a>>,
    names: &'a [MemName],
    word: &'a AtomicBool,
) -> PairedNet<'a> {
    let dialer = MemDialer::new(alloc, origins, Vec::new(alloc)).expect(rt, "a dialer");
    let spawner = MemSpawner::new(alloc, children, Vec::new(alloc)).expect(rt, "a spawner");
    let copy = MemSpawner::new(alloc, rewriters, Vec::new(alloc)).expect(rt, "a spawner");
    let clock = MemClock::new(alloc, Moment(7), Vec::new(alloc));
    let resolver = MemResolver::new(alloc, names, Vec::new(alloc));
    let parts = MemParts::new(
        links,
        word,
        Vec::new(alloc),
        dialer,
        spawner,
        clock,
        resolver,
    );
    PairedNet::new(MemNet::new(parts, Vec::new(alloc)), copy)
}
