//! A session over a machine in memory, of whose hub or links a call may fail.
use crate::desk::hub::failing::Failing;
use crate::desk::hub::overheard::Overheard;
use Place::{ClientRead, ClientWrite, Dial, OriginRead, OriginWrite};
use sq_base::{Addr, ConnNo, Copying, Moment, Text};
use sq_conf::read_config;
use sq_forward::{Ahead, Duplex, Half};
use sq_mem_hub::MemHub;
use sq_outside::Source;
use sq_outside_mem::{MemDialer, MemOrigin, MemOut, MemPair, MemShape, MemSink, MemSource, Wire};
use sq_session::{SessionEnd, session};
use sq_turns::HubFront;
use std::alloc::Global;
use std::process::Abort;
use std::sync::Wait;
use std::thread::Threads;

/// One host is denied; of others a helper process knows, one question at a time, whose answers stay fresh for ten
/// seconds. What comes from one of these is granted by a pool that holds 1,000 bytes and begins with half of them, and
/// what comes from two others by one that does so for each tag; a third one begins with 50 bytes. A redirector is asked
/// about each allowed request that asks for no tunnel.
static CONFIG: &str = "external_acl_type v ttl=10 children-max=1 %>rd /bin/h
acl known external v
acl never dstdomain denied.example
acl slow dstdomain slow.example
acl sold dstdomain gold.example free.example
acl poor dstdomain poor.example
http_access deny never
http_access allow known
delay_pools 3
delay_class 1 1
delay_access 1 allow slow
delay_parameters 1 10/1000
delay_class 2 5
delay_access 2 allow sold
delay_parameters 2 10/1000
delay_class 3 1
delay_access 3 allow poor
delay_parameters 3 10/100
url_rewrite_program /bin/r
";

/// What the helper process writes, the last line first. Behind that it dies.
static LINES: [&str; 5] = ["ERR", "OK", "OK tag=gold", "OK", "OK"];

/// What the redirector writes, the last line first.
static REWRITES: [&str; 7] = [
    "OK url=http://c.example/",
    "OK",
    "OK",
    "OK",
    "OK",
    "ERR",
    "OK rewrite-url=http://b.example/y",
];

/// The origins, a host and a port each. Each of them answers one dial.
static ORIGINS: [(&str, u16); 8] = [
    ("b.example", 80),
    ("a.example", 80),
    ("slow.example", 81),
    ("gold.example", 80),
    ("gold.example", 80),
    ("free.example", 80),
    ("2001:db8::2", 443),
    ("poor.example", 443),
];

/// What each origin sends where nothing else is said.
const REPLY: &str = "HTTP/1.1 204 No Content\r\n\r\n";

/// More than any link carries.
const ROOM: usize = 8_192;

/// An object of a session of which a call fails.
#[derive(Clone, Copy, PartialEq, Eq, Debug)]
pub enum Place {
    ClientRead,
    ClientWrite,
    OriginRead,
    OriginWrite,
    Dial,
}

/// The call of an object, from 1, that fails; of origins that of each link. Call 0 is none.
#[derive(Clone, Copy)]
pub struct Fault {
    pub place: Place,
    pub call: u64,
}

/// How many bytes a read gives at most and a write takes, what each origin sends, and what fails.
#[derive(Clone, Copy)]
pub struct Links<'a> {
    pub step: usize,
    pub reply: &'a str,
    pub fault: Fault,
}

/// What a session came to: how it ended, what its client was sent and all origins were, what the client's link was told of its
/// turns, and whether the call of the hub was made to fail.
#[derive(Drop)]
pub struct Ran {
    pub end: SessionEnd,
    pub text: Text,
    pub sent: Text,
    pub heard: Text,
    pub failed: bool,
}

fn text(rt: &impl Abort, alloc: Global, bytes: &str) -> Text {
    Text::from_slice(alloc, bytes.as_bytes()).expect(rt, "memory")
}

fn texts(rt: &impl Abort, alloc: Global, lines: &[&str]) -> Vec<Text> {
    let mut texts = Vec::new(alloc);
    for line in lines {
        texts.push(text(rt, alloc, line)).expect(rt, "memory");
    }
    texts
}

// A machine at moment 0.
fn machine<'a, R: Wait + Abort>(rt: &'a R, alloc: Global) -> MemHub<'a, R> {
    let setup = read_config(alloc, CONFIG.as_bytes()).expect(rt, "a configuration");
    let lines = texts(rt, alloc, &LINES);
    let rewrites = texts(rt, alloc, &REWRITES);
    MemHub::new(rt, alloc, setup, Moment(0), lines, rewrites).expect(rt, "memory")
}

// The calls of an object that fail.
fn fails(rt: &impl Abort, alloc: Global, fault: Fault, place: Place) -> Vec<u64> {
    let mut calls = Vec::new(alloc);
    if fault.place == place && fault.call > 0 {
        calls.push(fault.call).expect(rt, "memory");
    }
    calls
}

fn origin<'a>(
    rt: &impl Abort,
    alloc: Global,
    host: &str,
    port: u16,
    links: &Links,
) -> MemOrigin<'a> {
    let shape = MemShape {
        step: links.step,
        room: ROOM,
        reads: fails(rt, alloc, links.fault, OriginRead),
        writes: fails(rt, alloc, links.fault, OriginWrite),
    };
    let reply = text(rt, alloc, links.reply);
    MemOrigin {
        host: text(rt, alloc, host),
        port,
        pair: MemPair::new(alloc, reply, shape, None).expect(rt, "memory"),
    }
}

fn dialer<'a>(rt: &impl Abort, alloc: Global, links: &Links) -> MemDialer<'a> {
    let mut origins = Vec::new(alloc);
    for (host, port) in ORIGINS {
        origins
            .push(origin(rt, alloc, host, port, links))
            .expect(rt, "memory");
    }
    let dials = fails(rt, alloc, links.fault, Dial);
    MemDialer::new(alloc, origins, dials).expect(rt, "memory")
}

// All that origins were sent, in the order of the dials.
fn sent(rt: &impl Abort, alloc: Global, dialer: &MemDialer) -> Text {
    let mut text = Text::new(alloc);
    for dial in dialer.back() {
        text.append(dial.written.as_bytes()).expect(rt, "memory");
    }
    text
}

/// Runs a session of a client at 10.1.2.3 that sends this input, over links that do not fail. Of the hub's calls, the
/// one of this number fails.
pub fn run<R: Threads + Wait + Sync + Abort>(
    rt: &R,
    alloc: Global,
    input: &Text,
    call: u64,
) -> Ran {
    let links = Links {
        step: ROOM,
        reply: REPLY,
        fault: Fault {
            place: Dial,
            call: 0,
        },
    };
    run_over(rt, alloc, input, call, &links)
}

/// The same over these links.
pub fn run_over<R: Threads + Wait + Sync + Abort>(
    rt: &R,
    alloc: Global,
    input: &Text,
    call: u64,
    links: &Links,
) -> Ran {
    let input = input.copy(alloc).expect(rt, "memory").into_vec();
    let reads = fails(rt, alloc, links.fault, ClientRead);
    let source = MemSource::new(input, links.step, reads);
    let (ran, _) = run_from(rt, alloc, source, call, links);
    ran
}

/// The same of a client that is heard by this source, which is handed back.
pub fn run_from<R: Threads + Wait + Sync + Abort, S: Source + Send + Drop>(
    rt: &R,
    alloc: Global,
    source: S,
    call: u64,
    links: &Links,
) -> (Ran, S) {
    let client = Addr {
        v6: false,
        number: 0x0A01_0203,
    };
    let wire = Wire::new(alloc, ROOM).expect(rt, "memory");
    let writes = fails(rt, alloc, links.fault, ClientWrite);
    let sink = MemSink::new(alloc, ROOM, links.step, writes).expect(rt, "memory");
    let heard = Wire::new(alloc, ROOM).expect(rt, "memory");
    let mut link: Duplex<(S, Overheard<MemOut>)> = Duplex {
        from: Half {
            source,
            ahead: Ahead::new(alloc),
        },
        to: Overheard::new(MemOut::new(sink, Some(&wire)), &heard),
    };
    let mut dialer = dialer(rt, alloc, links);
    let hub = Failing::new(machine(rt, alloc), call);
    let mut front = HubFront::new(rt, hub, ConnNo(1));
    let end = session(rt, alloc, &mut link, client, 4000, &mut front, &mut dialer);
    let hub = front.finish();
    let Duplex { from, to: _ } = link;
    let Half { source, ahead: _ } = from;
    let ran = Ran {
        end,
        text: wire.text(alloc).expect(rt, "memory"),
        sent: sent(rt, alloc, &dialer),
        heard: heard.text(alloc).expect(rt, "memory"),
        failed: hub.failed(),
    };
    (ran, source)
}
