//! A server over a net in memory, from its words to what came of it. What fails ends the process.
use crate::server::devices::Orders;
use crate::server::nets::{Client, Named, Origin, links, names, net, origins, program};
use crate::server::spawners::PairedNet;
use sq_base::Text;
use sq_cache::HashSeed;
use sq_journal::{MemJournal, print_entry};
use sq_outside_mem::{MemFile, MemFiles, MemName, MemSink, Wire};
use sq_proxy::proxy;
use sq_server::Platform;
use std::alloc::Global;
use std::process::Abort;
use std::sync::Wait;
use std::sync::atomic::AtomicBool;
use std::thread::Threads;

/// A server: how many workers it has, the text of its configuration, and which notes of its journal fail; its clients, the
/// origin, the lines that the program that rewrites says, and the names that are found. Its orders end once all clients have their
/// replies.
#[derive(Clone, Copy)]
pub struct Job<'a> {
    pub workers: &'a [u8],
    pub conf: &'a [u8],
    pub fails: &'a [u64],
    pub clients: &'a [Client<'a>],
    pub origin: Origin<'a>,
    pub rewriter: &'a [u8],
    pub names: &'a [Named<'a>],
}

/// What a run came to: its status, what it wrote, its journal, what each client and then the origin got, one behind
/// the other, and what the program that rewrites was asked.
#[derive(Drop)]
pub struct Came {
    pub code: u8,
    pub out: String,
    pub journal: String,
    pub got: String,
    pub asked: String,
}

// A wire for each client.
fn wires(rt: &impl Abort, alloc: Global, clients: &[Client<'_>]) -> Vec<Wire> {
    let mut wires = Vec::new(alloc);
    for _ in clients {
        let wire = Wire::new(alloc, 4096).expect(rt, "a wire");
        wires.push(wire).expect(rt, "a wire");
    }
    wires
}

// The words of a server.
fn words(rt: &impl Abort, alloc: Global, workers: &[u8]) -> Vec<Text> {
    let mut words = Vec::new(alloc);
    for word in [b"serve".as_slice(), b"c", b"--workers", workers] {
        let word = Text::from_slice(alloc, word).expect(rt, "a word");
        words.push(word).expect(rt, "a word");
    }
    words
}

// The file `c` with this text.
fn files(rt: &impl Abort, alloc: Global, conf: &[u8]) -> MemFiles {
    let mut files = Vec::new(alloc);
    let file = MemFile {
        name: Text::from_slice(alloc, b"c").expect(rt, "a name"),
        text: Text::from_slice(alloc, conf).expect(rt, "a text"),
        fails: Vec::new(alloc),
    };
    files.push(file).expect(rt, "a file");
    MemFiles::new(alloc, files, 4096, 1, Vec::new(alloc)).expect(rt, "the files")
}

// The lines of a journal.
fn lines(rt: &impl Abort, alloc: Global, journal: &MemJournal) -> String {
    let mut text = String::new(alloc);
    for entry in journal.entries() {
        let line = print_entry(alloc, entry).expect(rt, "a line");
        put(rt, &mut text, line.as_bytes());
        text.push('\n').expect(rt, "an end of line");
    }
    text
}

// Puts these bytes behind a text.
fn put(rt: &impl Abort, text: &mut String, bytes: &[u8]) {
    let more = str::from_utf8(bytes).expect(rt, "UTF-8");
    text.push_str(more).expect(rt, "a text");
}

// The text of these bytes.
fn string(rt: &impl Abort, alloc: Global, bytes: &[u8]) -> String {
    let mut text = String::new(alloc);
    put(rt, &mut text, bytes);
    text
}

// What went over these wires and then this one.
fn texts(rt: &impl Abort, alloc: Global, wires: &[Wire], last: &Wire) -> String {
    let mut all = String::new(alloc);
    for wire in wires {
        let text = wire.text(alloc).expect(rt, "what went over a wire");
        put(rt, &mut all, text.as_bytes());
    }
    let text = last.text(alloc).expect(rt, "what went over a wire");
    put(rt, &mut all, text.as_bytes());
    all
}

// What a server comes to that ended with this code, this output and this journal.
fn sum_up(
    rt: &impl Abort,
    alloc: Global,
    code: u8,
    out: &MemSink,
    journal: &MemJournal,
    wires: &[Wire],
    origin: &Wire,
    rewriter: &Wire,
) -> Came {
    let out = string(rt, alloc, out.bytes());
    let journal = lines(rt, alloc, journal);
    let got = texts(rt, alloc, wires, origin);
    let asked = texts(rt, alloc, &[], rewriter);
    Came {
        code,
        out,
        journal,
        got,
        asked,
    }
}

// Runs a server over a net.
fn run_over<R: Threads + Wait + Sync + Abort>(
    rt: &R,
    alloc: Global,
    job: &Job<'_>,
    net: &mut PairedNet<'_>,
    wires: &[Wire],
    origin: &Wire,
    rewriter: &Wire,
) -> Came {
    let words = words(rt, alloc, job.workers);
    let fails = Vec::from_slice(alloc, job.fails).expect(rt, "the notes that fail");
    let mut out = MemSink::new(alloc, 4096, 4096, Vec::new(alloc)).expect(rt, "an output");
    let journal = MemJournal::new(alloc, 100, fails, Vec::new(alloc)).expect(rt, "a journal");
    let mut files = files(rt, alloc, job.conf);
    let mut control = Orders::new(wires);
    let platform = Platform {
        rt,
        seed: HashSeed::fixed(),
    };
    let (status, journal) = proxy::<_, (_, _, _, _, _)>(
        platform,
        alloc,
        words.as_slice(),
        &mut files,
        &mut out,
        &mut control,
        net,
        journal,
    );
    let journal = journal.expect(rt, "the journal is handed back");
    sum_up(
        rt,
        alloc,
        status.code(),
        &out,
        &journal,
        wires,
        origin,
        rewriter,
    )
}

// Runs a server whose clients, whose origin, whose helper and whose program that rewrites have these wires.
fn run_with<'a, R: Threads + Wait + Sync + Abort>(
    rt: &R,
    alloc: Global,
    job: &Job<'_>,
    wires: &'a [Wire],
    origin: &'a Wire,
    helper: &'a Wire,
    rewriter: &'a Wire,
    names: &'a [MemName],
    word: &'a AtomicBool,
) -> Came {
    let links = links(rt, alloc, job.clients, wires);
    // The helper answers once it was asked and the last client has a line.
    let children = program(rt, alloc, b"/bin/h", b"OK\n", helper, wires.last());
    let origins = origins(rt, alloc, job.origin, origin);
    let rewriters = program(rt, alloc, b"/bin/r", job.rewriter, rewriter, None);
    let mut net = net(rt, alloc, links, origins, children, rewriters, names, word);
    run_over(rt, alloc, job, &mut net, wires, origin, rewriter)
}

/// Runs a server.
pub fn run<R: Threads + Wait + Sync + Abort>(rt: &R, alloc: Global, job: &Job<'_>) -> Came {
    let wires = wires(rt, alloc, job.clients);
    let origin = Wire::new(alloc, 4096).expect(rt, "a wire");
    let helper = Wire::new(alloc, 4096).expect(rt, "a wire");
    let rewriter = Wire::new(alloc, 4096).expect(rt, "a wire");
    let names = names(rt, alloc, job.names);
    let word = AtomicBool::new(false);
    run_with(
        rt,
        alloc,
        job,
        wires.as_slice(),
        &origin,
        &helper,
        &rewriter,
        names.as_slice(),
        &word,
    )
}
