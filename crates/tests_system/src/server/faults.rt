//! Devices that fail: each call of each of them in turn.

use sq_base::Text;
use sq_commands::{Status, run_command};
use sq_outside_mem::{MemFile, MemFiles, MemSink};
use std::alloc::Global;
use std::process::Abort;

const CONF: &str = "acl lan src 10.0.0.0/8\nhttp_access allow lan\n";

const SCRIPT: &str = "0 open 1 10.1.2.3 4000\n0 ask 1 GET http://a.example/\n0 step 1\n0 take 1\n";

const RUN: &str = "0 begin 0 => epoch 1\n\
    0 open 1 10.1.2.3 4000 => ok\n\
    0 ask 1 GET http://a.example/ => check 1\n\
    0 step 1 => done\n\
    0 take 1 => epoch 1 allowed rule 1\n";

/// The bytes that a source gives and a sink takes in a call.
const STEP: usize = 7;

/// Openings for which the files have room.
const OPENINGS: usize = 8;

/// Calls of a device, at most.
const LIMIT: u64 = 100;

/// What came of a run.
#[derive(Drop)]
struct Ran {
    status: Status,
    out: MemSink,
}

// A device whose calls fail.
#[derive(Clone, Copy, Debug)]
enum Device {
    Files,
    Conf,
    Script,
    Sink,
}

// The words of the run.
fn words(rt: &impl Abort, alloc: Global) -> Vec<Text> {
    let mut words = Vec::new(alloc);
    for word in [b"replay".as_slice(), b"c", b"s"] {
        let word = Text::from_slice(alloc, word).expect(rt, "a word");
        words.push(word).expect(rt, "a word");
    }
    words
}

// A file of this name and text, of which the listed reads fail.
fn file(rt: &impl Abort, alloc: Global, name: &str, text: &str, fails: &[u64]) -> MemFile {
    MemFile {
        name: Text::from_slice(alloc, name.as_bytes()).expect(rt, "a name"),
        text: Text::from_slice(alloc, text.as_bytes()).expect(rt, "a text"),
        fails: list(rt, alloc, fails),
    }
}

// A list of calls.
fn list(rt: &impl Abort, alloc: Global, calls: &[u64]) -> Vec<u64> {
    Vec::from_slice(alloc, calls).expect(rt, "the calls that fail")
}

// Runs `SCRIPT` over `CONF` with the listed calls of a device failing.
fn run_failing(rt: &impl Abort, alloc: Global, device: Device, calls: &[u64]) -> Ran {
    let none: &[u64] = &[];
    let (openings, conf, script, writes) = match device {
        Device::Files => (calls, none, none, none),
        Device::Conf => (none, calls, none, none),
        Device::Script => (none, none, calls, none),
        Device::Sink => (none, none, none, calls),
    };
    let mut texts = Vec::new(alloc);
    texts
        .push(file(rt, alloc, "c", CONF, conf))
        .expect(rt, "a file");
    texts
        .push(file(rt, alloc, "s", SCRIPT, script))
        .expect(rt, "a file");
    let openings = list(rt, alloc, openings);
    let mut files = MemFiles::new(alloc, texts, STEP, OPENINGS, openings).expect(rt, "the files");
    let writes = list(rt, alloc, writes);
    let mut out = MemSink::new(alloc, 4096, STEP, writes).expect(rt, "an output");
    let words = words(rt, alloc);
    let status = run_command(alloc, words.as_slice(), &mut files, &mut out);
    assert!(rt; !matches!(status, Status::WantOfMemory), "want of memory");
    Ran { status, out }
}

/// The last line where a file was not read.
const LAST: &str = "error read\n";

// Ends the process unless this is what a fault of the device comes to: a front of the run's text, and
// then the last line where a file was not read. A script is read as it runs.
fn check_fault(rt: &impl Abort, device: Device, call: u64, ran: &Ran) {
    let out = ran.out.bytes();
    if let Device::Sink = device {
        assert!(rt; ran.status.code() == 5, "write {call}");
        assert!(rt; RUN.as_bytes().starts_with(out), "write {call}");
        assert!(rt; out.len() < RUN.len(), "write {call}");
        return;
    }
    assert!(rt; ran.status.code() == 4, "{device:?}, call {call}");
    assert!(rt; out.ends_with(LAST.as_bytes()), "{device:?}, call {call}");
    let front = &out[..out.len().saturating_sub(LAST.len())];
    assert!(rt;
        RUN.as_bytes().starts_with(front),
        "{device:?}, call {call}"
    );
    if !matches!(device, Device::Script) {
        assert!(rt; front.is_empty(), "{device:?}, call {call}");
    }
}

// Lets each call of a device fail in turn, until no call fails, and gives the number of those that did.
fn failing_calls(rt: &impl Abort, alloc: Global, device: Device) -> u64 {
    for call in 1..LIMIT {
        let ran = run_failing(rt, alloc, device, &[call]);
        if ran.status.code() == 0 {
            assert!(rt;
                str::from_utf8(ran.out.bytes()) == Ok(RUN),
                "{device:?}, call {call}"
            );
            return call - 1;
        }
        check_fault(rt, device, call, &ran);
    }
    LIMIT
}

#[test]
fn each_call_of_a_device_that_fails_ends_the_run_with_its_status(rt: HostRuntime) {
    // Two files are opened, each is read in pieces and once more at its end, and the run is written in
    // pieces.
    for (device, least) in [
        (Device::Files, 2),
        (Device::Conf, 8),
        (Device::Script, 12),
        (Device::Sink, 21),
    ] {
        let failed = failing_calls(&rt, rt.alloc(), device);
        assert!(rt;
            least <= failed && failed < LIMIT,
            "{device:?}: {failed} calls"
        );
    }
}
