//! What a session asks of its client's link, and tells it, as pieces of a head, a body and a tunnel come.
ghost use Rattle.std.specs.Prelude.{◌≤◌, None, length};
ghost use Rattle.std.proofs.Common.{arith};

use crate::desk::hub::running::{Fault, Links, Place, Ran, run_from};
use sq_base::Text;
use sq_outside::{Expected, Failed, Source};
use sq_turns::End;
use std::alloc::Global;
use std::process::Abort;
use std::sync::Wait;
use std::thread::Threads;

/// At most so many bytes are read where nothing says that more will come.
const SMALL: usize = 1_024;

/// A source of a piece a read, that notes each call as a letter: `N`, `H`, `L` and `D` for what is expected; `r` for a read into
/// little room and `R` into more; `s` for a read that was to be soon, and `-` for one of these at which nothing came. Those
/// of the listed numbers, from 1, are such.
#[derive(Drop)]
struct Pieces<'a> {
    pieces: &'a [&'a [u8]],
    at: usize,
    used: usize,
    pauses: &'a [u64],
    soon: u64,
    calls: Vec<u8>,
}

impl<'a> Pieces<'a> {
    fn note(&mut self, call: u8) {
        let _ = self.calls.push(call);
    }

    fn give(&mut self, into: &mut [u8]) -> usize
        ensures { result ≤ length into.new }
    {
        let Some(piece) = self.pieces.get(self.at) else {
            return 0;
        };
        let (_, rest) = piece.split_at(self.used.min(piece.len()));
        let count = rest.len().min(into.len());
        into[..count].copy_from_slice(&rest[..count]);
        self.used = self.used.saturating_add(count);
        if count == rest.len() {
            self.at = self.at.saturating_add(1);
            self.used = 0;
        }
        count
    }
}

impl<'a> Source for Pieces<'a> {
    ghost left = { λ _. None };

    ghost origin = { λ _. None };

    ghost faults = { λ _. 0 };

    ghost capped = { λ _. Prim.search arith };

    fn read(&mut self, into: &mut [u8]) -> Result<usize, Failed> {
        self.note(if into.len() <= SMALL { b'r' } else { b'R' });
        Ok(self.give(into))
    }

    fn read_soon(&mut self, into: &mut [u8]) -> Result<Option<usize>, Failed> {
        self.soon = self.soon.saturating_add(1);
        if self.pauses.contains(&self.soon) {
            self.note(b'-');
            return Ok(None);
        }
        self.note(b's');
        Ok(Some(self.give(into)))
    }

    fn expect(&mut self, what: Expected) {
        self.note(match what {
            Expected::Nothing => b'N',
            Expected::Head => b'H',
            Expected::Line => b'L',
            Expected::Data => b'D',
        });
    }
}

/// Runs a session of a client that sends these pieces; its link pauses at the listed reads.
fn run_pieces<R: Threads + Wait + Sync + Abort>(
    rt: &R,
    alloc: Global,
    pieces: &[&[u8]],
    pauses: &[u64],
) -> (Ran, Text) {
    let source = Pieces {
        pieces,
        at: 0,
        used: 0,
        pauses,
        soon: 0,
        calls: Vec::new(alloc),
    };
    let links = Links {
        step: 8_192,
        reply: "HTTP/1.1 204 No Content\r\n\r\n",
        fault: Fault {
            place: Place::Dial,
            call: 0,
        },
    };
    let (ran, source) = run_from(rt, alloc, source, 0, &links);
    (ran, Text::from_vec(source.calls))
}

/// A chunk of 16 bytes and a trailer, line by line and cut within each.
static CHUNKED: [&[u8]; 10] = [
    b"POST http://a.example/x HTTP/1.1\r\nHost: a\r\nTransfer-Encoding: chunked\r\n\r\n",
    b"1",
    b"0",
    b"\r\n01234567",
    b"89abcdef\r",
    b"\n",
    b"0\r",
    b"\n",
    b"X: 1\r\n",
    b"\r\n",
];

#[test]
fn a_link_hears_what_is_expected_of_it(rt: HostRuntime) {
    let alloc = rt.alloc();
    // A head comes in one piece. Behind it data is expected; then the rest of a line, behind its first byte, and no more
    // at its second; data; the LF behind a chunk, and the next line; the line of the last chunk, cut behind its CR; the
    // trailers, which are one line more; and then the next head.
    let (ran, calls) = run_pieces(&rt, alloc, &CHUNKED, &[]);
    assert!(rt; ran.end.why == End::Finished, "{:?}", ran.end);
    assert!(rt;
        calls.as_bytes() == b"NrDrLrrDrLrDrLrLrrNrD".as_slice(),
        "{calls}"
    );
    // A head of which a first byte has come is expected to go on, once.
    let head: [&[u8]; 3] = [
        b"GET http://denied",
        b".example/ HTTP/1.1\r\n",
        b"Host: a\r\n\r\n",
    ];
    let (ran, calls) = run_pieces(&rt, alloc, &head, &[]);
    assert!(rt; ran.end.why == End::Finished, "{:?}", ran.end);
    assert!(rt; calls.as_bytes() == b"NrHrrDNrD".as_slice(), "{calls}");
}

/// A line for each case: how many bytes a tunnel's client sends at once, at which of the reads that were to be soon nothing comes, from 1,
/// and what is asked of its link. Little room has 1,024 bytes; where these came full, the next reads are to be soon, until nothing
/// comes. The last read finds the end.
const TUNNELS: &str = "\
1 0 NrDrr
1023 0 NrDrr
1024 0 NrDrs
1025 0 NrDrss
4095 0 NrDrss
4096 0 NrDrss
4097 0 NrDrss
1024 1 NrDr-r
4097 1 NrDr-rss
4097 2 NrDrs-r";

#[test]
fn a_tunnel_is_read_whole_however_its_link_pauses(rt: HostRuntime) {
    let alloc = rt.alloc();
    for line in TUNNELS.lines() {
        let (count, rest) = line.split_once(' ').expect(&rt, "three words");
        let (pause, wanted) = rest.split_once(' ').expect(&rt, "three words");
        let count = count.parse::<usize>().expect(&rt, "a number");
        let pause = pause.parse::<u64>().expect(&rt, "a number");
        let mut bytes = Vec::new(alloc);
        bytes.resize(count, b'x').expect(&rt, "memory");
        let pieces: [&[u8]; 2] = [
            b"CONNECT [2001:db8::2]:443 HTTP/1.1\r\nHost: a\r\n\r\n",
            bytes.as_slice(),
        ];
        let (ran, calls) = run_pieces(&rt, alloc, &pieces, &[pause]);
        assert!(rt; ran.end.why == End::Finished, "{line}: {:?}", ran.end);
        assert!(rt;
            ran.sent.as_bytes() == bytes.as_slice(),
            "{line}: {}",
            ran.sent
        );
        assert!(rt; calls.as_bytes() == wanted.as_bytes(), "{line}: {calls}");
    }
}

/// A line for each case: how many bytes a head has, at which of the reads that were to be soon nothing comes, and what is
/// asked of its link up to the head's end, and then for the next one.
const HEADS: &str = "\
1023 0 NrDNrD
1024 0 NrDNrD
1025 0 NrHsDNrD
4096 0 NrHsDNrD
4097 0 NrHsDNrD
1025 1 NrH-rDNrD
4097 1 NrH-rsDNrD";

/// A request that is denied, of so many bytes.
fn head_of(rt: &impl Abort, alloc: Global, count: usize) -> Vec<u8> {
    let mut head = Vec::new(alloc);
    head.extend_from_slice(b"GET http://denied.example/ HTTP/1.1\r\nHost: a\r\nX: ")
        .expect(rt, "memory");
    head.resize(count.saturating_sub(4), b'x')
        .expect(rt, "memory");
    head.extend_from_slice(b"\r\n\r\n").expect(rt, "memory");
    head
}

#[test]
fn a_head_is_read_whole_however_its_link_pauses(rt: HostRuntime) {
    let alloc = rt.alloc();
    for line in HEADS.lines() {
        let (count, rest) = line.split_once(' ').expect(&rt, "three words");
        let (pause, wanted) = rest.split_once(' ').expect(&rt, "three words");
        let count = count.parse::<usize>().expect(&rt, "a number");
        let pause = pause.parse::<u64>().expect(&rt, "a number");
        let head = head_of(&rt, alloc, count);
        let pieces: [&[u8]; 1] = [head.as_slice()];
        let (ran, calls) = run_pieces(&rt, alloc, &pieces, &[pause]);
        assert!(rt; ran.end.why == End::Finished, "{line}: {:?}", ran.end);
        assert!(rt; ran.end.requests == 1, "{line}: {:?}", ran.end);
        assert!(rt; calls.as_bytes() == wanted.as_bytes(), "{line}: {calls}");
    }
}
