//! What of the forms in memory is in no clause: that a listener stops once it was asked to, and that a process waits for what
//! it is asked.
use crate::outside::fixtures::{net, spawner, stops, wire, words_of};
use sq_base::Text;
use sq_outside::{Out, Source, Spawner, write_all};
use sq_outside_mem::{MemChildOut, MemNet, MemOut, MemSpawner};
use std::alloc::Global;
use std::process::Abort;
use std::sync::atomic::AtomicBool;

fn check_stop<'a, R: Abort>(rt: &R, alloc: Global, net: &mut MemNet<'a>) {
    assert!(rt; stops(alloc, net));
    assert!(rt; net.port() == Some(3128));
    assert!(rt; net.faults() == 0);
    // It can be opened once.
    assert!(rt; !stops(alloc, net));
    assert!(rt; net.faults() == 1);
}

#[test]
fn a_listener_that_was_asked_to_stop_stops(rt: HostRuntime) {
    let names = Vec::new(rt.alloc());
    let word = AtomicBool::new(false);
    let wire = wire(&rt, rt.alloc());
    let mut net = net(&rt, rt.alloc(), names.as_slice(), &word, &wire);
    check_stop(&rt, rt.alloc(), &mut net);
}

/// What is written to the process, whether it is closed then, and what the next read gives.
static ASKS: [(&[u8], bool, &[u8]); 5] = [
    (b"", false, b""),
    (b"one", false, b""),
    (b"\ntwo\n", false, b"OK\n"),
    (b"", false, b"ERR\n"),
    (b"", true, b""),
];

/// Whether a program of this word can be started.
fn starts<'a, R: Abort>(rt: &R, alloc: Global, spawner: &mut MemSpawner<'a>, word: &[u8]) -> bool {
    let words = words_of(rt, alloc, word);
    spawner.start(alloc, words.as_slice()).is_ok()
}

fn check_asks<'a, R: Abort>(rt: &R, said: &mut MemChildOut<'a>, to: &mut MemOut<'a>) {
    let mut chunk = [0u8; 9];
    for &(written, closed, wanted) in &ASKS {
        let is_written = write_all(to, written).is_ok();
        if closed {
            to.close();
        }
        let count = said.read(&mut chunk).expect(rt, "a read");
        let is_read = chunk.get(..count) == Some(wanted);
        assert!(rt; is_written && is_read, "at {written:?}");
    }
}

fn check_process<'a, R: Abort>(
    rt: &R,
    alloc: Global,
    words: &[Text],
    spawner: &mut MemSpawner<'a>,
) {
    let started = spawner.start(alloc, words);
    let (mut said, mut to) = started.expect(rt, "a process");
    check_asks(rt, &mut said, &mut to);
}

fn check_spawner<'a, R: Abort>(rt: &R, alloc: Global, spawner: &mut MemSpawner<'a>) {
    let starts_another = starts(rt, alloc, spawner, b"other");
    assert!(rt; !starts_another);
    let words = words_of(rt, alloc, b"helper");
    check_process(rt, alloc, words.as_slice(), spawner);
}

#[test]
fn a_process_answers_line_by_line_and_ends_when_it_is_closed(rt: HostRuntime) {
    let wire = wire(&rt, rt.alloc());
    let mut spawner = spawner(&rt, rt.alloc(), b"helper", b"OK\nERR\nOK\n", &wire);
    check_spawner(&rt, rt.alloc(), &mut spawner);
}
