//! What passes a pipe between two threads, of which no clause says anything.
use sq_dst::{PipeIn, PipeOut, pipe};
use sq_outside::{Out, Source, write_all};
use std::process::Abort;
use std::sync::Wait;
use std::thread::{self, Threads, join};

/// Writes so many pieces of 10 bytes, and lets the half go.
fn writes<R: Wait>(mut to: PipeIn<R>, pieces: u32) -> bool {
    for _ in 0..pieces {
        if write_all(&mut to, b"0123456789").is_err() {
            return false;
        }
    }
    true
}

/// How many bytes are read to the end, each the digit behind the one before; none where one is another.
fn reads<R: Wait>(rt: &R, mut from: PipeOut<R>) -> u64 {
    let mut chunk = [0u8; 4096];
    let mut count = 0u64;
    for _ in rt.forever() {
        match from.read(&mut chunk) {
            Ok(0) | Err(_) => return count,
            Ok(read) => {
                for &byte in &chunk[..read] {
                    if u64::from(byte) != 48 + count % 10 {
                        return 0;
                    }
                    count = count.wrapping_add(1);
                }
            }
        }
    }
    unreachable!()
}

fn passed<R: Threads + Wait + Sync>(rt: &R, to: PipeIn<R>, from: PipeOut<R>) -> (bool, u64) {
    join(rt, move || writes(to, 10_000), move || reads(rt, from))
}

#[test]
fn what_is_written_to_a_pipe_is_read_to_its_end(rt: HostRuntime) {
    let (to, from) = pipe(&rt, rt.alloc()).expect(&rt, "memory");
    assert!(rt; passed(&rt, to, from) == (true, 100_000));
    // Nobody reads any more: what is written is dropped.
    let (to, from) = pipe(&rt, rt.alloc()).expect(&rt, "memory");
    drop(from);
    assert!(rt; writes(to, 10_000));
}

/// Reads a few bytes, gives the writer time to fill the pipe, and lets the half go.
fn leaves<R: Wait>(mut from: PipeOut<R>) -> bool {
    let mut chunk = [0u8; 10];
    let read = from.read(&mut chunk);
    for _ in 0..10_000 {
        thread::yield_now();
    }
    matches!(read, Ok(1..=10))
}

fn left<R: Threads + Wait + Sync>(rt: &R, to: PipeIn<R>, from: PipeOut<R>) -> (bool, bool) {
    join(rt, move || writes(to, 2_000), move || leaves(from))
}

#[test]
fn who_waits_for_room_in_a_pipe_goes_on_where_its_reader_goes(rt: HostRuntime) {
    let (to, from) = pipe(&rt, rt.alloc()).expect(&rt, "memory");
    assert!(rt; left(&rt, to, from) == (true, true));
}

#[test]
fn a_pipe_that_is_closed_has_what_was_written_and_then_its_end(rt: HostRuntime) {
    let (mut to, mut from) = pipe(&rt, rt.alloc()).expect(&rt, "memory");
    let mut chunk = [0u8; 64];
    assert!(rt; write_all(&mut to, b"0123456789").is_ok());
    to.close();
    assert!(rt; matches!(from.read(&mut chunk), Ok(10)));
    assert!(rt; chunk.starts_with(b"0123456789"));
    assert!(rt; write_all(&mut to, b"more").is_ok());
    assert!(rt; matches!(from.read(&mut chunk), Ok(0)));
}
