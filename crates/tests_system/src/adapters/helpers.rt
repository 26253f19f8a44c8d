//! Programs as helpers, as POSIX has `cat` and `sh`.
use crate::adapters::fixtures::words;
use sq_base::Moment;
use sq_outside::{
    Another, Clock, Held, LineFound, Out, Sink, Source, Spawner, next_line, write_all,
};
use sq_system::{LinkTimes, RealClock, RealSpawner};
use std::time::Duration;

#[test]
fn cat_answers_three_lines_and_is_closed(rt: HostRuntime) {
    let alloc = rt.alloc();
    let mut spawner = RealSpawner::new(rt, LinkTimes::of_server()).another();
    let command = words(alloc, &[b"/bin/cat"]).expect(&rt, "the words");
    let (mut said, mut to) = spawner
        .start(alloc, command.as_slice())
        .expect(&rt, "a program");
    let mut held = Held::new(alloc, 512).expect(&rt, "a line");
    let mut line = Vec::new(alloc);
    let lines: [&[u8]; 3] = [b"one", b"", b"a longer third line"];
    for &asked in &lines {
        let mut place = 0;
        assert!(rt; write_all(&mut to, asked).is_ok());
        assert!(rt; write_all(&mut to, b"\n").is_ok());
        let found = next_line(&mut held, &mut said, &mut place, &mut line);
        assert!(rt; matches!(found, Ok(LineFound::Whole)));
        assert!(rt; line.as_slice() == asked);
    }
    to.close();
    let mut chunk = [0u8; 16];
    assert!(rt; said.read(&mut chunk).expect(&rt, "a read") == 0);
    assert!(rt; write_all(&mut to, b"late\n").is_err());
}

/// Ticks of 20 milliseconds. An answer may be owed for 300, and for 100 where the server was stopped as long ago.
fn short() -> LinkTimes {
    LinkTimes {
        tick: Duration::from_millis(20),
        answer: Duration::from_millis(300),
        answer_end: Duration::from_millis(100),
        ..LinkTimes::of_server()
    }
}

/// How many milliseconds behind this moment a program's output is at its end, whatever comes before.
fn ends_after<S: Source, C: Clock>(begun: Moment, from: &mut S, clock: &mut C) -> u64 {
    let mut chunk = [0u8; 256];
    for _ in 0..100_000 {
        if from.read(&mut chunk) == Ok(0) {
            return clock.now().0.saturating_sub(begun.0);
        }
    }
    u64::MAX
}

/// Asks the question of channel 1, and so many others. Whether all were taken.
fn asks<O: Sink>(to: &mut O, others: u32) -> bool {
    let text = [b'a'; 1000];
    let mut asked = write_all(to, b"1 a\n").is_ok();
    for _ in 0..others {
        asked = asked && write_all(to, b"2 ").is_ok();
        asked = asked && write_all(to, &text).is_ok();
        asked = asked && write_all(to, b"\n").is_ok();
    }
    asked
}

#[test]
fn a_program_that_owes_an_answer_is_stopped(rt: HostRuntime) {
    let alloc = rt.alloc();
    let mut spawner = RealSpawner::new(rt, short());
    let mut clock = RealClock::new(rt);
    // One that answers nothing, one that reads nothing either, and one that answers all others again and again.
    let scripts: [&[u8]; 3] = [
        b"cat > /dev/null; true",
        b"exec sleep 60",
        b"while read -r n rest; do while sleep 0.01; do echo 2 OK; done; done",
    ];
    for script in scripts {
        let command = words(alloc, &[b"sh", b"-c", script]).expect(&rt, "the words");
        let (mut said, mut to) = spawner
            .start(alloc, command.as_slice())
            .expect(&rt, "a program");
        let begun = clock.now();
        assert!(rt; asks(&mut to, 200));
        let time = clock.now().0.saturating_sub(begun.0);
        assert!(rt; time < 20_000, "asked in {time}");
        let time = ends_after(begun, &mut said, &mut clock);
        assert!(rt; (290..40_000).contains(&time), "after {time}");
        assert!(rt; write_all(&mut to, b"1 a\n").is_err());
    }
}

#[test]
fn what_nobody_asked_for_ends_a_program(rt: HostRuntime) {
    let alloc = rt.alloc();
    let mut spawner = RealSpawner::new(rt, short());
    // Two lines in one piece, for one question; a line and a piece of one; and a line before the first question. Each with the bytes that were
    // asked for.
    let scripts: [(&[u8], &[u8]); 3] = [
        (
            b"read -r q; printf 'OK\\nOK\\n'; exec cat > /dev/null",
            b"OK\n",
        ),
        (
            b"read -r q; printf 'ERR\\nO'; exec cat > /dev/null",
            b"ERR\n",
        ),
        (b"printf 'OK\\n'; exec cat > /dev/null", b""),
    ];
    for (script, asked_for) in scripts {
        let command = words(alloc, &[b"sh", b"-c", script]).expect(&rt, "the words");
        let (mut said, mut to) = spawner
            .start(alloc, command.as_slice())
            .expect(&rt, "a program");
        let mut chunk = [0u8; 16];
        if !asked_for.is_empty() {
            assert!(rt; write_all(&mut to, b"a\n").is_ok());
            let count = said.read(&mut chunk).expect(&rt, "a read");
            assert!(rt; &chunk[..count] == asked_for);
        }
        assert!(rt; said.read(&mut chunk).expect(&rt, "a read") == 0);
        assert!(rt; write_all(&mut to, b"b\n").is_err());
    }
}
