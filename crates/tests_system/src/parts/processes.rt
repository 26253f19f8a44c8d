//! The calls of a process.
use crate::parts::fixtures::process_asked;
use sq_base::{QuestionNo, Word};
use sq_channel::{Got, Process};
use std::alloc::Global;
use std::process::Abort;

/// Whether an ERR on channel 0 answers question 1.
fn is_answered(rt: &impl Abort, alloc: Global, process: &mut Process) -> bool {
    match process.got(alloc, b"0 ERR").expect(rt, "memory") {
        Got::Reply(question, reply) => question == QuestionNo(1) && reply.word == Word::No,
        _ => false,
    }
}

/// Whether an ERR on channel 1 is for no question.
fn is_stray(rt: &impl Abort, alloc: Global, process: &Process) -> bool {
    matches!(
        process.look(alloc, b"1 ERR").expect(rt, "memory"),
        Got::Stray
    )
}

/// Ends the process unless question 1 is on the first of two channels, until it is answered there.
fn check_channels(rt: &impl Abort, alloc: Global, process: &mut Process) {
    assert!(rt; process.free() == 1 && process.open_count() == 1);
    assert!(rt; process.slots() == [Some(QuestionNo(1)), None].as_slice());
    assert!(rt; is_stray(rt, alloc, process) && is_answered(rt, alloc, process));
    assert!(rt; process.free() == 2 && process.drain() == None);
}

#[test]
fn a_question_is_on_the_least_free_channel(rt: HostRuntime) {
    let alloc = rt.alloc();
    let mut process = process_asked(alloc, 2).expect(&rt, "memory");
    check_channels(&rt, alloc, &mut process);
}
