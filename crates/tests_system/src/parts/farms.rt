//! What is due in a farm.
use crate::parts::fixtures::{Asked, class};
use sq_base::{ProcNo, QuestionNo, Text};
use sq_farm::{Farm, FarmAct, PutFault};
use std::alloc::Global;
use std::process::Abort;

/// Puts the next question, and says how that was refused, if it was.
fn refused(rt: &impl Abort, alloc: Global, asked: &mut Asked, text: &[u8]) -> Option<PutFault> {
    let text = Text::from_slice(alloc, text).expect(rt, "memory");
    asked.put(text).err()
}

fn starts(asked: &mut Asked) -> bool {
    matches!(asked.act(), Some(FarmAct::Start))
}

fn rests(asked: &mut Asked) -> bool {
    matches!(asked.act(), None)
}

/// Whether question 1 is sent to process 1, without a channel, and with this text.
fn sends(asked: &mut Asked, wanted: &[u8]) -> bool {
    match asked.act() {
        Some(
            FarmAct::Send {
                proc: ProcNo(1),
                question: QuestionNo(1),
                channel: None,
                text,
            },
        ) => text.as_bytes() == wanted,
        _ => false,
    }
}

/// Ends the process unless there is room for one question, before a process starts and while it is asked.
fn fill(rt: &impl Abort, alloc: Global, asked: &mut Asked) {
    let first = refused(rt, alloc, asked, b"a.example");
    let second = refused(rt, alloc, asked, b"b.example");
    assert!(rt; first == None && second == Some(PutFault::Full));
    assert!(rt; starts(asked) && rests(asked));
    assert!(rt; asked.started(alloc, 1) && sends(asked, b"a.example"));
    let third = refused(rt, alloc, asked, b"c.example");
    assert!(rt; third == Some(PutFault::Full));
}

/// Whether a farm is full, and nothing is due.
fn is_filled(rt: &impl Abort, alloc: Global, farm: &Farm) -> bool {
    let due = farm.due(alloc).expect(rt, "memory");
    farm.is_full() && !farm.send_due() && matches!(due, None)
}

/// A process may still be started, so one question may wait; then the queue is full.
#[test]
fn a_process_that_may_start_is_room(rt: HostRuntime) {
    let alloc = rt.alloc();
    let mut asked = Asked::new(alloc, &class(alloc, 1, 0, 0));
    fill(&rt, alloc, &mut asked);
    let farm = asked.farm();
    assert!(rt; is_filled(&rt, alloc, &farm));
}
