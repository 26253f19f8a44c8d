//! Threads that sleep until an act may be due or a question was answered, and what the pump, keepers and the control tell
//! them. Each function takes the desk's lock for one call; nothing is proved here of what lies under it, and nothing
//! is said of when a thread wakes.
ghost use Rattle.std.specs.Prelude.{◌≡◌, ◌<◌, ◌^◌};
ghost use Rattle.sq_shared.specs.Waking.{number_told};

use crate::ledgers::Ledgers;
use crate::older::may_ask;
use crate::room::Room;
use sq_base::QuestionNo;
use sq_calls::{DeskCalls, DeskFault, reports_stop};
use sq_channel::Got;
use sq_model::Stepped;
use std::sync::Wait;

/// How often an act may have become due, or a keeper have ended, so far.
pub fn changes<R: Wait, D: DeskCalls, B: Ledgers>(rt: &R, room: &Room<D, B>) -> u64 {
    room.hall.lock(rt).changes()
}

/// The number of the question for which a step said to wait, or 0, which no question has.
pub fn number_told(gave: &Result<Stepped, DeskFault>) -> u64
    ensures number { result ≡ number_told gave.now }
    ensures bound { result < 2 ^ 63 }
{
    match gave {
        Ok(Stepped::Waits(question)) => question.0,
        Ok(Stepped::Took(_)) | Ok(Stepped::Done) | Err(_) => 0,
    }
}

/// Sleeps, as a session does, while the answer to this question has not come.
pub fn wait_answered<R: Wait, D: DeskCalls, B: Ledgers>(
    rt: &R,
    room: &Room<D, B>,
    question: QuestionNo,
) {
    let mut guard = room.hall.lock(rt);
    let place = guard.add_waiter(question);
    let mut guard = room
        .place(place)
        .wait_while(rt, guard, |hall| hall.is_awaited(question));
    if let Some(place) = place {
        guard.remove_waiter(place);
    }
}

/// Whether a session sleeps, or is about to, until the answer to this question comes.
pub fn is_awaited<R: Wait, D: DeskCalls, B: Ledgers>(
    rt: &R,
    room: &Room<D, B>,
    question: QuestionNo,
) -> bool {
    room.hall.lock(rt).is_awaited(question)
}

/// Sleeps, as the pump does, until acts may have become due more often than this, or no more is to be done. Answers whether
/// that is so.
pub fn wait_due<R: Wait, D: DeskCalls, B: Ledgers>(rt: &R, room: &Room<D, B>, seen: u64) -> bool {
    let guard = room.hall.lock(rt);
    let guard = room.due.wait_while(rt, guard, |hall| {
        hall.changes() == seen && !hall.is_done()
    });
    guard.is_done()
}

/// A keeper has ended, and the pump learns it.
pub fn tell_end<R: Wait, D: DeskCalls, B: Ledgers>(rt: &R, room: &Room<D, B>) {
    room.hall.lock(rt).note_end();
    room.wake_pump();
}

/// No more is to be done, and the pump learns it.
pub fn set_done<R: Wait, D: DeskCalls, B: Ledgers>(rt: &R, room: &Room<D, B>) {
    room.hall.lock(rt).set_done();
    room.wake_pump();
}

/// Where a call shows that the desk has stopped, all who wait learn it.
pub fn wake_if_stopped<R: Wait, D: DeskCalls, B: Ledgers, T>(
    rt: &R,
    room: &Room<D, B>,
    gave: &Result<T, DeskFault>,
) {
    if reports_stop(gave) {
        room.hall.lock(rt).give_up();
        room.wake_all();
    }
}

/// After a call by which an act may have become due: the pump learns it, and all who wait where the desk has stopped.
pub fn wake_pump_after<R: Wait, D: DeskCalls, B: Ledgers, T>(
    rt: &R,
    room: &Room<D, B>,
    gave: &Result<T, DeskFault>,
) {
    wake_if_stopped(rt, room, gave);
    room.wake_pump();
}

/// After a step: the pump learns where it may have put a question, and all who wait where the desk has stopped.
pub fn wake_after_step<R: Wait, D: DeskCalls, B: Ledgers>(
    rt: &R,
    room: &Room<D, B>,
    gave: &Result<Stepped, DeskFault>,
) {
    wake_if_stopped(rt, room, gave);
    if may_ask(gave) {
        room.wake_pump();
    }
}

/// After a call that may have answered any question: all who wait learn it.
pub fn wake_all_after<R: Wait, D: DeskCalls, B: Ledgers, T>(
    rt: &R,
    room: &Room<D, B>,
    gave: &Result<T, DeskFault>,
) {
    wake_if_stopped(rt, room, gave);
    room.wake_all();
}

/// After a line of a process: those who wait for the question that it replied to, which had this place, learn it, or all where
/// it ended the process.
pub fn wake_after_line<R: Wait, D: DeskCalls, B: Ledgers>(
    rt: &R,
    room: &Room<D, B>,
    gave: &Result<Got, DeskFault>,
    place: Option<usize>,
) {
    wake_if_stopped(rt, room, gave);
    match gave {
        Ok(Got::Reply(_, _)) => room.wake_answered(place),
        Ok(Got::Bad) | Ok(Got::Stray) => room.wake_all(),
        Err(_) => {}
    }
}

/// Whether the desk was given up.
pub fn is_stopped<R: Wait, D: DeskCalls, B: Ledgers>(rt: &R, room: &Room<D, B>) -> bool {
    room.hall.lock(rt).is_stopped()
}
