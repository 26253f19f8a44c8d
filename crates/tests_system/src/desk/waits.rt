//! Who waits behind the desk's lock, and for how long: a connection for an answer, and the pump until it is told of something.
use crate::desk::desks::{append, helper_mark, hub_mark};
use crate::desk::locked::{Table, check};
use crate::desk::rewriting::number;
use sq_base::QuestionNo;
use sq_calls::{DeskCalls, HelperCalls};
use sq_shared::{Ledgers, Room, changes, is_awaited, set_done, tell_end, wait_due};
use sq_turns::Hub;
use std::alloc::Global;
use std::process::Abort;
use std::sync::Wait;

/// What is done, and what is seen then. `d` is the desk behind its lock, `h` a hub, which `w` waits for the answer that its last step
/// was told to wait for: that must have come, or nobody would end the wait. `+` stands before a question on which a connection sleeps,
/// and `-` before one on which none does. The pump, `p`, `looks` at what it was told, and is `told` of something since, so that it must
/// not sleep, or `untold`. `k` is who ends, and who says at the end that nothing more is to be done: then it is `over`.
pub static WAITS: &str = "+ 1
+ 5
p looks
p untold
d 5 line 1 OK => reply 1 ok
- 1
+ 5
p told
p looks
p untold
d 5 died 2 => ok
- 5
w wait
p told
p looks
k end
p told
p looks
h 5 step 1 => done
p untold
h 5 step 3 => waits 3
+ 3
p told
p looks
d 5 line 9 OK => refused
+ 3
p told
p looks
d 5 startfail 2 w => ok
- 3
w wait
p told
p looks
k done
p over
";

// The mark of a question: `.` where it is awaited as `wanted` says.
fn awaited_mark<R: Wait + Abort, D: DeskCalls, B: Ledgers>(
    rt: &R,
    room: &Room<D, B>,
    question: &str,
    wanted: bool,
) -> &'static str {
    let question = QuestionNo(number(rt, question));
    if is_awaited(rt, room, question) == wanted {
        "."
    } else {
        "x"
    }
}

// The mark of what the pump does, which looked last when it had been told so often. Where it would sleep it is not let.
fn pump_mark<R: Wait, D: DeskCalls, B: Ledgers>(
    rt: &R,
    room: &Room<D, B>,
    seen: &mut u64,
    line: &str,
) -> &'static str {
    let told = changes(rt, room) != *seen;
    let as_wanted = match line {
        "looks" => {
            *seen = changes(rt, room);
            true
        }
        "untold" => !told,
        "told" => told && !wait_due(rt, room, *seen),
        "over" => wait_due(rt, room, *seen),
        _ => false,
    };
    if as_wanted { "." } else { "x" }
}

// The mark of a wait, or of what others tell the pump.
fn told_mark<R: Wait, D: DeskCalls, B: Ledgers, H: Hub>(
    rt: &R,
    room: &Room<D, B>,
    hub: &mut H,
    row: &str,
) -> &'static str {
    match row {
        "w wait" => hub.wait(),
        "k end" => tell_end(rt, room),
        _ => set_done(rt, room),
    }
    "."
}

/// Does what the rows say, and puts down their marks.
pub fn run_waits<R: Wait + Abort, D: DeskCalls, B: Ledgers, K: HelperCalls, H: Hub>(
    rt: &R,
    alloc: Global,
    room: &Room<D, B>,
    desk: &mut K,
    hub: &mut H,
    text: &mut String,
) {
    let mut seen = 0u64;
    for row in WAITS.lines() {
        let mark = match row.split_at_checked(2) {
            Some(("d ", line)) => helper_mark(rt, alloc, desk, line),
            Some(("h ", line)) => hub_mark(rt, alloc, hub, line),
            Some(("+ ", question)) => awaited_mark(rt, room, question, true),
            Some(("- ", question)) => awaited_mark(rt, room, question, false),
            Some(("p ", line)) => pump_mark(rt, room, &mut seen, line),
            _ => told_mark(rt, room, hub, row),
        };
        append(rt, text, mark);
    }
}

#[test]
fn who_waits_behind_the_lock_is_told(rt: HostRuntime) {
    check(&rt, rt.alloc(), Table::Waits);
}
