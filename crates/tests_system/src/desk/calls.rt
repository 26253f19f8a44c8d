//! The calls of a desk, and of a hub, by the events of lines. The classes at the places 0 and 1 have the names `v` and `w`.
ghost use Rattle.sq_calls.specs.Legality.{IsStated};

use sq_base::{CheckNo, ConnNo, EpochNo, Moment, ProcNo, Request, Text};
use sq_calls::{ConnCalls, ControlCalls, DeskCalls, DeskFault, HelperCalls};
use sq_channel::Got;
use sq_checks::Record;
use sq_conf::read_config;
use sq_machine::{Act, Event, Told};
use sq_model::{Stepped, copy_outcome};
use sq_request::make_request;
use sq_turns::{Hub, HubFault};
use sq_urlmatch::Setup;
use std::alloc::Global;
use std::process::Abort;

/// What a call told, or why it was not made; nothing, where no act was due.
pub type Gave = Result<Option<Told>, DeskFault>;

// The place of the class of this name; 9 where there is none.
fn place_of(name: &Text) -> u32 {
    match name.as_bytes() {
        [b'v'] => 0,
        [b'w'] => 1,
        _ => 9,
    }
}

// The name of the class at this place; `?` where there is none.
fn name_at(rt: &impl Abort, alloc: Global, place: u32) -> Text {
    let name: &[u8] = match place {
        0 => b"v",
        1 => b"w",
        _ => b"?",
    };
    Text::from_slice(alloc, name).expect(rt, "memory")
}

/// The configuration that a text states.
pub fn setup_of(rt: &impl Abort, alloc: Global, text: &[u8]) -> Setup
    ensures { IsStated result }
{
    read_config(alloc, text).expect(rt, "a configuration")
}

// That it was done.
fn fine(gave: Result<(), DeskFault>) -> Gave {
    match gave {
        Ok(()) => Ok(Some(Told::Fine)),
        Err(fault) => Err(fault),
    }
}

// The connection and the request of an event.
fn asking(rt: &impl Abort, alloc: Global, event: Event) -> (ConnNo, Request) {
    let Event::Ask {
        conn,
        method,
        target,
        fields,
    } = event
    else {
        panic!(rt; "no request");
    };
    let request = make_request(alloc, method.as_bytes(), target.as_bytes(), 1, fields);
    (conn, request.expect(rt, "a request"))
}

// The number of the check that began.
fn begun(gave: Result<CheckNo, DeskFault>) -> Gave {
    match gave {
        Ok(check) => Ok(Some(Told::Check(check))),
        Err(fault) => Err(fault),
    }
}

// A request arrives.
fn ask<D: ConnCalls>(
    rt: &impl Abort,
    alloc: Global,
    desk: &mut D,
    event: Event,
    now: Moment,
) -> Gave {
    let (conn, request) = asking(rt, alloc, event);
    begun(desk.ask(alloc, conn, request, now))
}

// The answer that tells of a step.
fn told_step(rt: &impl Abort, alloc: Global, stepped: &Stepped) -> Told {
    match stepped {
        Stepped::Took(class) => Told::Took(name_at(rt, alloc, *class)),
        Stepped::Waits(question) => Told::Waits(*question),
        Stepped::Done => Told::Done,
    }
}

// How a check goes on.
fn stepped(rt: &impl Abort, alloc: Global, gave: Result<Stepped, DeskFault>) -> Gave {
    match gave {
        Ok(stepped) => Ok(Some(told_step(rt, alloc, &stepped))),
        Err(fault) => Err(fault),
    }
}

// The answer that tells of a check's outcome.
fn told_outcome(rt: &impl Abort, alloc: Global, record: &Record) -> Told {
    Told::Judged {
        epoch: record.epoch(),
        outcome: copy_outcome(alloc, record.outcome()).expect(rt, "memory"),
    }
}

// The outcome of a check.
fn taken(rt: &impl Abort, alloc: Global, gave: Result<Record, DeskFault>) -> Gave {
    match gave {
        Ok(record) => Ok(Some(told_outcome(rt, alloc, &record))),
        Err(fault) => Err(fault),
    }
}

// The answer that tells of an act.
fn told_act(rt: &impl Abort, alloc: Global, act: Act) -> Told {
    match act {
        Act::Stop(proc) => Told::Stop(proc),
        Act::Send {
            proc,
            question,
            channel,
            text,
        } => Told::Send {
            proc,
            question,
            channel,
            key: text,
        },
        Act::Start { epoch, class } => Told::Start {
            epoch,
            class: name_at(rt, alloc, class),
        },
    }
}

// The next act.
fn act<D: HelperCalls>(rt: &impl Abort, alloc: Global, desk: &mut D, now: Moment) -> Gave {
    match desk.act(alloc, now) {
        Ok(Some(act)) => Ok(Some(told_act(rt, alloc, act))),
        Ok(None) => Ok(None),
        Err(fault) => Err(fault),
    }
}

// A process runs.
fn started<D: HelperCalls>(
    alloc: Global,
    desk: &mut D,
    epoch: EpochNo,
    class: &Text,
    now: Moment,
) -> Gave {
    match desk.started(alloc, epoch, place_of(class), now) {
        Ok(proc) => Ok(Some(Told::Proc(proc))),
        Err(fault) => Err(fault),
    }
}

// The answer that tells what a line came to.
fn told_line(got: &Got) -> Told {
    match got {
        Got::Reply(question, reply) => Told::Reply {
            question: *question,
            word: reply.word,
        },
        Got::Bad => Told::Bad,
        Got::Stray => Told::Stray,
    }
}

// A line of a process.
fn line<D: HelperCalls>(
    alloc: Global,
    desk: &mut D,
    proc: ProcNo,
    bytes: &Text,
    now: Moment,
) -> Gave {
    match desk.line(alloc, proc, bytes.as_bytes(), now) {
        Ok(got) => Ok(Some(told_line(&got))),
        Err(fault) => Err(fault),
    }
}

// Another configuration, by its text.
fn reconfigure<D: ControlCalls>(
    rt: &impl Abort,
    alloc: Global,
    desk: &mut D,
    text: &Text,
    now: Moment,
) -> Gave {
    let setup = setup_of(rt, alloc, text.as_bytes());
    match desk.reconfigure(alloc, setup, now) {
        Ok(epoch) => Ok(Some(Told::Epoch(epoch))),
        Err(fault) => Err(fault),
    }
}

/// Makes the call of an event that a thread of a helper process makes.
pub fn call_helper<D: HelperCalls>(
    rt: &impl Abort,
    alloc: Global,
    desk: &mut D,
    event: Event,
    now: Moment,
) -> Gave {
    match event {
        Event::Started { epoch, class } => started(alloc, desk, epoch, &class, now),
        Event::StartFail { epoch, class } => {
            let class = place_of(&class);
            fine(desk.start_failed(alloc, epoch, class, now))
        }
        Event::Line { proc, bytes } => line(alloc, desk, proc, &bytes, now),
        Event::Died { proc } => fine(desk.died(proc, now)),
        Event::Act => act(rt, alloc, desk, now),
        _ => panic!(rt; "no call of a helper"),
    }
}

/// Makes the call of an event.
pub fn call<D: DeskCalls>(
    rt: &impl Abort,
    alloc: Global,
    desk: &mut D,
    event: Event,
    now: Moment,
) -> Gave {
    match event {
        Event::Open { conn, addr, port } => fine(desk.open(conn, addr, port, now)),
        Event::Close { conn } => fine(desk.close(conn, now)),
        Event::Ask { .. } => ask(rt, alloc, desk, event, now),
        Event::Step { check } => stepped(rt, alloc, desk.step(alloc, check, now)),
        Event::Take { check } => taken(rt, alloc, desk.take(alloc, check, now)),
        Event::Reconfigure { text } => reconfigure(rt, alloc, desk, &text, now),
        event => call_helper(rt, alloc, desk, event, now),
    }
}

// What a desk would give for what a hub gave.
fn gave_by<T>(gave: Result<T, HubFault>) -> Result<T, DeskFault> {
    match gave {
        Ok(value) => Ok(value),
        Err(HubFault::Refused(refusal)) => Err(DeskFault::Engine(refusal)),
        Err(HubFault::JournalFault) => Err(DeskFault::JournalFault),
        Err(HubFault::WantOfMemory) => Err(DeskFault::WantOfMemory),
    }
}

/// Makes the call of an event that a connection makes, at the moment of the hub's clock.
pub fn call_hub<H: Hub>(rt: &impl Abort, alloc: Global, hub: &mut H, event: Event) -> Gave {
    match event {
        Event::Open { conn, addr, port } => fine(gave_by(hub.open(alloc, conn, addr, port))),
        Event::Close { conn } => fine(gave_by(hub.close(conn))),
        Event::Step { check } => stepped(rt, alloc, gave_by(hub.step(alloc, check))),
        Event::Take { check } => taken(rt, alloc, gave_by(hub.take(alloc, check))),
        event => {
            let (conn, request) = asking(rt, alloc, event);
            begun(gave_by(hub.ask(alloc, conn, request)))
        }
    }
}

/// Whether two answers are one.
pub fn is_same(rt: &impl Abort, alloc: Global, a: &Told, b: &Told) -> bool {
    let a = format!(in alloc; "{a:?}").expect(rt, "memory");
    let b = format!(in alloc; "{b:?}").expect(rt, "memory");
    a.as_str() == b.as_str()
}
