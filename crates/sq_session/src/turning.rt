//! One turn: a request and its answer.
ghost use Rattle.std.specs.Prelude.{◌≡◌, ◌≤◌, ◌⊎◌, false, Ok};
ghost use Rattle.sq_outside.specs.Causes.{Rose};
ghost use Rattle.sq_outside.specs.Dials.{CallsOnce};
ghost use Rattle.sq_forward.specs.Halves.{to_come};
ghost use Rattle.sq_message.specs.BodyPlans.{request_plan};
ghost use Rattle.sq_turns.specs.Steps.{EndHasCause, WasTold, dry_after, turn_seen, front_seen};
ghost use Rattle.sq_turns.specs.Told.{TurnTold, AnswersTold, ObeysTold};
ghost use Rattle.sq_forward.specs.Exchanges.{message};

use sq_base::{Addr, Pair, Request, Text, What};
use sq_checks::Record;
use sq_forward::{Duplex, Ends, Meter};
use sq_outside::{Dialer, Observed, Sink, TurnEnd};
use sq_rules::Why;
use sq_turns::{
    Carried, End, Front, Heard, JudgedRequest, denied_closes, deny, go_on, heard_of, is_head,
    next_request, say, verdict,
};
use std::alloc::Global;
use std::sync::Wait;
use std::thread::Threads;

/// Reads the next request and answers it.
pub(crate) fn turn<R: Threads + Wait + Sync, C: Ends, F: Front, D: Dialer>(
    rt: &R,
    alloc: Global,
    client: &mut Duplex<C>,
    addr: Addr,
    front: &mut F,
    dialer: &mut D,
) -> Carried
    requires dry { F.Meter.dry front.old ≡ 0 }
    requires unseated { F.Meter.seated front.old ≡ false }
    ensures told { TurnTold addr (to_come C.In.left client.old.from)
        (front_seen (F.stands front.old) (F.stands front.new))
        (turn_seen (to_come C.In.left client.new.from) (C.Outgo.Sink.contents client.old.to)
        (C.Outgo.Sink.contents client.new.to)
        (F.Meter.granted front.old) (F.Meter.granted front.new) (D.dialled dialer.old))
        (D.dialled dialer.new) (Rose (D.faults dialer.old) (D.faults dialer.new)) result }
    ensures cause { EndHasCause
        (Rose (C.In.faults client.old.from.source) (C.In.faults client.new.from.source)
        ⊎ Rose (C.Outgo.Sink.faults client.old.to) (C.Outgo.Sink.faults client.new.to))
        (Rose (D.faults dialer.old) (D.faults dialer.new)) result }
    ensures dry { F.Meter.dry front.new ≡ dry_after result }
    ensures unseated { F.Meter.seated front.new ≡ false }
    ensures number { F.number front.new ≡ F.number front.old }
    ensures asked { F.asked front.old ≤ F.asked front.new }
    ensures client_later { C.In.faults client.old.from.source ≤ C.In.faults client.new.from.source }
    ensures to_later { C.Outgo.Sink.faults client.old.to ≤ C.Outgo.Sink.faults client.new.to }
    ensures dialer_later { D.faults dialer.old ≤ D.faults dialer.new }
    ensures dialled { WasTold (D.dialled dialer.old) (D.dialled dialer.new) }
    ensures calls { CallsOnce (D.calls dialer.old) (D.calls dialer.new) }
{
    match heard_of(next_request(rt, alloc, &mut client.from)) {
        Heard::Asks(request) => answer(rt, alloc, client, addr, &request, front, dialer),
        Heard::Refused(own) => say(alloc, &mut client.to, own, false),
        Heard::Silent(ended) => ended,
    }
}

// How a turn ended, as its link is told it.
fn turn_end(carried: Carried) -> TurnEnd {
    match carried {
        Carried::Stays => TurnEnd::Stays,
        Carried::Closes | Carried::Over(End::Finished) => TurnEnd::Closes,
        Carried::Over(End::Cut) => TurnEnd::Cut,
        Carried::Over(End::ClientFault) => TurnEnd::ClientFault,
        Carried::Over(End::OriginCut) => TurnEnd::OriginCut,
        Carried::Over(End::OriginFault) => TurnEnd::OriginFault,
        Carried::Over(End::Starved) => TurnEnd::Starved,
        Carried::Over(End::WantOfMemory) => TurnEnd::WantOfMemory,
    }
}

/// Tells a link how its turn ended.
pub(crate) fn tell_ended<O: Sink>(to: &O, carried: Carried) {
    to.observe(&Observed::Ended(turn_end(carried)));
}

// The pairs of an answer.
fn pairs_of(what: &What) -> &[Pair] {
    match what {
        What::Yes(pairs) => pairs.as_slice(),
        What::No(pairs) => pairs.as_slice(),
        What::Fault(_) => &[],
    }
}

// The first tag in the answers of a check, which are in the order in which its rules asked for them.
fn tag_of(judged: &Record) -> Option<&Text> {
    for answer in judged.answers().as_slice() {
        for pair in pairs_of(&answer.what) {
            if pair.key.as_bytes() == b"tag".as_slice() {
                return Some(&pair.value);
            }
        }
    }
    None
}

// Tells a link what its request's check came to.
fn tell_judged<O: Sink>(to: &O, judged: &Record) {
    let outcome = judged.outcome();
    let rule = match &outcome.why {
        Why::Rule(rule) => Some(*rule),
        Why::Fault {
            rule,
            acl: _,
            cause: _,
        } => Some(*rule),
        Why::Default | Why::Empty => None,
    };
    to.observe(&Observed::Judged {
        check: judged.check(),
        allow: outcome.allow,
        rule,
        tag: tag_of(judged),
    });
}

// Answers a request, whose body is the next to come. Its locals are no part of the stack on which the next one is waited for.
#[inline(never)]
fn answer<R: Threads + Wait + Sync, C: Ends, F: Front, D: Dialer>(
    rt: &R,
    alloc: Global,
    client: &mut Duplex<C>,
    addr: Addr,
    request: &Request,
    front: &mut F,
    dialer: &mut D,
) -> Carried
    requires dry { F.Meter.dry front.old ≡ 0 }
    requires unseated { F.Meter.seated front.old ≡ false }
    ensures told { AnswersTold request.now addr (to_come C.In.left client.old.from)
        (front_seen (F.stands front.old) (F.stands front.new))
        (turn_seen (to_come C.In.left client.new.from) (C.Outgo.Sink.contents client.old.to)
        (C.Outgo.Sink.contents client.new.to)
        (F.Meter.granted front.old) (F.Meter.granted front.new) (D.dialled dialer.old))
        (D.dialled dialer.new) (Rose (D.faults dialer.old) (D.faults dialer.new)) result }
    ensures cause { EndHasCause
        (Rose (C.In.faults client.old.from.source) (C.In.faults client.new.from.source)
        ⊎ Rose (C.Outgo.Sink.faults client.old.to) (C.Outgo.Sink.faults client.new.to))
        (Rose (D.faults dialer.old) (D.faults dialer.new)) result }
    ensures dry { F.Meter.dry front.new ≡ dry_after result }
    ensures unseated { F.Meter.seated front.new ≡ false }
    ensures number { F.number front.new ≡ F.number front.old }
    ensures asked { F.asked front.old ≤ F.asked front.new }
    ensures client_later { C.In.faults client.old.from.source ≤ C.In.faults client.new.from.source }
    ensures to_later { C.Outgo.Sink.faults client.old.to ≤ C.Outgo.Sink.faults client.new.to }
    ensures dialer_later { D.faults dialer.old ≤ D.faults dialer.new }
    ensures dialled { WasTold (D.dialled dialer.old) (D.dialled dialer.new) }
    ensures calls { CallsOnce (D.calls dialer.old) (D.calls dialer.new) }
{
    client.to.observe(&Observed::Asked(request));
    match verdict(alloc, request, front) {
        Ok((judged, plan)) => {
            tell_judged(&client.to, &judged);
            let request = JudgedRequest {
                judged: &judged,
                sent: request,
                addr,
                plan,
            };
            obey(rt, alloc, client, &request, front, dialer)
        }
        Err(own) => say(alloc, &mut client.to, own, is_head(request)),
    }
}

// Does what a record says of its request.
#[inline(never)]
fn obey<R: Threads + Wait + Sync, C: Ends, F: Front, D: Dialer>(
    rt: &R,
    alloc: Global,
    client: &mut Duplex<C>,
    request: &JudgedRequest,
    front: &mut F,
    dialer: &mut D,
) -> Carried
    requires same { request.now.judged.now.sight.request ≡ request.now.sent.now }
    requires planned { request_plan request.now.sent.now ≡ Ok request.now.plan }
    requires dry { F.Meter.dry front.old ≡ 0 }
    requires unseated { F.Meter.seated front.old ≡ false }
    ensures told { ObeysTold (message request.now.sent.now request.now.addr request.now.plan)
        request.now.judged.now (to_come C.In.left client.old.from)
        (front_seen (F.stands front.old) (F.stands front.new))
        (turn_seen (to_come C.In.left client.new.from) (C.Outgo.Sink.contents client.old.to)
        (C.Outgo.Sink.contents client.new.to)
        (F.Meter.granted front.old) (F.Meter.granted front.new) (D.dialled dialer.old))
        (D.dialled dialer.new) (Rose (D.faults dialer.old) (D.faults dialer.new)) result }
    ensures cause { EndHasCause
        (Rose (C.In.faults client.old.from.source) (C.In.faults client.new.from.source)
        ⊎ Rose (C.Outgo.Sink.faults client.old.to) (C.Outgo.Sink.faults client.new.to))
        (Rose (D.faults dialer.old) (D.faults dialer.new)) result }
    ensures dry { F.Meter.dry front.new ≡ dry_after result }
    ensures unseated { F.Meter.seated front.new ≡ false }
    ensures number { F.number front.new ≡ F.number front.old }
    ensures asked { F.asked front.new ≡ F.asked front.old }
    ensures client_later { C.In.faults client.old.from.source ≤ C.In.faults client.new.from.source }
    ensures to_later { C.Outgo.Sink.faults client.old.to ≤ C.Outgo.Sink.faults client.new.to }
    ensures dialer_later { D.faults dialer.old ≤ D.faults dialer.new }
    ensures dialled { WasTold (D.dialled dialer.old) (D.dialled dialer.new) }
    ensures calls { CallsOnce (D.calls dialer.old) (D.calls dialer.new) }
{
    let judged = request.judged;
    if judged.outcome().allow {
        go_on(rt, alloc, client, request, front, dialer)
    } else {
        let sent = request.sent;
        let closes = denied_closes(sent, request.plan);
        let to = &mut client.to;
        deny(alloc, to, judged.outcome(), is_head(sent), closes)
    }
}
