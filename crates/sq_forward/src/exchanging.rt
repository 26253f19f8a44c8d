//! Exchanges: one request and its reply.
ghost use Rattle.std.specs.Prelude.{◌≡◌, ◌≤◌, ◌+◌, ◌⊎◌, length, max, IfSome};
ghost use Rattle.sq_message.specs.ReplyHeads.{most_bytes};
ghost use Rattle.sq_forward.specs.Access.{access_by, header_access};
ghost use Rattle.sq_outside.specs.Causes.{Rose};
ghost use Rattle.sq_rules.specs.Facts.{facts_of};
ghost use Rattle.sq_rules.specs.declared.sights.Sight.{Sight};
ghost use Rattle.sq_forward.specs.Exchanges.{Exchanges, ExchangeHasCause, dry_after_exchange, message, sink, exchange_seen};
ghost use Rattle.sq_forward.specs.Halves.{to_come, read_limit, large_read_limit};
ghost use Rattle.sq_forward.specs.Meters.{metered};

use crate::duplex::{Duplex, Ends};
use crate::meter::Meter;
use crate::outgoing::Outgoing;
use crate::replies::{lead_reply, send_reply};
use crate::requests::send_request;
use std::alloc::Global;
use std::sync::Wait;

/// How an exchange ended.
#[derive(Clone, Copy)]
pub enum Exchanged {
    /// The reply is complete, and the connection stays.
    Kept,
    /// The reply is complete, and the connection closes.
    Closed,
    /// The client's input ended in the request's body.
    Cut,
    /// The client's link failed.
    ClientFault,
    /// The request's body is refused.
    BadBody,
    /// There is no reply that can be passed on: its head or its body's plan is refused, the origin's input
    /// ended in a head, or its link failed before the reply's head was sent.
    NoReply,
    /// Behind the reply's head the origin's input ended in the body, or its chunks are refused.
    OriginCut,
    /// The origin's link failed behind the reply's head.
    OriginFault,
    /// For too long each grant found a bucket empty.
    Starved,
    /// There was no memory.
    WantOfMemory,
}

// The exchange, over the facts of the request's check. Its locals are no part of a tunnel's stack.
#[inline(never)]
fn exchange_by<R: Wait, C: Ends, O: Ends, M: Meter>(
    rt: &R,
    alloc: Global,
    client: &mut Duplex<C>,
    origin: &mut Duplex<O>,
    meter: &mut M,
    outgoing: &Outgoing,
) -> Exchanged
    requires dry { M.dry meter.old ≡ 0 }
    requires facts { length outgoing.now.facts.now ≡ length outgoing.now.config.now.acls }
    ensures told { IfSome (to_come C.In.left client.old.from)
        (λ input. IfSome (to_come O.In.left origin.old.from) (λ reply.
        Exchanges (access_by outgoing.now.config.now outgoing.now.facts.now)
        (message outgoing.now.request.now outgoing.now.addr outgoing.now.plan) input reply
        (exchange_seen (to_come C.In.left client.new.from) (metered (M.seated meter.old)
        (C.Outgo.Sink.contents client.old.to) (C.Outgo.Sink.contents client.new.to)
        (M.granted meter.old) (M.granted meter.new))
        (sink (O.Outgo.Sink.contents origin.old.to) (O.Outgo.Sink.contents origin.new.to)))
        (Rose (O.In.faults origin.old.from.source) (O.In.faults origin.new.from.source)
        ⊎ Rose (O.Outgo.Sink.faults origin.old.to) (O.Outgo.Sink.faults origin.new.to)) result)) }
    ensures cause { ExchangeHasCause
        (Rose (C.In.faults client.old.from.source) (C.In.faults client.new.from.source)
        ⊎ Rose (C.Outgo.Sink.faults client.old.to) (C.Outgo.Sink.faults client.new.to))
        (Rose (O.In.faults origin.old.from.source) (O.In.faults origin.new.from.source)) result }
    // Starved exactly where the meter is that dry.
    ensures dry { M.dry meter.new ≡ dry_after_exchange result }
    ensures seated { M.seated meter.new ≡ M.seated meter.old }
    ensures besides { M.besides meter.new ≡ M.besides meter.old }
    ensures client_later { C.In.faults client.old.from.source ≤ C.In.faults client.new.from.source }
    ensures to_client_later { C.Outgo.Sink.faults client.old.to
        ≤ C.Outgo.Sink.faults client.new.to }
    ensures origin_later { O.In.faults origin.old.from.source ≤ O.In.faults origin.new.from.source }
    ensures to_origin_later { O.Outgo.Sink.faults origin.old.to
        ≤ O.Outgo.Sink.faults origin.new.to }
    ensures client_dialled { C.In.origin client.new.from.source
        ≡ C.In.origin client.old.from.source }
    ensures origin_dialled { O.In.origin origin.new.from.source
        ≡ O.In.origin origin.old.from.source }
    ensures few_client { length client.new.from.ahead ≤ max (length client.old.from.ahead)
        large_read_limit }
    ensures few_origin { length origin.new.from.ahead
        ≤ max (length origin.old.from.ahead) (most_bytes + read_limit) }
{
    let Duplex {
        from: client,
        to: to_client,
    } = client;
    let Duplex {
        from: origin,
        to: to_origin,
    } = origin;
    match send_request(rt, alloc, client, to_client, to_origin, outgoing) {
        None => {}
        Some(end) => return end,
    }
    let head = match lead_reply(rt, alloc, origin, to_client, meter, outgoing) {
        Ok(head) => head,
        Err(end) => return end,
    };
    send_reply(rt, alloc, origin, to_client, meter, outgoing, &head)
}

/// Sends a client's request to the origin, and its reply back as the meter grants. The request's body is sent whole
/// before the reply is read. It may wait as long as a source gives bytes. Of both heads, and of those that come before
/// the reply's own, fields go on that the configuration allows, by the facts of the request's check.
pub fn exchange<R: Wait, C: Ends, O: Ends, M: Meter>(
    rt: &R,
    alloc: Global,
    client: &mut Duplex<C>,
    origin: &mut Duplex<O>,
    meter: &mut M,
    outgoing: &Outgoing,
) -> Exchanged
    requires dry { M.dry meter.old ≡ 0 }
    requires facts { length outgoing.now.facts.now ≡ length outgoing.now.config.now.acls }
    ensures told { (s : Sight) → outgoing.now.facts.now ≡ facts_of outgoing.now.config.now.acls s
        → IfSome
        (to_come C.In.left client.old.from)
        (λ input. IfSome (to_come O.In.left origin.old.from) (λ reply.
        Exchanges (header_access outgoing.now.config.now s)
        (message outgoing.now.request.now outgoing.now.addr outgoing.now.plan) input reply
        (exchange_seen (to_come C.In.left client.new.from) (metered (M.seated meter.old)
        (C.Outgo.Sink.contents client.old.to) (C.Outgo.Sink.contents client.new.to)
        (M.granted meter.old) (M.granted meter.new))
        (sink (O.Outgo.Sink.contents origin.old.to) (O.Outgo.Sink.contents origin.new.to)))
        (Rose (O.In.faults origin.old.from.source) (O.In.faults origin.new.from.source)
        ⊎ Rose (O.Outgo.Sink.faults origin.old.to) (O.Outgo.Sink.faults origin.new.to)) result)) }
    ensures cause { ExchangeHasCause
        (Rose (C.In.faults client.old.from.source) (C.In.faults client.new.from.source)
        ⊎ Rose (C.Outgo.Sink.faults client.old.to) (C.Outgo.Sink.faults client.new.to))
        (Rose (O.In.faults origin.old.from.source) (O.In.faults origin.new.from.source)) result }
    // Starved exactly where the meter is that dry.
    ensures dry { M.dry meter.new ≡ dry_after_exchange result }
    ensures seated { M.seated meter.new ≡ M.seated meter.old }
    ensures besides { M.besides meter.new ≡ M.besides meter.old }
    ensures client_later { C.In.faults client.old.from.source ≤ C.In.faults client.new.from.source }
    ensures to_client_later { C.Outgo.Sink.faults client.old.to
        ≤ C.Outgo.Sink.faults client.new.to }
    ensures origin_later { O.In.faults origin.old.from.source ≤ O.In.faults origin.new.from.source }
    ensures to_origin_later { O.Outgo.Sink.faults origin.old.to
        ≤ O.Outgo.Sink.faults origin.new.to }
    ensures client_dialled { C.In.origin client.new.from.source
        ≡ C.In.origin client.old.from.source }
    ensures origin_dialled { O.In.origin origin.new.from.source
        ≡ O.In.origin origin.old.from.source }
    ensures few_client { length client.new.from.ahead ≤ max (length client.old.from.ahead)
        large_read_limit }
    ensures few_origin { length origin.new.from.ahead
        ≤ max (length origin.old.from.ahead) (most_bytes + read_limit) }
{
    let config = outgoing.config;
    config.facts();
    exchange_by(rt, alloc, client, origin, meter, outgoing)
}
