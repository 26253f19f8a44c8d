//! An allowed request with an origin that was reached: the exchange, or the tunnel.
ghost use Rattle.std.specs.Prelude.{◌≡◌, ◌≤◌, ◌⊎◌};
ghost use Rattle.sq_outside.specs.Causes.{Rose};
ghost use Rattle.sq_forward.specs.Halves.{to_come};
ghost use Rattle.sq_turns.specs.Forwarding.{tunnel_end};
ghost use Rattle.sq_turns.specs.Steps.{EndHasCause, dry_after};
ghost use Rattle.sq_turns.specs.Told.{ForwardsTold, TradesTold, ConnectsTold};
ghost use Rattle.sq_turns.specs.Turns.{access_of, carried_of};
ghost use Rattle.sq_forward.specs.Meters.{metered};
ghost use Rattle.sq_forward.specs.Exchanges.{message, sink, exchange_seen};

use crate::ends::{Carried, End};
use crate::judged::JudgedRequest;
use crate::own_replies::{is_connect, is_head, say};
use sq_forward::{Duplex, Ends, Exchanged, Meter, Outgoing, Tunnelled, exchange, tunnel};
use sq_message::Own;
use sq_outside::{Failed, Observed, Sink, write_all};
use std::alloc::Global;
use std::sync::Wait;
use std::thread::Threads;

/// Exchanges a request for its reply, or opens the tunnel that it asks for.
pub(crate) fn forward<R: Threads + Wait + Sync, C: Ends, O: Ends, M: Meter>(
    rt: &R,
    alloc: Global,
    client: &mut Duplex<C>,
    origin: &mut Duplex<O>,
    meter: &mut M,
    request: &JudgedRequest,
) -> Carried
    requires dry { M.dry meter.old ≡ 0 }
    ensures told { ForwardsTold (access_of request.now.judged.now)
        (message request.now.sent.now request.now.addr request.now.plan)
        (to_come C.In.left client.old.from) (to_come O.In.left origin.old.from)
        (exchange_seen (to_come C.In.left client.new.from) (metered (M.seated meter.old)
        (C.Outgo.Sink.contents client.old.to) (C.Outgo.Sink.contents client.new.to)
        (M.granted meter.old)
        (M.granted meter.new)) (sink (O.Outgo.Sink.contents origin.old.to)
        (O.Outgo.Sink.contents origin.new.to))) (Rose (O.In.faults origin.old.from.source)
        (O.In.faults origin.new.from.source)
        ⊎ Rose (O.Outgo.Sink.faults origin.old.to) (O.Outgo.Sink.faults origin.new.to)) result }
    ensures cause { EndHasCause
        (Rose (C.In.faults client.old.from.source) (C.In.faults client.new.from.source)
        ⊎ Rose (C.Outgo.Sink.faults client.old.to) (C.Outgo.Sink.faults client.new.to))
        (Rose (O.In.faults origin.old.from.source) (O.In.faults origin.new.from.source)
        ⊎ Rose (O.Outgo.Sink.faults origin.old.to) (O.Outgo.Sink.faults origin.new.to)) result }
    ensures dry { M.dry meter.new ≡ dry_after result }
    ensures seated { M.seated meter.new ≡ M.seated meter.old }
    ensures besides { M.besides meter.new ≡ M.besides meter.old }
    ensures client_later { C.In.faults client.old.from.source ≤ C.In.faults client.new.from.source }
    ensures to_later { C.Outgo.Sink.faults client.old.to ≤ C.Outgo.Sink.faults client.new.to }
    ensures origin_dialled { O.In.origin origin.new.from.source
        ≡ O.In.origin origin.old.from.source }
{
    if is_connect(request.sent) {
        connect(rt, alloc, client, origin, meter)
    } else {
        trade(rt, alloc, client, origin, meter, request)
    }
}

// Exchanges a request for its reply. Where there is none that can be passed on, the client hears that.
#[inline(never)]
fn trade<R: Wait, C: Ends, O: Ends, M: Meter>(
    rt: &R,
    alloc: Global,
    client: &mut Duplex<C>,
    origin: &mut Duplex<O>,
    meter: &mut M,
    request: &JudgedRequest,
) -> Carried
    requires dry { M.dry meter.old ≡ 0 }
    ensures told { TradesTold (access_of request.now.judged.now)
        (message request.now.sent.now request.now.addr request.now.plan)
        (to_come C.In.left client.old.from) (to_come O.In.left origin.old.from)
        (exchange_seen (to_come C.In.left client.new.from) (metered (M.seated meter.old)
        (C.Outgo.Sink.contents client.old.to) (C.Outgo.Sink.contents client.new.to)
        (M.granted meter.old)
        (M.granted meter.new)) (sink (O.Outgo.Sink.contents origin.old.to)
        (O.Outgo.Sink.contents origin.new.to))) (Rose (O.In.faults origin.old.from.source)
        (O.In.faults origin.new.from.source)
        ⊎ Rose (O.Outgo.Sink.faults origin.old.to) (O.Outgo.Sink.faults origin.new.to)) result }
    ensures cause { EndHasCause
        (Rose (C.In.faults client.old.from.source) (C.In.faults client.new.from.source)
        ⊎ Rose (C.Outgo.Sink.faults client.old.to) (C.Outgo.Sink.faults client.new.to))
        (Rose (O.In.faults origin.old.from.source) (O.In.faults origin.new.from.source)
        ⊎ Rose (O.Outgo.Sink.faults origin.old.to) (O.Outgo.Sink.faults origin.new.to)) result }
    ensures dry { M.dry meter.new ≡ dry_after result }
    ensures seated { M.seated meter.new ≡ M.seated meter.old }
    ensures besides { M.besides meter.new ≡ M.besides meter.old }
    ensures client_later { C.In.faults client.old.from.source ≤ C.In.faults client.new.from.source }
    ensures to_later { C.Outgo.Sink.faults client.old.to ≤ C.Outgo.Sink.faults client.new.to }
    ensures origin_dialled { O.In.origin origin.new.from.source
        ≡ O.In.origin origin.old.from.source }
{
    let judged = request.judged;
    let sent = request.sent;
    let config = judged.config();
    let facts = judged.facts();
    let outgoing = Outgoing {
        request: sent,
        addr: request.addr,
        plan: request.plan,
        config,
        facts,
    };
    let ended = exchange(rt, alloc, client, origin, meter, &outgoing);
    match ended {
        Exchanged::NoReply => {
            client.to.observe(&Observed::NoReply);
            say(alloc, &mut client.to, Own::BadGateway, is_head(sent))
        }
        ended => carried_of(ended),
    }
}

// How a turn ends by its exchange.
fn carried_of(ended: Exchanged) -> Carried
    ensures { result ≡ carried_of ended }
{
    match ended {
        Exchanged::Kept => Carried::Stays,
        Exchanged::Closed => Carried::Closes,
        Exchanged::Cut => Carried::Over(End::Cut),
        Exchanged::ClientFault => Carried::Over(End::ClientFault),
        Exchanged::BadBody => Carried::Over(End::Cut),
        Exchanged::NoReply => Carried::Closes,
        Exchanged::OriginCut => Carried::Over(End::OriginCut),
        Exchanged::OriginFault => Carried::Over(End::OriginFault),
        Exchanged::Starved => Carried::Over(End::Starved),
        Exchanged::WantOfMemory => Carried::Over(End::WantOfMemory),
    }
}

// Tells the client that the tunnel is there, and copies both ways.
#[inline(never)]
fn connect<R: Threads + Wait + Sync, C: Ends, O: Ends, M: Meter>(
    rt: &R,
    alloc: Global,
    client: &mut Duplex<C>,
    origin: &mut Duplex<O>,
    meter: &mut M,
) -> Carried
    requires dry { M.dry meter.old ≡ 0 }
    ensures told { ConnectsTold (to_come C.In.left client.old.from) (to_come O.In.left
        origin.old.from)
        (exchange_seen (to_come C.In.left client.new.from) (metered (M.seated meter.old)
        (C.Outgo.Sink.contents client.old.to) (C.Outgo.Sink.contents client.new.to)
        (M.granted meter.old)
        (M.granted meter.new)) (sink (O.Outgo.Sink.contents origin.old.to)
        (O.Outgo.Sink.contents origin.new.to))) result }
    ensures cause { EndHasCause
        (Rose (C.In.faults client.old.from.source) (C.In.faults client.new.from.source)
        ⊎ Rose (C.Outgo.Sink.faults client.old.to) (C.Outgo.Sink.faults client.new.to))
        (Rose (O.In.faults origin.old.from.source) (O.In.faults origin.new.from.source)
        ⊎ Rose (O.Outgo.Sink.faults origin.old.to) (O.Outgo.Sink.faults origin.new.to)) result }
    ensures dry { M.dry meter.new ≡ dry_after result }
    ensures seated { M.seated meter.new ≡ M.seated meter.old }
    ensures besides { M.besides meter.new ≡ M.besides meter.old }
    ensures client_later { C.In.faults client.old.from.source ≤ C.In.faults client.new.from.source }
    ensures to_later { C.Outgo.Sink.faults client.old.to ≤ C.Outgo.Sink.faults client.new.to }
    ensures origin_dialled { O.In.origin origin.new.from.source
        ≡ O.In.origin origin.old.from.source }
{
    client.to.observe(&Observed::Replies(200));
    match write_all(
        &mut client.to,
        b"HTTP/1.1 200 Connection established\r\n\r\n",
    ) {
        Ok(()) => {}
        Err(Failed) => return Carried::Over(End::ClientFault),
    }
    tunnel_end(tunnel(rt, alloc, client, origin, meter))
}

// How a turn ends by its tunnel.
fn tunnel_end(ended: Tunnelled) -> Carried
    ensures { result ≡ tunnel_end ended }
{
    match ended {
        Tunnelled::Ended => Carried::Closes,
        Tunnelled::ClientFault => Carried::Over(End::ClientFault),
        Tunnelled::OriginFault => Carried::Over(End::OriginFault),
        Tunnelled::Starved => Carried::Over(End::Starved),
        Tunnelled::WantOfMemory => Carried::Over(End::WantOfMemory),
    }
}
