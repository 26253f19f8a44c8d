//! One link, served by one session.
ghost use Rattle.std.specs.Prelude.{◌≡◌, ◌+◌, ◌-◌, min};
ghost use Rattle.sq_outside.specs.Causes.{Rose, count_limit};
ghost use Rattle.sq_outside.specs.Dials.{IsClosed};
ghost use Rattle.sq_turns.specs.Pieces.{hub_seen};
ghost use Rattle.sq_turns.specs.Sessions.{session_seen};
ghost use Rattle.sq_turns.specs.Told.{SessionTold};
ghost use Rattle.sq_workers.specs.Untold.{front_untold};

use crate::lock_hub::{LockHub, Shares};
use crate::rooms::SessionRooms;
use crate::sums::Sums;
use sq_base::{Addr, ConnNo};
use sq_calls::DeskCalls;
use sq_forward::{Ahead, Duplex, Ends, Half};
use sq_outside::{Clock, Dialer, Listener, Observed, Out, Sink};
use sq_session::{SessionEnd, session};
use sq_shared::{Ledgers, Refusals, WorkerTypes};
use sq_turns::{Hub, HubFront};
use std::alloc::Global;
use std::sync::Wait;
use std::sync::ledger::Share;
use std::thread::Threads;

/// A client's link, the address and the port that it has there, and the number of the connection as which it is served.
#[derive(Drop)]
pub(crate) struct ClientLink<E: Ends> {
    pub(crate) conn: ConnNo,
    pub(crate) from: E::In,
    pub(crate) to: E::Outgo,
    pub(crate) addr: Addr,
    pub(crate) port: u16,
}

/// The halves of a link that a worker takes.
pub(crate) type LinkEnds<W> = (
    <<W as WorkerTypes>::L as Listener>::In,
    <<W as WorkerTypes>::L as Listener>::Outgo,
);

/// Serves a link as the connection of the number of its worker. Its session begins with shares of its own in which nothing is
/// counted; what it asked and was granted is added to the sums. It gives back the half of the link that was written to.
#[inline(never)]
pub(crate) fn attend<R: Threads + Wait + Sync, W: WorkerTypes, D: DeskCalls, B: Ledgers>(
    rt: &R,
    alloc: Global,
    rooms: &SessionRooms<'_, D, B>,
    link: ClientLink<LinkEnds<W>>,
    dialer: &mut W::D,
    clock: W::C,
    refused: &mut Share<Refusals<B>>,
    sums: &mut Sums<B>,
) -> (SessionEnd, <W::L as Listener>::Outgo)
    requires number { (link.conn ≡ sums.old.first) × (sums.old.count ≡ 1) }
    requires asked { sums.old.asked.parts ≡ 2 }
    requires grants { sums.old.grants.parts ≡ 2 }
    requires refused { refused.old.parts ≡ 2 }
    // Where the link and the dialer tell, the session is that of the link's address. The hub tells no journal, so the port, which
    // stands there alone, is any here.
    ensures told { SessionTold link.addr link.port (W.L.In.left link.from) (front_untold link.conn)
        (session_seen (W.L.Outgo.Sink.contents link.to) (W.L.Outgo.Sink.contents result.1) 0
        result.0.granted (W.D.dialled dialer.old)) (W.D.dialled dialer.new)
        (Rose (W.D.faults dialer.old) (W.D.faults dialer.new)) result.0.why }
    ensures closed { IsClosed (W.L.Outgo.closed result.1) }
    ensures numbers { (sums.new.first ≡ sums.old.first) × (sums.new.count ≡ 1) }
    ensures requests { sums.new.requests
        ≡ min (sums.old.requests + result.0.requests) count_limit }
    ensures granted { sums.new.granted ≡ min (sums.old.granted + result.0.granted) count_limit }
    ensures asked { sums.new.asked.parts ≡ 2 }
    ensures grants { sums.new.grants.parts ≡ 2 }
    ensures refused { refused.new.parts ≡ 2 }
{
    let theirs = sums.lend(refused);
    let (end, back, to) = serve_link::<R, W, D, B>(rt, alloc, rooms, link, dialer, clock, theirs);
    sums.add(refused, back, end.requests, end.granted);
    (end, to)
}

// Serves a link with these shares, in which nothing is counted yet. It gives back the half of the link that was written to.
fn serve_link<R: Threads + Wait + Sync, W: WorkerTypes, D: DeskCalls, B: Ledgers>(
    rt: &R,
    alloc: Global,
    rooms: &SessionRooms<'_, D, B>,
    link: ClientLink<LinkEnds<W>>,
    dialer: &mut W::D,
    clock: W::C,
    shares: Shares<B>,
) -> (SessionEnd, Shares<B>, <W::L as Listener>::Outgo)
    requires asked { (shares.asked.parts ≡ 1) × (shares.asked.amount ≡ 0) }
    requires refused { shares.refused.parts ≡ 1 }
    requires granted { (shares.granted.parts ≡ 1) × (shares.granted.amount ≡ 0) }
    ensures told { SessionTold link.addr link.port (W.L.In.left link.from) (front_untold link.conn)
        (session_seen (W.L.Outgo.Sink.contents link.to) (W.L.Outgo.Sink.contents result.2) 0
        result.0.granted (W.D.dialled dialer.old)) (W.D.dialled dialer.new)
        (Rose (W.D.faults dialer.old) (W.D.faults dialer.new)) result.0.why }
    ensures closed { IsClosed (W.L.Outgo.closed result.2) }
    ensures requests { result.0.requests ≡ min result.1.asked.amount count_limit }
    ensures granted { result.0.granted ≡ min result.1.granted.amount count_limit }
    ensures parts { (result.1.asked.parts ≡ 1) × (result.1.refused.parts ≡ 1)
        × (result.1.granted.parts ≡ 1) }
{
    let hub = new_hub(rt, rooms, clock, shares);
    let (end, hub, to) = serve(rt, alloc, hub, link, dialer);
    (end, hub.finish(), to)
}

// A hub with these shares, in which nothing is counted yet.
#[inline(never)]
fn new_hub<'a, R: Wait, D: DeskCalls, B: Ledgers, C: Clock + Drop>(
    rt: &'a R,
    rooms: &SessionRooms<'a, D, B>,
    clock: C,
    shares: Shares<B>,
) -> LockHub<'a, R, D, B, C>
    requires asked { (shares.asked.parts ≡ 1) × (shares.asked.amount ≡ 0) }
    requires refused { shares.refused.parts ≡ 1 }
    requires granted { (shares.granted.parts ≡ 1) × (shares.granted.amount ≡ 0) }
    ensures asked { result.asked.share.amount ≡ 0 }
    ensures granted { result.granted.share.amount ≡ 0 }
{
    let Shares {
        asked,
        refused,
        granted,
    } = shares;
    LockHub::new(
        rt,
        rooms.room,
        rooms.bank,
        rooms.rewriter,
        clock,
        asked,
        refused,
        granted,
    )
}

// Serves a link over a hub. It gives back the hub, and the half of the link that was written to.
fn serve<R: Threads + Wait + Sync, H: Hub + Drop, E: Ends, D: Dialer>(
    rt: &R,
    alloc: Global,
    hub: H,
    link: ClientLink<E>,
    dialer: &mut D,
) -> (SessionEnd, H, E::Outgo)
    // Where the hub tells, the session is that of the link's address and port, on the connection of the link's number.
    ensures told { SessionTold link.addr link.port (E.In.left link.from)
        (hub_seen link.conn (H.told hub) (H.refused hub) (H.told result.1) (H.refused result.1))
        (session_seen (E.Outgo.Sink.contents link.to) (E.Outgo.Sink.contents result.2)
        (H.granted hub) (H.granted result.1) (D.dialled dialer.old)) (D.dialled dialer.new)
        (Rose (D.faults dialer.old) (D.faults dialer.new)) result.0.why }
    ensures closed { IsClosed (E.Outgo.closed result.2) }
    ensures requests { result.0.requests ≡ H.asked result.1 - H.asked hub }
    ensures granted { result.0.granted ≡ H.granted result.1 - H.granted hub }
{
    let ClientLink {
        conn,
        from,
        to,
        addr,
        port,
    } = link;
    to.observe(&Observed::Served { conn, addr, port });
    let mut front = HubFront::new(rt, hub, conn);
    let mut client: Duplex<E> = Duplex {
        from: Half {
            source: from,
            ahead: Ahead::new(alloc),
        },
        to,
    };
    let end = session(rt, alloc, &mut client, addr, port, &mut front, dialer);
    let Duplex { from: _, to } = client;
    (end, front.finish(), to)
}
