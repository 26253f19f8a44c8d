//! Tunnels: bytes that go both ways at once.
ghost use Rattle.std.specs.Prelude.{◌≡◌, ◌≤◌, ◌⊎◌, length, max};
ghost use Rattle.sq_outside.specs.Causes.{Rose};
ghost use Rattle.sq_outside.specs.Dials.{IsClosed};
ghost use Rattle.sq_forward.specs.Halves.{to_come, large_read_limit};
ghost use Rattle.sq_forward.specs.Tunnels.{JoinsWays, dry_after_tunnel, spare_of_tunnel, GoesInPart, GoesWhole, GoesPaid, GoesGranted};
ghost use Rattle.sq_forward.specs.Meters.{metered};

use crate::duplex::{Duplex, Ends};
use crate::meter::Meter;
use crate::ways::{WayEnd, copy_way, send_way};
use std::alloc::Global;
use std::sync::Wait;
use std::thread::{Threads, join_mut};

/// How a tunnel ended.
#[derive(Clone, Copy)]
pub enum Tunnelled {
    /// Both ways were read to their ends, and all of them was written.
    Ended,
    /// The client's link failed.
    ClientFault,
    /// The origin's link failed.
    OriginFault,
    /// For too long each grant found a bucket empty.
    Starved,
    /// There was no memory.
    WantOfMemory,
}

// Of several causes a dry meter counts first, and then a link.
fn joined(up: WayEnd, down: WayEnd) -> Tunnelled
    ensures { JoinsWays up down result }
{
    match (up, down) {
        (_, WayEnd::Starved) => Tunnelled::Starved,
        (WayEnd::Starved, _) => Tunnelled::Starved,
        (WayEnd::NoSource, _) => Tunnelled::ClientFault,
        (_, WayEnd::NoSink) => Tunnelled::ClientFault,
        (WayEnd::NoSink, _) => Tunnelled::OriginFault,
        (_, WayEnd::NoSource) => Tunnelled::OriginFault,
        (WayEnd::WantOfMemory, _) => Tunnelled::WantOfMemory,
        (_, WayEnd::WantOfMemory) => Tunnelled::WantOfMemory,
        (WayEnd::Ended, WayEnd::Ended) => Tunnelled::Ended,
    }
}

/// Copies both ways at once, from the client and to it as its meter grants. A way that ends, or whose link
/// fails, closes its sink, and the other goes on. It may wait as long as a source gives bytes.
pub fn tunnel<R: Threads + Wait + Sync, C: Ends, O: Ends, M: Meter>(
    rt: &R,
    alloc: Global,
    client: &mut Duplex<C>,
    origin: &mut Duplex<O>,
    meter: &mut M,
) -> Tunnelled
    requires dry { M.dry meter.old ≡ 0 }
    // What goes to the origin is a front of what the client has to say, and back.
    ensures up { GoesInPart (to_come C.In.left client.old.from) (O.Outgo.Sink.contents
        origin.old.to)
        (O.Outgo.Sink.contents origin.new.to) }
    // What goes to the client was granted; all that was granted was written, unless the client's link failed.
    ensures down { GoesGranted (to_come O.In.left origin.old.from)
        (metered (M.seated meter.old) (C.Outgo.Sink.contents client.old.to)
        (C.Outgo.Sink.contents client.new.to) (M.granted meter.old) (M.granted meter.new))
        (spare_of_tunnel result) }
    ensures up_ended { result ≡ Tunnelled.Ended
        → GoesWhole (to_come C.In.left client.old.from) (to_come C.In.left client.new.from)
        (O.Outgo.Sink.contents origin.old.to) (O.Outgo.Sink.contents origin.new.to) }
    ensures down_ended { result ≡ Tunnelled.Ended
        → GoesWhole (to_come O.In.left origin.old.from) (to_come O.In.left origin.new.from)
        (C.Outgo.Sink.contents client.old.to) (C.Outgo.Sink.contents client.new.to) }
    ensures down_paid { result ≡ Tunnelled.Ended
        → GoesPaid (to_come O.In.left origin.old.from) (metered (M.seated meter.old)
        (C.Outgo.Sink.contents client.old.to) (C.Outgo.Sink.contents client.new.to)
        (M.granted meter.old)
        (M.granted meter.new)) }
    ensures closed { IsClosed (O.Outgo.closed origin.new.to) × IsClosed (C.Outgo.closed
        client.new.to) }
    ensures client { result ≡ Tunnelled.ClientFault
        → Rose (C.In.faults client.old.from.source) (C.In.faults client.new.from.source)
        ⊎ Rose (C.Outgo.Sink.faults client.old.to) (C.Outgo.Sink.faults client.new.to) }
    ensures origin { result ≡ Tunnelled.OriginFault
        → Rose (O.In.faults origin.old.from.source) (O.In.faults origin.new.from.source)
        ⊎ Rose (O.Outgo.Sink.faults origin.old.to) (O.Outgo.Sink.faults origin.new.to) }
    // Starved exactly where the meter is that dry.
    ensures dry { M.dry meter.new ≡ dry_after_tunnel result }
    ensures seated { M.seated meter.new ≡ M.seated meter.old }
    ensures besides { M.besides meter.new ≡ M.besides meter.old }
    ensures client_later { (C.In.faults client.old.from.source ≤ C.In.faults client.new.from.source)
        × (C.Outgo.Sink.faults client.old.to ≤ C.Outgo.Sink.faults client.new.to) }
    ensures origin_later { (O.In.faults origin.old.from.source ≤ O.In.faults origin.new.from.source)
        × (O.Outgo.Sink.faults origin.old.to ≤ O.Outgo.Sink.faults origin.new.to) }
    ensures dialled { (C.In.origin client.new.from.source ≡ C.In.origin client.old.from.source)
        × (O.In.origin origin.new.from.source ≡ O.In.origin origin.old.from.source) }
    ensures few { (length client.new.from.ahead ≤ max (length client.old.from.ahead)
        large_read_limit)
        × (length origin.new.from.ahead ≤ max (length origin.old.from.ahead) large_read_limit) }
{
    let Duplex {
        from: client,
        to: to_client,
    } = client;
    let Duplex {
        from: origin,
        to: to_origin,
    } = origin;
    let (up, down) = join_mut(
        rt,
        &mut || send_way(rt, alloc, client, to_origin),
        &mut || copy_way(rt, alloc, origin, to_client, meter),
    );
    joined(up, down)
}
