//! One way of a tunnel.
ghost use Rattle.std.specs.Prelude.{◌≡◌, ◌≤◌, length, max};
ghost use Rattle.sq_outside.specs.Dials.{IsClosed};
ghost use Rattle.sq_forward.specs.Halves.{to_come, large_read_limit};
ghost use Rattle.sq_forward.specs.Tunnels.{way_of, WayHasCause, dry_after_way, spare_of_way, GoesInPart, GoesWhole, PaidAtEnd, GoesGranted};
ghost use Rattle.sq_forward.specs.Meters.{metered};

use crate::copying::{Copied, copy_body};
use crate::free::Free;
use crate::half::Half;
use crate::meter::Meter;
use sq_base::BodyPlan;
use sq_outside::{Out, Source};
use std::alloc::Global;
use std::sync::Wait;

/// How one way of a tunnel ended.
#[derive(Clone, Copy)]
pub(crate) enum WayEnd {
    /// All bytes were read, and written.
    Ended,
    /// The source failed.
    NoSource,
    /// The sink failed.
    NoSink,
    /// For too long each grant found a bucket empty.
    Starved,
    /// There was no memory.
    WantOfMemory,
}

fn way_of(copied: Copied) -> WayEnd
    ensures { result ≡ way_of copied }
{
    match copied {
        Copied::Whole | Copied::Cut | Copied::Bad => WayEnd::Ended,
        Copied::NoSource => WayEnd::NoSource,
        Copied::NoSink => WayEnd::NoSink,
        Copied::Starved => WayEnd::Starved,
        Copied::WantOfMemory => WayEnd::WantOfMemory,
    }
}

/// Copies bytes to the end of the source, each granted first, and closes the sink.
pub(crate) fn copy_way<R: Wait, S: Source, O: Out, M: Meter>(
    rt: &R,
    alloc: Global,
    from: &mut Half<S>,
    to: &mut O,
    meter: &mut M,
) -> WayEnd
    requires dry { M.dry meter.old ≡ 0 }
    ensures goes { GoesGranted (to_come S.left from.old)
        (metered (M.seated meter.old) (O.Sink.contents to.old) (O.Sink.contents to.new)
        (M.granted meter.old) (M.granted meter.new)) (spare_of_way result) }
    ensures whole { result ≡ WayEnd.Ended
        → GoesWhole (to_come S.left from.old) (to_come S.left from.new) (O.Sink.contents to.old)
        (O.Sink.contents to.new) }
    ensures paid { PaidAtEnd (to_come S.left from.old) (metered (M.seated meter.old)
        (O.Sink.contents to.old) (O.Sink.contents to.new) (M.granted meter.old)
        (M.granted meter.new)) result }
    ensures closed { IsClosed (O.closed to.new) }
    ensures cause { WayHasCause (S.faults from.old.source) (S.faults from.new.source)
        (O.Sink.faults to.old) (O.Sink.faults to.new) result }
    ensures dry { M.dry meter.new ≡ dry_after_way result }
    ensures seated { M.seated meter.new ≡ M.seated meter.old }
    ensures besides { M.besides meter.new ≡ M.besides meter.old }
    ensures source_later { S.faults from.old.source ≤ S.faults from.new.source }
    ensures sink_later { O.Sink.faults to.old ≤ O.Sink.faults to.new }
    ensures origin { S.origin from.new.source ≡ S.origin from.old.source }
    ensures few { length from.new.ahead ≤ max (length from.old.ahead) large_read_limit }
{
    let copied = copy_body(rt, alloc, from, to, meter, BodyPlan::ToClose, false);
    to.close();
    way_of(copied)
}

/// Copies bytes to the end of the source, and closes the sink. No grant is asked for.
pub(crate) fn send_way<R: Wait, S: Source, O: Out>(
    rt: &R,
    alloc: Global,
    from: &mut Half<S>,
    to: &mut O,
) -> WayEnd
    ensures goes { GoesInPart (to_come S.left from.old) (O.Sink.contents to.old)
        (O.Sink.contents to.new) }
    ensures whole { result ≡ WayEnd.Ended
        → GoesWhole (to_come S.left from.old) (to_come S.left from.new) (O.Sink.contents to.old)
        (O.Sink.contents to.new) }
    ensures fed { 0 ≡ dry_after_way result }
    ensures closed { IsClosed (O.closed to.new) }
    ensures cause { WayHasCause (S.faults from.old.source) (S.faults from.new.source)
        (O.Sink.faults to.old) (O.Sink.faults to.new) result }
    ensures source_later { S.faults from.old.source ≤ S.faults from.new.source }
    ensures sink_later { O.Sink.faults to.old ≤ O.Sink.faults to.new }
    ensures origin { S.origin from.new.source ≡ S.origin from.old.source }
    ensures few { length from.new.ahead ≤ max (length from.old.ahead) large_read_limit }
{
    copy_way(rt, alloc, from, to, &mut Free)
}
