//! What a keeper thread of a rewriter's process does.
ghost use Rattle.std.specs.Prelude.{◌⊎◌};
ghost use Rattle.std.specs.Io.KnownBytes.{IsAtEnd};
ghost use Rattle.sq_outside.specs.Causes.{Rose};
ghost use Rattle.sq_rewrite.specs.LineViews.{half_from};

use crate::lines::RewriterLines;
use crate::lock_rewriter::LockRewriter;
use crate::rewriter_room::RewriterRoom;
use crate::rewriter_shelf::RewriterShelf;
use crate::unread::UnreadHalf;
use sq_keeper::{KeeperEnd, LineDesk};
use sq_outside::{Clock, Source};
use std::alloc::Global;
use std::sync::Wait;
use std::thread;

// Hands the lines of a process to the rewriter, and goes on where there was no memory: it ends only where the output ended, a read
// failed, or the rewriter wants no more lines.
fn read_all<R: Wait + Sync, P: Source, K: LineDesk>(
    rt: &R,
    alloc: Global,
    half: &mut UnreadHalf<P>,
    lines: &mut K,
)
    ensures { IsAtEnd (P.left (half_from half.new))
        ⊎ Rose (P.faults (half_from half.old)) (P.faults (half_from half.new))
        ⊎ Rose (K.refused lines.old) (K.refused lines.new) }
{
    for _ in rt.forever() {
        match half.read_lines(rt, alloc, lines) {
            KeeperEnd::WantOfMemory => thread::yield_now(),
            KeeperEnd::Ended | KeeperEnd::ReadFault | KeeperEnd::Told => return,
        }
    }
    unreachable!()
}

/// Takes a half from the shelf, and hands its lines to the rewriter until the process ends or no more are wanted. Whatever
/// made it end, the pump learns by the shelf that this keeper has ended, and is woken for it.
pub(crate) fn keep<R: Wait + Sync, P: Source + Drop, C: Clock + Drop>(
    rt: &R,
    alloc: Global,
    room: &RewriterRoom,
    shelf: &RewriterShelf<P>,
    clock: C,
) {
    let Some(mut half) = shelf.take(rt) else {
        return;
    };
    let mut lines = RewriterLines::new(alloc, LockRewriter::new(rt, room), clock);
    read_all(rt, alloc, &mut half, &mut lines);
    shelf.end(rt, &half);
    room.tell_end(rt);
}
