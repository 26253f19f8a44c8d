//! The shelf: what a rewriter's pump and its keepers share. Each call is one hold of its lock, in which it makes the one call of
//! its name. Nothing is proved here of what lies under the lock.
ghost use Rattle.std.specs.Prelude.{◌≡◌, IfErr, IfOk};
ghost use Rattle.sq_rewrite.specs.LineViews.{half_proc, placed_proc};

use crate::board::{PlacedHalf, RewriterBoard};
use crate::unread::UnreadHalf;
use sq_base::ProcNo;
use std::alloc::Global;
use std::sync::{Mutex, Wait};

/// The halves of processes that keepers are to take up, and which keepers have ended. A thread that could not be started
/// hands back no half, so they lie here meanwhile.
#[derive(Drop)]
pub struct RewriterShelf<P> {
    board: Mutex<RewriterBoard<P>>,
}

impl<P: Drop> RewriterShelf<P> {
    /// Nothing lies there yet.
    pub fn new(alloc: Global) -> RewriterShelf<P> {
        RewriterShelf {
            board: Mutex::new(RewriterBoard::new(alloc)),
        }
    }

    // Puts a half for a keeper, which is handed back where memory is wanting.
    pub(crate) fn put<R: Wait>(
        &self,
        rt: &R,
        half: UnreadHalf<P>,
    ) -> Result<PlacedHalf, UnreadHalf<P>>
        ensures placed { IfOk result (λ placed. placed_proc placed ≡ half_proc half) }
        ensures back { IfErr result (λ back. back ≡ half) }
    {
        self.board.lock(rt).put(half)
    }

    // A half, for a keeper.
    pub(crate) fn take<R: Wait>(&self, rt: &R) -> Option<UnreadHalf<P>> {
        self.board.lock(rt).take()
    }

    // A half, for the pump, in the place of one that was put.
    pub(crate) fn take_back<R: Wait>(
        &self,
        rt: &R,
        placed: PlacedHalf,
    ) -> Result<UnreadHalf<P>, PlacedHalf>
        ensures { IfErr result (λ still. still ≡ placed) }
    {
        self.board.lock(rt).take_back(placed)
    }

    // The keeper of this half has ended.
    pub(crate) fn end<R: Wait>(&self, rt: &R, half: &UnreadHalf<P>) {
        self.board.lock(rt).end(half);
    }

    // A process whose keeper has ended.
    pub(crate) fn ended<R: Wait>(&self, rt: &R) -> Option<ProcNo> {
        self.board.lock(rt).ended()
    }
}
