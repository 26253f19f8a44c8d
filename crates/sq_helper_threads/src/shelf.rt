//! The shelf: what the pump and the keepers share. Each call of `LockedBoard` is one hold of its lock, in which it makes the one
//! call of its name. Nothing is proved here of what lies under the lock.
ghost use Rattle.std.specs.Prelude.{◌≡◌, IfErr, IfOk};
ghost use Rattle.sq_helper_threads.specs.Boards.{placed_proc};

use crate::board::{Board, OfProcess, PlacedTask, Task};
use crate::keeper_halves::ProcOut;
use sq_base::ProcNo;
use sq_shared::Ledgers;
use std::alloc::Global;
use std::sync::{Mutex, Wait};

/// Tasks and posts, behind their lock.
pub(crate) struct LockedBoard<P, B: Ledgers> {
    board: Mutex<Board<P, B>>,
}

// Written out, so that the drops of its parts are proved here alone, whatever a half borrows.
impl<P: Drop, B: Ledgers> Drop for LockedBoard<P, B> {
    fn drop(self) {
        let LockedBoard { board: _ } = self;
    }
}

impl<P: OfProcess + Drop, B: Ledgers> LockedBoard<P, B> {
    // Nothing lies there yet.
    fn new(alloc: Global) -> LockedBoard<P, B> {
        LockedBoard {
            board: Mutex::new(Board::new(alloc)),
        }
    }

    // Puts a task for a keeper, which is handed back where memory is wanting.
    pub(crate) fn put<R: Wait>(&self, rt: &R, task: Task<P, B>) -> Result<PlacedTask, Task<P, B>>
        ensures { IfOk result (λ placed. placed_proc placed ≡ P.proc_of task.half) }
    {
        self.board.lock(rt).put(task)
    }

    // A task, for a keeper.
    pub(crate) fn take<R: Wait>(&self, rt: &R) -> Option<Task<P, B>> {
        self.board.lock(rt).take()
    }

    // A task, for the pump, in the place of one that was put.
    pub(crate) fn take_back<R: Wait>(
        &self,
        rt: &R,
        placed: PlacedTask,
    ) -> Result<Task<P, B>, PlacedTask>
        ensures { IfErr result (λ still. still ≡ placed) }
    {
        self.board.lock(rt).take_back(placed)
    }

    // The keeper of this half has ended.
    pub(crate) fn end<R: Wait>(&self, rt: &R, half: &P) {
        self.board.lock(rt).end(half);
    }

    // A process whose keeper has ended.
    pub(crate) fn ended<R: Wait>(&self, rt: &R) -> Option<ProcNo> {
        self.board.lock(rt).ended()
    }
}

/// The halves of processes that keepers are to take up, and which keepers have ended. A thread that could not be started
/// hands back no half, so they lie here meanwhile, each with the part of the book of refusals that its keeper needs. It has
/// the runtime by which the pipes of look-ups wait.
#[derive(Drop)]
pub struct Shelf<'r, P, R: Wait, B: Ledgers> {
    pub(crate) rt: &'r R,
    pub(crate) board: LockedBoard<ProcOut<'r, P, R>, B>,
}

impl<'r, P: Drop, R: Wait, B: Ledgers> Shelf<'r, P, R, B> {
    /// Nothing lies there yet.
    pub fn new(rt: &'r R, alloc: Global) -> Shelf<'r, P, R, B> {
        Shelf {
            rt,
            board: LockedBoard::new(alloc),
        }
    }
}
