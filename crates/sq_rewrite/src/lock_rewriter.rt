//! The rewriter behind its lock, as one thread sees it.
ghost use Rattle.std.specs.Prelude.{None};

use crate::acts::RewriteAct;
use crate::calls::RewriterCalls;
use crate::faults::RewriteFault;
use crate::rewriter_room::RewriterRoom;
use sq_base::ProcNo;
use sq_farm::Got;
use std::alloc::Global;
use std::sync::Wait;

/// The rewriter behind its lock. It tells no state, since other threads call it too. Each of its calls is one hold.
#[derive(Drop)]
pub struct LockRewriter<'a, R: Wait> {
    rt: &'a R,
    room: &'a RewriterRoom,
}

impl<'a, R: Wait> LockRewriter<'a, R> {
    /// The rewriter behind this lock.
    pub fn new(rt: &'a R, room: &'a RewriterRoom) -> LockRewriter<'a, R> {
        LockRewriter { rt, room }
    }
}

impl<'a, R: Wait> RewriterCalls for LockRewriter<'a, R> {
    ghost told = { λ _. None };

    fn act(&mut self) -> Option<RewriteAct> {
        self.room.act(self.rt)
    }

    fn started(&mut self, alloc: Global) -> Result<ProcNo, RewriteFault> {
        self.room.started(self.rt, alloc)
    }

    fn start_failed(&mut self) -> Result<(), RewriteFault> {
        self.room.start_failed(self.rt)
    }

    fn line(&mut self, alloc: Global, proc: ProcNo, bytes: &[u8]) -> Result<Got, RewriteFault> {
        self.room.line(self.rt, alloc, proc, bytes)
    }

    fn died(&mut self, proc: ProcNo) -> Result<(), RewriteFault> {
        self.room.died(self.rt, proc)
    }
}
