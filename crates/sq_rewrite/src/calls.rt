//! The calls of a rewriter that its processes make.
ghost use Rattle.std.specs.Prelude.{Some};
ghost use Rattle.std.specs.declared.option.Option.{Option};
ghost use Rattle.sq_rewrite.specs.States.{RewriteState};
ghost use Rattle.sq_rewrite.specs.RewriterCalls.{MakesAct, NotesDeath, NotesFailure, NotesLine, NotesStart, Tells};

use crate::acts::RewriteAct;
use crate::faults::RewriteFault;
use crate::rewriters::Rewriter;
use sq_base::ProcNo;
use sq_farm::Got;
use std::alloc::Global;

/// The calls of a rewriter that are not about a question: its acts, and what comes of its processes.
pub trait RewriterCalls {
    /// Its state, where it tells that.
    ghost told: { Self → Option RewriteState };

    /// The next act that is due, which is made with this call. It takes no memory.
    fn act(&mut self) -> Option<RewriteAct>
        ensures { Tells (MakesAct result) (told self.old) (told self.new) };

    /// A process runs for an open start. It gets the next number.
    fn started(&mut self, alloc: Global) -> Result<ProcNo, RewriteFault>
        ensures { Tells (NotesStart result) (told self.old) (told self.new) };

    /// A start failed. It takes no memory.
    fn start_failed(&mut self) -> Result<(), RewriteFault>
        ensures { Tells (NotesFailure result) (told self.old) (told self.new) };

    /// A process wrote a line.
    fn line(&mut self, alloc: Global, proc: ProcNo, bytes: &[u8]) -> Result<Got, RewriteFault>
        ensures { Tells (NotesLine proc bytes.now result) (told self.old) (told self.new) };

    /// A process died. It takes no memory.
    fn died(&mut self, proc: ProcNo) -> Result<(), RewriteFault>
        ensures { Tells (NotesDeath proc result) (told self.old) (told self.new) };
}

impl RewriterCalls for Rewriter {
    ghost told = { λ s. Some s };

    fn act(&mut self) -> Option<RewriteAct> {
        Rewriter::act(self)
    }

    fn started(&mut self, alloc: Global) -> Result<ProcNo, RewriteFault> {
        Rewriter::started(self, alloc)
    }

    fn start_failed(&mut self) -> Result<(), RewriteFault> {
        Rewriter::start_failed(self)
    }

    fn line(&mut self, alloc: Global, proc: ProcNo, bytes: &[u8]) -> Result<Got, RewriteFault> {
        Rewriter::line(self, alloc, proc, bytes)
    }

    fn died(&mut self, proc: ProcNo) -> Result<(), RewriteFault> {
        Rewriter::died(self, proc)
    }
}
