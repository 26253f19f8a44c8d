//! `UnreadHalf`: the half of a process of a rewriter that is read, with the number of its process.
ghost use Rattle.std.specs.Prelude.{◌≡◌, ◌≤◌};
ghost use Rattle.std.specs.Io.KnownBytes.{IsAtEnd};
ghost use Rattle.sq_keeper.specs.Lines.{ReadsLines};
ghost use Rattle.sq_keeper.specs.Waiting.{has_waited};
ghost use Rattle.sq_outside.specs.Causes.{Rose};
ghost use Rattle.sq_rewrite.specs.LineViews.{half_from, half_proc, half_since};

use sq_base::{Moment, ProcNo};
use sq_keeper::{KeeperEnd, LineDesk, has_waited, read_lines};
use sq_outside::Source;
use std::alloc::Global;
use std::sync::Wait;

/// The half of a process that is read, with the number that the rewriter gave for it, and the moment at which its start was
/// noted. A pump makes it then, and the parts stay together: what is read of the half is handed on as of this process.
#[derive(Drop)]
pub struct UnreadHalf<P> {
    proc: ProcNo,
    since: Moment,
    from: P,
}

impl<P> UnreadHalf<P> {
    // The half of the process of this number, whose start was noted at this moment.
    pub(crate) fn new(proc: ProcNo, since: Moment, from: P) -> UnreadHalf<P>
        ensures { result ≡ record { proc = proc; since = since; from = from } }
    {
        UnreadHalf { proc, since, from }
    }

    // Whether its process has run for as long as it may owe an answer.
    pub(crate) fn has_waited(&self, now: Moment) -> bool
        ensures { result ≡ has_waited (half_since self.now) now }
    {
        has_waited(self.since, now)
    }

    /// The number of its process.
    pub fn proc(&self) -> ProcNo
        ensures { result ≡ half_proc self.now }
    {
        self.proc
    }
}

impl<P: Source> UnreadHalf<P> {
    /// Reads the lines of its process to the end of its input, and hands them to the desk, as `sq_keeper::read_lines` does.
    pub fn read_lines<R: Wait + Sync, K: LineDesk>(
        &mut self,
        rt: &R,
        alloc: Global,
        desk: &mut K,
    ) -> KeeperEnd
        ensures proc { half_proc self.new ≡ half_proc self.old }
        ensures lines { ReadsLines (half_proc self.old) (P.left (half_from self.old))
            (P.left (half_from self.new)) (K.handed desk.old) (K.handed desk.new) result }
        ensures ended { result ≡ KeeperEnd.Ended → IsAtEnd (P.left (half_from self.new)) }
        ensures fault { result ≡ KeeperEnd.ReadFault
            → Rose (P.faults (half_from self.old)) (P.faults (half_from self.new)) }
        ensures told { result ≡ KeeperEnd.Told → Rose (K.refused desk.old) (K.refused desk.new) }
        ensures memory { result ≡ KeeperEnd.WantOfMemory
            → (self.new ≡ self.old) × (desk.new ≡ desk.old) }
        ensures faults_later { P.faults (half_from self.old) ≤ P.faults (half_from self.new) }
        ensures quiet { (result ≡ KeeperEnd.ReadFault → ⊥)
            → P.faults (half_from self.new) ≡ P.faults (half_from self.old) }
        ensures refused_later { K.refused desk.old ≤ K.refused desk.new }
        ensures passes { K.passes desk.old desk.new }
    {
        read_lines(rt, alloc, &mut self.from, self.proc, desk)
    }
}
