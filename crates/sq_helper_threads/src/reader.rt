//! `Reader`: the half of a process that is read, with the number of its process and the moment of its start.
ghost use Rattle.std.specs.Prelude.{◌≡◌, ◌≤◌, ◌<◌, None, IfSome};
ghost use Rattle.std.specs.Io.KnownBytes.{IsAtEnd};
ghost use Rattle.sq_dst.specs.AnsweredLines.{AnswersLines, AnswersTold, answer_step};
ghost use Rattle.sq_keeper.specs.Lines.{ReadsLines};
ghost use Rattle.sq_keeper.specs.Waiting.{has_waited};
ghost use Rattle.sq_outside.specs.Causes.{Rose, raised};
ghost use Rattle.sq_helper_threads.specs.ReaderViews.{asker_config, reader_from, reader_proc, reader_since};

use crate::halves::AskerOut;
use sq_base::{Moment, ProcNo};
use sq_dst::answer_lines;
use sq_keeper::{KeeperEnd, LineDesk, has_waited, read_lines};
use sq_outside::{Resolver, Source};
use std::alloc::Global;
use std::sync::Wait;

/// The half of a process that is read, with the number that the desk gave for it, and the moment at which its start was noted. A
/// pump makes it then, and the parts stay together: what is read of the half is handed on as of this process.
#[derive(Drop)]
pub struct Reader<P> {
    proc: ProcNo,
    since: Moment,
    from: P,
}

impl<P> Reader<P> {
    // The half of the process of this number, whose start was noted at this moment.
    pub(crate) fn new(proc: ProcNo, since: Moment, from: P) -> Reader<P>
        ensures { result ≡ record { proc = proc; since = since; from = from } }
    {
        Reader { proc, since, from }
    }

    // Whether its process has run for as long as it may owe an answer.
    pub(crate) fn has_waited(&self, now: Moment) -> bool
        ensures { result ≡ has_waited (reader_since self.now) now }
    {
        has_waited(self.since, now)
    }

    /// The number of its process.
    pub fn proc(&self) -> ProcNo
        ensures { result ≡ reader_proc self.now }
    {
        self.proc
    }
}

impl<P: Source> Reader<P> {
    /// Reads the lines of its process to the end of its input, and hands them to the desk, as `sq_keeper::read_lines` does.
    pub fn read_lines<R: Wait + Sync, K: LineDesk>(
        &mut self,
        rt: &R,
        alloc: Global,
        desk: &mut K,
    ) -> KeeperEnd
        ensures proc { reader_proc self.new ≡ reader_proc self.old }
        ensures lines { ReadsLines (reader_proc self.old) (P.left (reader_from self.old))
            (P.left (reader_from self.new)) (K.handed desk.old) (K.handed desk.new) result }
        ensures ended { result ≡ KeeperEnd.Ended → IsAtEnd (P.left (reader_from self.new)) }
        ensures fault { result ≡ KeeperEnd.ReadFault
            → Rose (P.faults (reader_from self.old)) (P.faults (reader_from self.new)) }
        ensures told { result ≡ KeeperEnd.Told → Rose (K.refused desk.old) (K.refused desk.new) }
        ensures memory { result ≡ KeeperEnd.WantOfMemory
            → (self.new ≡ self.old) × (desk.new ≡ desk.old) }
        ensures faults_later { P.faults (reader_from self.old) ≤ P.faults (reader_from self.new) }
        ensures quiet { (result ≡ KeeperEnd.ReadFault → ⊥)
            → P.faults (reader_from self.new) ≡ P.faults (reader_from self.old) }
        ensures refused_later { K.refused desk.old ≤ K.refused desk.new }
        ensures passes { K.passes desk.old desk.new }
    {
        read_lines(rt, alloc, &mut self.from, self.proc, desk)
    }
}

impl<'a, R: Wait + Sync> Reader<AskerOut<'a, R>> {
    /// Reads the questions of its process to their end, and hands the desk the reply to each, by its configuration and over
    /// what the resolver finds, as `sq_dst::answer_lines` does.
    pub fn answer_lines<Q: Resolver, K: LineDesk>(
        &mut self,
        rt: &R,
        alloc: Global,
        resolver: &mut Q,
        desk: &mut K,
    ) -> KeeperEnd
        ensures proc { reader_proc self.new ≡ reader_proc self.old }
        ensures config { asker_config (reader_from self.new) ≡ asker_config (reader_from self.old) }
        ensures lines { AnswersLines (asker_config (reader_from self.old))
            (answer_step (Q.names resolver.old) (Q.faults resolver.old) (Q.faults resolver.new)
            (K.handed desk.old) (K.handed desk.new))
            (reader_proc self.old) None None result }
        ensures found { IfSome (Q.names resolver.old)
            (λ of. Q.faults resolver.new < raised (Q.faults resolver.old)
            → AnswersTold (asker_config (reader_from self.old)) of (reader_proc self.old) None None
            (K.handed desk.old) (K.handed desk.new) result) }
        ensures told { result ≡ KeeperEnd.Told → Rose (K.refused desk.old) (K.refused desk.new) }
        ensures memory { result ≡ KeeperEnd.WantOfMemory
            → (self.new ≡ self.old) × (resolver.new ≡ resolver.old) × (desk.new ≡ desk.old) }
        ensures names { Q.names resolver.new ≡ Q.names resolver.old }
        ensures looks_later { Q.faults resolver.old ≤ Q.faults resolver.new }
        ensures refused_later { K.refused desk.old ≤ K.refused desk.new }
        ensures passes { K.passes desk.old desk.new }
    {
        let AskerOut { from, config } = &mut self.from;
        answer_lines(rt, alloc, from, resolver, config, self.proc, desk)
    }
}
