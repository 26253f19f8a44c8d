//! `RewritePump`: what performs the acts of a rewriter.
ghost use Rattle.std.specs.Prelude.{◌≡◌, ◌++◌, ◌∷◌, ◌<◌, [], None, IfNone, IfSome};
ghost use Rattle.sq_keeper.specs.Pipes.{half_tells};
ghost use Rattle.sq_rewrite.specs.Turning.{ClosesHalf};

use crate::calls::RewriterCalls;
use crate::turns::StartedHalves;
use crate::unread::UnreadHalf;
use sq_base::{ProcNo, Texts};
use sq_keeper::Pipes;
use sq_outside::Spawner;
use std::alloc::Global;
use std::marker::Model;

/// What performs the acts of a rewriter: it starts processes of one program, writes questions to them and stops them. A
/// contract sees what its rewriter and its spawner tell, the halves of processes, and what a turn left.
#[derive(Drop)]
pub struct RewritePump<S: Spawner, K: RewriterCalls> {
    pub(crate) alloc: Global,
    pub(crate) spawner: S,
    pub(crate) rewriter: K,
    pub(crate) words: Texts,
    pub(crate) pipes: Pipes<S::ChildIn>,
    pub(crate) readers: Vec<UnreadHalf<S::ChildOut>>,
    pub(crate) left: Option<StartedHalves<S::ChildOut, S::ChildIn>>,
}

impl<S: Spawner, K: RewriterCalls> Model for RewritePump<S, K> {
    ghost use Rattle.std.specs.Prelude.{◌-◌, vec_capacity, vec_len};
    ghost use Rattle.sq_keeper.specs.PipeViews.{pipes_of};
    ghost use Rattle.sq_rewrite.specs.Pumps.{RewritePumpView};

    ghost Value = { RewritePumpView S.ChildOut S.ChildIn };

    ghost view = { λ p. record {
      told = K.told p.rewriter;
      words = p.words;
      starts = S.starts p.spawner;
      faults = S.faults p.spawner;
      pipes = pipes_of p.pipes;
      readers = p.readers.items;
      room = vec_capacity p.readers - vec_len p.readers;
      left = p.left;
    } };
}

impl<S: Spawner, K: RewriterCalls> RewritePump<S, K> {
    /// A pump over this spawner and this rewriter, of the program of these words, which holds nothing.
    pub fn new(alloc: Global, spawner: S, rewriter: K, words: Texts) -> RewritePump<S, K>
        ensures told { result.told ≡ K.told rewriter }
        ensures words { result.words ≡ words }
        ensures starts { result.starts ≡ S.starts spawner }
        ensures faults { result.faults ≡ S.faults spawner }
        ensures pipes { result.pipes ≡ [] }
        ensures readers { result.readers ≡ [] }
        ensures left { result.left ≡ None }
    {
        RewritePump {
            alloc,
            spawner,
            rewriter,
            words,
            pipes: Pipes::new(alloc),
            readers: Vec::new(alloc),
            left: None,
        }
    }

    /// Hands out the half of a process that is to be read, the one that was taken up last, for a keeper. None where it
    /// holds none. It takes no memory.
    pub fn reader(&mut self) -> Option<UnreadHalf<S::ChildOut>>
        ensures some { IfSome result (λ h. self.old.readers ≡ self.new.readers ++ h ∷ []) }
        ensures room { IfSome result (λ _. 0 < self.new.room) }
        ensures none { IfNone result ((self.old.readers ≡ []) × (self.new ≡ self.old)) }
        ensures same { self.new ≡ record self.old
            { readers = self.new.readers; room = self.new.room } }
    {
        self.readers.pop()
    }

    /// Takes back one that was handed out since the last turn, where its keeper could not be started. It takes no memory.
    pub fn unread(&mut self, half: UnreadHalf<S::ChildOut>)
        requires { 0 < self.old.room }
        ensures readers { self.new.readers ≡ self.old.readers ++ half ∷ [] }
        ensures same { self.new ≡ record self.old
            { readers = self.new.readers; room = self.new.room } }
    {
        self.readers.push_reserved(half);
    }
}

impl<S: Spawner, K: RewriterCalls> RewritePump<S, K>
where
    S::ChildIn: Drop,
{
    /// This process ended by itself, or its lines are no more read: the half of it that is written to is closed and let go
    /// of, with those that were closed before. The rewriter learns nothing.
    pub fn ended(&mut self, proc: ProcNo)
        ensures pipes { ClosesHalf
            (half_tells S.ChildIn.contents S.ChildIn.faults S.ChildIn.closed) proc self.old.pipes
            self.new.pipes }
        ensures same { self.new ≡ record self.old { pipes = self.new.pipes } }
    {
        self.pipes.stop(proc);
        self.pipes.sweep();
    }
}
