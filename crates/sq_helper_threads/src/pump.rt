//! `ServePump`: what performs the acts of a desk.
ghost use Rattle.std.specs.Prelude.{◌≡◌, ◌++◌, ◌∷◌, ◌<◌, [], None, Some, IfNone, IfSome, OnOk};
ghost use Rattle.sq_helper_threads.specs.Halves.{in_tells};
ghost use Rattle.sq_helper_threads.specs.Turning.{LetsGo};

use crate::halves::{AskerOut, ProcIn};
use crate::reader::Reader;
use crate::turns::{Left, Turn};
use sq_base::{ProcNo, WantOfMemory};
use sq_calls::HelperCalls;
use sq_keeper::Pipes;
use sq_outside::Spawner;
use std::alloc::Global;
use std::marker::Model;
use std::sync::Wait;

/// What performs the acts of a desk: it starts processes, writes questions to them and stops them. For the class by which
/// names are looked up it spawns nothing: a process of that class is a thread, which reads from a pipe. A contract sees
/// what its desk and its spawner tell, the halves of processes, and what a turn left.
pub struct ServePump<'a, S: Spawner, K: HelperCalls, R: Wait> {
    pub(crate) rt: &'a R,
    pub(crate) alloc: Global,
    pub(crate) spawner: S,
    pub(crate) desk: K,
    pub(crate) pipes: Pipes<ProcIn<'a, S::ChildIn, R>>,
    pub(crate) readers: Vec<Reader<S::ChildOut>>,
    pub(crate) asking: Vec<Reader<AskerOut<'a, R>>>,
    pub(crate) left: Option<Left<S::ChildOut, ProcIn<'a, S::ChildIn, R>, AskerOut<'a, R>>>,
}

// Written out, so that the drops of its parts are proved here alone.
impl<'a, S: Spawner + Drop, K: HelperCalls + Drop, R: Wait> Drop for ServePump<'a, S, K, R> {
    fn drop(self) {
        let ServePump {
            rt: _,
            alloc: _,
            spawner: _,
            desk: _,
            pipes: _,
            readers: _,
            asking: _,
            left: _,
        } = self;
    }
}

impl<'a, S: Spawner, K: HelperCalls, R: Wait> Model for ServePump<'a, S, K, R> {
    ghost use Rattle.std.specs.Prelude.{◌-◌, vec_capacity, vec_len};
    ghost use Rattle.sq_keeper.specs.PipeViews.{pipes_of};
    ghost use Rattle.sq_helper_threads.specs.Pumps.{PumpView};
    ghost use Rattle.sq_helper_threads.specs.declared.halves.ProcIn.{ProcIn};

    ghost Value = { PumpView S.ChildOut (ProcIn S.ChildIn R) R K };

    ghost view = { λ p. record {
      desk = p.desk;
      first = K.first;
      told = K.told p.desk;
      refused = K.refused p.desk;
      stopped = K.is_stopped p.desk;
      made = K.made p.desk;
      starts = S.starts p.spawner;
      faults = S.faults p.spawner;
      pipes = pipes_of p.pipes;
      readers = p.readers.items;
      room = vec_capacity p.readers - vec_len p.readers;
      asking = p.asking.items;
      asking_room = vec_capacity p.asking - vec_len p.asking;
      left = p.left;
    } };
}

impl<'a, S: Spawner, K: HelperCalls, R: Wait> ServePump<'a, S, K, R> {
    /// A pump over this spawner and this desk, which holds nothing.
    pub fn new(rt: &'a R, alloc: Global, spawner: S, desk: K) -> ServePump<'a, S, K, R>
        ensures desk { result.desk ≡ desk }
        ensures first { result.first ≡ K.first }
        ensures told { result.told ≡ K.told desk }
        ensures refused { result.refused ≡ K.refused desk }
        ensures stopped { result.stopped ≡ K.is_stopped desk }
        ensures made { result.made ≡ K.made desk }
        ensures starts { result.starts ≡ S.starts spawner }
        ensures faults { result.faults ≡ S.faults spawner }
        ensures pipes { result.pipes ≡ [] }
        ensures readers { result.readers ≡ [] }
        ensures asking { result.asking ≡ [] }
        ensures left { result.left ≡ None }
    {
        ServePump {
            rt,
            alloc,
            spawner,
            desk,
            pipes: Pipes::new(alloc),
            readers: Vec::new(alloc),
            asking: Vec::new(alloc),
            left: None,
        }
    }

    /// Hands out the half of a program that is to be read, the one that was taken up last, for a keeper. None where it
    /// holds none. It takes no memory.
    pub fn reader(&mut self) -> Option<Reader<S::ChildOut>>
        ensures some { IfSome result (λ half. self.old.readers ≡ self.new.readers ++ half ∷ []) }
        ensures room { IfSome result (λ _. 0 < self.new.room) }
        ensures none { IfNone result ((self.old.readers ≡ []) × (self.new ≡ self.old)) }
        ensures same { self.new ≡ record self.old
            { readers = self.new.readers; room = self.new.room } }
    {
        self.readers.pop()
    }

    /// Takes back one that was handed out since the last turn, where its keeper could not be started. It takes no memory.
    pub fn unread(&mut self, half: Reader<S::ChildOut>)
        requires { 0 < self.old.room }
        ensures readers { self.new.readers ≡ self.old.readers ++ half ∷ [] }
        ensures same { self.new ≡ record self.old
            { readers = self.new.readers; room = self.new.room } }
    {
        self.readers.push_reserved(half);
    }

    /// Makes room for one half of each kind to be taken back.
    pub fn reserve(&mut self) -> Result<(), WantOfMemory>
        ensures room { OnOk result (0 < self.new.room) }
        ensures asking_room { OnOk result (0 < self.new.asking_room) }
        ensures same { self.new ≡ record self.old
            { room = self.new.room; asking_room = self.new.asking_room } }
    {
        self.readers.reserve(1)?;
        self.asking.reserve(1)?;
        Ok(())
    }

    /// Hands out a process of the class by which names are looked up, the one that was taken up last, for a thread that
    /// answers its questions by the configuration of its epoch. None where it holds none. It takes no memory.
    pub fn asker(&mut self) -> Option<Reader<AskerOut<'a, R>>>
        ensures some { IfSome result (λ half. self.old.asking ≡ self.new.asking ++ half ∷ []) }
        ensures room { IfSome result (λ _. 0 < self.new.asking_room) }
        ensures none { IfNone result ((self.old.asking ≡ []) × (self.new ≡ self.old)) }
        ensures same { self.new ≡ record self.old
            { asking = self.new.asking; asking_room = self.new.asking_room } }
    {
        self.asking.pop()
    }

    /// Takes back one that was handed out since the last turn, where its thread could not be started. It takes no memory.
    pub fn unasked(&mut self, half: Reader<AskerOut<'a, R>>)
        requires { 0 < self.old.asking_room }
        ensures asking { self.new.asking ≡ self.old.asking ++ half.entry ∷ [] }
        ensures same { self.new ≡ record self.old
            { asking = self.new.asking; asking_room = self.new.asking_room } }
    {
        self.asking.push_reserved(half);
    }

    // Leaves this for the next turn, since memory is wanting.
    pub(crate) fn leave(
        &mut self,
        left: Left<S::ChildOut, ProcIn<'a, S::ChildIn, R>, AskerOut<'a, R>>,
    ) -> Turn
        ensures answer { result ≡ Turn.WantOfMemory }
        ensures left { self.new ≡ record self.old { left = Some left.entry } }
    {
        self.left = Some(left);
        Turn::WantOfMemory
    }
}

impl<'a, S: Spawner, K: HelperCalls, R: Wait> ServePump<'a, S, K, R>
where
    S::ChildIn: Drop,
{
    /// This process ended by itself, or its lines are no more read: the half of it that is written to is closed and let go
    /// of, with those that were closed before. Nothing is noted.
    pub fn ended(&mut self, proc: ProcNo)
        ensures pipes { LetsGo (in_tells S.ChildIn.contents S.ChildIn.faults S.ChildIn.closed) proc
            self.old.pipes self.new.pipes }
        ensures same { self.new ≡ record self.old { pipes = self.new.pipes } }
    {
        self.pipes.stop(proc);
        self.pipes.sweep();
    }
}
