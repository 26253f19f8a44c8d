//! `Pipes`: the writing halves of the processes that were started.
ghost use Rattle.std.specs.Prelude.{◌≡◌, ◌+◌, ◌++◌, ◌∷◌, ◌<◌, [], None, Some, false, IfSome, OnOk};
ghost use Rattle.sq_base.specs.Replies.{question_text};
ghost use Rattle.sq_keeper.specs.Pipes.{Asks, Fails, Shuts, Changes, pipe_place, open_ones};
ghost use Rattle.sq_keeper.specs.PipeViews.{room_of, pipes_of};

use crate::questions::write_question;
use sq_base::{ProcNo, WantOfMemory};
use sq_outside::Out;
use std::alloc::Global;

/// The half of a process that is written to.
#[derive(Drop)]
pub struct Pipe<O> {
    pub proc: ProcNo,
    pub to: O,
    /// It was closed, and so the process stopped.
    pub closed: bool,
}

/// How a question was sent.
#[derive(Clone, Copy, PartialEq, Eq)]
pub enum SendEnd {
    /// Its line was written.
    Written,
    /// The write failed, a front of the line was written, and the half was closed.
    Failed,
    /// No half of this process is kept.
    Absent,
}

/// The halves of the processes that were started, in the order of their starts.
#[derive(Drop)]
pub struct Pipes<O> {
    items: Vec<Pipe<O>>,
}

// Writes a question to a half, which is closed where that fails.
fn ask<O: Out>(pipe: &mut Pipe<O>, channel: Option<u32>, text: &[u8]) -> SendEnd
    ensures written { result ≡ SendEnd.Written
        → Asks O.contents O.faults (question_text channel text.now) pipe.old pipe.new }
    ensures failed { result ≡ SendEnd.Failed
        → Fails O.contents O.faults O.closed (question_text channel text.now) pipe.old pipe.new }
    ensures there { result ≡ SendEnd.Absent → ⊥ }
{
    if write_question(&mut pipe.to, channel, text).is_ok() {
        return SendEnd::Written;
    }
    pipe.to.close();
    pipe.closed = true;
    SendEnd::Failed
}

// Closes a half.
fn shut<O: Out>(pipe: &mut Pipe<O>)
    ensures { Shuts O.contents O.faults O.closed pipe.old pipe.new }
{
    pipe.to.close();
    pipe.closed = true;
}

impl<O: Out + Drop> Pipes<O> {
    /// No half is kept yet.
    pub fn new(alloc: Global) -> Pipes<O>
        ensures { pipes_of result ≡ [] }
    {
        Pipes {
            items: Vec::new(alloc),
        }
    }

    /// Makes room for one more.
    pub fn reserve(&mut self) -> Result<(), WantOfMemory>
        ensures room { OnOk result (0 < room_of self.new) }
        ensures same { pipes_of self.new ≡ pipes_of self.old }
    {
        self.items.reserve(1)?;
        Ok(())
    }

    /// Keeps the half of a process. It takes no memory.
    pub fn put(&mut self, proc: ProcNo, to: O)
        requires { 0 < room_of self.old }
        ensures { pipes_of self.new ≡ pipes_of self.old
            ++ record { proc = proc; to = to; closed = false } ∷ [] }
    {
        self.items.push_reserved(Pipe {
            proc,
            to,
            closed: false,
        });
    }

    // The place of the first half of this process.
    fn place(&self, proc: ProcNo) -> Option<usize>
        ensures place { result ≡ pipe_place proc (pipes_of self.now) }
    {
        self.items.iter().position(|pipe| pipe.proc == proc)
    }

    /// Writes a question to the half of a process. Where the write fails the half is closed.
    pub fn send(&mut self, proc: ProcNo, channel: Option<u32>, text: &[u8]) -> SendEnd
        ensures written { result ≡ SendEnd.Written
            → Changes proc (Asks O.contents O.faults (question_text channel text.now))
            (pipes_of self.old) (pipes_of self.new) }
        ensures failed { result ≡ SendEnd.Failed
            → Changes proc (Fails O.contents O.faults O.closed (question_text channel text.now))
            (pipes_of self.old) (pipes_of self.new) }
        ensures absent { result ≡ SendEnd.Absent
            → (pipe_place proc (pipes_of self.old) ≡ None)
            × (pipes_of self.new ≡ pipes_of self.old) }
    {
        match self.place(proc) {
            None => SendEnd::Absent,
            Some(place) => ask(&mut self.items[place], channel, text),
        }
    }

    /// Closes the half of a process, which stops it. It is kept.
    pub fn stop(&mut self, proc: ProcNo)
        ensures there { IfSome (pipe_place proc (pipes_of self.old))
            (λ _. Changes proc (Shuts O.contents O.faults O.closed) (pipes_of self.old)
            (pipes_of self.new)) }
        ensures absent { pipe_place proc (pipes_of self.old) ≡ None
            → pipes_of self.new ≡ pipes_of self.old }
    {
        if let Some(place) = self.place(proc) {
            shut(&mut self.items[place]);
        }
    }

    /// Lets go of those that were closed.
    pub fn sweep(&mut self)
        ensures { pipes_of self.new ≡ open_ones (pipes_of self.old) }
    {
        self.items.retain(|pipe| !pipe.closed);
    }
}
