//! A turn of a rewriter's pump: one act, or the process that an earlier turn left.
ghost use Rattle.std.specs.Prelude.{◌≡◌, None};
ghost use Rattle.sq_keeper.specs.Pipes.{half_tells};
ghost use Rattle.sq_rewrite.specs.Pumps.{step};
ghost use Rattle.sq_rewrite.specs.Turning.{BeginsAct, NotesProcess, PerformsAct, SendsQuestion, SpawnerStays, StartsProcess, StopsProcess, TurnsFrom};

use crate::acts::RewriteAct;
use crate::calls::RewriterCalls;
use crate::faults::RewriteFault;
use crate::pump::RewritePump;
use crate::turns::{RewriterTurn, StartedHalves};
use crate::unread::UnreadHalf;
use sq_base::{Moment, ProcNo, QuestionNo, Text};
use sq_keeper::SendEnd;
use sq_outside::{Failed, Out, Spawner};

impl<S: Spawner, K: RewriterCalls> RewritePump<S, K>
where
    S::ChildIn: Drop,
{
    // This process was started.
    fn admit(&mut self, from: S::ChildOut, mut to: S::ChildIn, now: Moment) -> RewriterTurn
        requires { self.old.left ≡ None }
        ensures notes { NotesProcess from to (step now self.old result self.new) }
        ensures spawner { SpawnerStays self.old self.new }
        ensures words { self.new.words ≡ self.old.words }
    {
        if self.pipes.reserve().is_err() || self.readers.reserve(1).is_err() {
            self.left = Some(StartedHalves { from, to });
            return RewriterTurn::WantOfMemory;
        }
        match self.rewriter.started(self.alloc) {
            Ok(proc) => {
                self.pipes.put(proc, to);
                self.readers.push_reserved(UnreadHalf::new(proc, now, from));
                RewriterTurn::Acted(RewriteAct::Start)
            }
            Err(RewriteFault::WantOfMemory) => {
                self.left = Some(StartedHalves { from, to });
                RewriterTurn::WantOfMemory
            }
            Err(_) => {
                to.close();
                RewriterTurn::Acted(RewriteAct::Start)
            }
        }
    }

    // Starts a process. Halves that were closed are let go of.
    fn start(&mut self, now: Moment) -> RewriterTurn
        requires { self.old.left ≡ None }
        ensures starts { StartsProcess S.ChildOut.faults
            (half_tells S.ChildIn.contents S.ChildIn.faults S.ChildIn.closed)
            (step now self.old result self.new) }
        ensures words { self.new.words ≡ self.old.words }
    {
        self.pipes.sweep();
        match self.spawner.start(self.alloc, self.words.as_slice()) {
            Ok((from, to)) => self.admit(from, to, now),
            Err(Failed) => {
                let _gave = self.rewriter.start_failed();
                RewriterTurn::Acted(RewriteAct::Start)
            }
        }
    }

    // Stops a process. Its half is kept, closed.
    fn stop(&mut self, proc: ProcNo) -> RewriterTurn
        requires { self.old.left ≡ None }
        ensures stops { StopsProcess
            (half_tells S.ChildIn.contents S.ChildIn.faults S.ChildIn.closed) proc self.old result
            self.new }
        ensures words { self.new.words ≡ self.old.words }
    {
        self.pipes.stop(proc);
        RewriterTurn::Acted(RewriteAct::Stop(proc))
    }

    // Writes a question to a process. Where that fails the process counts as dead.
    fn send(
        &mut self,
        proc: ProcNo,
        question: QuestionNo,
        channel: Option<u32>,
        text: Text,
    ) -> RewriterTurn
        requires { self.old.left ≡ None }
        ensures sends { SendsQuestion
            (half_tells S.ChildIn.contents S.ChildIn.faults S.ChildIn.closed) proc question channel
            text self.old result self.new }
        ensures words { self.new.words ≡ self.old.words }
    {
        match self.pipes.send(proc, channel, text.as_bytes()) {
            SendEnd::Written | SendEnd::Absent => {}
            SendEnd::Failed => {
                let _gave = self.rewriter.died(proc);
            }
        }
        RewriterTurn::Acted(RewriteAct::Send {
            proc,
            question,
            channel,
            text,
        })
    }

    // Performs an act.
    fn perform(&mut self, act: RewriteAct, now: Moment) -> RewriterTurn
        requires { self.old.left ≡ None }
        ensures performs { PerformsAct S.ChildOut.faults
            (half_tells S.ChildIn.contents S.ChildIn.faults S.ChildIn.closed) act
            (step now self.old result self.new) }
        ensures words { self.new.words ≡ self.old.words }
    {
        match act {
            RewriteAct::Stop(proc) => self.stop(proc),
            RewriteAct::Send {
                proc,
                question,
                channel,
                text,
            } => self.send(proc, question, channel, text),
            RewriteAct::Start => self.start(now),
        }
    }

    // Takes the act that is due, and performs it.
    fn begin(&mut self, now: Moment) -> RewriterTurn
        requires { self.old.left ≡ None }
        ensures begins { BeginsAct S.ChildOut.faults
            (half_tells S.ChildIn.contents S.ChildIn.faults S.ChildIn.closed)
            (step now self.old result self.new) }
        ensures words { self.new.words ≡ self.old.words }
    {
        match self.rewriter.act() {
            Some(act) => self.perform(act, now),
            None => RewriterTurn::Idle,
        }
    }

    /// Performs one act that is due, or goes on with the process that an earlier turn left, at this moment.
    pub fn turn(&mut self, now: Moment) -> RewriterTurn
        ensures turns { TurnsFrom S.ChildOut.faults
            (half_tells S.ChildIn.contents S.ChildIn.faults S.ChildIn.closed) self.old.left
            (step now self.old result self.new) }
        ensures words { self.new.words ≡ self.old.words }
    {
        match self.left.take() {
            Some(halves) => {
                let StartedHalves { from, to } = halves;
                self.admit(from, to, now)
            }
            None => self.begin(now),
        }
    }
}
