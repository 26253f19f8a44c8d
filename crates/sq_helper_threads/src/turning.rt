//! A turn of a pump: one act, or what an earlier turn left.
ghost use Rattle.std.specs.Prelude.{◌≡◌, None};
ghost use Rattle.sq_helper_threads.specs.Entries.{IsTurn};
ghost use Rattle.sq_helper_threads.specs.Halves.{in_tells};
ghost use Rattle.sq_helper_threads.specs.Pumps.{pump_tells, step};
ghost use Rattle.sq_helper_threads.specs.Turning.{BeginsTurn, PumpCounts, IsSending, IsStopping, Performs, Resumes, Turns};

use crate::halves::{AskerOut, ProcIn};
use crate::pump::ServePump;
use crate::turns::{Left, Turn};
use sq_base::{Moment, ProcNo, QuestionNo, Text};
use sq_calls::{DeskFault, HelperCalls};
use sq_keeper::SendEnd;
use sq_machine::Act;
use sq_outside::Spawner;
use std::sync::Wait;

impl<'a, S: Spawner, K: HelperCalls, R: Wait> ServePump<'a, S, K, R>
where
    S::ChildIn: Drop,
{
    // Stops a process. Its half is kept, closed.
    fn stop(&mut self, proc: ProcNo) -> Turn
        requires { self.old.left ≡ None }
        ensures { IsStopping (in_tells S.ChildIn.contents S.ChildIn.faults S.ChildIn.closed) proc
            self.old result self.new }
    {
        self.pipes.stop(proc);
        Turn::Acted(Act::Stop(proc))
    }

    // Writes a question to a process. Where its half fails the process is reported dead.
    fn send(
        &mut self,
        proc: ProcNo,
        question: QuestionNo,
        channel: Option<u32>,
        text: Text,
        now: Moment,
    ) -> Turn
        requires { self.old.left ≡ None }
        ensures sending { IsSending
            (in_tells S.ChildIn.contents S.ChildIn.faults S.ChildIn.closed) proc question channel
            text (step now self.old result self.new) }
        ensures counts { PumpCounts self.old self.new }
    {
        let sent = self.pipes.send(proc, channel, text.as_bytes());
        let act = Act::Send {
            proc,
            question,
            channel,
            text,
        };
        match sent {
            SendEnd::Written | SendEnd::Absent => Turn::Acted(act),
            SendEnd::Failed => self.report_died(proc, act, now),
        }
    }

    // Performs an act.
    fn perform(&mut self, act: Act, now: Moment) -> Turn
        requires { self.old.left ≡ None }
        ensures performs { Performs (pump_tells K.programs K.configs S.ChildOut.faults
            (in_tells S.ChildIn.contents S.ChildIn.faults S.ChildIn.closed)) act
            (step now self.old result self.new) }
        ensures counts { PumpCounts self.old self.new }
    {
        match act {
            Act::Stop(proc) => self.stop(proc),
            Act::Send {
                proc,
                question,
                channel,
                text,
            } => self.send(proc, question, channel, text, now),
            Act::Start { epoch, class } => self.start(epoch, class, now),
        }
    }

    // Takes up what an earlier turn left.
    fn resume(
        &mut self,
        left: Left<S::ChildOut, ProcIn<'a, S::ChildIn, R>, AskerOut<'a, R>>,
        now: Moment,
    ) -> Turn
        requires { self.old.left ≡ None }
        ensures resumes { Resumes (pump_tells K.programs K.configs S.ChildOut.faults
            (in_tells S.ChildIn.contents S.ChildIn.faults S.ChildIn.closed))
            left.entry (step now self.old result self.new) }
        ensures counts { PumpCounts self.old self.new }
    {
        match left {
            Left::Whole(act) => self.perform(act, now),
            Left::Failed { epoch, class } => self.report_failed(epoch, class, now),
            Left::Started {
                epoch,
                class,
                from,
                to,
            } => self.admit(epoch, class, from, to, now),
            Left::Asked {
                epoch,
                class,
                from,
                to,
            } => self.take_up(epoch, class, from, to, now),
            Left::Died { proc, act } => self.report_died(proc, act, now),
        }
    }

    // Asks the desk for an act, and performs it.
    fn begin(&mut self, now: Moment) -> Turn
        requires { self.old.left ≡ None }
        ensures begins { BeginsTurn (pump_tells K.programs K.configs S.ChildOut.faults
            (in_tells S.ChildIn.contents S.ChildIn.faults S.ChildIn.closed))
            (step now self.old result self.new) }
        ensures counts { PumpCounts self.old self.new }
    {
        match self.desk.act(self.alloc, now) {
            Ok(Some(act)) => self.perform(act, now),
            Ok(None) => Turn::Idle,
            Err(DeskFault::WantOfMemory) => Turn::WantOfMemory,
            Err(DeskFault::Stopped | DeskFault::JournalFault) => Turn::Ended,
            // The machine refuses no act.
            Err(DeskFault::Engine(_)) => unreachable!(),
        }
    }

    // Goes on with what an earlier turn left, or begins.
    fn go_on(&mut self, now: Moment) -> Turn
        ensures turns { Turns (pump_tells K.programs K.configs S.ChildOut.faults
            (in_tells S.ChildIn.contents S.ChildIn.faults S.ChildIn.closed))
            (step now self.old result self.new) }
        ensures counts { PumpCounts self.old self.new }
    {
        match self.left.take() {
            Some(left) => self.resume(left, now),
            None => self.begin(now),
        }
    }

    /// Performs one act that is due, or goes on with what an earlier turn left, at this moment.
    pub fn turn(&mut self, now: Moment) -> Turn
        // What it did. Each entry that is noted behind an act, and what is left, has its cause in this turn or in an earlier one,
        // and all that is noted is noted at this moment.
        ensures turn { IsTurn (pump_tells K.programs K.configs S.ChildOut.faults
            (in_tells S.ChildIn.contents S.ChildIn.faults S.ChildIn.closed))
            (step now self.old result self.new) }
        ensures counts { PumpCounts self.old self.new }
    {
        self.go_on(now)
    }
}
