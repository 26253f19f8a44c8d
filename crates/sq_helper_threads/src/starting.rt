//! Starts of processes.
ghost use Rattle.std.specs.Prelude.{◌≡◌, None, Some};
ghost use Rattle.sq_helper_threads.specs.Halves.{in_tells};
ghost use Rattle.sq_helper_threads.specs.Pumps.{pump_tells, step};
ghost use Rattle.sq_helper_threads.specs.Turning.{PumpCounts, IsProgram, IsStarting};

use crate::asking::is_lookup_program;
use crate::halves::ProcIn;
use crate::pump::ServePump;
use crate::turns::{Left, Turn};
use sq_base::{EpochNo, Moment, Text, WantOfMemory};
use sq_calls::HelperCalls;
use sq_machine::Act;
use sq_outside::{Failed, Spawner};
use std::sync::Wait;

impl<'a, S: Spawner, K: HelperCalls, R: Wait> ServePump<'a, S, K, R>
where
    S::ChildIn: Drop,
{
    // Starts a process of a class. Halves that were closed are let go of.
    pub(crate) fn start(&mut self, epoch: EpochNo, class: u32, now: Moment) -> Turn
        requires { self.old.left ≡ None }
        ensures starting { IsStarting (pump_tells K.programs K.configs S.ChildOut.faults
            (in_tells S.ChildIn.contents S.ChildIn.faults S.ChildIn.closed))
            epoch class (step now self.old result self.new) }
        ensures counts { PumpCounts self.old self.new }
    {
        match self.desk.words(self.alloc, epoch, class) {
            Ok(Some(words)) => self.start_by(epoch, class, words.as_slice(), now),
            Ok(None) => Turn::Acted(Act::Start { epoch, class }),
            Err(WantOfMemory) => self.leave(Left::Whole(Act::Start { epoch, class })),
        }
    }

    // Starts a process of a class, whose words these are.
    fn start_by(&mut self, epoch: EpochNo, class: u32, words: &[Text], now: Moment) -> Turn
        requires idle { self.old.left ≡ None }
        requires program { IsProgram K.programs self.old epoch class (Some words.now) }
        ensures starting { IsStarting (pump_tells K.programs K.configs S.ChildOut.faults
            (in_tells S.ChildIn.contents S.ChildIn.faults S.ChildIn.closed))
            epoch class (step now self.old result self.new) }
        ensures counts { PumpCounts self.old self.new }
    {
        if is_lookup_program(words) {
            return self.start_asker(epoch, class, now);
        }
        self.pipes.sweep();
        match self.spawner.start(self.alloc, words) {
            Ok((from, to)) => self.admit(epoch, class, from, ProcIn::Child(to), now),
            Err(Failed) => self.report_failed(epoch, class, now),
        }
    }
}
