//! The entries that a pump still owes the desk.
ghost use Rattle.std.specs.Prelude.{◌≡◌, None};
ghost use Rattle.sq_helper_threads.specs.Halves.{in_tells};
ghost use Rattle.sq_helper_threads.specs.Pumps.{step};
ghost use Rattle.sq_helper_threads.specs.Turning.{PumpCounts, IsAdmitted, IsTakenUp, Reports, SameHalves, SameSpawner};

use crate::halves::{AskerOut, ProcIn};
use crate::pump::ServePump;
use crate::taking::{let_go, note_start, put_both};
use crate::turns::{Left, Turn};
use sq_base::{EpochNo, Moment, ProcNo};
use sq_calls::{DeskFault, HelperCalls};
use sq_machine::Act;
use sq_outside::Spawner;
use std::sync::Wait;

impl<'a, S: Spawner, K: HelperCalls, R: Wait> ServePump<'a, S, K, R> {
    // The half of this process failed in this act.
    pub(crate) fn report_died(&mut self, proc: ProcNo, act: Act, now: Moment) -> Turn
        requires { self.old.left ≡ None }
        ensures reports { Reports (Left.Died proc act) now self.old.told self.old.refused
            self.old.stopped result self.new }
        ensures spawner { SameSpawner self.old self.new }
        ensures halves { SameHalves self.old self.new }
        ensures counts { PumpCounts self.old self.new }
    {
        match self.desk.died(proc, now) {
            Ok(()) | Err(DeskFault::Engine(_)) => Turn::Acted(act),
            Err(DeskFault::WantOfMemory) => self.leave(Left::Died { proc, act }),
            Err(DeskFault::Stopped | DeskFault::JournalFault) => Turn::Ended,
        }
    }

    // The spawner failed this start.
    pub(crate) fn report_failed(&mut self, epoch: EpochNo, class: u32, now: Moment) -> Turn
        requires { self.old.left ≡ None }
        ensures reports { Reports (Left.Failed epoch class) now self.old.told self.old.refused
            self.old.stopped result self.new }
        ensures spawner { SameSpawner self.old self.new }
        ensures halves { SameHalves self.old self.new }
        ensures counts { PumpCounts self.old self.new }
    {
        match self.desk.start_failed(self.alloc, epoch, class, now) {
            Ok(()) => Turn::Acted(Act::Start { epoch, class }),
            Err(DeskFault::Engine(_)) => Turn::Acted(Act::Start { epoch, class }),
            Err(DeskFault::WantOfMemory) => self.leave(Left::Failed { epoch, class }),
            Err(DeskFault::Stopped | DeskFault::JournalFault) => Turn::Ended,
        }
    }

    // This process was started.
    pub(crate) fn admit(
        &mut self,
        epoch: EpochNo,
        class: u32,
        from: S::ChildOut,
        mut to: ProcIn<'a, S::ChildIn, R>,
        now: Moment,
    ) -> Turn
        requires { self.old.left ≡ None }
        ensures reports { Reports (Left.Started epoch class from to.entry) now self.old.told
            self.old.refused self.old.stopped result self.new }
        ensures admitted { IsAdmitted
            (in_tells S.ChildIn.contents S.ChildIn.faults S.ChildIn.closed) epoch class from
            to.entry (step now self.old result self.new) }
        ensures spawner { SameSpawner self.old self.new }
        ensures counts { PumpCounts self.old self.new }
    {
        match note_start(
            &mut self.desk,
            &mut self.pipes,
            &mut self.readers,
            self.alloc,
            epoch,
            class,
            now,
        ) {
            Ok(proc) => {
                put_both(&mut self.pipes, &mut self.readers, proc, now, from, to);
                Turn::Acted(Act::Start { epoch, class })
            }
            Err(DeskFault::Engine(_)) => {
                let_go(from, &mut to);
                Turn::Acted(Act::Start { epoch, class })
            }
            Err(DeskFault::WantOfMemory) => self.leave(Left::Started {
                epoch,
                class,
                from,
                to,
            }),
            Err(DeskFault::Stopped | DeskFault::JournalFault) => {
                let_go(from, &mut to);
                Turn::Ended
            }
        }
    }

    // A thread is to answer look-ups through these halves.
    pub(crate) fn take_up(
        &mut self,
        epoch: EpochNo,
        class: u32,
        from: AskerOut<'a, R>,
        mut to: ProcIn<'a, S::ChildIn, R>,
        now: Moment,
    ) -> Turn
        requires { self.old.left ≡ None }
        ensures reports { Reports (Left.Asked epoch class from.entry to.entry) now self.old.told
            self.old.refused self.old.stopped result self.new }
        ensures taken { IsTakenUp epoch class from.entry to.entry
            (step now self.old result self.new) }
        ensures spawner { SameSpawner self.old self.new }
        ensures counts { PumpCounts self.old self.new }
    {
        match note_start(
            &mut self.desk,
            &mut self.pipes,
            &mut self.asking,
            self.alloc,
            epoch,
            class,
            now,
        ) {
            Ok(proc) => {
                put_both(&mut self.pipes, &mut self.asking, proc, now, from, to);
                Turn::Acted(Act::Start { epoch, class })
            }
            Err(DeskFault::Engine(_)) => {
                let_go(from, &mut to);
                Turn::Acted(Act::Start { epoch, class })
            }
            Err(DeskFault::WantOfMemory) => self.leave(Left::Asked {
                epoch,
                class,
                from,
                to,
            }),
            Err(DeskFault::Stopped | DeskFault::JournalFault) => {
                let_go(from, &mut to);
                Turn::Ended
            }
        }
    }
}
