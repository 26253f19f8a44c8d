//! The desk behind its lock, as a thread of helper processes sees it. Nothing is proved here of what lies under the lock but
//! what its type keeps: each call takes it, makes the one call of its name with what it was handed, lets go, and wakes
//! those for whom something may have changed.
ghost use Rattle.std.specs.Prelude.{◌<◌, None, min};
ghost use Rattle.std.proofs.Common.{arith};
ghost use Rattle.sq_outside.specs.Causes.{count_limit};

use crate::ledgers::{Ledgers, Refusals};
use crate::room::Room;
use crate::waits::{wake_after_line, wake_all_after, wake_if_stopped, wake_pump_after};
use sq_base::{EpochNo, Moment, ProcNo, Texts, WantOfMemory};
use sq_calls::{DeskCalls, DeskFault, HelperCalls, TellsJournal, reports_stop};
use sq_channel::Got;
use sq_machine::Act;
use sq_rules::Config;
use std::alloc::Global;
use std::sync::ledger::Share;
use std::sync::{Arc, Wait};

/// The desk behind its lock, with this thread's share of its refusals, and whether its last call from here reported that it has
/// stopped. It tells no journal, since other threads note
/// entries too. It has the calls of helper processes; those of sessions and of the control want shares of other books.
#[derive(Drop)]
pub struct LockDesk<'a, R: Wait, D: DeskCalls, B: Ledgers> {
    rt: &'a R,
    room: &'a Room<D, B>,
    refused: Share<Refusals<B>>,
    // Whether its last call reported that the desk has stopped.
    stopped: bool,
    ghost parts: { 0 < refused.parts },
}

impl<'a, R: Wait, D: DeskCalls, B: Ledgers> LockDesk<'a, R, D, B> {
    /// The desk behind this lock.
    pub fn new(
        rt: &'a R,
        room: &'a Room<D, B>,
        refused: Share<Refusals<B>>,
    ) -> LockDesk<'a, R, D, B>
        requires { 0 < refused.parts }
    {
        LockDesk {
            rt,
            room,
            refused,
            stopped: false,
        }
    }

    /// Whether no more is to be done.
    pub fn is_done(&self) -> bool {
        self.room.hall.lock(self.rt).is_done()
    }
}

impl<'a, R: Wait, D: DeskCalls, B: Ledgers> TellsJournal for LockDesk<'a, R, D, B> {
    ghost told = { λ _. None };

    ghost refused = { λ s. min s.refused.amount count_limit };

    ghost made = { λ _. None };

    fn config(&self, epoch: EpochNo) -> Option<Arc<Config>> {
        self.room.hall.lock(self.rt).config(epoch)
    }

    fn lives(&self, epoch: EpochNo) -> bool {
        self.room.hall.lock(self.rt).lives(epoch)
    }

    ghost capped = { λ s. Prim.search arith };
}

impl<'a, R: Wait, D: DeskCalls, B: Ledgers> HelperCalls for LockDesk<'a, R, D, B> {
    ghost is_stopped = { λ s. s.stopped };

    #[tactic(auto, using(crate::proofs::ShareLaws::untold_start))]
    fn started(
        &mut self,
        alloc: Global,
        epoch: EpochNo,
        class: u32,
        now: Moment,
    ) -> Result<ProcNo, DeskFault> {
        let gave = self
            .room
            .hall
            .lock(self.rt)
            .started(alloc, epoch, class, now, &mut self.refused);
        self.stopped = reports_stop(&gave);
        wake_pump_after(self.rt, self.room, &gave);
        gave
    }

    #[tactic(auto, using(crate::proofs::ShareLaws::untold_start))]
    fn start_failed(
        &mut self,
        alloc: Global,
        epoch: EpochNo,
        class: u32,
        now: Moment,
    ) -> Result<(), DeskFault> {
        let gave = self
            .room
            .hall
            .lock(self.rt)
            .start_failed(alloc, epoch, class, now, &mut self.refused);
        self.stopped = reports_stop(&gave);
        wake_all_after(self.rt, self.room, &gave);
        gave
    }

    #[tactic(auto, using(crate::proofs::ShareLaws::untold, crate::proofs::ShareLaws::unrefused, crate::proofs::ShareLaws::share_counts_line))]
    fn line(
        &mut self,
        alloc: Global,
        proc: ProcNo,
        bytes: &[u8],
        now: Moment,
    ) -> Result<Got, DeskFault> {
        let mut hall = self.room.hall.lock(self.rt);
        let gave = hall.line(alloc, proc, bytes, now, &mut self.refused);
        let place = hall.place_after(&gave);
        drop(hall);
        self.stopped = reports_stop(&gave);
        wake_after_line(self.rt, self.room, &gave, place);
        gave
    }

    #[tactic(auto, using(crate::proofs::ShareLaws::untold, crate::proofs::ShareLaws::unrefused, crate::proofs::ShareLaws::share_counts))]
    fn died(&mut self, proc: ProcNo, now: Moment) -> Result<(), DeskFault> {
        let gave = self
            .room
            .hall
            .lock(self.rt)
            .died(proc, now, &mut self.refused);
        self.stopped = reports_stop(&gave);
        wake_all_after(self.rt, self.room, &gave);
        gave
    }

    #[tactic(auto, using(crate::proofs::ShareLaws::untold_act, crate::proofs::ShareLaws::unrefused, crate::proofs::ShareLaws::share_counts))]
    fn act(&mut self, alloc: Global, now: Moment) -> Result<Option<Act>, DeskFault> {
        let gave = self
            .room
            .hall
            .lock(self.rt)
            .act(alloc, now, &mut self.refused);
        self.stopped = reports_stop(&gave);
        wake_if_stopped(self.rt, self.room, &gave);
        gave
    }

    fn words(
        &self,
        alloc: Global,
        epoch: EpochNo,
        class: u32,
    ) -> Result<Option<Texts>, WantOfMemory> {
        self.room.hall.lock(self.rt).words(alloc, epoch, class)
    }
}
