//! The desk behind its lock, as the control sees it. As of `LockDesk`, nothing is proved here of what lies under the lock
//! but what its type keeps.
ghost use Rattle.std.specs.Prelude.{◌≡◌, ◌<◌, ◌==◌, if◌then◌else◌, min, true, false, None, Some};
ghost use Rattle.std.proofs.Common.{arith};
ghost use Rattle.sq_outside.specs.Causes.{count_limit};

use crate::ledgers::{Ledgers, Makes, Refusals};
use crate::room::Room;
use crate::waits::wake_pump_after;
use sq_base::{EpochNo, Moment};
use sq_calls::{ControlCalls, DeskCalls, DeskFault, TellsJournal};
use sq_rules::Config;
use sq_urlmatch::Setup;
use std::alloc::Global;
use std::sync::ledger::Share;
use std::sync::{Arc, Wait};

/// The desk behind its lock, with shares of its reconfigurations and of its refusals. Where the first is the whole of its
/// book, it tells how many were made. It has the calls of the control alone.
#[derive(Drop)]
pub struct ControlDesk<'a, R: Wait, D: DeskCalls, B: Ledgers> {
    rt: &'a R,
    room: &'a Room<D, B>,
    made: Share<Makes<B>>,
    refused: Share<Refusals<B>>,
    ghost made_parts: { 0 < made.parts },
    ghost refused_parts: { 0 < refused.parts },
    ghost counting: { D.is_counting ≡ true },
}

impl<'a, R: Wait, D: DeskCalls, B: Ledgers> ControlDesk<'a, R, D, B> {
    /// The desk behind this lock, which may make reconfigurations.
    pub fn new(
        rt: &'a R,
        room: &'a Room<D, B>,
        made: Share<Makes<B>>,
        refused: Share<Refusals<B>>,
    ) -> ControlDesk<'a, R, D, B>
        requires made { 0 < made.parts }
        requires refused { 0 < refused.parts }
        requires counting { D.is_counting ≡ true }
        ensures { result.made ≡ made }
    {
        ControlDesk {
            rt,
            room,
            made,
            refused,
        }
    }

    /// The share of reconfigurations, given back.
    pub fn finish(self) -> Share<Makes<B>>
        ensures { result ≡ self.entry.made }
    {
        self.made
    }
}

impl<'a, R: Wait, D: DeskCalls, B: Ledgers> TellsJournal for ControlDesk<'a, R, D, B> {
    ghost told = { λ _. None };

    ghost refused = { λ s. min s.refused.amount count_limit };

    ghost made = { λ s. if s.made.parts == B.makes.parts then Some s.made.amount else None };

    fn config(&self, epoch: EpochNo) -> Option<Arc<Config>> {
        self.room.hall.lock(self.rt).config(epoch)
    }

    fn lives(&self, epoch: EpochNo) -> bool {
        self.room.hall.lock(self.rt).lives(epoch)
    }

    ghost capped = { λ s. Prim.search arith };
}

impl<'a, R: Wait, D: DeskCalls, B: Ledgers> ControlCalls for ControlDesk<'a, R, D, B> {
    ghost is_counting = { false };

    #[tactic(auto, using(crate::proofs::ShareLaws::untold, crate::proofs::ShareLaws::unrefused, crate::proofs::ShareLaws::share_counts, crate::proofs::ShareLaws::share_made))]
    fn reconfigure(
        &mut self,
        alloc: Global,
        setup: Setup,
        now: Moment,
    ) -> Result<EpochNo, DeskFault> {
        let ControlDesk {
            rt,
            room,
            made,
            refused,
        } = self;
        let gave = room
            .hall
            .lock(*rt)
            .reconfigure(alloc, setup, now, made, refused);
        wake_pump_after(*rt, *room, &gave);
        gave
    }
}
