//! `LockHub`: the engine, the rewriter and the pools behind their locks, as one connection sees them.
ghost use Rattle.std.specs.Prelude.{◌≡◌, min, None};
ghost use Rattle.sq_outside.specs.Causes.{count_limit};
ghost use Rattle.sq_workers.specs.HubFaults.{hub_fault, hub_gave};

use crate::hub_waits::{HubWaits, put_rewrite};
use crate::lent_seats::LentSeat;
use crate::rooms::SessionRooms;
use crate::tallies::Tally;
use sq_base::{Addr, CheckNo, ConnNo, EpochNo, QuestionNo, Request, Text};
use sq_calls::{DeskCalls, DeskFault};
use sq_checks::Record;
use sq_model::Stepped;
use sq_outside::Clock;
use sq_pools::{Bank, ChooseFault, Seat, TagSeat};
use sq_rewrite::{RewriteFault, RewriterRoom, Rewriting};
use sq_rules::Config;
use sq_shared::{Asks, Grants, Ledgers, Refusals, Room, holds, wake_after_step, wake_if_stopped};
use sq_turns::{Counts, Hub, HubFault};
use std::alloc::Global;
use std::sync::ledger::Share;
use std::sync::{Arc, Mutex, Wait};

/// The shares of a hub.
#[derive(Drop)]
pub struct Shares<B: Ledgers> {
    /// Of the requests that it made.
    pub asked: Share<Asks<B>>,
    /// Of the calls that were refused.
    pub refused: Share<Refusals<B>>,
    /// Of the bytes that it was granted.
    pub granted: Share<Grants<B>>,
}

/// The engine, the rewriter, if there is one, and the pools behind their locks. Each call that has the name of one of theirs is
/// one hold, in which it makes that one call, at the moment of its clock, and adds to its shares; a grant makes one more for each
/// pause in which it waits for the turn of its seat. It tells how many requests it made and how many bytes it was granted, each up
/// to 2^63 - 1, and remembers what its next wait and its next pause are for.
pub struct LockHub<'a, R: Wait, D: DeskCalls, B: Ledgers, C: Clock + Drop> {
    rt: &'a R,
    rooms: SessionRooms<'a, D, B>,
    clock: C,
    waits: HubWaits,
    asked: Tally<Asks<B>>,
    granted: Tally<Grants<B>>,
    refused: Share<Refusals<B>>,
    ghost refused_part: { refused.parts ≡ 1 },
}

// Written out, so that whoever lets a hub go proves one call.
impl<'a, R: Wait, D: DeskCalls, B: Ledgers, C: Clock + Drop> Drop for LockHub<'a, R, D, B, C> {
    fn drop(self) {
        let LockHub {
            rt: _,
            rooms: _,
            clock: _,
            waits: _,
            asked: _,
            granted: _,
            refused: _,
        } = self;
    }
}

// The fault of a hub where the desk did not make a call. A desk that has stopped is a journal that failed.
fn hub_fault(fault: DeskFault) -> HubFault
    ensures { result ≡ hub_fault fault }
{
    match fault {
        DeskFault::Engine(refusal) => HubFault::Refused(refusal),
        DeskFault::Stopped | DeskFault::JournalFault => HubFault::JournalFault,
        DeskFault::WantOfMemory => HubFault::WantOfMemory,
    }
}

// What a hub gives for what the desk gave.
fn hub_gave<T>(gave: Result<T, DeskFault>) -> Result<T, HubFault>
    ensures { result ≡ hub_gave gave }
{
    match gave {
        Ok(value) => Ok(value),
        Err(fault) => Err(hub_fault(fault)),
    }
}

// Behind a hold of the desk: where the desk has stopped, all who wait learn it.
fn after<R: Wait, D: DeskCalls, B: Ledgers, T>(
    rt: &R,
    room: &Room<D, B>,
    gave: Result<T, DeskFault>,
) -> Result<T, HubFault>
    ensures { result ≡ hub_gave gave }
{
    wake_if_stopped(rt, room, &gave);
    hub_gave(gave)
}

impl<'a, R: Wait, D: DeskCalls, B: Ledgers, C: Clock + Drop> LockHub<'a, R, D, B, C> {
    /// A hub over these locks that asked nothing yet and was granted nothing.
    #[inline(never)]
    pub fn new(
        rt: &'a R,
        room: &'a Room<D, B>,
        bank: &'a Mutex<Bank<Grants<B>>>,
        rewriter: Option<&'a RewriterRoom>,
        clock: C,
        asked: Share<Asks<B>>,
        refused: Share<Refusals<B>>,
        granted: Share<Grants<B>>,
    ) -> LockHub<'a, R, D, B, C>
        requires asked { (asked.parts ≡ 1) × (asked.amount ≡ 0) }
        requires refused { refused.parts ≡ 1 }
        requires granted { (granted.parts ≡ 1) × (granted.amount ≡ 0) }
        ensures asked { result.asked.share ≡ asked }
        ensures refused { result.refused ≡ refused }
        ensures granted { result.granted.share ≡ granted }
    {
        LockHub {
            rt,
            rooms: SessionRooms {
                room,
                bank,
                rewriter,
            },
            clock,
            waits: HubWaits::new(),
            asked: Tally::new(asked),
            granted: Tally::new(granted),
            refused,
        }
    }

    /// Its shares, given back.
    #[inline(never)]
    pub fn finish(self) -> Shares<B>
        ensures asked { result.asked ≡ self.entry.asked.share }
        ensures refused { result.refused ≡ self.entry.refused }
        ensures granted { result.granted ≡ self.entry.granted.share }
        ensures parts { (result.asked.parts ≡ 1) × (result.refused.parts ≡ 1)
            × (result.granted.parts ≡ 1) }
    {
        let LockHub {
            rt: _,
            rooms: _,
            clock: _,
            waits: _,
            asked,
            granted,
            refused,
        } = self;
        Shares {
            asked: asked.finish(),
            refused,
            granted: granted.finish(),
        }
    }
}

impl<'a, R: Wait, D: DeskCalls, B: Ledgers, C: Clock + Drop> Hub for LockHub<'a, R, D, B, C> {
    ghost use Rattle.std.proofs.Common.{arith};

    ghost told = { λ _. None };

    ghost asked = { λ s. min s.asked.share.amount count_limit };

    ghost refused = { λ s. min s.refused.amount count_limit };

    ghost granted = { λ s. min s.granted.share.amount count_limit };

    // A journal that failed counts as a refusal.
    ghost faults = { λ s. min s.refused.amount count_limit };

    ghost asked_capped = { λ s. Prim.search arith };

    ghost granted_capped = { λ s. Prim.search arith };

    #[inline(never)]
    #[tactic(auto, using(crate::proofs::HubLaws::hub_refusals))]
    fn open(
        &mut self,
        _alloc: Global,
        conn: ConnNo,
        addr: Addr,
        port: u16,
    ) -> Result<(), HubFault> {
        let room = self.rooms.room;
        let refused = &mut self.refused;
        let gave = holds::open(self.rt, room, conn, addr, port, &mut self.clock, refused);
        after(self.rt, room, gave)
    }

    #[inline(never)]
    #[tactic(auto, using(crate::proofs::HubLaws::hub_refusals))]
    fn close(&mut self, conn: ConnNo) -> Result<(), HubFault> {
        let room = self.rooms.room;
        let gave = holds::close(self.rt, room, conn, &mut self.clock, &mut self.refused);
        after(self.rt, room, gave)
    }

    #[inline(never)]
    #[tactic(auto, using(crate::proofs::HubLaws::hub_refusals, crate::proofs::HubLaws::hub_asks))]
    fn ask(&mut self, alloc: Global, conn: ConnNo, request: Request) -> Result<CheckNo, HubFault> {
        let room = self.rooms.room;
        let clock = &mut self.clock;
        let refused = &mut self.refused;
        let gave = self
            .asked
            .ask(self.rt, room, alloc, conn, request, clock, refused);
        after(self.rt, room, gave)
    }

    #[tactic(auto, using(crate::proofs::HubLaws::hub_refusals))]
    fn step(&mut self, alloc: Global, check: CheckNo) -> Result<Stepped, HubFault> {
        let room = self.rooms.room;
        let refused = &mut self.refused;
        let gave = holds::step(self.rt, room, alloc, check, &mut self.clock, refused);
        wake_after_step(self.rt, room, &gave);
        self.waits.stepped(&gave);
        hub_gave(gave)
    }

    #[inline(never)]
    #[tactic(auto, using(crate::proofs::HubLaws::hub_refusals))]
    fn take(&mut self, alloc: Global, check: CheckNo) -> Result<Record, HubFault> {
        let room = self.rooms.room;
        let refused = &mut self.refused;
        let gave = holds::take(self.rt, room, alloc, check, &mut self.clock, refused);
        after(self.rt, room, gave)
    }

    fn rewrites(&self) -> bool {
        self.rooms.rewriter.is_some()
    }

    fn put_rewrite(&mut self, alloc: Global, judged: &Record) -> Result<QuestionNo, RewriteFault> {
        put_rewrite(self.rt, self.rooms.rewriter, alloc, judged)
    }

    fn take_rewrite(&mut self, question: QuestionNo) -> Result<Option<Rewriting>, RewriteFault> {
        self.waits
            .take_rewrite(self.rt, self.rooms.rewriter, question)
    }

    fn choose(
        &mut self,
        alloc: Global,
        epoch: EpochNo,
        config: &Arc<Config>,
        pool: u32,
        addr: Addr,
    ) -> Result<Seat, ChooseFault> {
        let now = self.clock.now();
        let bank = self.rooms.bank;
        sq_pools::choose(self.rt, alloc, bank, epoch, config, pool, addr, now)
    }

    fn grant(&mut self, seat: &Seat, wanted: u64) -> u64 {
        let seat = LentSeat::ByAddress(seat);
        let clock = &mut self.clock;
        let gains_at = &mut self.waits.gains_at;
        self.granted
            .grant(self.rt, self.rooms.bank, seat, wanted, clock, gains_at)
    }

    fn leave(&mut self, seat: Seat) {
        sq_pools::leave(self.rt, self.rooms.bank, seat);
    }

    fn choose_tag(
        &mut self,
        alloc: Global,
        epoch: EpochNo,
        config: &Arc<Config>,
        pool: u32,
        tag: &Text,
    ) -> Result<TagSeat, ChooseFault> {
        let now = self.clock.now();
        let bank = self.rooms.bank;
        sq_pools::choose_tag(self.rt, alloc, bank, epoch, config, pool, tag, now)
    }

    fn grant_tag(&mut self, seat: &TagSeat, wanted: u64) -> u64 {
        let seat = LentSeat::ByTag(seat);
        let clock = &mut self.clock;
        let gains_at = &mut self.waits.gains_at;
        self.granted
            .grant(self.rt, self.rooms.bank, seat, wanted, clock, gains_at)
    }

    fn leave_tag(&mut self, seat: TagSeat) {
        sq_pools::leave_tag(self.rt, self.rooms.bank, seat);
    }

    fn wait(&mut self) {
        self.waits.wait(self.rt, &self.rooms);
    }

    fn pause(&mut self) {
        self.waits.pause(&mut self.clock);
    }

    fn counted(&self) -> Counts {
        Counts {
            asked: self.asked.count(),
            granted: self.granted.count(),
        }
    }
}
