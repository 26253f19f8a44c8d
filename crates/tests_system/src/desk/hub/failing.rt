//! A hub of which one call fails.
ghost use Rattle.std.specs.Prelude.{◌≡◌, ◌+◌, true, false, if◌then◌else◌};

use sq_base::{Addr, CheckNo, ConnNo, EpochNo, QuestionNo, Request, Text};
use sq_checks::Record;
use sq_model::Stepped;
use sq_pools::{ChooseFault, Seat, TagSeat};
use sq_rewrite::{RewriteFault, Rewriting};
use sq_rules::Config;
use sq_turns::{Counts, Hub, HubFault};
use std::alloc::Global;
use std::sync::Arc;

/// A hub over another one. Of its calls that may fail, the one of this number, from 1, is not made, and fails.
pub struct Failing<H: Hub + Drop> {
    hub: H,
    call: u64,
    made: u64,
    failed: bool,
}

// Written out, so that who lets one go does not take it apart.
impl<H: Hub + Drop> Drop for Failing<H> {
    fn drop(self) {
        let Failing {
            hub: _,
            call: _,
            made: _,
            failed: _,
        } = self;
    }
}

impl<H: Hub + Drop> Failing<H> {
    pub fn new(hub: H, call: u64) -> Failing<H> {
        Failing {
            hub,
            call,
            made: 0,
            failed: false,
        }
    }

    /// Whether a call failed.
    pub fn failed(&self) -> bool {
        self.failed
    }

    // Whether the next call fails. One does at most.
    fn fails(&mut self) -> bool
        ensures hub { self.new.hub ≡ self.old.hub }
        ensures before { result ≡ true → self.old.failed ≡ false }
        ensures after { result ≡ true → self.new.failed ≡ true }
        ensures stays { result ≡ false → self.new.failed ≡ self.old.failed }
    {
        self.made = self.made.saturating_add(1);
        if self.made == self.call && !self.failed {
            self.failed = true;
            return true;
        }
        false
    }
}

impl<H: Hub + Drop> Hub for Failing<H> {
    ghost use Rattle.std.specs.Prelude.{None};

    ghost asked = { λ f. H.asked f.hub };

    ghost refused = { λ f. H.refused f.hub + (if f.failed then 1 else 0) };

    ghost granted = { λ f. H.granted f.hub };

    ghost faults = { λ f. H.faults f.hub + (if f.failed then 1 else 0) };

    ghost told = { λ f. None };

    fn open(&mut self, alloc: Global, conn: ConnNo, addr: Addr, port: u16) -> Result<(), HubFault> {
        if self.fails() {
            return Err(HubFault::JournalFault);
        }
        self.hub.open(alloc, conn, addr, port)
    }

    fn close(&mut self, conn: ConnNo) -> Result<(), HubFault> {
        if self.fails() {
            return Err(HubFault::JournalFault);
        }
        self.hub.close(conn)
    }

    fn ask(&mut self, alloc: Global, conn: ConnNo, request: Request) -> Result<CheckNo, HubFault> {
        if self.fails() {
            return Err(HubFault::JournalFault);
        }
        self.hub.ask(alloc, conn, request)
    }

    fn step(&mut self, alloc: Global, check: CheckNo) -> Result<Stepped, HubFault> {
        if self.fails() {
            return Err(HubFault::JournalFault);
        }
        self.hub.step(alloc, check)
    }

    fn take(&mut self, alloc: Global, check: CheckNo) -> Result<Record, HubFault> {
        if self.fails() {
            return Err(HubFault::JournalFault);
        }
        self.hub.take(alloc, check)
    }

    fn rewrites(&self) -> bool {
        self.hub.rewrites()
    }

    fn put_rewrite(&mut self, alloc: Global, judged: &Record) -> Result<QuestionNo, RewriteFault> {
        if self.fails() {
            return Err(RewriteFault::WantOfMemory);
        }
        self.hub.put_rewrite(alloc, judged)
    }

    fn take_rewrite(&mut self, question: QuestionNo) -> Result<Option<Rewriting>, RewriteFault> {
        if self.fails() {
            return Err(RewriteFault::WantOfMemory);
        }
        self.hub.take_rewrite(question)
    }

    fn choose(
        &mut self,
        alloc: Global,
        epoch: EpochNo,
        config: &Arc<Config>,
        pool: u32,
        addr: Addr,
    ) -> Result<Seat, ChooseFault> {
        if self.fails() {
            return Err(ChooseFault::WantOfMemory);
        }
        self.hub.choose(alloc, epoch, config, pool, addr)
    }

    fn grant(&mut self, seat: &Seat, wanted: u64) -> u64 {
        self.hub.grant(seat, wanted)
    }

    fn leave(&mut self, seat: Seat) {
        self.hub.leave(seat)
    }

    fn choose_tag(
        &mut self,
        alloc: Global,
        epoch: EpochNo,
        config: &Arc<Config>,
        pool: u32,
        tag: &Text,
    ) -> Result<TagSeat, ChooseFault> {
        if self.fails() {
            return Err(ChooseFault::WantOfMemory);
        }
        self.hub.choose_tag(alloc, epoch, config, pool, tag)
    }

    fn grant_tag(&mut self, seat: &TagSeat, wanted: u64) -> u64 {
        self.hub.grant_tag(seat, wanted)
    }

    fn leave_tag(&mut self, seat: TagSeat) {
        self.hub.leave_tag(seat)
    }

    fn wait(&mut self) {
        self.hub.wait()
    }

    fn pause(&mut self) {
        self.hub.pause()
    }

    fn counted(&self) -> Counts {
        self.hub.counted()
    }

    ghost asked_capped = { λ f. H.asked_capped f.hub };

    ghost granted_capped = { λ f. H.granted_capped f.hub };
}
