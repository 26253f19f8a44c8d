//! `Hub`: the engine, the rewriter and the pools as one connection sees them.
ghost use Rattle.std.specs.Prelude.{◌≡◌, ℕ, ◌≤◌, true, false};
ghost use Rattle.sq_outside.specs.Causes.{count_limit};
ghost use Rattle.sq_pools.specs.Basins.{has_pool, has_tag_pool};
ghost use Rattle.std.specs.declared.option.Option.{Option};
ghost use Rattle.sq_machine.specs.declared.entries.Event.TheVariants as event;
ghost use Rattle.sq_turns.specs.Hubs.{HubRefuses, HubFails, asked_by, granted_by};
ghost use Rattle.sq_turns.specs.Tellings.{HubState, Tells, MakesOn, Asks, Takes, Puts, TakesRewriting, SaysRewriter, Waited, Paused, Chooses, ChoosesTag, Grants, GrantsTag, Leaves, LeavesTag, IsFine, IsStep};

use crate::front::Counts;
use sq_base::{Addr, CheckNo, ConnNo, EpochNo, QuestionNo, Request, Text};
use sq_checks::Record;
use sq_machine::Refusal;
use sq_model::Stepped;
use sq_pools::{ChooseFault, Seat, TagSeat};
use sq_rewrite::{RewriteFault, Rewriting};
use sq_rules::Config;
use std::alloc::Global;
use std::sync::Arc;
use thiserror::Error;

/// Why a call of a hub was not made.
#[derive(Clone, Copy, Debug, Error)]
pub enum HubFault {
    /// The engine refuses it.
    #[error("{0}")]
    Refused(Refusal),
    /// The journal could not be written, in this call or before.
    #[error("the journal failed")]
    JournalFault,
    /// There was no memory.
    #[error("out of memory")]
    WantOfMemory,
}

/// The calls of the engine, of the rewriter and of the pools that a connection makes.
pub trait Hub {
    /// How many questions were asked. It never falls.
    ghost asked: { Self → ℕ };

    /// How often a call was refused, or its journal could not be written. It never falls.
    ghost refused: { Self → ℕ };

    /// How many bytes were granted on seats. It never falls.
    ghost granted: { Self → ℕ };

    /// How often the journal failed. It never falls.
    ghost faults: { Self → ℕ };

    /// What the machine, the rewriter and the pools are, where it tells that.
    ghost told: { Self → Option HubState };

    /// Opens a connection.
    fn open(&mut self, alloc: Global, conn: ConnNo, addr: Addr, port: u16) -> Result<(), HubFault>
        ensures told { Tells (MakesOn IsFine (event.Open conn addr port) result) (told self.old)
            (told self.new) }
        ensures refused { HubRefuses (refused self.old) (refused self.new) result }
        ensures failed { HubFails (faults self.old) (faults self.new) result }
        ensures asked { asked self.new ≡ asked self.old }
        ensures granted { granted self.new ≡ granted self.old }
        ensures refused_later { refused self.old ≤ refused self.new }
        ensures faults_later { faults self.old ≤ faults self.new };

    /// Closes a connection.
    fn close(&mut self, conn: ConnNo) -> Result<(), HubFault>
        ensures told { Tells (MakesOn IsFine (event.Close conn) result) (told self.old)
            (told self.new) }
        ensures refused { HubRefuses (refused self.old) (refused self.new) result }
        ensures failed { HubFails (faults self.old) (faults self.new) result }
        ensures asked { asked self.new ≡ asked self.old }
        ensures granted { granted self.new ≡ granted self.old }
        ensures refused_later { refused self.old ≤ refused self.new }
        ensures faults_later { faults self.old ≤ faults self.new };

    /// Asks about a request of a connection.
    fn ask(&mut self, alloc: Global, conn: ConnNo, request: Request) -> Result<CheckNo, HubFault>
        ensures told { Tells (Asks conn request result) (told self.old) (told self.new) }
        ensures refused { HubRefuses (refused self.old) (refused self.new) result }
        ensures failed { HubFails (faults self.old) (faults self.new) result }
        ensures asked { asked self.new ≡ asked_by (asked self.old) result }
        ensures granted { granted self.new ≡ granted self.old }
        ensures refused_later { refused self.old ≤ refused self.new }
        ensures faults_later { faults self.old ≤ faults self.new };

    /// Takes a check a step further.
    fn step(&mut self, alloc: Global, check: CheckNo) -> Result<Stepped, HubFault>
        ensures told { Tells (MakesOn IsStep (event.Step check) result) (told self.old)
            (told self.new) }
        ensures refused { HubRefuses (refused self.old) (refused self.new) result }
        ensures failed { HubFails (faults self.old) (faults self.new) result }
        ensures asked { asked self.new ≡ asked self.old }
        ensures granted { granted self.new ≡ granted self.old }
        ensures refused_later { refused self.old ≤ refused self.new }
        ensures faults_later { faults self.old ≤ faults self.new };

    /// Takes the record of a check that is done: where it tells, that is the machine's of this check, with its answers.
    fn take(&mut self, alloc: Global, check: CheckNo) -> Result<Record, HubFault>
        ensures told { Tells (Takes check result) (told self.old) (told self.new) }
        ensures refused { HubRefuses (refused self.old) (refused self.new) result }
        ensures failed { HubFails (faults self.old) (faults self.new) result }
        ensures asked { asked self.new ≡ asked self.old }
        ensures granted { granted self.new ≡ granted self.old }
        ensures refused_later { refused self.old ≤ refused self.new }
        ensures faults_later { faults self.old ≤ faults self.new };

    /// Whether there is a rewriter of requests. It takes no memory.
    fn rewrites(&self) -> bool
        ensures told { SaysRewriter result (told self.now) };

    /// Puts the question about the request of a record to the rewriter. Without a rewriter it is full.
    fn put_rewrite(&mut self, alloc: Global, judged: &Record) -> Result<QuestionNo, RewriteFault>
        ensures told { Tells (Puts judged.now result) (told self.old) (told self.new) }
        ensures asked { asked self.new ≡ asked self.old }
        ensures granted { granted self.new ≡ granted self.old }
        ensures refused_later { refused self.old ≤ refused self.new }
        ensures faults_later { faults self.old ≤ faults self.new };

    /// What a question to the rewriter came to, which can be taken once; `None` where it has not ended. Without a
    /// rewriter no question is known. It takes no memory.
    fn take_rewrite(&mut self, question: QuestionNo) -> Result<Option<Rewriting>, RewriteFault>
        ensures told { Tells (TakesRewriting question result) (told self.old) (told self.new) }
        ensures asked { asked self.new ≡ asked self.old }
        ensures granted { granted self.new ≡ granted self.old }
        ensures refused_later { refused self.old ≤ refused self.new }
        ensures faults_later { faults self.old ≤ faults self.new };

    /// Takes a seat in a pool of this configuration whose buckets are by addresses, for a client of this address.
    fn choose(
        &mut self,
        alloc: Global,
        epoch: EpochNo,
        config: &Arc<Config>,
        pool: u32,
        addr: Addr,
    ) -> Result<Seat, ChooseFault>
        requires there { has_pool config.now.value pool addr ≡ true }
        requires untagged { has_tag_pool config.now.value pool ≡ false }
        ensures told { Tells (Chooses epoch config.now.value pool addr result) (told self.old)
            (told self.new) }
        ensures asked { asked self.new ≡ asked self.old }
        ensures granted { granted self.new ≡ granted self.old }
        ensures refused_later { refused self.old ≤ refused self.new }
        ensures faults_later { faults self.old ≤ faults self.new };

    /// Grants at most so many bytes on a seat. Where some are wanted it grants none only where a bucket of the seat is empty.
    /// Where it is not the turn of the seat, it waits for that. It takes no memory.
    fn grant(&mut self, seat: &Seat, wanted: u64) -> u64
        ensures told { Tells (Grants seat.now wanted result) (told self.old) (told self.new) }
        ensures within { result ≤ wanted }
        ensures granted { granted self.new ≡ granted_by (granted self.old) result }
        ensures asked { asked self.new ≡ asked self.old }
        ensures refused { refused self.new ≡ refused self.old }
        ensures faults_later { faults self.old ≤ faults self.new };

    /// Gives a seat up. It takes no memory.
    fn leave(&mut self, seat: Seat)
        ensures told { Tells (Leaves seat) (told self.old) (told self.new) }
        ensures asked { asked self.new ≡ asked self.old }
        ensures granted { granted self.new ≡ granted self.old }
        ensures refused_later { refused self.old ≤ refused self.new }
        ensures faults_later { faults self.old ≤ faults self.new };

    /// Takes a seat for a tag in a pool of class 5 of this configuration.
    fn choose_tag(
        &mut self,
        alloc: Global,
        epoch: EpochNo,
        config: &Arc<Config>,
        pool: u32,
        tag: &Text,
    ) -> Result<TagSeat, ChooseFault>
        requires there { has_tag_pool config.now.value pool ≡ true }
        ensures told { Tells (ChoosesTag epoch config.now.value pool tag.now result)
            (told self.old) (told self.new) }
        ensures asked { asked self.new ≡ asked self.old }
        ensures granted { granted self.new ≡ granted self.old }
        ensures refused_later { refused self.old ≤ refused self.new }
        ensures faults_later { faults self.old ≤ faults self.new };

    /// The same on a seat for a tag.
    fn grant_tag(&mut self, seat: &TagSeat, wanted: u64) -> u64
        ensures told { Tells (GrantsTag seat.now wanted result) (told self.old) (told self.new) }
        ensures within { result ≤ wanted }
        ensures granted { granted self.new ≡ granted_by (granted self.old) result }
        ensures asked { asked self.new ≡ asked self.old }
        ensures refused { refused self.new ≡ refused self.old }
        ensures faults_later { faults self.old ≤ faults self.new };

    /// Gives a seat for a tag up. It takes no memory.
    fn leave_tag(&mut self, seat: TagSeat)
        ensures told { Tells (LeavesTag seat) (told self.old) (told self.new) }
        ensures asked { asked self.new ≡ asked self.old }
        ensures granted { granted self.new ≡ granted self.old }
        ensures refused_later { refused self.old ≤ refused self.new }
        ensures faults_later { faults self.old ≤ faults self.new };

    /// Waits until something changed.
    fn wait(&mut self)
        ensures told { Tells Waited (told self.old) (told self.new) }
        ensures asked { asked self.new ≡ asked self.old }
        ensures granted { granted self.new ≡ granted self.old }
        ensures refused_later { refused self.old ≤ refused self.new }
        ensures faults_later { faults self.old ≤ faults self.new };

    /// Waits a while.
    fn pause(&mut self)
        ensures told { Tells Paused (told self.old) (told self.new) }
        ensures asked { asked self.new ≡ asked self.old }
        ensures granted { granted self.new ≡ granted self.old }
        ensures refused { refused self.new ≡ refused self.old }
        ensures faults_later { faults self.old ≤ faults self.new };

    /// How many questions were asked, and how many bytes were granted. It takes no memory.
    fn counted(&self) -> Counts
        ensures asked { result.asked ≡ asked self.now }
        ensures granted { result.granted ≡ granted self.now };

    ghost asked_capped: { (hub : Self) → asked hub ≤ count_limit };

    ghost granted_capped: { (hub : Self) → granted hub ≤ count_limit };
}
