//! The delay pools of both kinds, as they lie behind their lock.
ghost use Rattle.std.specs.Prelude.{◌≡◌, ◌+◌, ◌<◌, ◌≤◌, ◌==◌, ◌||◌, cond, is_some, max, min, nat_lt, suc, false, true, IfOk, OnOk, OnErr, IfErr, IfSome};
ghost use Rattle.sq_pools.specs.Basins.{grant_in, granted_limit, has_pool, has_tag_pool, is_dry, made_in, seat_in, HasLeft, IsChosen, IsGranted, IsRenewed, IsTagChosen, IsTagRenewed};
ghost use Rattle.sq_pools.specs.declared.pools.ChooseFault.TheVariants as fault;
ghost use Rattle.sq_machine.specs.Limits.{last_number};
ghost use Rattle.sq_pools.specs.Granting.{granted_together};
ghost use Rattle.sq_pools.specs.Turning.{given_of, has_turn, GrantsInTurn};

use crate::pools::{ChooseFault, Pools};
use crate::seats::Seat;
use crate::tag_pools::{TagPools, TagSeat};
use crate::turns::Turns;
use sq_base::{Addr, EpochNo, Moment, Text, WantOfMemory};
use sq_rules::Config;
use std::alloc::Global;
use std::sync::Arc;
use std::sync::ledger::{Book, Ledger, Share};

/// The delay pools with buckets by addresses, those with buckets by tags, the book of what both granted, and the seats of each
/// kind that wait for their turn. The book counts on where the pools' numbers stand at 2^127.
#[derive(Drop)]
pub struct Bank<G: Ledger> {
    pools: Pools,
    tags: TagPools,
    grants: Book<G>,
    turns: Turns,
    tag_turns: Turns,
    ghost grants_are: { granted_together pools tags ≡ min granted_limit grants.total },
}

/// The parts of a number of milliseconds below 1,024.
const PARTS: [u64; 10] = [512, 256, 128, 64, 32, 16, 8, 4, 2, 1];

/// The last moment.
const LAST: u64 = 0x7fff_ffff_ffff_ffff;

// The moment so many milliseconds after this one, or the last.
pub(crate) fn behind(now: Moment, passed: u64) -> Moment
    ensures later { now ≤ result }
    ensures soon { result ≤ now + passed }
{
    Moment(now.0.saturating_add(passed).min(LAST))
}

// The first moment behind this one whose second is another, a second behind it at most.
fn next_second<F: Fn(Moment) -> u64>(now: Moment, second_at: &F) -> Moment
    requires { F.IsAlwaysCallable second_at.now }
    ensures later { now ≤ result }
    ensures soon { result ≤ now + 1000 }
{
    let second = second_at(now);
    let mut passed = 0u64;
    for part in PARTS {
        let more = passed.saturating_add(part);
        if second_at(behind(now, more)) == second {
            passed = more;
        }
    }
    behind(now, passed.min(999) + 1)
}

impl<G: Ledger> Bank<G> {
    ghost use Rattle.sq_pools.specs.BankViews.{pools_of, tags_of, tag_turns_of, turns_of};

    /// Pools of both kinds, and the book of what they granted so far.
    pub fn new(pools: Pools, tags: TagPools, grants: Book<G>) -> Bank<G>
        requires { granted_together pools tags ≡ min granted_limit grants.total }
        ensures pools { pools_of result ≡ pools }
        ensures tags { tags_of result ≡ tags }
    {
        let turns = Turns::new(pools.alloc());
        let tag_turns = Turns::new(tags.pools.alloc());
        Bank {
            pools,
            tags,
            grants,
            turns,
            tag_turns,
        }
    }

    /// Gives a seat, as the pools with buckets by addresses do.
    pub fn choose(
        &mut self,
        alloc: Global,
        epoch: EpochNo,
        config: &Arc<Config>,
        pool: u32,
        addr: Addr,
        now: Moment,
    ) -> Result<Seat, ChooseFault>
        requires { has_pool config.now.value pool addr ≡ true }
        ensures number { IfOk result (λ n. n ≡ suc (pools_of self.old).given) }
        ensures chosen { OnOk result
            (IsChosen (pools_of self.old) (pools_of self.new) epoch config.now.value pool addr
            (max now (pools_of self.old).latest)) }
        ensures spent { IfErr result
            (λ e. e ≡ fault.Spent → suc (pools_of self.old).given ≡ last_number) }
        ensures not_spent { IfErr result
            (λ e. e ≡ fault.WantOfMemory → suc (pools_of self.old).given < last_number) }
        ensures err { OnErr result (pools_of self.new ≡ pools_of self.old) }
        ensures tags { tags_of self.new ≡ tags_of self.old }
    {
        self.pools.choose(alloc, epoch, config, pool, addr, now)
    }

    /// Gives a seat for a tag, as the pools with buckets by tags do.
    pub fn choose_tag(
        &mut self,
        alloc: Global,
        epoch: EpochNo,
        config: &Arc<Config>,
        pool: u32,
        tag: &Text,
        now: Moment,
    ) -> Result<TagSeat, ChooseFault>
        requires { has_tag_pool config.now.value pool ≡ true }
        ensures number { IfOk result (λ n. n ≡ suc (tags_of self.old).given) }
        ensures chosen { OnOk result
            (IsTagChosen (tags_of self.old) (tags_of self.new) epoch config.now.value pool tag.now
            (max now (tags_of self.old).latest)) }
        ensures spent { IfErr result
            (λ e. e ≡ fault.Spent → suc (tags_of self.old).given ≡ last_number) }
        ensures not_spent { IfErr result
            (λ e. e ≡ fault.WantOfMemory → suc (tags_of self.old).given < last_number) }
        ensures err { OnErr result (tags_of self.new ≡ tags_of self.old) }
        ensures pools { pools_of self.new ≡ pools_of self.old }
    {
        self.tags.choose(alloc, epoch, config, pool, tag, now)
    }

    /// Grants bytes to a seat, as the pools do, and adds them to the share.
    #[tactic(auto, using(crate::proofs::GrantLaws::kept_grant))]
    pub fn grant(&mut self, seat: &Seat, wanted: u64, now: Moment, share: &mut Share<G>) -> u64
        requires { 0 < share.old.parts }
        ensures granted { result
            ≡ grant_in (pools_of self.old) (max now (pools_of self.old).latest) wanted
            (seat_in (pools_of self.old) seat.now) }
        ensures within { result ≤ wanted }
        ensures nothing { 0 < wanted
            → (result == 0) ≡ is_dry (pools_of self.old) (max now (pools_of self.old).latest)
            (seat_in (pools_of self.old) seat.now) }
        ensures taken { IsGranted (pools_of self.old) (pools_of self.new)
            (max now (pools_of self.old).latest) result (seat_in (pools_of self.old) seat.now) }
        ensures amount { share.new.amount ≡ share.old.amount + result }
        ensures parts { share.new.parts ≡ share.old.parts }
        ensures tags { tags_of self.new ≡ tags_of self.old }
    {
        let Bank { pools, grants, .. } = self;
        let amount = pools.grant(seat, wanted, now);
        grants.add(share, amount);
        amount
    }

    /// Grants bytes to a seat for a tag, as its pools do, and adds them to the share.
    #[tactic(auto, using(crate::proofs::GrantLaws::kept_tag_grant))]
    pub fn grant_tag(
        &mut self,
        seat: &TagSeat,
        wanted: u64,
        now: Moment,
        share: &mut Share<G>,
    ) -> u64
        requires { 0 < share.old.parts }
        ensures granted { result
            ≡ grant_in (tags_of self.old) (max now (tags_of self.old).latest) wanted
            (seat_in (tags_of self.old) seat.now) }
        ensures within { result ≤ wanted }
        ensures nothing { 0 < wanted
            → (result == 0) ≡ is_dry (tags_of self.old) (max now (tags_of self.old).latest)
            (seat_in (tags_of self.old) seat.now) }
        ensures taken { IsGranted (tags_of self.old) (tags_of self.new)
            (max now (tags_of self.old).latest) result (seat_in (tags_of self.old) seat.now) }
        ensures amount { share.new.amount ≡ share.old.amount + result }
        ensures parts { share.new.parts ≡ share.old.parts }
        ensures pools { pools_of self.new ≡ pools_of self.old }
    {
        let Bank { tags, grants, .. } = self;
        let given = tags.grant(seat, wanted, now);
        grants.add(share, given);
        given
    }

    /// Grants a seat some of the bytes that it wants, where it is its turn: one call of the pools at this moment, for at least a
    /// byte. Else no call is made. While others wait for a bucket of the seat since an earlier second, it is granted an even part of
    /// what the bucket holds in this second, and no more: its turn comes with the next one.
    pub fn grant_in_turn(
        &mut self,
        seat: &Seat,
        wanted: u64,
        now: Moment,
        share: &mut Share<G>,
    ) -> Option<u64>
        requires { 0 < share.old.parts }
        ensures grants { GrantsInTurn seat.now (max now (pools_of self.old).latest) wanted result
            (pools_of self.old) (pools_of self.new) }
        ensures dry { IfSome result
            (λ given. (given == 0) ≡ is_dry (pools_of self.old) (max now (pools_of self.old).latest)
            (seat_in (pools_of self.old) seat.now)) }
        ensures within { given_of result ≤ wanted }
        ensures amount { share.new.amount ≡ share.old.amount + given_of result }
        ensures parts { share.new.parts ≡ share.old.parts }
        ensures tags { tags_of self.new ≡ tags_of self.old }
    {
        let number = seat.number();
        let asked = self.turns.asks(&self.pools, number, wanted, now);
        if asked == 0 {
            self.turns.note(&self.pools, number, 0, now);
            return None;
        }
        let given = self.grant(seat, asked, now, share);
        self.turns.note(&self.pools, number, given, now);
        Some(given)
    }

    /// The same for a seat for a tag.
    pub fn grant_tag_in_turn(
        &mut self,
        seat: &TagSeat,
        wanted: u64,
        now: Moment,
        share: &mut Share<G>,
    ) -> Option<u64>
        requires { 0 < share.old.parts }
        ensures grants { GrantsInTurn seat.now (max now (tags_of self.old).latest) wanted result
            (tags_of self.old) (tags_of self.new) }
        ensures dry { IfSome result
            (λ given. (given == 0) ≡ is_dry (tags_of self.old) (max now (tags_of self.old).latest)
            (seat_in (tags_of self.old) seat.now)) }
        ensures within { given_of result ≤ wanted }
        ensures amount { share.new.amount ≡ share.old.amount + given_of result }
        ensures parts { share.new.parts ≡ share.old.parts }
        ensures pools { pools_of self.new ≡ pools_of self.old }
    {
        let number = seat.number();
        let asked = self.tag_turns.asks(&self.tags.pools, number, wanted, now);
        if asked == 0 {
            self.tag_turns.note(&self.tags.pools, number, 0, now);
            return None;
        }
        let given = self.grant_tag(seat, asked, now, share);
        self.tag_turns.note(&self.tags.pools, number, given, now);
        Some(given)
    }

    /// The first moment behind this one at which the buckets of a seat gain, a second behind it at most.
    pub fn gains_at(&self, seat: &Seat, now: Moment) -> Moment
        ensures later { now ≤ result }
        ensures soon { result ≤ now + 1000 }
    {
        next_second(now, &|at: Moment| self.pools.second(seat.number(), at))
    }

    /// The same for the bucket of a seat for a tag.
    pub fn tag_gains_at(&self, seat: &TagSeat, now: Moment) -> Moment
        ensures later { now ≤ result }
        ensures soon { result ≤ now + 1000 }
    {
        next_second(now, &|at: Moment| self.tags.pools.second(seat.number(), at))
    }

    /// Gives a seat up.
    pub fn leave(&mut self, seat: Seat)
        ensures left { HasLeft (pools_of self.old) (pools_of self.new) seat }
        ensures forgotten { has_turn (turns_of self.new) seat ≡ false }
        ensures tags { tags_of self.new ≡ tags_of self.old }
    {
        self.turns.leave(&self.pools, seat.number());
        self.pools.leave(seat);
    }

    /// Gives a seat for a tag up.
    pub fn leave_tag(&mut self, seat: TagSeat)
        ensures left { HasLeft (tags_of self.old) (tags_of self.new) seat }
        ensures forgotten { has_turn (tag_turns_of self.new) seat ≡ false }
        ensures pools { pools_of self.new ≡ pools_of self.old }
    {
        self.tag_turns.leave(&self.tags.pools, seat.number());
        self.tags.leave(seat);
    }

    /// Makes the generation of an epoch of the pools with buckets by addresses, unless it is there or the epoch is before
    /// the newest.
    pub fn renew(
        &mut self,
        alloc: Global,
        epoch: EpochNo,
        config: &Arc<Config>,
        now: Moment,
    ) -> Result<(), WantOfMemory>
        ensures ok { OnOk result
            (cond (nat_lt epoch (pools_of self.old).newest
            || is_some (made_in (pools_of self.old) epoch)) (pools_of self.new ≡ pools_of self.old)
            (IsRenewed (pools_of self.old) (pools_of self.new) epoch config.now.value
            (max now (pools_of self.old).latest))) }
        ensures err { OnErr result (pools_of self.new ≡ pools_of self.old) }
        ensures needed { IfErr result
            (λ _. (nat_lt epoch (pools_of self.old).newest
            || is_some (made_in (pools_of self.old) epoch)) ≡ false) }
        ensures tags { tags_of self.new ≡ tags_of self.old }
    {
        self.pools.renew(alloc, epoch, config, now)
    }

    /// The same for the pools with buckets by tags.
    pub fn renew_tags(
        &mut self,
        alloc: Global,
        epoch: EpochNo,
        config: &Arc<Config>,
        now: Moment,
    ) -> Result<(), WantOfMemory>
        ensures ok { OnOk result
            (cond (nat_lt epoch (tags_of self.old).newest
            || is_some (made_in (tags_of self.old) epoch)) (tags_of self.new ≡ tags_of self.old)
            (IsTagRenewed (tags_of self.old) (tags_of self.new) epoch config.now.value
            (max now (tags_of self.old).latest))) }
        ensures err { OnErr result (tags_of self.new ≡ tags_of self.old) }
        ensures needed { IfErr result
            (λ _. (nat_lt epoch (tags_of self.old).newest
            || is_some (made_in (tags_of self.old) epoch)) ≡ false) }
        ensures pools { pools_of self.new ≡ pools_of self.old }
    {
        self.tags.renew(alloc, epoch, config, now)
    }

    /// The pools of both kinds, given back: what they granted together is the whole share of the book.
    pub fn end(self, all: Share<G>) -> (Pools, TagPools)
        requires { all.parts ≡ G.parts }
        ensures { granted_together result.0 result.1 ≡ min granted_limit all.amount }
    {
        let Bank {
            pools,
            tags,
            mut grants,
            ..
        } = self;
        let mut all = all;
        grants.audit(&mut all);
        (pools, tags)
    }
}
