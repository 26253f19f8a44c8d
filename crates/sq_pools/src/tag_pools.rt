//! Delay pools whose buckets are by tags.
ghost use Rattle.std.specs.Prelude.{◌≡◌, ◌<◌, ◌≤◌, ◌==◌, ◌||◌, cond, max, suc, true, false, is_none, is_some, nat_lt, IfOk, IfErr, OnOk, OnErr};
ghost use Rattle.sq_machine.specs.Limits.{last_number};
ghost use Rattle.sq_pools.specs.Basins.{epoch_in, grant_in, has_tag_pool, is_dry, made_in, seat_in, spot_at, tally_at, HasBegunTags, HasLeft, HasPassed, IsBasin, IsGranted, IsTagChosen, IsTagRenewed};

use crate::pools::{ChooseFault, Pools, pool_at};
use crate::seats::{Seat, Seated};
use sq_base::{EpochNo, Moment, SeatNo, Text, WantOfMemory};
use sq_buckets::{Bucket, tag_spots_of};
use sq_rules::Config;
use std::alloc::Global;
use std::marker::Model;
use std::sync::Arc;

/// A seat in a delay pool with buckets by tags. It is not copied: who has it gives it up once.
#[derive(Drop)]
pub struct TagSeat {
    pub(crate) seat: Seat,
}

impl Model for TagSeat {
    ghost use Rattle.std.specs.Prelude.{ℕ};

    ghost Value = { ℕ };

    ghost view = { λ s. s.seat };
}

impl TagSeat {
    /// Its number, from 1.
    pub fn number(&self) -> SeatNo
        ensures { result ≡ self.now }
    {
        self.seat.number()
    }
}

/// The delay pools of all epochs whose buckets are by tags: a generation of buckets for each epoch that is the newest or
/// has a seat in use, and the seats. A generation begins without a bucket.
pub struct TagPools {
    pub(crate) pools: Pools,
}

// Written out, so that it is proved here alone.
impl Drop for TagPools {
    fn drop(self) {
        let TagPools { pools: _ } = self;
    }
}

impl Model for TagPools {
    ghost use Rattle.sq_pools.specs.Basins.{Basin};

    ghost Value = { Basin };

    ghost view = { λ p. p.pools };
}

impl TagPools {
    /// The pools with the generation of this epoch, made at this moment.
    pub fn new(
        alloc: Global,
        epoch: EpochNo,
        config: &Arc<Config>,
        now: Moment,
    ) -> Result<TagPools, WantOfMemory>
        ensures { IfOk result (λ p. HasBegunTags p epoch config.now.value now) }
    {
        let pools = Pools::begun(alloc, epoch, &[], config.initial(), now)?;
        Ok(TagPools { pools })
    }

    /// Makes the generation of this epoch, unless it is there or the epoch is before the newest.
    pub fn renew(
        &mut self,
        alloc: Global,
        epoch: EpochNo,
        config: &Arc<Config>,
        now: Moment,
    ) -> Result<(), WantOfMemory>
        ensures ok { OnOk result
            (cond (nat_lt epoch self.old.newest || is_some (made_in self.old epoch))
            (self.new ≡ self.old) (IsTagRenewed self.old self.new epoch config.now.value
            (max now self.old.latest))) }
        ensures err { OnErr result (self.new ≡ self.old) }
        ensures needed { IfErr result
            (λ _. (nat_lt epoch self.old.newest || is_some (made_in self.old epoch)) ≡ false) }
    {
        self.pools
            .renew_with(alloc, epoch, &[], config.initial(), now)
    }

    /// Gives a seat for a tag in a pool of class 5 of the configuration of this epoch. The generation of the epoch and
    /// the bucket of the tag are made where there are none.
    pub fn choose(
        &mut self,
        alloc: Global,
        epoch: EpochNo,
        config: &Arc<Config>,
        pool: u32,
        tag: &Text,
        now: Moment,
    ) -> Result<TagSeat, ChooseFault>
        requires { has_tag_pool config.now.value pool ≡ true }
        ensures number { IfOk result (λ n. n ≡ suc self.old.given) }
        ensures chosen { OnOk result
            (IsTagChosen self.old self.new epoch config.now.value pool tag.now
            (max now self.old.latest)) }
        ensures spent { IfErr result
            (λ e. e ≡ ChooseFault.Spent → suc self.old.given ≡ last_number) }
        ensures not_spent { IfErr result
            (λ e. e ≡ ChooseFault.WantOfMemory → suc self.old.given < last_number) }
        ensures err { OnErr result (self.new ≡ self.old) }
    {
        if self.pools.is_spent() {
            return Err(ChooseFault::Spent);
        }
        let Some(taken) = pool_at(config, pool) else {
            unreachable!();
        };
        let spots = tag_spots_of(alloc, pool, taken, tag)?;
        let seated = Seated { epoch, pool, spots };
        let seat = self.pools.sit(alloc, seated, &[], config.initial(), now)?;
        Ok(TagSeat { seat })
    }

    /// Lets the next number go to a seat of other pools, so that both number their seats together. It is false, and
    /// changes nothing, exactly where the numbers are used up. It takes no memory.
    pub fn pass(&mut self) -> bool
        ensures passed { result ≡ true → HasPassed self.old self.new }
        ensures kept { result ≡ false → self.new ≡ self.old }
        ensures spent { result ≡ false → suc self.old.given ≡ last_number }
        ensures left { result ≡ true → suc self.old.given < last_number }
    {
        self.pools.pass()
    }

    /// Grants what the seat wants, in bytes, as far as its bucket has it, and takes it from there. A seat that is not in
    /// use here is granted nothing, and neither is one whose bucket is at level 0. It takes no memory.
    pub fn grant(&mut self, seat: &TagSeat, wanted: u64, now: Moment) -> u64
        ensures amount { result ≡ grant_in self.old (max now self.old.latest) wanted
            (seat_in self.old seat.now) }
        ensures within { result ≤ wanted }
        ensures nothing { 0 < wanted
            → (result == 0) ≡ is_dry self.old (max now self.old.latest)
            (seat_in self.old seat.now) }
        ensures taken { IsGranted self.old self.new (max now self.old.latest) result
            (seat_in self.old seat.now) }
    {
        self.pools.grant(&seat.seat, wanted, now)
    }

    /// Gives a seat up, and with the last seat of it a generation that is not the newest. A seat that is not in
    /// use here changes nothing. It takes no memory.
    pub fn leave(&mut self, seat: TagSeat)
        ensures { HasLeft self.old self.new seat }
    {
        self.pools.leave(seat.seat);
    }

    /// The numbers of a seat's bucket, the i-th from 0, at the greatest moment so far; None exactly where the seat has no
    /// such bucket.
    pub fn bucket(&self, seat: &TagSeat, i: u32) -> Option<Bucket>
        ensures value { result ≡ tally_at self.now (epoch_in (seat_in self.now seat.now))
            (spot_at (seat_in self.now seat.now) i) }
        ensures none { is_none result ≡ is_none (spot_at (seat_in self.now seat.now) i) }
    {
        self.pools.bucket(&seat.seat, i)
    }

    /// The sum of all grants so far, in bytes, or 2^127 where that is less.
    pub fn granted(&self) -> u128
        ensures { result ≡ self.now.granted }
    {
        self.pools.granted()
    }

    /// What holds of them: it changes nothing, and its contract says it to a proof.
    pub fn facts(&self)
        ensures { IsBasin self.now }
    {
        self.pools.facts();
    }
}
