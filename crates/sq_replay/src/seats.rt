//! Delay pools of both kinds, whose seats are held by number.
ghost use Rattle.std.specs.Prelude.{◌≡◌, ◌<◌, ◌≤◌, ◌||◌, max, suc, true, false, is_some, nat_lt, IfOk, IfErr, IfNone, IfSome, OnOk};
ghost use Rattle.sq_machine.specs.Limits.{last_number};
ghost use Rattle.sq_pools.specs.Basins.{HasPassed, IsChosen, IsTagChosen, has_pool, has_tag_pool, made_in};
ghost use Rattle.sq_replay.specs.Riding.{AreBasins, AreRenewed, HasLeftOf, HaveBegun, IsGrantedOf, IsHeldNowhere};

use sq_base::{Addr, EpochNo, Moment, SeatNo, Text, WantOfMemory};
use sq_pools::{ChooseFault, HeldSeat, Pools, TagPools};
use sq_rules::Config;
use std::alloc::Global;
use std::collections::BTreeMap;
use std::marker::Model;
use std::sync::Arc;

// Delay pools of both kinds, with each seat in use under its number. A contract sees the pools.
#[derive(Drop)]
pub(crate) struct SeatedPools {
    pools: Pools,
    tags: TagPools,
    seats: BTreeMap<SeatNo, HeldSeat>,
}

impl Model for SeatedPools {
    ghost use Rattle.sq_replay.specs.Runs.{BothPools};
    ghost use Rattle.sq_replay.specs.Riding.{AreHeld};

    ghost Value = { BothPools };

    ghost view = { λ p. record { addressed = p.pools; tagged = p.tags } };

    ghost invariant = { λ p. AreHeld p.seats.entries
        (record { addressed = p.pools; tagged = p.tags }) };
}

impl SeatedPools {
    // The pools with the generations of this epoch, made at this moment.
    pub(crate) fn new(
        alloc: Global,
        epoch: EpochNo,
        config: &Arc<Config>,
        now: Moment,
    ) -> Result<SeatedPools, WantOfMemory>
        ensures { IfOk result (λ p. HaveBegun p epoch config.now.value now) }
    {
        let pools = Pools::new(alloc, epoch, config, now)?;
        let tags = TagPools::new(alloc, epoch, config, now)?;
        Ok(SeatedPools {
            pools,
            tags,
            seats: BTreeMap::new(alloc),
        })
    }

    // Makes the generations of this epoch, which is none before the newest and has none yet.
    pub(crate) fn renew(
        &mut self,
        alloc: Global,
        epoch: EpochNo,
        config: &Arc<Config>,
        now: Moment,
    ) -> Result<(), WantOfMemory>
        ensures { (nat_lt epoch self.old.addressed.newest
            || is_some (made_in self.old.addressed epoch)) ≡ false
            → (nat_lt epoch self.old.tagged.newest
            || is_some (made_in self.old.tagged epoch)) ≡ false
            → OnOk result (AreRenewed self.old self.new epoch config.now.value now) }
    {
        self.pools.renew(alloc, epoch, config, now)?;
        self.tags.renew(alloc, epoch, config, now)
    }

    // Gives a seat in a pool of the configuration of this epoch that takes the client, and holds it: its number.
    pub(crate) fn choose(
        &mut self,
        alloc: Global,
        epoch: EpochNo,
        config: &Arc<Config>,
        pool: u32,
        addr: Addr,
        now: Moment,
    ) -> Result<SeatNo, ChooseFault>
        requires { has_pool config.now.value pool addr ≡ true }
        ensures number { IfOk result (λ n. n ≡ suc self.old.addressed.given) }
        ensures few { OnOk result (suc self.old.addressed.given < last_number) }
        ensures chosen { OnOk result
            (IsChosen self.old.addressed self.new.addressed epoch config.now.value pool addr
            (max now self.old.addressed.latest)) }
        ensures passed { OnOk result (HasPassed self.old.tagged self.new.tagged) }
        ensures spent { IfErr result
            (λ e. e ≡ ChooseFault.Spent → suc self.old.addressed.given ≡ last_number) }
    {
        // For the proof: what holds of the pools.
        self.tags.facts();
        let seat = self.pools.choose(alloc, epoch, config, pool, addr, now)?;
        self.pools.facts();
        let _passed = self.tags.pass();
        let number = seat.number();
        match self.seats.insert(number, HeldSeat::ByAddress(seat)) {
            Ok(_) => Ok(number),
            Err(back) => {
                match back.value.1 {
                    HeldSeat::ByAddress(seat) => self.pools.leave(seat),
                    HeldSeat::ByTag(_) => unreachable!(),
                }
                Err(ChooseFault::WantOfMemory)
            }
        }
    }

    // Gives a seat for a tag in a pool of class 5 of the configuration of this epoch, and holds it: its number.
    pub(crate) fn choose_tag(
        &mut self,
        alloc: Global,
        epoch: EpochNo,
        config: &Arc<Config>,
        pool: u32,
        tag: &Text,
        now: Moment,
    ) -> Result<SeatNo, ChooseFault>
        requires { has_tag_pool config.now.value pool ≡ true }
        ensures number { IfOk result (λ n. n ≡ suc self.old.addressed.given) }
        ensures few { OnOk result (suc self.old.addressed.given < last_number) }
        ensures chosen { OnOk result
            (IsTagChosen self.old.tagged self.new.tagged epoch config.now.value pool tag.now
            (max now self.old.tagged.latest)) }
        ensures passed { OnOk result (HasPassed self.old.addressed self.new.addressed) }
        ensures spent { IfErr result
            (λ e. e ≡ ChooseFault.Spent → suc self.old.addressed.given ≡ last_number) }
    {
        // For the proof: what holds of the pools.
        self.pools.facts();
        let seat = self.tags.choose(alloc, epoch, config, pool, tag, now)?;
        self.tags.facts();
        let _passed = self.pools.pass();
        let number = seat.number();
        match self.seats.insert(number, HeldSeat::ByTag(seat)) {
            Ok(_) => Ok(number),
            Err(back) => {
                match back.value.1 {
                    HeldSeat::ByTag(seat) => self.tags.leave(seat),
                    HeldSeat::ByAddress(_) => unreachable!(),
                }
                Err(ChooseFault::WantOfMemory)
            }
        }
    }

    // Grants what a seat wants, in bytes, as far as each of its buckets has it; none where it is not in use.
    pub(crate) fn grant(&mut self, number: SeatNo, wanted: u64, now: Moment) -> Option<u64>
        ensures none { IfNone result (IsHeldNowhere self.old number) }
        ensures same { IfNone result (self.new ≡ self.old) }
        ensures within { IfSome result (λ n. n ≤ wanted) }
        ensures granted { IfSome result (λ n. IsGrantedOf self.old self.new now number wanted n) }
    {
        match self.seats.get(&number)? {
            HeldSeat::ByAddress(seat) => Some(self.pools.grant(seat, wanted, now)),
            HeldSeat::ByTag(seat) => Some(self.tags.grant(seat, wanted, now)),
        }
    }

    // Gives a seat up, where it is in use.
    pub(crate) fn leave(&mut self, number: SeatNo) -> bool
        ensures none { result ≡ false → IsHeldNowhere self.old number }
        ensures left { result ≡ true → HasLeftOf self.old self.new number }
    {
        match self.seats.remove(&number) {
            None => false,
            Some(HeldSeat::ByAddress(seat)) => {
                self.pools.leave(seat);
                true
            }
            Some(HeldSeat::ByTag(seat)) => {
                self.tags.leave(seat);
                true
            }
        }
    }

    // What holds of the pools: it changes nothing, and its contract says it to a proof.
    pub(crate) fn facts(&self)
        ensures { AreBasins self.now }
    {
        self.pools.facts();
        self.tags.facts();
    }
}
