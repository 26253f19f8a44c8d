//! Generations of buckets, one for an epoch.
ghost use Rattle.std.specs.Prelude.{◌≡◌, ◌≤◌, ◌<◌, ◌^◌, ◌-◌, ◌==◌, ◌&&◌, ◌||◌, [], ℕ, suc, if◌then◌else◌, Some, None, true, is_none, is_some, length, OnOk, OnErr, IfOk};
ghost use Rattle.std.specs.Option.{option_map};
ghost use Rattle.sq_machine.specs.BucketLevels.{filled_to};
ghost use Rattle.sq_rules.specs.Limits.{initial_limit, pool_limit};
ghost use Rattle.sq_machine.specs.PoolReadings as readings;
ghost use Rattle.sq_machine.specs.PoolReadings.{has_spot, is_aggregate, kept_if, made_if, second_of};
ghost use Rattle.sq_pools.specs.Generations.{buckets_at, filled_at, generation_at, held_at, is_left, made_at, second_at};
ghost use Rattle.sq_buckets.specs.Grants.{are_own, are_there, bucket_at, filled_if, granted_if, is_aggregate_of, least_at, opened_in};

use sq_base::{EpochNo, Moment, WantOfMemory};
use sq_buckets::{Bucket, BucketSpot, Buckets, bucket_pairs};
use sq_rules::Pool;
use std::alloc::Global;
use std::collections::BTreeMap;
use std::marker::Model;

// A generation: when it was made, how many seats of it are in use, and its buckets.
#[derive(Drop)]
pub(crate) struct Generation {
    made: Moment,
    held: u64,
    buckets: Buckets,
}

// Opens the aggregate bucket of a pool, where it has a limit and there is none, in the first second.
fn open_aggregate(
    alloc: Global,
    buckets: &mut Buckets,
    place: u32,
    pool: &Pool,
    initial: u8,
) -> Result<(), WantOfMemory>
    requires { initial ≤ initial_limit }
    ensures { OnOk result
        ((s : readings.BucketSpot)
        → bucket_at buckets.new s
        ≡ filled_if (is_aggregate_of place pool.now s) (opened_in initial 0 s)
        (bucket_at buckets.old s)) }
{
    match bucket_pairs(pool).first() {
        Some(Some(limit)) => {
            let spot = BucketSpot::of_host(alloc, place, 0, 0, *limit);
            buckets.open(alloc, &[spot], initial, 0)?;
            Ok(())
        }
        Some(None) => Ok(()),
        None => Ok(()),
    }
}

// The aggregate buckets of these pools, as they open.
fn aggregates(alloc: Global, pools: &[Pool], initial: u8) -> Result<Buckets, WantOfMemory>
    requires initial { initial ≤ initial_limit }
    requires few { length pools.now ≤ pool_limit }
    ensures { IfOk result
        (λ b. (s : readings.BucketSpot)
        → bucket_at b s ≡ filled_if (is_aggregate pools.now s) (opened_in initial 0 s) None) }
{
    let mut buckets = Buckets::new(alloc);
    let mut place = 0;
    for pool in pools {
        open_aggregate(alloc, &mut buckets, place, pool, initial)?;
        place += 1;
    }
    Ok(buckets)
}

impl Generation {
    // The generation that is made at this moment, with the aggregate buckets of these pools.
    fn begun(
        alloc: Global,
        pools: &[Pool],
        initial: u8,
        now: Moment,
    ) -> Result<Generation, WantOfMemory>
        requires initial { initial ≤ initial_limit }
        requires few { length pools.now ≤ pool_limit }
        ensures made { IfOk result (λ g. g.made ≡ now) }
        ensures held { IfOk result (λ g. g.held ≡ 0) }
        ensures buckets { IfOk result
            (λ g. (s : readings.BucketSpot)
            → bucket_at g.buckets s ≡ filled_if (is_aggregate pools.now s)
            (opened_in initial 0 s) None) }
    {
        Ok(Generation {
            made: now,
            held: 0,
            buckets: aggregates(alloc, pools, initial)?,
        })
    }

    // The second of it that a moment lies in.
    fn second(&self, now: Moment) -> u64
        ensures second { result ≡ second_of self.now.made now }
        ensures bound { result < 2 ^ 63 }
    {
        now.0.saturating_sub(self.made.0) / 1000
    }

    // Counts one seat more, and opens its buckets where there are none.
    fn enter(
        &mut self,
        alloc: Global,
        spots: &[BucketSpot],
        initial: u8,
        now: Moment,
    ) -> Result<(), WantOfMemory>
        requires initial { initial ≤ initial_limit }
        requires held { self.old.held < 2 ^ 63 }
        ensures made { self.new.made ≡ self.old.made }
        ensures held { OnOk result (self.new.held ≡ suc self.old.held) }
        ensures buckets { OnOk result
            ((s : readings.BucketSpot)
            → bucket_at self.new.buckets s
            ≡ filled_if (has_spot spots.now s) (opened_in initial (second_of self.old.made now) s)
            (bucket_at self.old.buckets s)) }
        ensures err { OnErr result (self.new ≡ self.old) }
    {
        let second = self.second(now);
        self.buckets.open(alloc, spots, initial, second)?;
        self.held += 1;
        Ok(())
    }

    // Grants what is wanted at a moment, as far as each of these buckets has it.
    fn grant(&mut self, spots: &[BucketSpot], wanted: u64, now: Moment) -> u64
        requires there { are_there self.old.buckets spots.now ≡ true }
        requires own { are_own spots.now ≡ true }
        ensures made { self.new.made ≡ self.old.made }
        ensures held { self.new.held ≡ self.old.held }
        ensures amount { result ≡ least_at (second_of self.old.made now) self.old.buckets spots.now
            wanted }
        ensures taken { (s : readings.BucketSpot)
            → bucket_at self.new.buckets s
            ≡ option_map (granted_if (has_spot spots.now s) (second_of self.old.made now) result)
            (bucket_at self.old.buckets s) }
    {
        let second = self.second(now);
        self.buckets.grant(spots, wanted, second)
    }
}

// Generations by epoch.
#[derive(Drop)]
pub(crate) struct Generations {
    map: BTreeMap<EpochNo, Generation>,
}

impl Model for Generations {
    ghost use Rattle.std.specs.Prelude.{List, ℕ};
    ghost use Rattle.sq_pools.specs.declared.generations.Generation.{Generation as OneGeneration};

    ghost Value = { List (ℕ × OneGeneration) };

    ghost view = { λ g. g.map.entries };
}

impl Generations {
    pub(crate) fn new(alloc: Global) -> Generations
        ensures { result ≡ [] }
    {
        Generations {
            map: BTreeMap::new(alloc),
        }
    }

    // Whether the generation of an epoch is there.
    pub(crate) fn has(&self, epoch: EpochNo) -> bool
        ensures { result ≡ is_some (made_at self.now epoch) }
    {
        self.map.contains_key(&epoch)
    }

    // Puts the generation of an epoch.
    fn put(&mut self, epoch: EpochNo, generation: Generation) -> Result<(), WantOfMemory>
        ensures ok { OnOk result
            ((e : ℕ) → generation_at self.new e
            ≡ (if e == epoch then Some generation else generation_at self.old e)) }
        ensures err { OnErr result (self.new ≡ self.old) }
    {
        let _was = self.map.insert(epoch, generation)?;
        Ok(())
    }

    // The numbers of a bucket at a moment.
    pub(crate) fn bucket(&self, epoch: EpochNo, spot: &BucketSpot, now: Moment) -> Option<Bucket>
        ensures { result ≡ option_map (λ f. (filled_to (second_at self.now epoch now) f).tally)
            (filled_at self.now epoch spot.now) }
    {
        let generation = self.map.get(&epoch)?;
        generation.buckets.bucket(spot, generation.second(now))
    }

    // The second of the generation of an epoch that a moment lies in; 0 where there is none.
    pub(crate) fn second(&self, epoch: EpochNo, now: Moment) -> u64 {
        match self.map.get(&epoch) {
            Some(generation) => generation.second(now),
            None => 0,
        }
    }

    // Makes the generation of an epoch that has none.
    pub(crate) fn begin(
        &mut self,
        alloc: Global,
        epoch: EpochNo,
        pools: &[Pool],
        initial: u8,
        now: Moment,
    ) -> Result<(), WantOfMemory>
        requires free { made_at self.old epoch ≡ None }
        requires initial { initial ≤ initial_limit }
        requires few { length pools.now ≤ pool_limit }
        ensures made { OnOk result
            ((e : ℕ) → made_at self.new e ≡ made_if (e == epoch) now (made_at self.old e)) }
        ensures held { OnOk result ((e : ℕ) → held_at self.new e ≡ held_at self.old e) }
        ensures buckets { OnOk result
            ((e : ℕ) (s : readings.BucketSpot)
            → filled_at self.new e s
            ≡ filled_if (e == epoch && is_aggregate pools.now s) (opened_in initial 0 s)
            (filled_at self.old e s)) }
        ensures err { OnErr result (self.new ≡ self.old) }
    {
        let generation = Generation::begun(alloc, pools, initial, now)?;
        self.put(epoch, generation)?;
        Ok(())
    }

    // Makes the generation of an epoch that has none, for a seat.
    fn enter_new(
        &mut self,
        alloc: Global,
        epoch: EpochNo,
        spots: &[BucketSpot],
        pools: &[Pool],
        initial: u8,
        now: Moment,
    ) -> Result<(), WantOfMemory>
        requires free { generation_at self.old epoch ≡ None }
        requires initial { initial ≤ initial_limit }
        requires few { length pools.now ≤ pool_limit }
        ensures made { OnOk result
            ((e : ℕ) → made_at self.new e ≡ made_if (e == epoch) now (made_at self.old e)) }
        ensures held { OnOk result
            ((e : ℕ) → held_at self.new e
            ≡ (if e == epoch then suc (held_at self.old e) else held_at self.old e)) }
        ensures buckets { OnOk result
            ((e : ℕ) (s : readings.BucketSpot)
            → filled_at self.new e s
            ≡ filled_if (e == epoch &&
            (has_spot spots.now s ||
            (is_none (made_at self.old e) && is_aggregate pools.now s)))
            (opened_in initial (second_at self.new e now) s) (filled_at self.old e s)) }
        ensures err { OnErr result (self.new ≡ self.old) }
    {
        let mut generation = Generation::begun(alloc, pools, initial, now)?;
        generation.enter(alloc, spots, initial, now)?;
        self.put(epoch, generation)?;
        Ok(())
    }

    // Counts one seat more in the generation of an epoch, which is made where there is none, and opens the
    // buckets of the seat where there are none.
    pub(crate) fn enter(
        &mut self,
        alloc: Global,
        epoch: EpochNo,
        spots: &[BucketSpot],
        pools: &[Pool],
        initial: u8,
        now: Moment,
    ) -> Result<(), WantOfMemory>
        requires held { held_at self.old epoch < 2 ^ 63 }
        requires initial { initial ≤ initial_limit }
        requires few { length pools.now ≤ pool_limit }
        ensures made { OnOk result
            ((e : ℕ) → made_at self.new e ≡ made_if (e == epoch) now (made_at self.old e)) }
        ensures held { OnOk result
            ((e : ℕ) → held_at self.new e
            ≡ (if e == epoch then suc (held_at self.old e) else held_at self.old e)) }
        ensures buckets { OnOk result
            ((e : ℕ) (s : readings.BucketSpot)
            → filled_at self.new e s
            ≡ filled_if (e == epoch &&
            (has_spot spots.now s ||
            (is_none (made_at self.old e) && is_aggregate pools.now s)))
            (opened_in initial (second_at self.new e now) s) (filled_at self.old e s)) }
        ensures err { OnErr result (self.new ≡ self.old) }
    {
        match self.map.get_mut(&epoch) {
            Some(generation) => {
                generation.enter(alloc, spots, initial, now)?;
                Ok(())
            }
            None => self.enter_new(alloc, epoch, spots, pools, initial, now),
        }
    }

    // Grants what is wanted at a moment from these buckets of a generation. It takes no memory.
    pub(crate) fn grant(
        &mut self,
        epoch: EpochNo,
        spots: &[BucketSpot],
        wanted: u64,
        now: Moment,
    ) -> u64
        requires made { is_some (made_at self.old epoch) ≡ true }
        requires there { are_there (buckets_at self.old epoch) spots.now ≡ true }
        requires own { are_own spots.now ≡ true }
        ensures made { (e : ℕ) → made_at self.new e ≡ made_at self.old e }
        ensures held { (e : ℕ) → held_at self.new e ≡ held_at self.old e }
        ensures amount { result ≡ least_at (second_at self.old epoch now)
            (buckets_at self.old epoch) spots.now wanted }
        ensures taken { (e : ℕ) (s : readings.BucketSpot)
            → filled_at self.new e s
            ≡ option_map (granted_if (epoch == e && has_spot spots.now s) (second_at self.old e now)
            result) (filled_at self.old e s) }
    {
        match self.map.get_mut(&epoch) {
            Some(generation) => generation.grant(spots, wanted, now),
            None => unreachable!(),
        }
    }

    // Counts one seat less in the generation of an epoch. It takes no memory.
    pub(crate) fn release(&mut self, epoch: EpochNo)
        requires { 0 < held_at self.old epoch }
        ensures made { (e : ℕ) → made_at self.new e ≡ made_at self.old e }
        ensures held { (e : ℕ) → held_at self.new e
            ≡ (if e == epoch then held_at self.old e - 1 else held_at self.old e) }
        ensures buckets { (e : ℕ) (s : readings.BucketSpot)
            → filled_at self.new e s ≡ filled_at self.old e s }
    {
        match self.map.get_mut(&epoch) {
            Some(generation) => generation.held -= 1,
            None => unreachable!(),
        }
    }

    // How many seats of the generation of an epoch are in use.
    fn held(&self, epoch: EpochNo) -> u64
        ensures { result ≡ held_at self.now epoch }
    {
        match self.map.get(&epoch) {
            Some(generation) => generation.held,
            None => 0,
        }
    }

    // Takes the generation of an epoch away.
    fn remove(&mut self, epoch: EpochNo)
        ensures { (e : ℕ) → generation_at self.new e
            ≡ (if e == epoch then None else generation_at self.old e) }
    {
        let _was = self.map.remove(&epoch);
    }

    // Lets the generation of an epoch go that is not the newest and has no seat in use. It takes no memory.
    pub(crate) fn retire(&mut self, idle: EpochNo, newest: EpochNo)
        ensures made { (e : ℕ) → made_at self.new e
            ≡ kept_if (is_left self.old idle newest e) (made_at self.old e) }
        ensures held { (e : ℕ) → held_at self.new e ≡ held_at self.old e }
        ensures buckets { (e : ℕ) (s : readings.BucketSpot)
            → filled_at self.new e s
            ≡ kept_if (is_left self.old idle newest e) (filled_at self.old e s) }
    {
        if idle != newest && self.held(idle) == 0 {
            self.remove(idle);
        }
    }
}
