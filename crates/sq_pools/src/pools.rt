//! The delay pools of all epochs.
ghost use Rattle.std.specs.Prelude.{◌≡◌, ◌<◌, ◌≤◌, ◌^◌, ◌==◌, ◌&&◌, ◌||◌, ℕ, cond, if◌then◌else◌, max, suc, true, false, Some, None, is_none, is_some, nat_lt, length, slice_get, IfSome, IfOk, IfErr, OnOk, OnErr};
ghost use Rattle.std.specs.Option.{option_copied};
ghost use Rattle.sq_machine.specs.Limits.{last_number};
ghost use Rattle.sq_rules.specs.Limits.{initial_limit, pool_limit};
ghost use Rattle.sq_machine.specs.PoolReadings as readings;
ghost use Rattle.sq_machine.specs.PoolReadings.{has_spot, is_aggregate, made_if};
ghost use Rattle.sq_pools.specs.Generations.{filled_at, held_at, made_at, second_at};
ghost use Rattle.sq_buckets.specs.Grants.{are_own, filled_if, opened_in};
ghost use Rattle.sq_pools.specs.Seats.{seat_at};
ghost use Rattle.sq_pools.specs.Basins.{epoch_in, grant_in, has_pool, made_in, seat_in, spot_at, tally_at, is_dry, HasBegun, HasLeft, HasPassed, IsBasin, IsBegun, IsChosen, IsFirst, IsGranted, IsRenewed, IsSeated};

use crate::generations::Generations;
use crate::seats::{Seat, Seated, Seats};
use sq_base::{Addr, EpochNo, Moment, SeatNo, WantOfMemory};
use sq_buckets::{Bucket, BucketSpot, spots_of};
use sq_machine::{LAST_NUMBER, later};
use sq_rules::{Config, Pool};
use std::alloc::Global;
use std::fmt;
use std::marker::Model;
use std::sync::Arc;
use thiserror::Error;

/// Why no seat was given.
#[derive(Clone, Copy, Debug, Error)]
pub enum ChooseFault {
    #[error("the numbers of seats are used up")]
    Spent,
    #[error("out of memory")]
    WantOfMemory,
}

impl From<WantOfMemory> for ChooseFault {
    ghost use Rattle.std.specs.Prelude.{◌≡◌};
    ghost use Rattle.sq_pools.specs.declared.pools.ChooseFault.TheVariants as fault;

    ghost from_gives = { λ _ e. e ≡ fault.WantOfMemory };

    fn from(_error: WantOfMemory) -> ChooseFault {
        ChooseFault::WantOfMemory
    }
}

// More is not counted.
const GRANTED_LIMIT: u128 = 170141183460469231731687303715884105728;

/// The delay pools of all epochs: a generation of buckets for each epoch that is the newest or has a seat in
/// use, and the seats.
pub struct Pools {
    alloc: Global,
    generations: Generations,
    seats: Seats,
    given: u64,
    newest: EpochNo,
    latest: Moment,
    granted: u128,
}

// Written out, so that the drops of its parts are proved here alone, and not in each crate that lets pools go.
impl Drop for Pools {
    fn drop(self) {
        let Pools {
            alloc: _,
            generations: _,
            seats: _,
            given: _,
            newest: _,
            latest: _,
            granted: _,
        } = self;
    }
}

impl Model for Pools {
    ghost use Rattle.sq_pools.specs.Basins.{Basin, IsBasin};

    ghost Value = { Basin };

    ghost view = { λ p. record {
      generations = p.generations;
      seats = p.seats;
      given = p.given;
      newest = p.newest;
      latest = p.latest;
      granted = p.granted;
    } };

    ghost invariant = { λ p. IsBasin
        (record {
          generations = p.generations;
          seats = p.seats;
          given = p.given;
          newest = p.newest;
          latest = p.latest;
          granted = p.granted;
        }) };
}

// The later of two epochs.
fn newer(one: EpochNo, other: EpochNo) -> EpochNo
    ensures { result ≡ max one other }
{
    if one.0 < other.0 { other } else { one }
}

// The pool at a place.
pub(crate) fn pool_at(config: &Config, place: u32) -> Option<&Pool>
    ensures pool { option_copied result ≡ slice_get config.now.pools place }
    ensures few { IfSome result (λ p. length p.now.pairs ≤ 3) }
{
    config.facts();
    config.pools().get(place as usize)
}

// Puts a seat of a number that has none, counts it in its generation, and opens its buckets.
fn seat_one(
    alloc: Global,
    seats: &mut Seats,
    generations: &mut Generations,
    number: SeatNo,
    seated: Seated,
    pools: &[Pool],
    initial: u8,
    now: Moment,
) -> Result<(), WantOfMemory>
    requires free { seat_at seats.old number ≡ None }
    requires held { held_at generations.old seated.epoch < 2 ^ 63 }
    requires initial { initial ≤ initial_limit }
    requires few { length pools.now ≤ pool_limit }
    ensures seats { OnOk result
        ((n : ℕ) → seat_at seats.new n
        ≡ (if n == number then Some seated else seat_at seats.old n)) }
    ensures made { OnOk result
        ((e : ℕ) → made_at generations.new e
        ≡ made_if (e == seated.epoch) now (made_at generations.old e)) }
    ensures held { OnOk result
        ((e : ℕ) → held_at generations.new e
        ≡ (if e == seated.epoch then suc (held_at generations.old e)
        else held_at generations.old e)) }
    ensures buckets { OnOk result
        ((e : ℕ) (s : readings.BucketSpot)
        → filled_at generations.new e s
        ≡ filled_if (e == seated.epoch
        && (has_spot seated.spots s
        || (is_none (made_at generations.old e) && is_aggregate pools.now s)))
        (opened_in initial (second_at generations.new e now) s)
        (filled_at generations.old e s)) }
    ensures err_seats { OnErr result (seats.new ≡ seats.old) }
    ensures err { OnErr result (generations.new ≡ generations.old) }
{
    let epoch = seated.epoch;
    seats.put(number, seated)?;
    let Some(entered) = seats.get(number) else {
        unreachable!();
    };
    match generations.enter(alloc, epoch, entered.spots.as_slice(), pools, initial, now) {
        Ok(()) => Ok(()),
        Err(error) => {
            let _seated = seats.remove(number);
            Err(error)
        }
    }
}

impl Pools {
    // The pools with the generation of this epoch, made at this moment, with the aggregate buckets of these pools.
    pub(crate) fn begun(
        alloc: Global,
        epoch: EpochNo,
        pools: &[Pool],
        initial: u8,
        now: Moment,
    ) -> Result<Pools, WantOfMemory>
        requires initial { initial ≤ initial_limit }
        requires few { length pools.now ≤ pool_limit }
        ensures { IfOk result
            (λ p. IsFirst p epoch (record { initial = initial; pools = pools.now }) now) }
    {
        let mut generations = Generations::new(alloc);
        generations.begin(alloc, epoch, pools, initial, now)?;
        Ok(Pools {
            alloc,
            generations,
            seats: Seats::new(alloc),
            given: 0,
            newest: epoch,
            latest: now,
            granted: 0,
        })
    }

    /// The pools with the generation of this epoch, made at this moment.
    pub fn new(
        alloc: Global,
        epoch: EpochNo,
        config: &Arc<Config>,
        now: Moment,
    ) -> Result<Pools, WantOfMemory>
        ensures { IfOk result (λ p. HasBegun p epoch config.now.value now) }
    {
        Pools::begun(alloc, epoch, config.pools(), config.initial(), now)
    }

    // Makes the generation of this epoch with the aggregate buckets of these pools, unless it is there or the epoch is
    // before the newest.
    pub(crate) fn renew_with(
        &mut self,
        alloc: Global,
        epoch: EpochNo,
        pools: &[Pool],
        initial: u8,
        now: Moment,
    ) -> Result<(), WantOfMemory>
        requires initial { initial ≤ initial_limit }
        requires few { length pools.now ≤ pool_limit }
        ensures ok { OnOk result
            (cond (nat_lt epoch self.old.newest || is_some (made_in self.old epoch))
            (self.new ≡ self.old) (IsBegun self.old self.new epoch
            (record { initial = initial; pools = pools.now }) (max now self.old.latest))) }
        ensures err { OnErr result (self.new ≡ self.old) }
        ensures needed { IfErr result
            (λ _. (nat_lt epoch self.old.newest || is_some (made_in self.old epoch)) ≡ false) }
    {
        let newest = self.newest;
        if epoch.0 < newest.0 || self.generations.has(epoch) {
            return Ok(());
        }
        let now = later(now, self.latest);
        self.generations.begin(alloc, epoch, pools, initial, now)?;
        self.generations.retire(newest, epoch);
        self.newest = epoch;
        self.latest = now;
        Ok(())
    }

    /// Makes the generation of this epoch, unless it is there or the epoch is before the newest.
    pub fn renew(
        &mut self,
        alloc: Global,
        epoch: EpochNo,
        config: &Arc<Config>,
        now: Moment,
    ) -> Result<(), WantOfMemory>
        ensures ok { OnOk result
            (cond (nat_lt epoch self.old.newest || is_some (made_in self.old epoch))
            (self.new ≡ self.old) (IsRenewed self.old self.new epoch config.now.value
            (max now self.old.latest))) }
        ensures err { OnErr result (self.new ≡ self.old) }
        ensures needed { IfErr result
            (λ _. (nat_lt epoch self.old.newest || is_some (made_in self.old epoch)) ≡ false) }
    {
        self.renew_with(alloc, epoch, config.pools(), config.initial(), now)
    }

    // Whether the numbers of seats are used up.
    pub(crate) fn is_spent(&self) -> bool
        ensures spent { result ≡ true → suc self.now.given ≡ last_number }
        ensures left { result ≡ false → suc self.now.given < last_number }
    {
        self.given + 1 >= LAST_NUMBER
    }

    // Gives this seat. Its generation, with the aggregate buckets of these pools, and its buckets are made where there
    // are none.
    pub(crate) fn sit(
        &mut self,
        alloc: Global,
        seated: Seated,
        pools: &[Pool],
        initial: u8,
        now: Moment,
    ) -> Result<Seat, WantOfMemory>
        requires spare { suc self.old.given < last_number }
        requires own { are_own seated.spots ≡ true }
        requires initial { initial ≤ initial_limit }
        requires few { length pools.now ≤ pool_limit }
        ensures number { IfOk result (λ n. n ≡ suc self.old.given) }
        ensures seated { OnOk result
            (IsSeated self.old self.new seated (record { initial = initial; pools = pools.now })
            (max now self.old.latest)) }
        ensures err { OnErr result (self.new ≡ self.old) }
    {
        let given = self.given + 1;
        let now = later(now, self.latest);
        let newest = newer(self.newest, seated.epoch);
        let number = SeatNo(given);
        seat_one(
            alloc,
            &mut self.seats,
            &mut self.generations,
            number,
            seated,
            pools,
            initial,
            now,
        )?;
        self.generations.retire(self.newest, newest);
        self.given = given;
        self.newest = newest;
        self.latest = now;
        Ok(Seat::new(number))
    }

    /// Gives a seat in a pool of the configuration of this epoch that takes the client and is none of class 5. The
    /// generation of the epoch and the buckets of the client are made where there are none.
    pub fn choose(
        &mut self,
        alloc: Global,
        epoch: EpochNo,
        config: &Arc<Config>,
        pool: u32,
        addr: Addr,
        now: Moment,
    ) -> Result<Seat, ChooseFault>
        requires { has_pool config.now.value pool addr ≡ true }
        ensures number { IfOk result (λ n. n ≡ suc self.old.given) }
        ensures chosen { OnOk result
            (IsChosen self.old self.new epoch config.now.value pool addr
            (max now self.old.latest)) }
        ensures spent { IfErr result
            (λ e. e ≡ ChooseFault.Spent → suc self.old.given ≡ last_number) }
        ensures not_spent { IfErr result
            (λ e. e ≡ ChooseFault.WantOfMemory → suc self.old.given < last_number) }
        ensures err { OnErr result (self.new ≡ self.old) }
    {
        if self.is_spent() {
            return Err(ChooseFault::Spent);
        }
        let Some(taken) = pool_at(config, pool) else {
            unreachable!();
        };
        let spots = spots_of(alloc, pool, taken, addr)?;
        let seated = Seated { epoch, pool, spots };
        let seat = self.sit(alloc, seated, config.pools(), config.initial(), now)?;
        Ok(seat)
    }

    /// Lets the next number go to a seat of other pools, so that both number their seats together. It is false, and
    /// changes nothing, exactly where the numbers are used up. It takes no memory.
    pub fn pass(&mut self) -> bool
        ensures passed { result ≡ true → HasPassed self.old self.new }
        ensures kept { result ≡ false → self.new ≡ self.old }
        ensures spent { result ≡ false → suc self.old.given ≡ last_number }
        ensures left { result ≡ true → suc self.old.given < last_number }
    {
        if self.is_spent() {
            return false;
        }
        self.given += 1;
        true
    }

    /// Grants what the seat wants, in bytes, as far as each of its buckets has it, and takes it from each. A
    /// seat that is not in use here is granted nothing, and neither is one with a bucket at level 0. It takes no
    /// memory.
    pub fn grant(&mut self, seat: &Seat, wanted: u64, now: Moment) -> u64
        ensures amount { result ≡ grant_in self.old (max now self.old.latest) wanted
            (seat_in self.old seat.now) }
        ensures within { result ≤ wanted }
        ensures nothing { 0 < wanted
            → (result == 0) ≡ is_dry self.old (max now self.old.latest)
            (seat_in self.old seat.now) }
        ensures taken { IsGranted self.old self.new (max now self.old.latest) result
            (seat_in self.old seat.now) }
    {
        self.latest = later(now, self.latest);
        let Some(seated) = self.seats.get(seat.number()) else {
            return 0;
        };
        let amount = self
            .generations
            .grant(seated.epoch, seated.spots.as_slice(), wanted, self.latest);
        self.granted = GRANTED_LIMIT.min(self.granted + amount as u128);
        amount
    }

    /// Gives a seat up, and with the last seat of it a generation that is not the newest. A seat that is not in
    /// use here changes nothing. It takes no memory.
    pub fn leave(&mut self, seat: Seat)
        ensures { HasLeft self.old self.new seat }
    {
        if let Some(seated) = self.seats.remove(seat.number()) {
            self.generations.release(seated.epoch);
            self.generations.retire(seated.epoch, self.newest);
        }
    }

    /// The numbers of a seat's bucket, the i-th from 0 in the order of the pairs, at the greatest moment so
    /// far; None exactly where the seat has no such bucket.
    pub fn bucket(&self, seat: &Seat, i: u32) -> Option<Bucket>
        ensures value { result ≡ tally_at self.now (epoch_in (seat_in self.now seat.now))
            (spot_at (seat_in self.now seat.now) i) }
        ensures none { is_none result ≡ is_none (spot_at (seat_in self.now seat.now) i) }
    {
        let seated = self.seats.get(seat.number())?;
        let spot = seated.spots.as_slice().get(i as usize)?;
        self.generations.bucket(seated.epoch, spot, self.latest)
    }

    // What they take memory from.
    pub(crate) fn alloc(&self) -> Global {
        self.alloc
    }

    // A seat in use, lent.
    pub(crate) fn seated(&self, number: SeatNo) -> Option<&Seated>
        ensures { option_copied result ≡ seat_in self.now number }
    {
        self.seats.get(number)
    }

    // What a bucket of an epoch holds at a moment, in bytes, if it is there.
    pub(crate) fn level(&self, epoch: EpochNo, spot: &BucketSpot, now: Moment) -> Option<u64> {
        let bucket = self
            .generations
            .bucket(epoch, spot, later(now, self.latest))?;
        Some(bucket.level)
    }

    // The second of its generation in which a seat is at a moment: its buckets gain as the next one begins.
    pub(crate) fn second(&self, number: SeatNo, now: Moment) -> u64 {
        match self.seats.get(number) {
            Some(seated) => self
                .generations
                .second(seated.epoch, later(now, self.latest)),
            None => 0,
        }
    }

    /// The sum of all grants so far, in bytes, or 2^127 where that is less.
    pub fn granted(&self) -> u128
        ensures { result ≡ self.now.granted }
    {
        self.granted
    }

    /// What holds of them: it changes nothing, and its contract says it to a proof.
    pub fn facts(&self)
        ensures { IsBasin self.now }
    {
        let _given = self.given;
    }
}
