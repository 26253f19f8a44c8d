//! Whose turn it is at a bucket for which seats wait. A seat that is granted nothing waits, at the bucket that will hold it back in
//! the next second, until it is granted some. While others wait for a bucket since an earlier second, a seat is granted an even
//! part of it in each second, and no more. No clause says who gets how much: a grant is what the pools give, of some of the bytes
//! that were wanted. A call costs a logarithm of the number of seats. Where memory is wanting a seat is not known, and waits for
//! nobody.
ghost use Rattle.std.specs.Prelude.{◌≡◌, ◌≤◌, false};
ghost use Rattle.sq_pools.specs.Turning.{has_turn};

use crate::bank::behind;
use crate::pools::Pools;
use crate::seats::Seated;
use sq_base::{Copying, EpochNo, Moment, SeatNo, WantOfMemory};
use sq_buckets::BucketSpot;
use std::alloc::Global;
use std::collections::BTreeMap;
use std::marker::Model;

// Since which second of its generation a seat waits, and at which of its buckets.
#[derive(Clone, Copy)]
struct SeatWait {
    since: u64,
    place: usize,
}

// A seat that is known: whether it waits, and what is left of its part of a second.
#[derive(Clone, Copy)]
pub(crate) struct TurnPlace {
    wait: Option<SeatWait>,
    second: Option<u64>,
    left: u64,
}

// How many seats wait for a bucket: since this second, and since an earlier one.
#[derive(Clone, Copy)]
struct BucketWaits {
    second: u64,
    newly: u64,
    before: u64,
}

// The seats that wait for the buckets of a generation.
type Waits = BTreeMap<BucketSpot, BucketWaits>;

impl BucketWaits {
    // How many wait since an earlier second than this.
    fn earlier(&self, second: u64) -> u64 {
        if self.second < second {
            self.before.saturating_add(self.newly)
        } else {
            self.before
        }
    }

    // In this second a seat begins to wait here, which waits since then or since an earlier one.
    fn enter(&mut self, since: u64, second: u64) {
        if self.second < second {
            self.before = self.earlier(second);
            self.newly = 0;
            self.second = second;
        }
        if since < self.second {
            self.before = self.before.saturating_add(1);
        } else {
            self.newly = self.newly.saturating_add(1);
        }
    }

    // A seat that waits since this second does so no more.
    fn leave(&mut self, since: u64) {
        if since < self.second {
            self.before = self.before.saturating_sub(1);
        } else {
            self.newly = self.newly.saturating_sub(1);
        }
    }

    // Whether no seat waits here.
    fn is_idle(&self) -> bool {
        self.newly == 0 && self.before == 0
    }
}

// A level divided among a seat and so many others, rounded up.
fn divided(level: u64, others: u64) -> u64 {
    let count = others.saturating_add(1).max(1);
    let part = level / count;
    if level % count == 0 {
        part
    } else {
        part.saturating_add(1)
    }
}

/// The seats that were granted nothing, or a part of what there was, and how many wait for each bucket.
#[derive(Drop)]
pub(crate) struct Turns {
    alloc: Global,
    places: BTreeMap<SeatNo, TurnPlace>,
    waits: BTreeMap<EpochNo, Waits>,
}

impl Model for Turns {
    ghost use Rattle.std.specs.Prelude.{List, ℕ};
    ghost use Rattle.sq_pools.specs.declared.turns.TurnPlace.{TurnPlace as OnePlace};

    ghost Value = { List (ℕ × OnePlace) };

    ghost view = { λ t. t.places.entries };
}

impl Turns {
    // No seat is known.
    pub(crate) fn new(alloc: Global) -> Turns {
        Turns {
            alloc,
            places: BTreeMap::new(alloc),
            waits: BTreeMap::new(alloc),
        }
    }

    // How many other seats wait for a bucket since an earlier second than this.
    fn others(
        &self,
        seat: SeatNo,
        place: usize,
        epoch: EpochNo,
        spot: &BucketSpot,
        second: u64,
    ) -> u64 {
        let Some(waits) = self.waits.get(&epoch) else {
            return 0;
        };
        let Some(bucket) = waits.get(spot) else {
            return 0;
        };
        let count = bucket.earlier(second);
        match self.places.get(&seat) {
            Some(own) => match own.wait {
                Some(wait) if wait.place == place && wait.since < second => count.saturating_sub(1),
                _ => count,
            },
            None => count,
        }
    }

    // The even part of a second that a seat has of its buckets, at least a byte; none where no other waits for one of them since
    // an earlier second.
    fn part(
        &self,
        pools: &Pools,
        seat: SeatNo,
        seated: &Seated,
        second: u64,
        now: Moment,
    ) -> Option<u64> {
        let mut least = u64::MAX;
        let mut is_shared = false;
        let mut place = 0usize;
        for spot in seated.spots.as_slice() {
            let others = self.others(seat, place, seated.epoch, spot, second);
            if let Some(level) = pools.level(seated.epoch, spot, now) {
                least = least.min(divided(level, others));
                is_shared = is_shared || others > 0;
            }
            place = place.saturating_add(1);
        }
        if is_shared { Some(least.max(1)) } else { None }
    }

    // The place of a seat, which is made where there is none.
    fn know(&mut self, seat: SeatNo) -> Result<&mut TurnPlace, WantOfMemory> {
        if !self.places.contains_key(&seat) {
            let place = TurnPlace {
                wait: None,
                second: None,
                left: 0,
            };
            let _was = self.places.insert(seat, place)?;
        }
        self.places.get_mut(&seat).ok_or(WantOfMemory)
    }

    // What is left of a seat's part of this second, which begins with this part.
    fn left(&mut self, seat: SeatNo, second: u64, part: u64) -> u64 {
        match self.know(seat) {
            Ok(place) => {
                if place.second != Some(second) {
                    place.second = Some(second);
                    place.left = part;
                }
                place.left
            }
            Err(_) => part,
        }
    }

    /// How many of the bytes that a seat wants it may be granted at a moment, of which none are another's. It is none where the seat
    /// had its part of the second.
    pub(crate) fn asks(&mut self, pools: &Pools, seat: SeatNo, wanted: u64, now: Moment) -> u64
        ensures { result ≤ wanted }
    {
        let Some(seated) = pools.seated(seat) else {
            return wanted;
        };
        let second = pools.second(seat, now);
        match self.part(pools, seat, seated, second, now) {
            Some(part) => self.left(seat, second, part).min(wanted),
            None => wanted,
        }
    }

    /// A seat was granted so many bytes at a moment. Where that is none, it waits.
    pub(crate) fn note(&mut self, pools: &Pools, seat: SeatNo, given: u64, now: Moment) {
        let Some(seated) = pools.seated(seat) else {
            return;
        };
        let since = self.stop(seat, seated);
        if given == 0 {
            let second = pools.second(seat, now);
            let place = narrowest(pools, seated, now);
            let since = since.unwrap_or(second);
            let _gave = self.wait(seat, seated, SeatWait { since, place }, second);
            return;
        }
        if let Some(place) = self.places.get_mut(&seat) {
            place.left = place.left.saturating_sub(given);
        }
    }

    // A seat begins to wait, in this second.
    fn wait(
        &mut self,
        seat: SeatNo,
        seated: &Seated,
        wait: SeatWait,
        second: u64,
    ) -> Result<(), WantOfMemory> {
        let Some(spot) = seated.spots.as_slice().get(wait.place) else {
            return Ok(());
        };
        let own = self.know(seat)?;
        own.wait = None;
        self.count(seated.epoch, spot, wait.since, second)?;
        if let Some(own) = self.places.get_mut(&seat) {
            own.wait = Some(wait);
        }
        Ok(())
    }

    // A seat waits no more: since when it did, if it did.
    fn stop(&mut self, seat: SeatNo, seated: &Seated) -> Option<u64> {
        let own = self.places.get_mut(&seat)?;
        let wait = own.wait.take()?;
        if let Some(spot) = seated.spots.as_slice().get(wait.place) {
            self.uncount(seated.epoch, spot, wait.since);
        }
        Some(wait.since)
    }

    // Counts a seat that begins to wait for a bucket in this second.
    fn count(
        &mut self,
        epoch: EpochNo,
        spot: &BucketSpot,
        since: u64,
        second: u64,
    ) -> Result<(), WantOfMemory> {
        if !self.waits.contains_key(&epoch) {
            let _was = self.waits.insert(epoch, BTreeMap::new(self.alloc))?;
        }
        let Some(waits) = self.waits.get_mut(&epoch) else {
            return Err(WantOfMemory);
        };
        if let Some(bucket) = waits.get_mut(spot) {
            bucket.enter(since, second);
            return Ok(());
        }
        let name = spot.copy(self.alloc)?;
        let mut bucket = BucketWaits {
            second,
            newly: 0,
            before: 0,
        };
        bucket.enter(since, second);
        let _was = waits.insert(name, bucket)?;
        Ok(())
    }

    // Counts a seat no more that waited for a bucket since this second.
    fn uncount(&mut self, epoch: EpochNo, spot: &BucketSpot, since: u64) {
        let Some(waits) = self.waits.get_mut(&epoch) else {
            return;
        };
        let Some(bucket) = waits.get_mut(spot) else {
            return;
        };
        bucket.leave(since);
        if !bucket.is_idle() {
            return;
        }
        let _bucket = waits.remove(spot);
        if waits.is_empty() {
            let _waits = self.waits.remove(&epoch);
        }
    }

    /// A seat is given up: it is not known any more.
    pub(crate) fn leave(&mut self, pools: &Pools, seat: SeatNo)
        ensures { has_turn self.new seat ≡ false }
    {
        if let Some(seated) = pools.seated(seat) {
            let _since = self.stop(seat, seated);
        }
        let _place = self.places.remove(&seat);
    }
}

// The place of the bucket that will hold a seat back in the next second: that of its buckets that will hold the least, the first
// of several.
fn narrowest(pools: &Pools, seated: &Seated, now: Moment) -> usize {
    let next = behind(now, 1000);
    let mut narrowest = 0usize;
    let mut least = None;
    let mut place = 0usize;
    for spot in seated.spots.as_slice() {
        if let Some(level) = pools.level(seated.epoch, spot, next) {
            if least.is_none() || level < least.unwrap_or(0) {
                narrowest = place;
                least = Some(level);
            }
        }
        place = place.saturating_add(1);
    }
    narrowest
}
