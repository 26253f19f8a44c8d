//! The names of buckets, and which of them a client has.
ghost use Rattle.std.specs.Prelude.{◌≡◌, ◌≤◌, [], length, IfOk};
ghost use Rattle.sq_machine.specs.PoolReadings as readings;

use sq_base::{Addr, Copying, Listed, Text, WantOfMemory};
use sq_rules::{Limit, Pool};
use std::alloc::Global;
use std::marker::Model;

/// A bucket within its generation: its pool, the place of its pair, its host number or its tag, and its limit.
#[derive(PartialEq, Eq, PartialOrd, Ord)]
pub struct BucketSpot {
    pool: u32,
    pub(crate) place: u32,
    host: u32,
    restore: u64,
    max: u64,
    tag: Text,
}

// Written out, so that it is proved here alone.
impl Drop for BucketSpot {
    fn drop(self) {
        let BucketSpot {
            pool: _,
            place: _,
            host: _,
            restore: _,
            max: _,
            tag: _,
        } = self;
    }
}

impl Model for BucketSpot {
    ghost use Rattle.sq_machine.specs.PoolReadings as readings;
    ghost use Rattle.sq_rules.specs.Rates.{IsLimit};

    ghost Value = { readings.BucketSpot };

    ghost view = { λ s. record {
      pool = s.pool;
      place = s.place;
      host = s.host;
      limit = record { restore = s.restore; max = s.max };
      tag = s.tag;
    } };

    ghost invariant = { λ s. IsLimit (record { restore = s.restore; max = s.max }) };

    ghost inverse = { λ s. record {
      pool = s.pool;
      place = s.place;
      host = s.host;
      restore = s.limit.restore;
      max = s.limit.max;
      tag = s.tag;
    } };
}

impl Copying for BucketSpot {
    fn copy(&self, alloc: Global) -> Result<BucketSpot, WantOfMemory> {
        let tag = self.tag.copy(alloc)?;
        Ok(BucketSpot {
            pool: self.pool,
            place: self.place,
            host: self.host,
            restore: self.restore,
            max: self.max,
            tag,
        })
    }
}

impl BucketSpot {
    /// The bucket of a host number.
    pub fn of_host(alloc: Global, pool: u32, place: u32, host: u32, limit: Limit) -> BucketSpot
        ensures { result ≡ record {
          pool = pool;
          place = place;
          host = host;
          limit = limit;
          tag = [];
        } }
    {
        BucketSpot {
            pool,
            place,
            host,
            restore: limit.restore,
            max: limit.max,
            tag: Text::new(alloc),
        }
    }

    // The bucket of a tag.
    fn of_tag(pool: u32, tag: Text, limit: Limit) -> BucketSpot
        ensures { result ≡ record {
          pool = pool;
          place = 0;
          host = 0;
          limit = limit;
          tag = tag;
        } }
    {
        BucketSpot {
            pool,
            place: 0,
            host: 0,
            restore: limit.restore,
            max: limit.max,
            tag,
        }
    }

    // Its limit.
    pub(crate) fn limit(&self) -> Limit
        ensures { result ≡ self.now.limit }
    {
        Limit {
            restore: self.restore,
            max: self.max,
        }
    }
}

// The host number of the bucket of a pair, by the pool's class and the pair's place.
fn host_of(class: u8, place: u32, number: u128) -> u32
    ensures { result ≡ readings.host_of class place number }
{
    let third = number / 256 % 256;
    let fourth = number % 256;
    let host = match (place, class) {
        (0, _) => 0,
        (_, 2) => fourth,
        (1, _) => third,
        _ => third * 256 + fourth,
    };
    host as u32
}

/// The pairs of a pool that are buckets by addresses: a pool of class 5 has none.
pub fn bucket_pairs(pool: &Pool) -> &[Option<Limit>]
    ensures { result.now ≡ readings.bucket_pairs pool.now }
{
    let pairs = pool.pairs.as_slice();
    if pool.class == 5 { &pairs[..0] } else { pairs }
}

/// The buckets of a client in the pool at this place, in the order of their pairs.
pub fn spots_of(
    alloc: Global,
    place: u32,
    pool: &Pool,
    addr: Addr,
) -> Result<Listed<BucketSpot>, WantOfMemory>
    requires { length pool.now.pairs ≤ 3 }
    ensures { IfOk result (λ spots. spots ≡ readings.spots_of place pool.now addr) }
{
    let mut spots = Listed::new(alloc);
    let mut pair_place = 0;
    for pair in bucket_pairs(pool) {
        if let Some(limit) = pair {
            let host = host_of(pool.class, pair_place, addr.number);
            spots.push(BucketSpot::of_host(alloc, place, pair_place, host, *limit))?;
        }
        pair_place += 1;
    }
    Ok(spots)
}

/// The bucket of a tag in the pool at this place, where its one pair has a limit.
pub fn tag_spots_of(
    alloc: Global,
    place: u32,
    pool: &Pool,
    tag: &Text,
) -> Result<Listed<BucketSpot>, WantOfMemory>
    ensures { IfOk result (λ spots. spots ≡ readings.tag_spots_of place pool.now tag.now) }
{
    let mut spots = Listed::new(alloc);
    if let Some(Some(limit)) = pool.pairs.as_slice().first() {
        let tag = tag.copy(alloc)?;
        spots.push(BucketSpot::of_tag(place, tag, *limit))?;
    }
    Ok(spots)
}
