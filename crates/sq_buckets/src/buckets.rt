//! The buckets of a generation by name.
ghost use Rattle.std.specs.Prelude.{◌≡◌, ◌<◌, ◌≤◌, ◌^◌, [], if◌then◌else◌, Some, None, is_some, true, OnOk, OnErr};
ghost use Rattle.std.specs.Option.{option_map};
ghost use Rattle.sq_rules.specs.Limits.{initial_limit};
ghost use Rattle.sq_machine.specs.BucketLevels.{filled_to};
ghost use Rattle.sq_machine.specs.PoolReadings as readings;
ghost use Rattle.sq_buckets.specs.Grants.{are_own, are_there, bucket_at, filled_if, granted_if, least_at, level_or_none, opened_in, without_bucket};

use crate::bucket::{Bucket, Filling};
use crate::spots::BucketSpot;
use sq_base::{Copying, WantOfMemory};
use std::alloc::Global;
use std::collections::BTreeMap;
use std::marker::Model;

/// Buckets by name, in an ordered map: a look-up costs a logarithm of the number of hosts.
pub struct Buckets {
    map: BTreeMap<BucketSpot, Filling>,
}

// Written out, so that it is proved here alone.
impl Drop for Buckets {
    fn drop(self) {
        let Buckets { map: _ } = self;
    }
}

impl Model for Buckets {
    ghost use Rattle.std.specs.Prelude.{List};
    ghost use Rattle.sq_machine.specs.BucketLevels.{Filled};
    ghost use Rattle.sq_machine.specs.PoolReadings as named;

    ghost Value = { List (named.BucketSpot × Filled) };

    ghost view = { λ b. b.map.entries };
}

impl Buckets {
    /// No buckets.
    pub fn new(alloc: Global) -> Buckets
        ensures { result ≡ [] }
    {
        Buckets {
            map: BTreeMap::new(alloc),
        }
    }

    // The bucket of a name.
    fn get(&self, spot: &BucketSpot) -> Option<Filling>
        ensures { result ≡ bucket_at self.now spot.now }
    {
        self.map.get(spot).copied()
    }

    /// The numbers of the bucket of a name in this second.
    pub fn bucket(&self, spot: &BucketSpot, second: u64) -> Option<Bucket>
        requires { second < 2 ^ 63 }
        ensures { result ≡ option_map (λ f. (filled_to second f).tally)
            (bucket_at self.now spot.now) }
    {
        let filling = self.get(spot)?;
        Some(filling.bucket_in(second))
    }

    // Puts the bucket of a name that has none.
    fn put(&mut self, alloc: Global, spot: &BucketSpot, bucket: Filling) -> Result<(), WantOfMemory>
        requires { bucket_at self.old spot.now ≡ None }
        ensures ok { OnOk result
            ((s : readings.BucketSpot)
            → bucket_at self.new s ≡
            (if readings.is_spot s spot.now then Some bucket else bucket_at self.old s)) }
        ensures undo { OnOk result (without_bucket spot.now self.new ≡ self.old) }
        ensures err { OnErr result (self.new ≡ self.old) }
    {
        let name = spot.copy(alloc)?;
        let _was = self.map.insert(name, bucket)?;
        Ok(())
    }

    // Takes a bucket away.
    fn remove(&mut self, spot: &BucketSpot)
        ensures { self.new ≡ without_bucket spot.now self.old }
    {
        let _was = self.map.remove(spot);
    }

    /// Opens the buckets of these names, where there are none, in this second and at this percentage.
    pub fn open(
        &mut self,
        alloc: Global,
        spots: &[BucketSpot],
        initial: u8,
        second: u64,
    ) -> Result<(), WantOfMemory>
        requires initial { initial ≤ initial_limit }
        requires second { second < 2 ^ 63 }
        ensures ok { OnOk result
            ((s : readings.BucketSpot)
            → bucket_at self.new s ≡ filled_if (readings.has_spot spots.now s)
            (opened_in initial second s) (bucket_at self.old s)) }
        ensures err { OnErr result (self.new ≡ self.old) }
    {
        let Some((first, rest)) = spots.split_first() else {
            return Ok(());
        };
        if self.get(first).is_some() {
            return self.open(alloc, rest, initial, second);
        }
        self.put(alloc, first, Filling::open(first.limit(), initial, second))?;
        match self.open(alloc, rest, initial, second) {
            Ok(()) => Ok(()),
            Err(error) => {
                self.remove(first);
                Err(error)
            }
        }
    }

    // Takes so much in this second from the bucket of a name.
    fn draw(&mut self, spot: &BucketSpot, amount: u64, second: u64)
        requires there { is_some (bucket_at self.old spot.now) ≡ true }
        requires second { second < 2 ^ 63 }
        requires amount { amount ≤ level_or_none second (bucket_at self.old spot.now) }
        ensures { (s : readings.BucketSpot)
            → bucket_at self.new s ≡ option_map
            (granted_if (readings.is_spot spot.now s) second amount) (bucket_at self.old s) }
    {
        match self.map.get_mut(spot) {
            Some(filling) => filling.grant(amount, second),
            None => unreachable!(),
        }
    }

    // The least of what is wanted and of the levels of the buckets of these names in this second.
    fn least(&self, spots: &[BucketSpot], wanted: u64, second: u64) -> u64
        requires there { are_there self.now spots.now ≡ true }
        requires second { second < 2 ^ 63 }
        ensures { result ≡ least_at second self.now spots.now wanted }
    {
        let mut least = wanted;
        for spot in spots {
            if let Some(filling) = self.get(spot) {
                least = least.min(filling.bucket_in(second).level);
            }
        }
        least
    }

    /// Grants the least of what is wanted and of the levels of the buckets of these names in this second, and
    /// takes it from each of them.
    pub fn grant(&mut self, spots: &[BucketSpot], wanted: u64, second: u64) -> u64
        requires there { are_there self.old spots.now ≡ true }
        requires own { are_own spots.now ≡ true }
        requires second { second < 2 ^ 63 }
        ensures amount { result ≡ least_at second self.old spots.now wanted }
        ensures taken { (s : readings.BucketSpot)
            → bucket_at self.new s ≡ option_map
            (granted_if (readings.has_spot spots.now s) second result) (bucket_at self.old s) }
    {
        let amount = self.least(spots, wanted, second);
        for spot in spots {
            self.draw(spot, amount, second);
        }
        amount
    }
}
