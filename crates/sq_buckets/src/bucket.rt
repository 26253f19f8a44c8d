//! One bucket of a delay pool.
ghost use Rattle.std.specs.Prelude.{◌≡◌, ◌+◌, ◌*◌, ◌<◌, ◌≤◌, ◌^◌};
ghost use Rattle.sq_machine.specs.BucketLevels.{drawn_from, filled_to, opened_at, seconds};
ghost use Rattle.sq_rules.specs.Limits.{initial_limit};
ghost use Rattle.sq_buckets.specs.Grants.{grants, level_in};

use sq_rules::Limit;
use std::marker::Model;

/// The numbers of a bucket, in bytes. What it was opened at and what it gained is what it holds, what it
/// granted, and what it lost over its brim.
#[derive(Clone, Copy)]
pub struct Bucket {
    pub level: u64,
    pub opened: u128,
    pub restored: u128,
    pub spilled: u128,
    pub granted: u128,
}

impl Model for Bucket {
    ghost use Rattle.sq_machine.specs.BucketLevels.{Tally, IsBalanced};

    ghost Value = { Tally };

    ghost view = { λ b. record {
      level = b.level;
      opened = b.opened;
      restored = b.restored;
      spilled = b.spilled;
      granted = b.granted;
    } };

    ghost invariant = { λ b. IsBalanced
        (record {
          level = b.level;
          opened = b.opened;
          restored = b.restored;
          spilled = b.spilled;
          granted = b.granted;
        }) };

    ghost inverse = { λ b. record {
      level = b.level;
      opened = b.opened;
      restored = b.restored;
      spilled = b.spilled;
      granted = b.granted;
    } };
}

// A bucket after so many seconds, reckoned at once.
fn after(bucket: Bucket, limit: Limit, count: u64) -> Bucket
    requires within { bucket.level ≤ limit.max }
    requires fits { bucket.restored + limit.restore * count < 2 ^ 127 }
    requires small { bucket.opened ≤ limit.max }
    ensures { result ≡ seconds limit count bucket }
{
    let gained = count as u128 * limit.restore as u128;
    let full = bucket.level as u128 + gained;
    let level = full.min(limit.max as u128);
    Bucket {
        level: level as u64,
        opened: bucket.opened,
        restored: bucket.restored + gained,
        spilled: bucket.spilled + (full - level),
        granted: bucket.granted,
    }
}

// A bucket with its limit, reckoned up to a second of its generation.
#[derive(Clone, Copy)]
pub(crate) struct Filling {
    limit: Limit,
    second: u64,
    bucket: Bucket,
}

impl Model for Filling {
    ghost use Rattle.sq_machine.specs.BucketLevels.{Filled, IsFilled};

    ghost Value = { Filled };

    ghost view = { λ f. record { limit = f.limit; second = f.second; tally = f.bucket } };

    ghost invariant = { λ f. IsFilled
        (record { limit = f.limit; second = f.second; tally = f.bucket }) };

    ghost inverse = { λ f. record { limit = f.limit; second = f.second; bucket = f.tally } };
}

impl Filling {
    // A bucket that opens in this second, at this percentage of its limit.
    pub(crate) fn open(limit: Limit, initial: u8, second: u64) -> Filling
        requires initial { initial ≤ initial_limit }
        requires second { second < 2 ^ 63 }
        ensures { result ≡ record {
          limit = limit;
          second = second;
          tally = opened_at initial limit;
        } }
    {
        let level = limit.max * initial as u64 / 100;
        Filling {
            limit,
            second,
            bucket: Bucket {
                level,
                opened: level as u128,
                restored: 0,
                spilled: 0,
                granted: 0,
            },
        }
    }

    // Reckons it up to this second, where that is later.
    fn refill(&mut self, second: u64)
        requires { second < 2 ^ 63 }
        ensures { self.new ≡ filled_to second self.old }
    {
        if second <= self.second {
            return;
        }
        self.bucket = after(self.bucket, self.limit, second - self.second);
        self.second = second;
    }

    // Takes so much from it.
    fn take(&mut self, amount: u64)
        requires { amount ≤ self.old.tally.level }
        ensures { self.new ≡ drawn_from amount self.old }
    {
        self.bucket = Bucket {
            level: self.bucket.level - amount,
            opened: self.bucket.opened,
            restored: self.bucket.restored,
            spilled: self.bucket.spilled,
            granted: self.bucket.granted + amount as u128,
        };
    }

    // Its numbers in this second.
    pub(crate) fn bucket_in(&self, second: u64) -> Bucket
        requires { second < 2 ^ 63 }
        ensures { result ≡ (filled_to second self.now).tally }
    {
        let mut later = *self;
        later.refill(second);
        later.bucket
    }

    // Grants so much in this second.
    pub(crate) fn grant(&mut self, amount: u64, second: u64)
        requires second { second < 2 ^ 63 }
        requires amount { amount ≤ level_in second self.old }
        ensures { self.new ≡ grants second amount self.old }
    {
        self.refill(second);
        self.take(amount);
    }
}
