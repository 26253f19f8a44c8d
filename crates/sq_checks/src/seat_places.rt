//! Where a record is seated.
ghost use Rattle.std.specs.Prelude.{◌≡◌, true, IfOk, IfErr};
ghost use Rattle.sq_machine.specs.SeatPlaces.{has_tags, seat_place};

use crate::records::Record;
use crate::tags::tag_of;
use sq_base::WantOfMemory;
use sq_machine::SeatPlace;
use sq_rules::Pool;
use std::alloc::Global;

// Whether the buckets of a pool are by tags.
fn has_tags(pools: &[Pool], pool: u32) -> bool
    ensures { result ≡ has_tags pools.now pool }
{
    match pools.get(pool as usize) {
        Some(taken) => taken.class == 5,
        None => false,
    }
}

impl Record {
    ghost use Rattle.sq_checks.specs.Records.{TakesClient, needs_tag};

    /// Where it is seated: in its pool, if it has one; in one whose buckets are by tags only for its tag, if it has
    /// one. It takes memory where the buckets are by tags.
    pub fn seat_place(&self, alloc: Global) -> Result<SeatPlace, WantOfMemory>
        ensures value { IfOk result
            (λ p. p ≡ seat_place self.now.config self.now.sight self.now.answers) }
        ensures there { IfOk result (λ p. TakesClient self.now p) }
        ensures needed { IfErr result (λ _. needs_tag self.now ≡ true) }
    {
        let Some(pool) = self.pool() else {
            return Ok(SeatPlace::Nowhere);
        };
        let config = self.config();
        if !has_tags(config.pools(), pool) {
            return Ok(SeatPlace::ByAddress(pool));
        }
        let tag = tag_of(alloc, config, self.facts(), self.sight(), self.answers())?;
        Ok(match tag {
            Some(tag) => SeatPlace::ByTag(pool, tag),
            None => SeatPlace::Nowhere,
        })
    }
}
