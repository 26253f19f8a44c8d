//! A seat of the pools of either kind.

use crate::seats::Seat;
use crate::tag_pools::TagSeat;

/// A seat that is held: in a pool with buckets by addresses, or in one with buckets by tags.
#[derive(Drop)]
pub enum HeldSeat {
    ByAddress(Seat),
    ByTag(TagSeat),
}
