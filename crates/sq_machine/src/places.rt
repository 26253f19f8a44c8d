//! Where a record is seated.
use sq_base::Text;

/// The seat of a record: none, or one in a delay pool, by its place from 0, whose buckets are found by the client's
/// address, or by the tag that a helper gave.
#[derive(Drop, PartialEq, Eq)]
pub enum SeatPlace {
    Nowhere,
    ByAddress(u32),
    ByTag(u32, Text),
}
