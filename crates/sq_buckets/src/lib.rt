//! Buckets that fill second by second, by name, and which of them a client of a delay pool has.
//!
//! `Buckets` opens buckets, grants what each of several has, and shows the numbers of one. A bucket is reckoned at once,
//! however many seconds have gone, and a grant costs a logarithm in the number of buckets and takes no memory.
//! `spots_of` names the buckets of a client, and `tag_spots_of` that of a tag.
#![tactic(auto)]

mod bucket;
mod buckets;
mod spots;

pub use bucket::Bucket;
pub use buckets::Buckets;
pub use spots::{BucketSpot, bucket_pairs, spots_of, tag_spots_of};
