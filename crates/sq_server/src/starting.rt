//! What a server begins with, and what it hands back.
use sq_cache::HashSeed;
use sq_calls::DeskFault;
use sq_control::PanelEnd;
use sq_machine::Offset;
use sq_pools::{Pools, TagPools};
use sq_urlmatch::Setup;

/// What the machine begins with.
#[derive(Drop)]
pub struct Start {
    /// The configuration, with what was made of it once.
    pub setup: Setup,
    /// The local time.
    pub offset: Offset,
    /// For the hashes of keys.
    pub seed: HashSeed,
}

/// What a server hands back that ran until its panel ended.
#[derive(Drop)]
pub struct Served<L, J, K> {
    pub listener: L,
    pub journal: J,
    pub panel: K,
    /// Why the panel came to its end.
    pub end: PanelEnd,
    /// The delay pools with buckets by addresses.
    pub pools: Pools,
    /// The delay pools with buckets by tags.
    pub tags: TagPools,
    /// Whether a note of the journal failed.
    pub stopped: bool,
    /// Whether a call of the listener failed.
    pub failed: bool,
    /// The sum of the requests of all sessions, up to 2^63 - 1.
    pub requests: u64,
    /// The sum of the bytes that sessions were granted on seats, up to 2^63 - 1.
    pub granted: u64,
}

/// What a server hands back that did not begin: a note of the journal failed, or there was no memory.
#[derive(Drop)]
pub struct Unserved<L, J, K> {
    pub fault: DeskFault,
    pub listener: L,
    pub journal: J,
    pub panel: K,
}
