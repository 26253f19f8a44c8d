//! What a call is given of the world: devices, of which one type names the kinds, and what it runs on.
use sq_cache::HashSeed;
use sq_journal::Journal;
use sq_outside::{Files, Net, Sink, Source};

/// Of which types the files, the sink, the source of orders, the net and the journal of a call are.
pub trait World {
    type F: Files;

    type O: Sink;

    type C: Source;

    type N: Net;

    type J: Journal + Send + Drop;
}

// Five types, in the order of the trait.
impl<F: Files, O: Sink, C: Source, N: Net, J: Journal + Send + Drop> World for (F, O, C, N, J) {
    type F = F;

    type O = O;

    type C = C;

    type N = N;

    type J = J;
}

/// What a call runs on: the runtime, and the seed for the hashes of keys.
#[derive(Drop)]
pub struct Platform<'a, R> {
    pub rt: &'a R,
    pub seed: HashSeed,
}
