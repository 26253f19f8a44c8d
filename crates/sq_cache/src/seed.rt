//! The seed with which keys are hashed.
ghost use Rattle.std.specs.Prelude.{◌≡◌};
ghost use Rattle.std.specs.Hash.DefaultHasher.{initial};
ghost use Rattle.std.specs.RandomState.{initial_hasher};
ghost use Rattle.sq_cache.specs.Seeding.{first_hasher};

use std::hash::{BuildHasher, DefaultHasher, RandomState};

/// How keys are hashed. Who knows the seed can choose keys that all meet in one place of the table, and
/// make each look-up a walk over them; so a server draws one when it starts, and hands it down by value.
/// No answer depends on it.
#[derive(Clone, Copy)]
pub struct HashSeed {
    drawn: Option<RandomState>,
}

impl HashSeed {
    /// The seed that is the same in each run.
    pub fn fixed() -> HashSeed
        ensures { first_hasher result ≡ initial }
    {
        HashSeed { drawn: None }
    }

    /// A seed that was drawn, as by `RandomState::new` when the program starts.
    pub fn drawn(state: RandomState) -> HashSeed
        ensures { first_hasher result ≡ initial_hasher state }
    {
        HashSeed { drawn: Some(state) }
    }
}

impl BuildHasher for HashSeed {
    type Hasher = DefaultHasher;

    ghost build_hasher = { first_hasher };

    fn build_hasher(&self) -> DefaultHasher {
        match &self.drawn {
            Some(state) => state.build_hasher(),
            None => DefaultHasher::new(),
        }
    }
}
