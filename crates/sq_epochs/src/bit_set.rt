//! `BitSet`: a set of places below 128.
ghost use Rattle.std.specs.Prelude.{◌≡◌, ◌<◌, ℕ, false, IfNone, IfSome};
ghost use Rattle.sq_epochs.specs.Sets.{IsLeast, IsSetAt, is_in};

use std::marker::Model;

/// A set of places below 128. A contract sees its word, and by `is_in` which places are in it.
#[derive(Drop)]
pub struct BitSet {
    bits: u128,
}

impl Model for BitSet {
    ghost use Rattle.std.specs.Prelude.{ℕ};

    ghost Value = { ℕ };

    ghost view = { λ s. s.bits };
}

impl BitSet {
    /// No place.
    pub fn none() -> BitSet
        ensures { (p : ℕ) → is_in p result ≡ false }
    {
        BitSet { bits: 0 }
    }

    /// Puts a place in, or takes it out.
    pub fn set(&mut self, place: u32, within: bool)
        requires { place < 128 }
        ensures { IsSetAt place within self.old self.new }
    {
        let bit = 1 << place;
        if within {
            self.bits |= bit;
        } else {
            self.bits &= !bit;
        }
    }

    /// The least place that is in it.
    pub fn first(&self) -> Option<u32>
        ensures least { IfSome result (IsLeast self.now) }
        ensures none { IfNone result ((p : ℕ) → is_in p self.now ≡ false) }
    {
        if self.bits == 0 {
            None
        } else {
            Some(self.bits.trailing_zeros())
        }
    }
}
