//! `Meter`: what grants bytes.
ghost use Rattle.std.specs.Prelude.{◌≡◌, ◌==◌, ℕ, ◌<◌, ◌≤◌, Bool, false, IfSome};
ghost use Rattle.std.specs.declared.option.Option.{Option};
ghost use Rattle.sq_forward.specs.Meters.{is_short, Gives, granted_after, dry_after_grant, dry_after_pause};
ghost use Rattle.sq_outside.specs.Causes.{count_limit};

/// What grants the bytes of an origin before they go to a client.
pub trait Meter {
    /// Whether it holds a seat.
    ghost seated: { Self → Bool };

    /// How many bytes were granted on seats. It never falls.
    ghost granted: { Self → ℕ };

    /// Whether a bucket of its seat is empty at the moment of its next call, where it tells that. Without a seat none is.
    ghost emptied: { Self → Option Bool };

    /// Whether the last call was a grant that wanted some and found a bucket of its seat empty, so that it gave none.
    ghost short: { Self → Bool };

    /// How many pauses came since a grant gave some, each of them behind a grant that found a bucket of its seat empty.
    ghost dry: { Self → ℕ };

    /// What else it stands for. No grant and no pause changes that.
    ghost Besides: { Type 0 };

    ghost besides: { Self → Besides };

    /// Whether it holds a seat. It takes no memory.
    fn is_seated(&self) -> bool
        ensures { result ≡ seated self.now };

    /// Grants at most so many bytes, and all of them where no seat is held. Where some are wanted it grants none exactly
    /// where a bucket of its seat is empty. Where it is not the turn of the seat, it waits for that.
    fn grant(&mut self, wanted: u64) -> u64
        ensures gives { Gives (seated self.old) wanted result }
        ensures empty { 0 < wanted → IfSome (emptied self.old) (λ e. (result == 0) ≡ e) }
        ensures seated { seated self.new ≡ seated self.old }
        ensures besides { besides self.new ≡ besides self.old }
        ensures granted { granted self.new
            ≡ granted_after (seated self.old) (granted self.old) result }
        ensures short { short self.new ≡ is_short wanted result }
        ensures dry { dry self.new ≡ dry_after_grant result (dry self.old) };

    /// Waits a while.
    fn pause(&mut self)
        ensures seated { seated self.new ≡ seated self.old }
        ensures besides { besides self.new ≡ besides self.old }
        ensures granted { granted self.new ≡ granted self.old }
        ensures short { short self.new ≡ false }
        ensures dry { dry self.new ≡ dry_after_pause (short self.old) (dry self.old) };

    ghost capped: { (meter : Self) → granted meter ≤ count_limit };
}
