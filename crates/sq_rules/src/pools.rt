//! Delay pools, as the directives `delay_class`, `delay_access` and `delay_parameters` state them.
use crate::configs::Rules;
use sq_base::Listed;
use std::marker::Model;

/// What a bucket gains in a second, and what it holds at the most, in bytes.
#[derive(Clone, Copy, PartialEq, Eq)]
pub struct Limit {
    pub restore: u64,
    pub max: u64,
}

impl Model for Limit {
    ghost use Rattle.sq_rules.specs.Rates.{Limit, IsLimit};

    ghost Value = { Limit };

    ghost view = { λ l. record { restore = l.restore; max = l.max } };

    ghost invariant = { λ l. IsLimit (record { restore = l.restore; max = l.max }) };

    ghost inverse = { λ r. record { restore = r.restore; max = r.max } };
}

/// The limits of a pool's buckets, in the order of `delay_parameters`; None is no limit.
pub type Limits = Listed<Option<Limit>>;

/// A delay pool: its class, which is 1, 2, 3 or 5, a limit for each kind of that class's buckets, and the rules that
/// say whom it delays.
pub struct Pool {
    pub class: u8,
    pub pairs: Limits,
    pub lists: Rules,
}

impl Drop for Pool {
    fn drop(self) {
        let Pool {
            class: _,
            pairs: _,
            lists: _,
        } = self;
    }
}

/// A list of pools.
pub type PoolList = Listed<Pool>;
