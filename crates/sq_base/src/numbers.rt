//! Numbers and moments, each a type of its own. Each is at most 2^63 - 1.
use std::marker::Model;

/// A moment, in milliseconds since 1970-01-01 00:00 UTC.
#[derive(Clone, Copy, PartialEq, Eq, PartialOrd, Ord)]
pub struct Moment(pub u64);

impl Model for Moment {
    ghost use Rattle.std.specs.Prelude.{ℕ, ◌<◌, ◌^◌};

    ghost Value = { ℕ };

    ghost view = { λ a. a.0 };

    ghost invariant = { λ a. a.0 < 2 ^ 63 };

    ghost inverse = { λ n. record { 0 = n } };
}

/// The number of a client connection, given by the front.
#[derive(Clone, Copy, Debug, PartialEq, Eq, PartialOrd, Ord)]
pub struct ConnNo(pub u64);

impl Model for ConnNo {
    ghost use Rattle.std.specs.Prelude.{ℕ, ◌<◌, ◌^◌};

    ghost Value = { ℕ };

    ghost view = { λ a. a.0 };

    ghost invariant = { λ a. a.0 < 2 ^ 63 };

    ghost inverse = { λ n. record { 0 = n } };
}

/// The number of a check, from 1.
#[derive(Clone, Copy, Debug, PartialEq, Eq, PartialOrd, Ord)]
pub struct CheckNo(pub u64);

impl Model for CheckNo {
    ghost use Rattle.std.specs.Prelude.{ℕ, ◌<◌, ◌^◌};

    ghost Value = { ℕ };

    ghost view = { λ a. a.0 };

    ghost invariant = { λ a. a.0 < 2 ^ 63 };

    ghost inverse = { λ n. record { 0 = n } };
}

/// The number of an epoch, from 1: the time of one configuration.
#[derive(Clone, Copy, Debug, PartialEq, Eq, PartialOrd, Ord)]
pub struct EpochNo(pub u64);

impl Model for EpochNo {
    ghost use Rattle.std.specs.Prelude.{ℕ, ◌<◌, ◌^◌};

    ghost Value = { ℕ };

    ghost view = { λ a. a.0 };

    ghost invariant = { λ a. a.0 < 2 ^ 63 };

    ghost inverse = { λ n. record { 0 = n } };
}

/// The number of a helper process, from 1.
#[derive(Clone, Copy, Debug, PartialEq, Eq, PartialOrd, Ord)]
pub struct ProcNo(pub u64);

impl Model for ProcNo {
    ghost use Rattle.std.specs.Prelude.{ℕ, ◌<◌, ◌^◌};

    ghost Value = { ℕ };

    ghost view = { λ a. a.0 };

    ghost invariant = { λ a. a.0 < 2 ^ 63 };

    ghost inverse = { λ n. record { 0 = n } };
}

/// The number of a question to a helper, from 1.
#[derive(Clone, Copy, Debug, PartialEq, Eq, PartialOrd, Ord)]
pub struct QuestionNo(pub u64);

impl Model for QuestionNo {
    ghost use Rattle.std.specs.Prelude.{ℕ, ◌<◌, ◌^◌};

    ghost Value = { ℕ };

    ghost view = { λ a. a.0 };

    ghost invariant = { λ a. a.0 < 2 ^ 63 };

    ghost inverse = { λ n. record { 0 = n } };
}

/// The number of a seat in a delay pool, from 1.
#[derive(Clone, Copy, Debug, PartialEq, Eq, PartialOrd, Ord)]
pub struct SeatNo(pub u64);

impl Model for SeatNo {
    ghost use Rattle.std.specs.Prelude.{ℕ, ◌<◌, ◌^◌};

    ghost Value = { ℕ };

    ghost view = { λ a. a.0 };

    ghost invariant = { λ a. a.0 < 2 ^ 63 };

    ghost inverse = { λ n. record { 0 = n } };
}
