//! Leaf acls that read the client and the time.
ghost use Rattle.std.specs.Prelude.{◌≡◌};
ghost use Rattle.sq_rules.specs.Leaves.{holds};
ghost use Rattle.sq_rules.specs.Times.{has_day, in_hour};

use sq_rules::{DAY_MINUTES, Hour, Hours, Leaf, Numbers, Sight};

/// `maxconn`: the client's address has more connections open than some value.
pub fn maxconn_has(values: &Numbers, sight: &Sight) -> bool
    ensures { result ≡ holds (Leaf.MaxConn values.now) sight.now }
{
    let conns = sight.conns;
    values.as_slice().iter().any(|&most| most < conns)
}

/// `time`: the local minute of the week lies in some line's days and minutes.
pub fn time_has(values: &Hours, sight: &Sight) -> bool
    ensures { result ≡ holds (Leaf.Time values.now) sight.now }
{
    let minute = sight.minute;
    values.as_slice().iter().any(|hour| in_period(hour, minute))
}

// Whether the minute of the week lies in the line's days and minutes, both ends included.
fn in_period(hour: &Hour, minute: u32) -> bool
    ensures { result ≡ in_hour hour.now minute }
{
    let of_day = minute % DAY_MINUTES;
    has_day(hour.days, minute / DAY_MINUTES) && hour.first <= of_day && of_day <= hour.last
}

// Whether the days have this one, from Sunday as 0.
fn has_day(days: u8, day: u32) -> bool
    ensures { result ≡ has_day days day }
{
    day < 8 && days >> day & 1 == 1
}
