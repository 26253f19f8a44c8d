//! Moments: the later of two, and what a check sees of the one when it begins.
ghost use Rattle.std.specs.Prelude.{◌≡◌, ◌≤◌};
ghost use Rattle.sq_rules.specs.Sights.{local_seconds, minute_of_day, minute_of_week, weekday};

use sq_base::Moment;
use sq_machine::Offset;
use sq_rules::DAY_MINUTES;

/// The seconds of a day.
const DAY: i64 = 86_400;

// Seconds of local time since 1970.
fn local_seconds(moment: Moment, offset: Offset) -> i64
    ensures { result ≡ local_seconds moment offset }
{
    (moment.0 / 1000) as i64 + 60 * offset.0 as i64
}

// The weekday, from Sunday as 0.
fn weekday(seconds: i64) -> u64
    ensures day { result ≡ weekday seconds }
    ensures bound { result ≤ 6 }
{
    (seconds.div_euclid(DAY) + 4).rem_euclid(7).unsigned_abs()
}

// The minute of the day.
fn minute_of_day(seconds: i64) -> u64
    ensures minute { result ≡ minute_of_day seconds }
    ensures bound { result ≤ 1439 }
{
    seconds.rem_euclid(DAY).unsigned_abs() / 60
}

/// The local minute of the week at a moment, from Sunday 00:00 as 0.
pub fn minute_of_week(moment: Moment, offset: Offset) -> u32
    ensures { result ≡ minute_of_week moment offset }
{
    let seconds = local_seconds(moment, offset);
    (weekday(seconds) * DAY_MINUTES as u64 + minute_of_day(seconds)) as u32
}
