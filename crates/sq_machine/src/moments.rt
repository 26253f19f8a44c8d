//! Moments, as the machine takes them.
ghost use Rattle.std.specs.Prelude.{◌≡◌, max};

use sq_base::Moment;

/// The later of two moments: a clock that fell stays at the latest.
pub fn later(now: Moment, latest: Moment) -> Moment
    ensures { result ≡ max now latest }
{
    Moment(now.0.max(latest.0))
}
