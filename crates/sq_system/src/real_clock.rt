//! The system's clock: the trusted edge. It relies on the system's time as it was at the beginning, and from there on the time
//! that passes, which never falls: a clock that is set meanwhile moves no moment.
ghost use Rattle.std.specs.Prelude.{◌≤◌, ◌-◌, ◌^◌, ◌<◌, None};

use crate::again::raise;
use sq_base::Moment;
use sq_outside::{Another, Clock};
use std::thread;
use std::time::{self, Duration};

/// How long a pause is, in milliseconds.
const PAUSE: u64 = 10;

/// The last moment that is given.
const LAST: u128 = (1 << 63) - 1;

/// The system's clock, in milliseconds since 1970: the time of the beginning and what passed since then. Where that cannot be
/// read, the moment that was read last is given again.
#[derive(Drop)]
pub struct RealClock<R> {
    rt: R,
    // How far 1970 is behind the zero of the time that passes.
    ahead: Duration,
    last: Moment,
    faults: u64,
    ghost capped: { faults ≤ 2 ^ 63 - 1 },
}

impl<R: time::Clock> RealClock<R> {
    /// A clock of this runtime that begins now, with the count 0; one whose time could not be read begins at 1970.
    pub fn new(rt: R) -> RealClock<R> {
        let ahead = match (rt.since_1970(), rt.monotonic()) {
            (Ok(since), Ok(passed)) => since.saturating_sub(passed),
            _ => Duration::ZERO,
        };
        RealClock {
            rt,
            ahead,
            last: Moment(0),
            faults: 0,
        }
    }
}

impl<R: Copy> Another for RealClock<R> {
    fn another(&self) -> RealClock<R> {
        RealClock {
            rt: self.rt,
            ahead: self.ahead,
            last: self.last,
            faults: 0,
        }
    }
}

impl<R: time::Clock> Clock for RealClock<R> {
    ghost moments = { λ _. None };

    ghost faults = { λ s. s.faults };

    ghost capped = { λ s. s.capped };

    fn now(&mut self) -> Moment {
        match self.rt.monotonic() {
            Ok(passed) => {
                let since = self.ahead.saturating_add(passed);
                self.last = Moment(since.as_millis().min(LAST) as u64);
            }
            Err(_) => raise(&mut self.faults),
        }
        self.last
    }

    fn pause(&mut self) {
        thread::sleep(&self.rt, Duration::from_millis(PAUSE));
    }
}
