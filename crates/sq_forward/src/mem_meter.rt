//! `MemMeter`: a meter in memory.
ghost use Rattle.std.specs.Prelude.{◌≤◌, ◌-◌, ◌^◌};

use crate::meter::Meter;
use sq_outside::{raised, raised_by};

/// A meter that has so many bytes to grant where it holds a seat, and then grants none. Without a seat it
/// grants all that is wanted.
#[derive(Drop)]
pub struct MemMeter {
    pub seated: bool,
    pub room: u64,
    pub granted: u64,
    pub short: bool,
    pub dry: u64,
    ghost granted_capped: { granted ≤ 2 ^ 63 - 1 },
    ghost dry_capped: { dry ≤ 2 ^ 63 - 1 },
}

impl Meter for MemMeter {
    ghost use Rattle.std.specs.Prelude.{◌==◌, ◌&&◌, Some};

    ghost seated = { λ m. m.seated };

    ghost granted = { λ m. m.granted };

    ghost emptied = { λ m. Some (m.seated && m.room == 0) };

    ghost short = { λ m. m.short };

    ghost dry = { λ m. m.dry };

    ghost Besides = { Unit {0} };

    ghost besides = { λ _. tt };

    ghost capped = { λ m. m.granted_capped };

    fn is_seated(&self) -> bool {
        self.seated
    }

    fn grant(&mut self, wanted: u64) -> u64 {
        let given = if self.seated {
            wanted.min(self.room)
        } else {
            wanted
        };
        if self.seated {
            self.room -= given;
            self.granted = raised_by(self.granted, given);
        }
        self.short = wanted > 0 && given == 0;
        if given > 0 {
            self.dry = 0;
        }
        given
    }

    fn pause(&mut self) {
        if self.short {
            self.dry = raised(self.dry);
        }
        self.short = false;
    }
}
