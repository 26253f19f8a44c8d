//! `Free`: the meter of bytes that go to an origin.
use crate::meter::Meter;

/// A meter without a seat. What goes to an origin is not counted.
#[derive(Drop)]
pub(crate) struct Free;

impl Meter for Free {
    ghost use Rattle.std.specs.Prelude.{Some, false};
    ghost use Rattle.std.proofs.Common.{rules};

    ghost seated = { λ _. false };

    ghost granted = { λ _. 0 };

    ghost emptied = { λ _. Some false };

    ghost short = { λ _. false };

    ghost dry = { λ _. 0 };

    ghost Besides = { Unit {0} };

    ghost besides = { λ _. tt };

    ghost capped = { λ _. Prim.search rules };

    fn is_seated(&self) -> bool {
        false
    }

    fn grant(&mut self, wanted: u64) -> u64 {
        wanted
    }

    fn pause(&mut self) {}
}
