//! What a server reads its orders from: a source that waits for clients.
ghost use Rattle.std.specs.Prelude.{None};
ghost use Rattle.std.proofs.Common.{arith};

use sq_outside::{Failed, Source};
use sq_outside_mem::Wire;
use std::thread;

/// For how many turns orders wait.
const TURNS: u32 = 20_000_000;

/// The orders of a server: none, but that they end once each of these wires was closed, or after as many turns as they wait.
#[derive(Drop)]
pub struct Orders<'a> {
    wires: &'a [Wire],
}

impl<'a> Orders<'a> {
    /// Orders that wait for these wires.
    pub fn new(wires: &'a [Wire]) -> Orders<'a> {
        Orders { wires }
    }
}

// Returns once each of these wires was closed, or after as many turns as orders wait.
fn wait_for(wires: &[Wire]) {
    for _ in 0..TURNS {
        if wires.iter().all(|wire| wire.is_closed()) {
            return;
        }
        thread::yield_now();
    }
}

impl<'a> Source for Orders<'a> {
    ghost left = { λ _. None };

    ghost origin = { λ _. None };

    ghost faults = { λ _. 0 };

    ghost capped = { λ _. Prim.search arith };

    fn read(&mut self, _into: &mut [u8]) -> Result<usize, Failed> {
        wait_for(self.wires);
        Ok(0)
    }
}
