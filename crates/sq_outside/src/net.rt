//! `Net`: the whole world of a server, opened at a port.
ghost use Rattle.std.specs.Prelude.{◌≡◌, ℕ, ◌≤◌, IfOk};
ghost use Rattle.sq_outside.specs.Causes.{HasCause, TakesBack, count_limit};

use crate::links::{Dialer, Listener};
use crate::traits::Failed;
use crate::world::{Another, Clock, Resolver, Spawner};
use std::alloc::Global;

/// What stops a listener, from another thread too.
pub trait Stopper {
    /// Ends the listener's `next`, the one that waits and each later one.
    fn stop(&self);
}

/// What an opened net consists of.
#[derive(Drop)]
pub struct Parts<N: Net> {
    pub listener: N::L,
    pub stopper: N::T,
    pub dialer: N::D,
    pub spawner: N::S,
    pub clock: N::C,
    pub resolver: N::Q,
}

/// The world of a server.
pub trait Net: Sized {
    type L: Listener + Send + Drop;

    type T: Stopper + Send + Drop;

    type D: Dialer + Another + Send + Drop;

    type S: Spawner + Another + Send + Drop;

    type C: Clock + Another + Send + Drop;

    type Q: Resolver + Another + Send + Drop;

    /// How often it has failed, and how many listeners came back that had failed.
    ghost faults: { Self → ℕ };

    /// Opens it for so many workers: the listener accepts links at this port, and begins with the count 0.
    fn parts(&mut self, alloc: Global, port: u16, workers: u32) -> Result<Parts<Self>, Failed>
        ensures fresh { IfOk result (λ p. Self.L.faults p.listener ≡ 0) }
        ensures cause { HasCause (faults self.old) (faults self.new) result };

    /// Takes the listener back. It takes no memory.
    fn give_back(&mut self, listener: Self::L)
        ensures cause { TakesBack (faults self.old) (faults self.new) (Self.L.faults listener) };

    ghost capped: { (net : Self) → faults net ≤ count_limit };
}
