//! The listener, as it lies behind its lock.
ghost use Rattle.std.specs.Prelude.{◌≡◌, ◌<◌, true, false};
ghost use Rattle.sq_outside.specs.Dials.{IsOpen, LinkComes};
ghost use Rattle.sq_outside.specs.World.{AcceptHasCause, IfLink, IfNoLink, IfStopped, has_failed};

use sq_outside::{Accepted, Listener};
use std::alloc::Global;

/// A listener, and whether its last call failed that was not stopped. It says so only where the listener counted a fault.
#[derive(Drop)]
pub struct Door<L: Listener> {
    listener: L,
    failed: bool,
    ghost said: { failed ≡ true → 0 < L.faults listener },
}

impl<L: Listener + Drop> Door<L> {
    /// A listener of which no call failed yet.
    pub fn new(listener: L) -> Door<L>
        ensures listener { result.listener ≡ listener }
        ensures failed { result.failed ≡ false }
    {
        Door {
            listener,
            failed: false,
        }
    }

    /// Waits for the next link, and remembers where that failed, until one comes. What it answers is the listener's.
    pub fn next(&mut self, alloc: Global) -> Accepted<L::In, L::Outgo>
        ensures link { IfLink result
            (λ from to addr port. LinkComes (L.coming self.old.listener)
            (L.coming self.new.listener) addr port (L.In.left from)
            (L.Outgo.Sink.contents to)) }
        ensures none { IfNoLink result
            (L.coming self.new.listener ≡ L.coming self.old.listener) }
        ensures open { IfLink result (λ from to addr port. IsOpen (L.Outgo.closed to)) }
        ensures fresh { IfLink result
            (λ from to addr port. (L.In.faults from ≡ 0) × (L.Outgo.Sink.faults to ≡ 0)) }
        ensures cause { AcceptHasCause (L.faults self.old.listener)
            (L.faults self.new.listener) result }
        ensures told { has_failed result ≡ true → self.new.failed ≡ true }
        ensures taken_back { IfLink result (λ from to addr port. self.new.failed ≡ false) }
        ensures kept { IfStopped result (self.new.failed ≡ self.old.failed) }
    {
        let accepted = self.listener.next(alloc);
        match &accepted {
            Accepted::Link { .. } => self.failed = false,
            Accepted::Failed => self.failed = true,
            Accepted::Stopped => {}
        }
        accepted
    }

    /// Whether the last call failed.
    pub fn has_failed(&self) -> bool
        ensures { result ≡ self.now.failed }
    {
        self.failed
    }

    /// The listener, given back, and whether its last call failed: then it counted a fault.
    pub fn into_listener(self) -> (L, bool)
        ensures listener { result.0 ≡ self.listener }
        ensures failed { result.1 ≡ self.failed }
        ensures cause { result.1 ≡ true → 0 < L.faults result.0 }
    {
        let Door { listener, failed } = self;
        (listener, failed)
    }
}
