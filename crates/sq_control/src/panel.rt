//! What runs in the calling thread of a server beside all others.
ghost use Rattle.std.specs.Prelude.{◌≡◌, ℕ, List, ◌<◌, true};
ghost use Rattle.std.specs.declared.option.Option.{Option};
ghost use Rattle.sq_outside.specs.World.{GivesMoment};

use sq_base::Moment;
use sq_calls::DeskCalls;
use sq_outside::Clock;
use sq_pools::Bank;
use sq_shared::{Grants, Ledgers, Makes, Refusals, Room};
use std::sync::ledger::Share;
use std::sync::{Mutex, Wait};

/// Why a panel came to its end.
#[derive(Clone, Copy)]
pub enum PanelEnd {
    /// It was ordered to end, or no order comes any more.
    Ended,
    /// The journal or the listener failed.
    Faulted,
    /// An order could not be read.
    ReadFault,
    /// What became of an order could not be written.
    WriteFault,
}

/// What a panel learns from: the time, and whether the listener failed.
pub trait Monitor {
    /// The moments that its clock will give, the next one first, where it tells them.
    ghost moments: { Self → Option (List ℕ) };

    /// What `has_failed` needs.
    ghost callable: { Self → Type 0 };

    /// The moment of this call.
    fn now(&mut self) -> Moment
        ensures moment { GivesMoment (moments self.old) (moments self.new) result }
        ensures callable { callable self.old → callable self.new };

    /// Whether the listener failed, as far as this is known.
    fn has_failed(&self) -> bool
        requires { callable self.now };
}

/// A clock, and what says whether the listener failed.
#[derive(Drop)]
pub struct ListenerMonitor<'a, W, C> {
    pub failed: &'a W,
    pub clock: C,
}

impl<'a, W: Fn() -> bool, C: Clock> Monitor for ListenerMonitor<'a, W, C> {
    ghost moments = { λ m. C.moments m.clock };

    ghost callable = { λ m. W.IsAlwaysCallable m.failed.now };

    fn now(&mut self) -> Moment {
        self.clock.now()
    }

    fn has_failed(&self) -> bool {
        (self.failed)()
    }
}

/// What runs in the calling thread of a server until that is to end.
pub trait Panel: Sized {
    ghost use Rattle.sq_control.specs.declared.panel.PanelEnd.{PanelEnd};

    /// What it was, what it is then, why it ended, and how many reconfigurations it made.
    ghost gives: { Self → Self → PanelEnd → ℕ → Type 0 };

    /// Runs over the desk and the delay pools, each behind its lock, with the whole share of reconfigurations, which it gives
    /// back.
    fn run<R: Wait, D: DeskCalls, B: Ledgers, M: Monitor + Drop>(
        self,
        rt: &R,
        room: &Room<D, B>,
        bank: &Mutex<Bank<Grants<B>>>,
        monitor: M,
        made: Share<Makes<B>>,
        refused: Share<Refusals<B>>,
    ) -> (Self, PanelEnd, Share<Makes<B>>)
        requires counting { D.is_counting ≡ true }
        requires made { made.parts ≡ B.makes.parts }
        requires some { 0 < made.parts }
        requires none { made.amount ≡ 0 }
        requires refused { 0 < refused.parts }
        requires callable { M.callable monitor }
        ensures gives { gives self result.0 result.1 result.2.amount }
        ensures whole { result.2.parts ≡ B.makes.parts };
}
