//! Helper processes, clocks and the look-up of names.
ghost use Rattle.std.specs.Prelude.{◌≡◌, ℕ, ◌≤◌, List, IfOk, OnOk, OnErr};
ghost use Rattle.std.specs.declared.option.Option.{Option};
ghost use Rattle.sq_outside.specs.Causes.{HasCause, count_limit};
ghost use Rattle.sq_outside.specs.Dials.{IsOpen, IsEmpty};
ghost use Rattle.sq_outside.specs.World.{Starts, StartsMore, GivesMoment, Names, FindsAddrs, LookHasCause};

use crate::links::Out;
use crate::traits::{Failed, Source};
use sq_base::{Addrs, Moment, Text, WantOfMemory};
use std::alloc::Global;
use thiserror::Error;

/// A value of which a copy can be had. A copy takes no memory, and counts its own faults.
pub trait Another {
    fn another(&self) -> Self;
}

/// What starts helper processes.
pub trait Spawner {
    type ChildOut: Source + Send + Drop;

    type ChildIn: Out + Send + Drop;

    /// The words of the starts that were made, the oldest first, failed ones not counted, where it tells them.
    ghost starts: { Self → Starts };

    /// How often it has failed.
    ghost faults: { Self → ℕ };

    /// Starts the program that the first word names, with the other words. What it writes is read from the one
    /// half, what it reads is written to the other; to close that one stops the process. Both begin with the count 0.
    fn start(
        &mut self,
        alloc: Global,
        words: &[Text],
    ) -> Result<(Self::ChildOut, Self::ChildIn), Failed>
        ensures made { OnOk result (StartsMore (starts self.old) (starts self.new) words.now) }
        ensures failed { OnErr result (starts self.new ≡ starts self.old) }
        ensures empty { IfOk result (λ h. IsEmpty (Self.ChildIn.Sink.contents h.1)) }
        ensures open { IfOk result (λ h. IsOpen (Self.ChildIn.closed h.1)) }
        ensures fresh { IfOk result
            (λ h. (Self.ChildOut.faults h.0 ≡ 0) × (Self.ChildIn.Sink.faults h.1 ≡ 0)) }
        ensures cause { HasCause (faults self.old) (faults self.new) result };

    ghost capped: { (spawner : Self) → faults spawner ≤ count_limit };
}

/// What tells the time. Its calls do not fail: where the time cannot be read, the last moment is given again.
pub trait Clock {
    /// The moments that it will give, the next one first, where it tells them. The last one stays.
    ghost moments: { Self → Option (List ℕ) };

    /// How often the time could not be read.
    ghost faults: { Self → ℕ };

    /// The moment of this call.
    fn now(&mut self) -> Moment
        ensures moment { GivesMoment (moments self.old) (moments self.new) result }
        ensures later { faults self.old ≤ faults self.new };

    /// Lets a little time pass.
    fn pause(&mut self)
        ensures moments { moments self.new ≡ moments self.old }
        ensures later { faults self.old ≤ faults self.new };

    ghost capped: { (clock : Self) → faults clock ≤ count_limit };
}

/// Why the addresses of a host were not found.
#[derive(Clone, Copy, Debug, PartialEq, Eq, Error)]
pub enum LookFault {
    /// The look-up failed, and was counted.
    #[error("the look-up failed")]
    Failed,
    /// There was no memory.
    #[error("out of memory")]
    WantOfMemory,
}

impl From<WantOfMemory> for LookFault {
    ghost use Rattle.sq_outside.specs.declared.world.LookFault.TheVariants.{WantOfMemory};

    ghost from_gives = { λ _ e. e ≡ WantOfMemory };

    fn from(_: WantOfMemory) -> LookFault {
        LookFault::WantOfMemory
    }
}

/// What finds the addresses of hosts.
pub trait Resolver {
    /// The addresses of each host, which may be none, where it tells them.
    ghost names: { Self → Names };

    /// How often it has failed.
    ghost faults: { Self → ℕ };

    /// The addresses of this host.
    fn look(&mut self, alloc: Global, host: &Text) -> Result<Addrs, LookFault>
        ensures found { FindsAddrs (names self.old) host.now result }
        ensures names { names self.new ≡ names self.old }
        ensures cause { LookHasCause (faults self.old) (faults self.new) result };

    ghost capped: { (resolver : Self) → faults resolver ≤ count_limit };
}
