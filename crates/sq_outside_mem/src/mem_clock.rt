//! `MemClock` and `MemResolver`: a clock and a look-up of names in memory.
ghost use Rattle.std.specs.Prelude.{◌≡◌, [], ◌∷◌, Some, Err, IsErrOf, true, bytes_eq};
ghost use Rattle.std.specs.List.{find};
ghost use Rattle.std.specs.Option.{option_copied};
ghost use Rattle.std.proofs.Common.{rules};
ghost use Rattle.sq_outside.specs.Calls.{next_call, counted};

use sq_base::{Addrs, Copying, Moment, Text};
use sq_outside::{Another, Calls, Clock, LookFault, Resolver};
use std::alloc::Global;
use std::collections::VecDeque;

/// A clock in memory. It gives its moments in order, and then the last one again and again.
#[derive(Drop)]
pub struct MemClock {
    pub(crate) alloc: Global,
    pub(crate) first: Moment,
    pub(crate) rest: VecDeque<Moment>,
}

impl MemClock {
    ghost use Rattle.sq_outside_mem.specs.MemoryServer.{clock_moments};

    /// A clock that gives this moment, and then the others.
    pub fn new(alloc: Global, first: Moment, rest: Vec<Moment>) -> MemClock
        ensures { clock_moments result ≡ first ∷ rest.items }
    {
        MemClock {
            alloc,
            first,
            rest: VecDeque::from_vec(rest),
        }
    }
}

impl Clock for MemClock {
    ghost use Rattle.sq_outside.specs.World.{GivesMoment};
    ghost use Rattle.sq_outside_mem.specs.MemoryServer.{clock_moments};

    ghost moments = { λ c. Some (clock_moments c) };

    ghost faults = { λ _. 0 };

    ghost capped = { λ _. Prim.search rules };

    fn now(&mut self) -> Moment {
        let moment = self.first;
        if let Some(next) = self.rest.pop_front() {
            self.first = next;
        }
        moment
    }

    fn pause(&mut self) {}
}

impl Another for MemClock {
    ghost use Rattle.sq_outside_mem.specs.MemoryServer.{clock_next, clock_moments};

    /// A clock that stands at the moment that this one gives next.
    fn another(&self) -> MemClock
        ensures { clock_moments result ≡ clock_next self.now ∷ [] }
    {
        MemClock {
            alloc: self.alloc,
            first: self.first,
            rest: VecDeque::new(self.alloc),
        }
    }
}

/// A host and its addresses.
#[derive(Drop)]
pub struct MemName {
    pub host: Text,
    pub addrs: Addrs,
}

/// A look-up in memory, over names that it shares with a test. A host that is not among them has no addresses.
#[derive(Drop)]
pub struct MemResolver<'a> {
    pub(crate) alloc: Global,
    pub(crate) names: &'a [MemName],
    pub(crate) calls: Calls,
}

/// The first entry of this host.
fn find_name<'a>(names: &'a [MemName], host: &[u8]) -> Option<&'a MemName>
    ensures { option_copied result ≡ find (λ n. bytes_eq n.host host.now) names.now }
{
    names.iter().find(|n| n.host.as_bytes() == host)
}

impl<'a> MemResolver<'a> {
    ghost use Rattle.sq_outside_mem.specs.MemoryServer.{resolver_names, resolver_fails, resolver_calls, resolver_faults};

    /// A look-up of these names, of which the listed calls are to fail.
    pub fn new(alloc: Global, names: &'a [MemName], fails: Vec<u64>) -> MemResolver<'a>
        ensures names { resolver_names result ≡ names.now }
        ensures fails { resolver_fails result ≡ fails.items }
        ensures calls { resolver_calls result ≡ 0 }
        ensures faults { resolver_faults result ≡ 0 }
    {
        MemResolver {
            alloc,
            names,
            calls: Calls::new(fails),
        }
    }
}

impl<'a> Resolver for MemResolver<'a> {
    ghost use Rattle.sq_outside.specs.World.{FindsAddrs, LookHasCause};
    ghost use Rattle.sq_outside_mem.specs.MemoryServer.{addrs_at, resolver_names, resolver_fails, resolver_fails_next, resolver_calls, resolver_faults};

    ghost names = { λ r. Some (addrs_at (resolver_names r)) };

    ghost faults = { resolver_faults };

    ghost capped = { λ r. r.calls.capped };

    fn look(&mut self, alloc: Global, host: &Text) -> Result<Addrs, LookFault>
        ensures found { FindsAddrs (Some (addrs_at (resolver_names self.old))) host.now result }
        ensures names { Some (addrs_at (resolver_names self.new))
            ≡ Some (addrs_at (resolver_names self.old)) }
        ensures cause { LookHasCause (resolver_faults self.old) (resolver_faults self.new) result }
        // A call fails where it is listed, and only there; each failure is counted.
        ensures fails { resolver_fails_next self.old ≡ true → result ≡ Err LookFault.Failed }
        ensures fails_only { IsErrOf result LookFault.Failed → resolver_fails_next self.old ≡ true }
        ensures counts { resolver_faults self.new
            ≡ counted (resolver_fails_next self.old) (resolver_faults self.old) }
        ensures calls { resolver_calls self.new ≡ next_call (resolver_calls self.old) }
        ensures list { resolver_fails self.new ≡ resolver_fails self.old }
    {
        if self.calls.next().is_err() {
            return Err(LookFault::Failed);
        }
        match find_name(self.names, host.as_bytes()) {
            None => Ok(Addrs::new(alloc)),
            Some(name) => Ok(name.addrs.copy(alloc)?),
        }
    }
}

impl<'a> Another for MemResolver<'a> {
    ghost use Rattle.sq_outside_mem.specs.MemoryServer.{resolver_names, resolver_fails, resolver_faults};

    /// A look-up of the same names, none of whose calls are to fail.
    fn another(&self) -> MemResolver<'a>
        ensures names { resolver_names result ≡ resolver_names self.now }
        ensures fails { resolver_fails result ≡ [] }
        ensures faults { resolver_faults result ≡ 0 }
    {
        MemResolver {
            alloc: self.alloc,
            names: self.names,
            calls: Calls::new(Vec::new(self.alloc)),
        }
    }
}
