//! IP addresses and ranges of them.
ghost use Rattle.std.specs.Prelude.{◌≡◌};
ghost use Rattle.sq_base.specs.Addresses.{is_at_most};

use crate::listed::Listed;
use crate::memory::{Copying, WantOfMemory};
use std::alloc::Global;
use std::marker::Model;

/// An IP address: its kind, and its bits as a number, which is below 2^32 for IPv4. All IPv4
/// addresses stand before all IPv6 ones, and each kind is ordered by its number.
#[derive(Clone, Copy, PartialEq, Eq, PartialOrd, Ord)]
pub struct Addr {
    pub v6: bool,
    pub number: u128,
}

impl Model for Addr {
    ghost use Rattle.sq_base.specs.Addresses.{Address, IsAddress};

    ghost Value = { Address };

    ghost view = { λ a. record { v6 = a.v6; number = a.number } };

    ghost invariant = { λ a. IsAddress (record { v6 = a.v6; number = a.number }) };

    ghost inverse = { λ a. record { v6 = a.v6; number = a.number } };
}

/// A list of addresses.
pub type Addrs = Listed<Addr>;

/// The addresses from the first to the last, both included, over both kinds.
#[derive(Clone, Copy, PartialEq, Eq)]
pub struct Range {
    pub first: Addr,
    pub last: Addr,
}

/// A list of ranges.
pub type Ranges = Listed<Range>;

impl Range {
    ghost use Rattle.sq_base.specs.Ranges.{in_range};

    /// Whether the address stands in it.
    pub fn holds(&self, address: Addr) -> bool
        ensures { result ≡ in_range self.now address }
    {
        is_at_most(self.first, address) && is_at_most(address, self.last)
    }
}

// Whether the one stands no later than the other.
fn is_at_most(one: Addr, other: Addr) -> bool
    ensures { result ≡ is_at_most one other }
{
    if one.v6 {
        other.v6 && one.number <= other.number
    } else {
        other.v6 || one.number <= other.number
    }
}

impl Copying for Addr {
    fn copy(&self, _alloc: Global) -> Result<Addr, WantOfMemory> {
        Ok(*self)
    }
}

impl Copying for Range {
    fn copy(&self, _alloc: Global) -> Result<Range, WantOfMemory> {
        Ok(*self)
    }
}
