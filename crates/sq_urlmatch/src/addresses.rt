//! Sets of addresses.
ghost use Rattle.std.specs.Prelude.{◌≡◌, IfOk};
ghost use Rattle.sq_base.specs.Addresses.{Address, IsAddress};
ghost use Rattle.sq_urlmatch.specs.Members.{in_some_range};
ghost use Rattle.sq_urlmatch.specs.Spans.{has_address};

use crate::spans::Spans;
use sq_base::{Addr, Ranges, WantOfMemory};
use std::alloc::Global;
use std::marker::Model;

/// The addresses of a list of ranges, each kind for itself. Contracts ask `has_address` of it.
#[derive(Drop)]
pub struct AddrSet {
    v4: Spans,
    v6: Spans,
}

impl Model for AddrSet {
    ghost use Rattle.std.specs.Prelude.{List};
    ghost use Rattle.sq_urlmatch.specs.declared.spans.Span.{Span};

    ghost Value = { List Span × List Span };

    ghost view = { λ s. (s.v4, s.v6) };
}

impl AddrSet {
    /// The addresses of these ranges.
    pub fn make(alloc: Global, values: &Ranges) -> Result<AddrSet, WantOfMemory>
        ensures { IfOk result
            (λ s. (a : Address) → IsAddress a → has_address s a ≡ in_some_range values.now a) }
    {
        let v4 = Spans::of(alloc, values.as_slice(), false)?;
        let v6 = Spans::of(alloc, values.as_slice(), true)?;
        Ok(AddrSet { v4, v6 })
    }

    /// Whether it has the address. It takes no memory.
    pub fn has(&self, addr: Addr) -> bool
        ensures value { result ≡ has_address self.now addr }
        ensures address { IsAddress addr }
    {
        if addr.v6 {
            self.v6.has(addr.number)
        } else {
            self.v4.has(addr.number)
        }
    }
}
