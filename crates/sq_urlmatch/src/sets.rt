//! The values of an acl in lists that are sorted or hashed.
ghost use Rattle.std.specs.Prelude.{◌≡◌, ℕ, IfOk};
ghost use Rattle.sq_urlmatch.specs.Spans.{in_spans};
ghost use Rattle.sq_urlmatch.specs.Values.{domains_in, in_some_ports, ports_in, ranges_in, HoldAlike, HoldValues};

use crate::addresses::AddrSet;
use crate::domains::DomainSet;
use crate::spans::{Span, Spans};
use sq_base::{Ranges, Texts, WantOfMemory};
use sq_rules::{Acl, Body, Leaf, PortRange};
use std::alloc::Global;

/// The ranges of a `src` or `dst` acl and those of a `port` acl, sorted, and the domains of a `dstdomain` acl, hashed.
/// An acl of another type has none.
#[derive(Drop)]
pub struct ValueSets {
    pub addresses: AddrSet,
    pub domains: DomainSet,
    pub ports: Spans,
}

impl ValueSets {
    /// The values of an acl.
    pub fn of(alloc: Global, acl: &Acl) -> Result<ValueSets, WantOfMemory>
        ensures { IfOk result
            (λ s. HoldAlike (ranges_in acl.now.body) (domains_in acl.now.body)
            (ports_in acl.now.body) s) }
    {
        match &acl.body {
            Body::Leaf(Leaf::Src(values)) => sets_of(alloc, values, &Texts::new(alloc), &[]),
            Body::Leaf(Leaf::Dst(values)) => sets_of(alloc, values, &Texts::new(alloc), &[]),
            Body::Leaf(Leaf::DstDomain(values)) => sets_of(alloc, &Ranges::new(alloc), values, &[]),
            Body::Leaf(Leaf::Port(values)) => sets_of(
                alloc,
                &Ranges::new(alloc),
                &Texts::new(alloc),
                values.as_slice(),
            ),
            _ => sets_of(alloc, &Ranges::new(alloc), &Texts::new(alloc), &[]),
        }
    }
}

// All three sets.
fn sets_of(
    alloc: Global,
    ranges: &Ranges,
    domains: &Texts,
    ports: &[PortRange],
) -> Result<ValueSets, WantOfMemory>
    ensures { IfOk result (λ s. HoldAlike ranges.now domains.now ports.now s) }
{
    let addresses = AddrSet::make(alloc, ranges)?;
    let domains = DomainSet::make(alloc, domains)?;
    let ports = port_spans(alloc, ports)?;
    let ports = Spans::make(alloc, ports)?;
    Ok(ValueSets {
        addresses,
        domains,
        ports,
    })
}

// Ranges of ports as spans of numbers.
fn port_spans(alloc: Global, ports: &[PortRange]) -> Result<Vec<Span>, WantOfMemory>
    ensures { IfOk result (λ s. (n : ℕ) → in_spans s.items n ≡ in_some_ports ports.now n) }
{
    let mut spans = Vec::new(alloc);
    for range in ports {
        spans.push(Span {
            first: range.first as u128,
            last: range.last as u128,
        })?;
    }
    Ok(spans)
}

/// The values of each acl, by its place.
pub fn sets_of_each(alloc: Global, acls: &[Acl]) -> Result<Vec<ValueSets>, WantOfMemory>
    ensures { IfOk result (λ s. HoldValues acls.now s.items) }
{
    let mut sets = Vec::with_capacity(alloc, acls.len())?;
    for acl in acls {
        sets.push(ValueSets::of(alloc, acl)?)?;
    }
    Ok(sets)
}
