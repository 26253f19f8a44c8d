//! The fact of one acl.
ghost use Rattle.std.specs.Prelude.{◌≡◌, ◌<◌, if◌then◌else◌, length, Some, None, IfOk, slice_get, true, false};
ghost use Rattle.std.specs.List.{list_any};
ghost use Rattle.percent_encoding.specs.Percent.{percent_decode};
ghost use Rattle.sq_rules.specs.Facts.{acl_fact, facts_of};
ghost use Rattle.sq_rules.specs.Leaves.{holds, in_ranges};
ghost use Rattle.sq_urlmatch.specs.Values.{domains_at, domains_of_leaf, ports_at, ports_of_leaf, ranges_at, ranges_of_leaf};
ghost use Rattle.sq_urlmatch.specs.Patterns.{acl_has_patterns, is_plain_leaf};

use crate::clients::{maxconn_has, time_has};
use crate::requests::{method_has, proto_has};
use crate::setup::Setup;
use sq_base::{Addr, WantOfMemory};
use sq_rules::{Acl, Body, Leaf, Sight};
use std::alloc::Global;

/// Whether the acl at a place holds of what a check sees; of an acl that is no leaf, false.
pub fn fact_at(
    alloc: Global,
    setup: &mut Setup,
    place: usize,
    sight: &Sight,
    subject: &[u8],
) -> Result<bool, WantOfMemory>
    requires here { place < length setup.old.acls }
    requires decoded { list_any acl_has_patterns setup.old.acls ≡ true
        → subject.now ≡ percent_decode sight.now.request.target }
    ensures fact { IfOk result (λ b. slice_get (facts_of setup.old.acls sight.now) place ≡ Some b) }
    ensures same { setup.new ≡ setup.old }
{
    let acl = &setup.config().acls()[place];
    match plain_fact(setup, place as u32, acl, sight) {
        Some(fact) => Ok(fact),
        None => setup.is_match(alloc, place as u32, subject),
    }
}

// The fact of the acl at a place, where that needs no patterns.
fn plain_fact(setup: &Setup, place: u32, acl: &Acl, sight: &Sight) -> Option<bool>
    requires { slice_get setup.now.acls place ≡ Some acl.now }
    ensures { result ≡ (if acl_has_patterns acl.now then None
        else Some (acl_fact sight.now acl.now)) }
{
    match &acl.body {
        Body::Leaf(Leaf::UrlRegex(_)) => None,
        Body::Leaf(leaf) => Some(leaf_fact(setup, place, leaf, sight)),
        _ => Some(false),
    }
}

// Whether a leaf without patterns, which is the acl at a place, holds.
#[tactic(auto, using(crate::proofs::FactLaws::same_domains))]
fn leaf_fact(setup: &Setup, place: u32, leaf: &Leaf, sight: &Sight) -> bool
    requires plain { is_plain_leaf leaf.now ≡ true }
    requires ranges { ranges_at setup.now.acls place ≡ ranges_of_leaf leaf.now }
    requires domains { domains_at setup.now.acls place ≡ domains_of_leaf leaf.now }
    requires ports { ports_at setup.now.acls place ≡ ports_of_leaf leaf.now }
    ensures { result ≡ holds leaf.now sight.now }
{
    match leaf {
        Leaf::Src(_) => setup.has_address(place, sight.addr),
        Leaf::Dst(_) => has_literal(setup, place, sight.request.literal),
        Leaf::DstDomain(_) => setup.has_host(place, &sight.request.host),
        Leaf::Port(_) => setup.has_port(place, sight.request.port),
        Leaf::Method(values) => method_has(values, sight),
        Leaf::Proto(values) => proto_has(values, sight),
        Leaf::Time(values) => time_has(values, sight),
        Leaf::UrlRegex(_) => unreachable!(),
        Leaf::MaxConn(values) => maxconn_has(values, sight),
    }
}

// Whether there is an address, and it lies in some range of the acl at a place.
fn has_literal(setup: &Setup, place: u32, literal: Option<Addr>) -> bool
    ensures { result ≡ in_ranges (ranges_at setup.now.acls place) literal }
{
    match literal {
        None => false,
        Some(addr) => setup.has_address(place, addr),
    }
}
