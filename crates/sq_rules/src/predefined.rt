//! The acls that stand before the first line of a configuration.
ghost use Rattle.std.specs.Prelude.{◌≡◌, ◌++◌, [], IfOk, OnOk};
ghost use Rattle.sq_base.specs.Addresses.{v4, v6};
ghost use Rattle.sq_rules.specs.Predefined.{leaf_part, all_part, connect_part, localhost_part, manager_part, predefined, to_linklocal_part, to_localhost_part};

use crate::leaves::{Find, Finds, Leaf};
use crate::parts::{AclPart, AclParts, BodyPart};
use sq_base::{Addr, Listed, Range, Ranges, Text, Texts, WantOfMemory};
use std::alloc::Global;

fn v4(number: u32) -> Addr
    ensures { result ≡ v4 number }
{
    Addr {
        v6: false,
        number: number as u128,
    }
}

fn v6(number: u128) -> Addr
    ensures { result ≡ v6 number }
{
    Addr { v6: true, number }
}

fn single(addr: Addr) -> Range
    ensures { result ≡ record { first = addr; last = addr } }
{
    Range {
        first: addr,
        last: addr,
    }
}

fn ranges(alloc: Global, items: &[Range]) -> Result<Ranges, WantOfMemory>
    ensures { IfOk result (λ r. r ≡ items.now) }
{
    Ok(Listed::from_vec(Vec::from_slice(alloc, items)?))
}

fn leaf_part(alloc: Global, name: &[u8], leaf: Leaf) -> Result<AclPart, WantOfMemory>
    ensures { IfOk result (λ a. a ≡ leaf_part name.now leaf) }
{
    let name = Text::from_slice(alloc, name)?;
    Ok(AclPart {
        name,
        body: BodyPart::Leaf(leaf),
    })
}

fn find(alloc: Global, pattern: &[u8], fold: bool) -> Result<Find, WantOfMemory>
    ensures { IfOk result (λ f. f ≡ record { pattern = pattern.now; fold = fold }) }
{
    let pattern = Text::from_slice(alloc, pattern)?;
    Ok(Find { pattern, fold })
}

// `src all`
fn all_part(alloc: Global) -> Result<AclPart, WantOfMemory>
    ensures { IfOk result (λ a. a ≡ all_part) }
{
    let all = Range {
        first: v4(0),
        last: v6(u128::MAX),
    };
    leaf_part(alloc, b"all", Leaf::Src(ranges(alloc, &[all])?))
}

// `src 127.0.0.1/32 ::1`
fn localhost_part(alloc: Global) -> Result<AclPart, WantOfMemory>
    ensures { IfOk result (λ a. a ≡ localhost_part) }
{
    let hosts = [single(v4(0x7f00_0001)), single(v6(1))];
    leaf_part(alloc, b"localhost", Leaf::Src(ranges(alloc, &hosts)?))
}

// `method CONNECT`
fn connect_part(alloc: Global) -> Result<AclPart, WantOfMemory>
    ensures { IfOk result (λ a. a ≡ connect_part) }
{
    let mut methods: Texts = Listed::new(alloc);
    methods.push(Text::from_slice(alloc, b"CONNECT")?)?;
    leaf_part(alloc, b"CONNECT", Leaf::Method(methods))
}

// `url_regex -i ^cache_object:// +i ^[^:]+://[^/]+/squid-internal-mgr/`
fn manager_part(alloc: Global) -> Result<AclPart, WantOfMemory>
    ensures { IfOk result (λ a. a ≡ manager_part) }
{
    let mut finds: Finds = Listed::new(alloc);
    finds.push(find(alloc, b"^cache_object://", true)?)?;
    finds.push(find(alloc, b"^[^:]+://[^/]+/squid-internal-mgr/", false)?)?;
    leaf_part(alloc, b"manager", Leaf::UrlRegex(finds))
}

// `dst 127.0.0.0/8 0.0.0.0/32 ::1 ::`
fn to_localhost_part(alloc: Global) -> Result<AclPart, WantOfMemory>
    ensures { IfOk result (λ a. a ≡ to_localhost_part) }
{
    let loopback = Range {
        first: v4(0x7f00_0000),
        last: v4(0x7fff_ffff),
    };
    let hosts = [loopback, single(v4(0)), single(v6(1)), single(v6(0))];
    leaf_part(alloc, b"to_localhost", Leaf::Dst(ranges(alloc, &hosts)?))
}

// `dst 169.254.0.0/16 fe80::/10`
fn to_linklocal_part(alloc: Global) -> Result<AclPart, WantOfMemory>
    ensures { IfOk result (λ a. a ≡ to_linklocal_part) }
{
    let old = Range {
        first: v4(0xa9fe_0000),
        last: v4(0xa9fe_ffff),
    };
    let new = Range {
        first: v6(0xfe80_0000_0000_0000_0000_0000_0000_0000),
        last: v6(0xfebf_ffff_ffff_ffff_ffff_ffff_ffff_ffff),
    };
    leaf_part(
        alloc,
        b"to_linklocal",
        Leaf::Dst(ranges(alloc, &[old, new])?),
    )
}

// Puts the acls that stand before the first line at the end. What goes by reference is let go at no way out.
fn put_all(alloc: Global, acls: &mut AclParts) -> Result<(), WantOfMemory>
    ensures { OnOk result (acls.new ≡ acls.old ++ predefined) }
{
    acls.push(all_part(alloc)?)?;
    acls.push(localhost_part(alloc)?)?;
    acls.push(connect_part(alloc)?)?;
    acls.push(manager_part(alloc)?)?;
    acls.push(to_localhost_part(alloc)?)?;
    acls.push(to_linklocal_part(alloc)?)
}

/// The acls that stand before the first line: `all`, `localhost`, `CONNECT`, `manager`,
/// `to_localhost` and `to_linklocal`. A line may add values to each.
pub fn predefined_acls(alloc: Global) -> Result<AclParts, WantOfMemory>
    ensures { IfOk result (λ acls. acls ≡ predefined) }
{
    let mut acls = Listed::new(alloc);
    put_all(alloc, &mut acls)?;
    Ok(acls)
}
