//! The acls of a configuration that ask about hosts, and their values.
ghost use Rattle.std.specs.Prelude.{◌≡◌, Some, IfOk};
ghost use Rattle.std.specs.Option.{option_copied, option_map};
ghost use Rattle.sq_dst.specs.LookupAcls.{acl_named, asked_values, asks, dst_values, key_values, literal_values, some_within, values_in};
ghost use Rattle.sq_dst.specs.LookupKeys.{before_end, lookup_key};
ghost use Rattle.sq_rules.specs.Leaves.{in_ranges};
ghost use Rattle.sq_rules.specs.Lookups.{has_no_words, is_asking};

use crate::keys::{before_end, read_key};
use sq_base::{Addr, Range, Ranges, Text, WantOfMemory};
use sq_rules::{Acl, Body, Config, Leaf, literal_name};
use std::alloc::Global;

// The acl of a name.
fn acl_named<'a>(acls: &'a [Acl], name: &[u8]) -> Option<&'a Acl>
    ensures { option_copied result ≡ acl_named acls.now name.now }
{
    acls.iter().find(|acl| acl.name.as_bytes() == name)
}

fn has_no_words(words: &[Text]) -> bool
    ensures { result ≡ has_no_words words.now }
{
    match words {
        [] => true,
        [_, ..] => false,
    }
}

fn is_asking(body: &Body) -> bool
    ensures { result ≡ is_asking body.now }
{
    match body {
        Body::External { class, arguments } => *class == 0 && has_no_words(arguments.as_slice()),
        _ => false,
    }
}

// Whether the acl of this name asks for the look-up of a name.
fn asks(acls: &[Acl], name: &[u8]) -> bool
    ensures { result ≡ asks (acl_named acls.now name.now) }
{
    match acl_named(acls, name) {
        None => false,
        Some(acl) => is_asking(&acl.body),
    }
}

// The values of an acl of type dst.
fn dst_values<'a>(body: &'a Body) -> Option<&'a Ranges>
    ensures { option_copied result ≡ dst_values body.now }
{
    match body {
        Body::Leaf(Leaf::Dst(values)) => Some(values),
        _ => None,
    }
}

// The values of the acl of this name, if its type is dst.
fn values_named<'a>(acls: &'a [Acl], name: &[u8]) -> Option<&'a Ranges>
    ensures { option_copied result ≡ values_in (acl_named acls.now name.now) }
{
    match acl_named(acls, name) {
        None => None,
        Some(acl) => dst_values(&acl.body),
    }
}

// The values of the acl whose name has ` literal` behind this.
fn literal_values<'a>(
    alloc: Global,
    acls: &'a [Acl],
    name: Option<&[u8]>,
) -> Result<Option<&'a Ranges>, WantOfMemory>
    ensures { IfOk result
        (λ v. option_copied v ≡ literal_values acls.now (option_map (λ n. n.now) name.entry)) }
{
    match name {
        None => Ok(None),
        Some(name) => {
            let name = literal_name(alloc, &Text::from_slice(alloc, name)?)?;
            Ok(values_named(acls, name.as_bytes()))
        }
    }
}

/// The values for which the acl of this name asks.
pub(crate) fn asked_values<'a>(
    alloc: Global,
    config: &'a Config,
    name: &[u8],
) -> Result<Option<&'a Ranges>, WantOfMemory>
    ensures { IfOk result (λ v. option_copied v ≡ asked_values config.now name.now) }
{
    if !config.dst_lookup() || !asks(config.acls(), name) {
        return Ok(None);
    }
    literal_values(alloc, config.acls(), before_end(b" lookup", name))
}

/// The values for which a question asks, where it is a key of the configuration.
pub(crate) fn key_values<'a>(
    alloc: Global,
    config: &'a Config,
    question: &[u8],
) -> Result<Option<&'a Ranges>, WantOfMemory>
    ensures { IfOk result
        (λ v. option_copied v ≡ key_values config.now (lookup_key question.now)) }
{
    match read_key(alloc, question)? {
        None => Ok(None),
        Some(key) => asked_values(alloc, config, key.acl.as_bytes()),
    }
}

fn is_within(values: &[Range], address: Addr) -> bool
    ensures { result ≡ in_ranges values.now (Some address) }
{
    values.iter().any(|range| range.holds(address))
}

/// Whether some address lies in some of these values.
pub(crate) fn some_within(values: &[Range], addrs: &[Addr]) -> bool
    ensures { result ≡ some_within values.now addrs.now }
{
    addrs.iter().any(|&address| is_within(values, address))
}
