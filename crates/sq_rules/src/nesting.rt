//! How deep an acl nests, and whether it asks a helper, by what is known of the acls before it.
ghost use Rattle.std.specs.Prelude.{◌≡◌, ◌+◌, suc, false, slice_index_or};
ghost use Rattle.std.specs.List.{list_any};
ghost use Rattle.sq_rules.specs.Configurations.{deepest, greatest_of, nesting_of, is_slow, some_slow};
ghost use Rattle.sq_rules.specs.Tables.{allowed};

use crate::configs::{Body, Term, Terms};
use crate::limits::NESTING_LIMIT;

/// The nesting of a term's acl.
pub fn nesting_at(before: &[u32], term: Term) -> u32
    ensures { result ≡ slice_index_or before.now term.acl 0 }
{
    match before.get(term.acl as usize) {
        Some(nesting) => *nesting,
        None => 0,
    }
}

// The greatest of the nestings of the terms.
fn deepest(before: &[u32], terms: &[Term]) -> u32
    ensures { result ≡ deepest before.now terms.now }
{
    let mut greatest = 0;
    for term in terms {
        greatest = greatest.max(nesting_at(before, *term));
    }
    greatest
}

// The same over lines of terms.
fn deepest_line(before: &[u32], lines: &[Terms]) -> u32
    ensures { result ≡ greatest_of (deepest before.now) lines.now }
{
    let mut greatest = 0;
    for line in lines {
        greatest = greatest.max(deepest(before, line.as_slice()));
    }
    greatest
}

/// The nesting of a group over its deepest member, where it is none too deep.
pub fn group_over(deepest: u32) -> Option<u32>
    ensures { result ≡ allowed (suc deepest) }
{
    if deepest < NESTING_LIMIT {
        Some(deepest + 1)
    } else {
        None
    }
}

/// How deep an acl nests, where it is none too deep.
pub fn nesting_of(before: &[u32], body: &Body) -> Option<u32>
    ensures { result ≡ allowed (nesting_of before.now body.now) }
{
    match body {
        Body::Leaf(_) => Some(0),
        Body::External {
            class: _,
            arguments: _,
        } => Some(0),
        Body::AnyOf(terms) => group_over(deepest(before, terms.as_slice())),
        Body::AllOf(lines) => group_over(deepest_line(before, lines.as_slice())),
    }
}

/// Whether a term's acl is slow.
pub fn is_slow_at(before: &[bool], term: Term) -> bool
    ensures { result ≡ slice_index_or before.now term.acl false }
{
    match before.get(term.acl as usize) {
        Some(slow) => *slow,
        None => false,
    }
}

/// Whether some term's acl is slow.
pub fn some_slow(before: &[bool], terms: &[Term]) -> bool
    ensures { result ≡ some_slow before.now terms.now }
{
    terms.iter().any(|term| is_slow_at(before, *term))
}

// Whether some term's acl of some line is slow.
fn some_slow_line(before: &[bool], lines: &[Terms]) -> bool
    ensures { result ≡ list_any (some_slow before.now) lines.now }
{
    for line in lines {
        if some_slow(before, line.as_slice()) {
            return true;
        }
    }
    false
}

/// Whether an acl asks a helper, or has a member that does.
pub fn is_slow(before: &[bool], body: &Body) -> bool
    ensures { result ≡ is_slow before.now body.now }
{
    match body {
        Body::Leaf(_) => false,
        Body::External {
            class: _,
            arguments: _,
        } => true,
        Body::AnyOf(terms) => some_slow(before, terms.as_slice()),
        Body::AllOf(lines) => some_slow_line(before, lines.as_slice()),
    }
}
