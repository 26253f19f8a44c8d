//! How deep the groups of a configuration nest.
ghost use Rattle.std.specs.Prelude.{◌≡◌, suc, true, IfOk, slice_index_or};
ghost use Rattle.sq_rules.specs.Configurations.{are_shallow, deepest, greatest_of, nesting_of, nestings};
ghost use Rattle.sq_rules.specs.Tables.{allowed};
ghost use Rattle.sq_checks.specs.OpenGroups.{depth_of};

use sq_base::WantOfMemory;
use sq_rules::{Acl, Body, NESTING_LIMIT, Term, Terms};
use std::alloc::Global;

// The nesting of a term's acl.
fn nesting_at(before: &[u32], term: Term) -> u32
    ensures { result ≡ slice_index_or before.now term.acl 0 }
{
    match before.get(term.acl as usize) {
        Some(nesting) => *nesting,
        None => 0,
    }
}

// The greatest of the nestings of the terms.
fn deepest(before: &[u32], terms: &[Term]) -> u32
    ensures { result ≡ deepest before.now terms.now }
{
    let mut greatest = 0;
    for term in terms {
        greatest = greatest.max(nesting_at(before, *term));
    }
    greatest
}

// The same over lines of terms.
fn deepest_line(before: &[u32], lines: &[Terms]) -> u32
    ensures { result ≡ greatest_of (deepest before.now) lines.now }
{
    let mut greatest = 0;
    for line in lines {
        greatest = greatest.max(deepest(before, line.as_slice()));
    }
    greatest
}

// The nesting of a group over its deepest member, where it is none too deep.
fn group_over(deepest: u32) -> Option<u32>
    ensures { result ≡ allowed (suc deepest) }
{
    if deepest < NESTING_LIMIT {
        Some(deepest + 1)
    } else {
        None
    }
}

// How deep an acl nests, where it is none too deep.
fn nesting_of(before: &[u32], body: &Body) -> Option<u32>
    ensures { result ≡ allowed (nesting_of before.now body.now) }
{
    match body {
        Body::Leaf(_) => Some(0),
        Body::External {
            class: _,
            arguments: _,
        } => Some(0),
        Body::AnyOf(terms) => group_over(deepest(before, terms.as_slice())),
        Body::AllOf(lines) => group_over(deepest_line(before, lines.as_slice())),
    }
}

// How deep each acl nests.
fn nestings(alloc: Global, acls: &[Acl]) -> Result<Vec<u32>, WantOfMemory>
    requires { are_shallow acls.now ≡ true }
    ensures { IfOk result (λ r. r.items ≡ nestings acls.now) }
{
    let mut all = Vec::with_capacity(alloc, acls.len())?;
    for acl in acls {
        match nesting_of(all.as_slice(), &acl.body) {
            None => unreachable!(),
            Some(depth) => all.push(depth)?,
        }
    }
    Ok(all)
}

// The greatest of some numbers.
fn greatest(numbers: &[u32]) -> u32
    ensures { result ≡ greatest_of (λ n. n) numbers.now }
{
    let mut greatest = 0;
    for number in numbers {
        greatest = greatest.max(*number);
    }
    greatest
}

/// How deep the deepest of the acls nests: 0 where there is no group.
pub fn depth_of(alloc: Global, acls: &[Acl]) -> Result<u32, WantOfMemory>
    requires { are_shallow acls.now ≡ true }
    ensures { IfOk result (λ r. r ≡ depth_of acls.now) }
{
    let all = nestings(alloc, acls)?;
    Ok(greatest(all.as_slice()))
}
