//! What is known of acls, where a group of them has a member more. Only where the group itself comes to
//! nest deeper, or to ask a helper, are the acls behind it looked at again.
ghost use Rattle.std.specs.Prelude.{◌≡◌, ◌≢◌, ◌<◌, ◌+◌, ◌++◌, ◌∷◌, [], true, false, suc, length, nat_le, IfOk, IfErr, take, drop};
ghost use Rattle.std.specs.List.{list_all};
ghost use Rattle.sq_rules.specs.Changes.{is_group, or_before, with_member_at, AreDepths, AreSlowOnes};
ghost use Rattle.sq_rules.specs.Configurations.{are_shallow, nestings, nestings_on, slow_on, slow_ones};
ghost use Rattle.sq_rules.specs.Limits.{nesting_limit};

use crate::configs::{Acl, Body, Term};
use crate::member_faults::MemberFault;
use crate::nesting::{group_over, is_slow, is_slow_at, nesting_at, nesting_of};
use sq_base::{Listed, WantOfMemory};
use std::alloc::Global;

// Whether an acl is a group, to which a member may be added.
fn is_group(body: &Body) -> bool
    ensures { result ≡ is_group body.now }
{
    match body {
        Body::Leaf(_) => false,
        Body::External {
            class: _,
            arguments: _,
        } => false,
        Body::AnyOf(_) => true,
        Body::AllOf(_) => true,
    }
}

// A list of values that are copied.
fn listed<T: Copy>(alloc: Global, values: &[T]) -> Result<Listed<T>, WantOfMemory>
    ensures { IfOk result (λ l. l ≡ values.now) }
{
    Ok(Listed::from_vec(Vec::from_slice(alloc, values)?))
}

// Which acls are slow, where the one at a place is or is not.
fn slow_after(
    alloc: Global,
    slow: &[bool],
    acls: &[Acl],
    place: usize,
    flag: bool,
) -> Result<Listed<bool>, WantOfMemory>
    requires flags { place < length slow.now }
    requires acls { place < length acls.now }
    ensures { IfOk result
        (λ all. all ≡ slow_on (take place slow.now ++ flag ∷ []) (drop (suc place) acls.now)) }
{
    let mut all = listed(alloc, &slow[..place])?;
    all.push(flag)?;
    for acl in &acls[place + 1..] {
        let asks = is_slow(all.as_slice(), &acl.body);
        all.push(asks)?;
    }
    Ok(all)
}

/// Which acls are slow, where the group at a place has this member too; None says that they are the same.
#[tactic(auto, using(crate::proofs::TableLaws::slow_length))]
pub fn slow_with(
    alloc: Global,
    slow: &[bool],
    acls: &[Acl],
    place: usize,
    term: Term,
) -> Result<Option<Listed<bool>>, WantOfMemory>
    requires known { slow.now ≡ slow_ones acls.now }
    requires within { place < length acls.now }
    ensures { IfOk result (λ new. AreSlowOnes new acls.now (with_member_at place term acls.now)) }
{
    let grows = is_group(&acls[place].body);
    let asks = is_slow_at(&slow[..place], term);
    let asked = slow[place];
    if !grows || !asks || asked {
        return Ok(None);
    }
    Ok(Some(slow_after(alloc, slow, acls, place, true)?))
}

// How deep the acls nest, where the one at a place does so deep.
fn depths_after(
    alloc: Global,
    depths: &[u32],
    acls: &[Acl],
    place: usize,
    depth: u32,
) -> Result<Listed<u32>, MemberFault>
    requires depths { place < length depths.now }
    requires acls { place < length acls.now }
    requires depth { nat_le depth nesting_limit ≡ true }
    requires shallow { list_all (λ n. nat_le n nesting_limit) depths.now ≡ true }
    ensures ok { IfOk result
        (λ all. all ≡ nestings_on (take place depths.now ++ depth ∷ [])
        (drop (suc place) acls.now)) }
    ensures shallow { IfOk result (λ all. list_all (λ n. nat_le n nesting_limit) all ≡ true) }
    ensures not_slow { IfErr result (λ e. e ≢ MemberFault.Slow) }
    ensures deep { IfErr result
        (λ e. e ≡ MemberFault.Deep
        → list_all (λ n. nat_le n nesting_limit)
        (nestings_on (take place depths.now ++ depth ∷ []) (drop (suc place) acls.now)) ≡ false) }
{
    let mut all = listed(alloc, &depths[..place])?;
    all.push(depth)?;
    for acl in &acls[place + 1..] {
        match nesting_of(all.as_slice(), &acl.body) {
            None => return Err(MemberFault::Deep),
            Some(depth) => all.push(depth)?,
        }
    }
    Ok(all)
}

/// How deep the acls nest, where the group at a place has this member too and none is too deep then;
/// None where they nest as before.
#[tactic(auto, using(crate::proofs::TableLaws::nestings_length))]
pub fn depths_with(
    alloc: Global,
    depths: &[u32],
    acls: &[Acl],
    place: usize,
    term: Term,
) -> Result<Option<Listed<u32>>, MemberFault>
    requires known { depths.now ≡ nestings acls.now }
    requires shallow { are_shallow acls.now ≡ true }
    requires within { place < length acls.now }
    ensures ok { IfOk result (λ new. AreDepths new acls.now (with_member_at place term acls.now)) }
    ensures shallow { IfOk result (λ new. are_shallow (with_member_at place term acls.now) ≡ true) }
    ensures not_slow { IfErr result (λ e. e ≢ MemberFault.Slow) }
    ensures deep { IfErr result
        (λ e. e ≡ MemberFault.Deep → are_shallow (with_member_at place term acls.now) ≡ false) }
{
    let grows = is_group(&acls[place].body);
    let below = nesting_at(&depths[..place], term);
    let depth = depths[place];
    if !grows || below < depth {
        return Ok(None);
    }
    let Some(depth) = group_over(below) else {
        return Err(MemberFault::Deep);
    };
    Ok(Some(depths_after(alloc, depths, acls, place, depth)?))
}

/// Puts what is new in the place of what was.
pub fn renew<T: Drop>(known: &mut Vec<T>, new: Option<Listed<T>>)
    ensures { known.new.items ≡ or_before known.old.items new }
{
    if let Some(new) = new {
        *known = new.into_vec();
    }
}
