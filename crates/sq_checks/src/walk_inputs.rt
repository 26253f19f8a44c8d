//! What the values of leaf acls and of external acls are taken from.
ghost use Rattle.std.specs.Prelude.{◌≡◌, ◌<◌, Some, length, set, slice_get, slice_index_or};
ghost use Rattle.sq_checks.specs.GivenValues.{given_at};
ghost use Rattle.sq_rules.specs.Configurations.{is_leaf_body};
ghost use Rattle.sq_checks.specs.Groups.{body_of};
ghost use Rattle.sq_checks.specs.Kinds.{group_body, is_group_at, is_leaf_at};
ghost use Rattle.sq_checks.specs.Slots.{is_external, is_external_at};

use crate::answers::Given;
use sq_rules::{Body, Config, Facts};

/// A configuration, the facts of a check over it, and the values that were given for its external acls, each in
/// its slot.
#[derive(Drop)]
pub struct WalkInputs<'a> {
    pub config: &'a Config,
    pub facts: &'a Facts,
    pub slots: &'a [u32],
    pub table: &'a [Option<Given>],
}

/// What the acl at a place is.
pub fn body_at(config: &Config, acl: u32) -> &Body
    requires { acl < length config.now.acls }
    ensures body { body_of (slice_get config.now.acls acl) ≡ Some result.now }
    ensures leaf { is_leaf_at config.now.acls acl ≡ is_leaf_body result.now }
    ensures external { is_external_at config.now.acls acl ≡ is_external result.now }
    ensures group { is_group_at config.now.acls acl ≡ group_body result.now }
{
    &config.acls()[acl as usize].body
}

/// What was given for the acl at a place, if anything was.
pub fn given_at(slots: &[u32], table: &[Option<Given>], acl: u32) -> Option<Given>
    ensures { result ≡ given_at slots.now table.now acl }
{
    let slot = *slots.get(acl as usize)?;
    *table.get(slot as usize)?
}

/// Gives the external acl at a place its value. It asks that its slot is in the table.
pub fn give(slots: &[u32], table: &mut Vec<Option<Given>>, acl: u32, value: Given)
    requires here { acl < length slots.now }
    requires slot { slice_index_or slots.now acl 0 < length table.old.items }
    ensures { table.new.items ≡ set table.old.items (slice_index_or slots.now acl 0) (Some value) }
{
    let slot = slots[acl as usize] as usize;
    table[slot] = Some(value);
}
