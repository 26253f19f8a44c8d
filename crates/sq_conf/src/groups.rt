//! Lines of groups of acls.
ghost use Rattle.std.specs.Prelude.{◌≡◌, ◌<◌, true, length};
ghost use Rattle.sq_conf.specs.Forms.{Makes};
ghost use Rattle.sq_conf.specs.Targets.{IsTarget};
ghost use Rattle.sq_rules.specs.AclLines.{all_of, any_of, has_type, member, members, sound};
ghost use Rattle.sq_rules.specs.Drafts.{with_body, with_member};
ghost use Rattle.sq_rules.specs.Lookups.{takes_members};
ghost use Rattle.sq_rules.specs.declared.acl_types.AclType.TheVariants as type;

use crate::builder::Builder;
use crate::faults::ReadFault;
use crate::leaf_values::is_unquoted;
use crate::terms::known_term;
use sq_base::{Copying, Text};
use sq_rules::{Kind, MemberFault, Term};
use std::alloc::Global;

// Puts a member into the group at a place.
fn add_member(alloc: Global, builder: &mut Builder, place: u32, term: Term) -> Result<(), ReadFault>
    requires within { place < length builder.old.acls }
    requires earlier { term.acl < place }
    requires group { takes_members builder.old.dst_lookup builder.old.acls place ≡ true }
    ensures made { Makes result builder.new
        (sound (with_body place (with_member term) builder.old)) }
    ensures count { length builder.new.acls ≡ length builder.old.acls }
    ensures group { takes_members builder.new.dst_lookup builder.new.acls place ≡ true }
{
    match builder.add_member(alloc, place, term) {
        Ok(()) => Ok(()),
        Err(MemberFault::Slow) => Err(ReadFault::Fault(Kind::SlowInFastList)),
        Err(MemberFault::Deep) => Err(ReadFault::Fault(Kind::TooDeep)),
        Err(MemberFault::WantOfMemory) => Err(ReadFault::Memory),
    }
}

// One member of the group at a place.
#[tactic(auto, unfolding(sq_rules::specs::AclLines::member))]
fn member(alloc: Global, builder: &mut Builder, place: u32, word: &Text) -> Result<(), ReadFault>
    requires within { place < length builder.old.acls }
    requires group { takes_members builder.old.dst_lookup builder.old.acls place ≡ true }
    ensures made { Makes result builder.new (member place builder.old word.now) }
    ensures count { length builder.new.acls ≡ length builder.old.acls }
    ensures group { takes_members builder.new.dst_lookup builder.new.acls place ≡ true }
{
    if !is_unquoted(word.as_bytes()) {
        return Err(ReadFault::Fault(Kind::BadValue));
    }
    let term = known_term(alloc, builder, word)?;
    if term.acl >= place {
        return Err(ReadFault::Fault(Kind::UndefinedAcl));
    }
    add_member(alloc, builder, place, term)
}

// One member or more.
fn members(
    alloc: Global,
    builder: &mut Builder,
    place: u32,
    words: &[Text],
) -> Result<(), ReadFault>
    requires within { place < length builder.old.acls }
    requires group { takes_members builder.old.dst_lookup builder.old.acls place ≡ true }
    ensures { Makes result builder.new (members place builder.old words.now) }
{
    if words.is_empty() {
        return Err(ReadFault::Fault(Kind::MissingWord));
    }
    for word in words {
        member(alloc, builder, place, word)?;
    }
    Ok(())
}

/// `any-of MEMBER ...`
#[tactic(auto, unfolding(sq_rules::specs::AclLines::any_of))]
pub fn any_of(
    alloc: Global,
    builder: &mut Builder,
    name: &Text,
    place: Option<u32>,
    words: &[Text],
) -> Result<(), ReadFault>
    requires target { IsTarget builder.old.dst_lookup builder.old.acls name.now place }
    requires kind { has_type builder.old.acls type.AnyOf place ≡ true }
    ensures { Makes result builder.new (any_of name.now place builder.old words.now) }
{
    match place {
        Some(place) => members(alloc, builder, place, words),
        None => {
            let place = builder.acl_count() as u32;
            let name = name.copy(alloc)?;
            builder.push_any_of(alloc, name)?;
            members(alloc, builder, place, words)
        }
    }
}

/// `all-of MEMBER ...`, whose members stand by themselves.
#[tactic(auto, unfolding(sq_rules::specs::AclLines::all_of))]
pub fn all_of(
    alloc: Global,
    builder: &mut Builder,
    name: &Text,
    place: Option<u32>,
    words: &[Text],
) -> Result<(), ReadFault>
    requires target { IsTarget builder.old.dst_lookup builder.old.acls name.now place }
    requires kind { has_type builder.old.acls type.AllOf place ≡ true }
    ensures { Makes result builder.new (all_of name.now place builder.old words.now) }
{
    match place {
        Some(place) => {
            builder.open_line(alloc, place)?;
            members(alloc, builder, place, words)
        }
        None => {
            let place = builder.acl_count() as u32;
            let name = name.copy(alloc)?;
            builder.push_all_of(alloc, name)?;
            builder.open_line(alloc, place)?;
            members(alloc, builder, place, words)
        }
    }
}
