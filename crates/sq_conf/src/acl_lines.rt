//! Lines `acl` and `http_access`.
ghost use Rattle.std.specs.Prelude.{◌≡◌, ◌<◌, ◌&&◌, true, false, length, Ok, IfOk};
ghost use Rattle.sq_conf.specs.Forms.{Gives, Makes};
ghost use Rattle.sq_conf.specs.Targets.{IsTarget};
ghost use Rattle.sq_rules.specs.AclLines.{acl_line, acl_values, dst_values, external_line, has_type, known_class, lookup_values, rule_line, with_values};
ghost use Rattle.sq_rules.specs.Drafts.{are_patterns};
ghost use Rattle.sq_rules.specs.Lookups.{is_dst};
ghost use Rattle.sq_rules.specs.declared.configs.Body.TheVariants as body;

use crate::builder::Builder;
use crate::config_words::ConfigWords;
use crate::faults::ReadFault;
use crate::finds::find_values;
use crate::groups::{all_of, any_of};
use crate::leaf_values::{
    is_unquoted, maxconn_values, method_values, plain_values, plain_words, port_values,
    range_values,
};
use crate::terms::{acl_named, acl_type, action, has_type, known_terms};
use crate::times::time_values;
use sq_base::{Copying, Text};
use sq_rules::{AclType, Kind, Leaf, Rule};
use std::alloc::Global;

// A new acl of values, or further values of one.
fn leaf_line(
    alloc: Global,
    builder: &mut Builder,
    name: &Text,
    place: Option<u32>,
    leaf: Leaf,
) -> Result<(), ReadFault>
    requires target { IsTarget builder.old.dst_lookup builder.old.acls name.now place }
    requires patterns { are_patterns leaf ≡ true }
    requires plain { (builder.old.dst_lookup && is_dst (body.Leaf leaf)) ≡ false }
    ensures { Makes result builder.new (Ok (with_values name.now place builder.old leaf)) }
{
    match place {
        None => {
            let name = name.copy(alloc)?;
            builder.push_leaf(alloc, name, leaf)?;
        }
        Some(place) => builder.join_leaf(alloc, place, leaf)?,
    }
    Ok(())
}

// Values of an acl of type dst where names are looked up: a new one is four, and that of one that stands gets more.
#[tactic(auto, unfolding(sq_rules::specs::AclLines::lookup_values))]
fn lookup_values(
    alloc: Global,
    builder: &mut Builder,
    name: &Text,
    place: Option<u32>,
    words: &[Text],
) -> Result<(), ReadFault>
    requires target { IsTarget builder.old.dst_lookup builder.old.acls name.now place }
    requires on { builder.old.dst_lookup ≡ true }
    ensures { Makes result builder.new (lookup_values name.now place builder.old words.now) }
{
    match place {
        None => {
            if !builder.is_free(alloc, name)? {
                return Err(ReadFault::Fault(Kind::BadValue));
            }
            let values = range_values(alloc, words)?;
            let name = name.copy(alloc)?;
            builder.push_lookup(alloc, name, values)?;
        }
        Some(place) => {
            let values = range_values(alloc, words)?;
            builder.join_leaf(alloc, place.saturating_sub(3), Leaf::Dst(values))?;
        }
    }
    Ok(())
}

// Values of an acl of type dst.
fn dst_values(
    alloc: Global,
    builder: &mut Builder,
    name: &Text,
    place: Option<u32>,
    words: &[Text],
) -> Result<(), ReadFault>
    requires target { IsTarget builder.old.dst_lookup builder.old.acls name.now place }
    ensures { Makes result builder.new (dst_values name.now place builder.old words.now) }
{
    if builder.looks_up() {
        return lookup_values(alloc, builder, name, place, words);
    }
    let values = range_values(alloc, words)?;
    leaf_line(alloc, builder, name, place, Leaf::Dst(values))
}

// A class that stands.
fn known_class(builder: &Builder, word: &Text) -> Result<u32, ReadFault>
    ensures read { Gives (λ p. p) result (known_class builder.now word.now) }
    ensures within { IfOk result (λ p. p < length builder.now.classes) }
{
    if !is_unquoted(word.as_bytes()) {
        return Err(ReadFault::Fault(Kind::BadValue));
    }
    match builder.class_place(word) {
        Some(place) => Ok(place),
        None => Err(ReadFault::Fault(Kind::UndefinedClass)),
    }
}

// `external CLASS ARGUMENT ...`; such an acl has one line.
#[tactic(auto, unfolding(sq_rules::specs::AclLines::external_line, sq_rules::specs::AclLines::external_body))]
fn external_line(
    alloc: Global,
    builder: &mut Builder,
    name: &Text,
    place: Option<u32>,
    words: &[Text],
) -> Result<(), ReadFault>
    requires target { IsTarget builder.old.dst_lookup builder.old.acls name.now place }
    ensures { Makes result builder.new (external_line name.now place builder.old words.now) }
{
    if place.is_some() {
        return Err(ReadFault::Fault(Kind::BadValue));
    }
    let mut words = ConfigWords::new(words);
    let class = known_class(builder, words.next()?)?;
    let arguments = plain_words(alloc, words.rest())?;
    let name = name.copy(alloc)?;
    builder.push_external(alloc, name, class, arguments)?;
    Ok(())
}

// What a line of this type adds.
#[tactic(auto, unfolding(sq_rules::specs::AclLines::acl_values))]
fn acl_values(
    alloc: Global,
    builder: &mut Builder,
    name: &Text,
    place: Option<u32>,
    kind: AclType,
    words: &[Text],
) -> Result<(), ReadFault>
    requires target { IsTarget builder.old.dst_lookup builder.old.acls name.now place }
    requires kind { has_type builder.old.acls kind place ≡ true }
    ensures { Makes result builder.new (acl_values kind name.now place builder.old words.now) }
{
    let leaf = match kind {
        AclType::Src => Leaf::Src(range_values(alloc, words)?),
        AclType::Dst => return dst_values(alloc, builder, name, place, words),
        AclType::DstDomain => Leaf::DstDomain(plain_values(alloc, words)?),
        AclType::Port => Leaf::Port(port_values(alloc, words)?),
        AclType::Method => Leaf::Method(method_values(alloc, words)?),
        AclType::Proto => Leaf::Proto(plain_values(alloc, words)?),
        AclType::Time => Leaf::Time(time_values(alloc, words)?),
        AclType::UrlRegex => Leaf::UrlRegex(find_values(alloc, words)?),
        AclType::MaxConn => Leaf::MaxConn(maxconn_values(alloc, words)?),
        AclType::External => return external_line(alloc, builder, name, place, words),
        AclType::AnyOf => return any_of(alloc, builder, name, place, words),
        AclType::AllOf => return all_of(alloc, builder, name, place, words),
    };
    leaf_line(alloc, builder, name, place, leaf)
}

/// `acl NAME TYPE VALUE ...`
#[tactic(auto, unfolding(sq_rules::specs::AclLines::acl_line))]
pub fn acl_line(alloc: Global, builder: &mut Builder, words: &[Text]) -> Result<(), ReadFault>
    ensures { Makes result builder.new (acl_line builder.old words.now) }
{
    let mut words = ConfigWords::new(words);
    let name = words.next()?;
    let place = acl_named(builder, name)?;
    let kind = acl_type(words.next()?.as_bytes())?;
    if !has_type(builder, kind, place) {
        return Err(ReadFault::Fault(Kind::TypeClash));
    }
    acl_values(alloc, builder, name, place, kind, words.rest())
}

/// `http_access allow|deny TERM ...`
#[tactic(auto, unfolding(sq_rules::specs::AclLines::rule_line))]
pub fn rule_line(alloc: Global, builder: &mut Builder, words: &[Text]) -> Result<(), ReadFault>
    ensures { Makes result builder.new (rule_line builder.old words.now) }
{
    let mut words = ConfigWords::new(words);
    let allow = action(words.next()?.as_bytes())?;
    if !builder.has_room_for_rule() {
        return Err(ReadFault::Fault(Kind::TooMany));
    }
    let terms = known_terms(alloc, builder, words.rest())?;
    builder.push_rule(Rule { allow, terms })?;
    Ok(())
}
