//! Names and terms of acls.
ghost use Rattle.std.specs.Prelude.{◌≡◌, ◌<◌, true, length, IfOk, IfSome};
ghost use Rattle.sq_conf.specs.Forms.{Gives};
ghost use Rattle.sq_conf.specs.Targets.{IsTarget};
ghost use Rattle.sq_rules.specs.AclLines.{acl_named, action, has_type, is_name, known_term, known_terms, term_from, type_place, acl_type};
ghost use Rattle.sq_rules.specs.Building.{place_of};
ghost use Rattle.sq_rules.specs.Configurations.{are_known};

use crate::builder::Builder;
use crate::config_words::begins;
use crate::faults::ReadFault;
use sq_base::{Listed, Text, named};
use sq_rules::{AclType, Kind, NAME_LIMIT, Term, Terms, has_blank};
use std::alloc::Global;

const ACTIONS: [(&[u8], bool); 2] = [(b"allow", true), (b"deny", false)];

const ACL_TYPES: [(&[u8], AclType); 12] = [
    (b"src", AclType::Src),
    (b"dst", AclType::Dst),
    (b"dstdomain", AclType::DstDomain),
    (b"port", AclType::Port),
    (b"method", AclType::Method),
    (b"proto", AclType::Proto),
    (b"time", AclType::Time),
    (b"url_regex", AclType::UrlRegex),
    (b"maxconn", AclType::MaxConn),
    (b"external", AclType::External),
    (b"any-of", AclType::AnyOf),
    (b"all-of", AclType::AllOf),
];

/// `allow` is true, `deny` false.
#[tactic(auto, unfolding(sq_rules::specs::AclLines::action))]
pub fn action(word: &[u8]) -> Result<bool, ReadFault>
    ensures { Gives (λ a. a) result (action word.now) }
{
    match named(&ACTIONS, word) {
        Some(allow) => Ok(allow),
        None => Err(ReadFault::Fault(Kind::BadValue)),
    }
}

fn is_name(word: &[u8]) -> bool
    ensures { result ≡ is_name word.now }
{
    !begins(word, b'!') && word.len() <= NAME_LIMIT && !has_blank(word)
}

/// The place of the acl of this name, or none where there is room for it.
pub fn acl_named(builder: &Builder, word: &Text) -> Result<Option<u32>, ReadFault>
    ensures read { Gives (λ p. p) result
        (acl_named builder.now.dst_lookup builder.now.acls word.now) }
    ensures target { IfOk result
        (λ p. IsTarget builder.now.dst_lookup builder.now.acls word.now p) }
{
    if !is_name(word.as_bytes()) {
        return Err(ReadFault::Fault(Kind::BadValue));
    }
    let place = builder.acl_place(word);
    if place.is_none() && !builder.has_room_for_acl() {
        return Err(ReadFault::Fault(Kind::TooMany));
    }
    Ok(place)
}

/// The type of this name.
#[tactic(auto, unfolding(sq_rules::specs::AclLines::acl_type))]
pub fn acl_type(word: &[u8]) -> Result<AclType, ReadFault>
    ensures { Gives (λ t. t) result (acl_type word.now) }
{
    match named(&ACL_TYPES, word) {
        Some(kind) => Ok(kind),
        None => Err(ReadFault::Fault(Kind::UnknownAclType)),
    }
}

// The place of a type in their order.
fn type_place(kind: AclType) -> u8
    ensures { result ≡ type_place kind }
{
    match kind {
        AclType::Src => 0,
        AclType::Dst => 1,
        AclType::DstDomain => 2,
        AclType::Port => 3,
        AclType::Method => 4,
        AclType::Proto => 5,
        AclType::Time => 6,
        AclType::UrlRegex => 7,
        AclType::MaxConn => 8,
        AclType::External => 9,
        AclType::AnyOf => 10,
        AclType::AllOf => 11,
    }
}

/// Whether the acl at the place, where there is one, has this type.
pub fn has_type(builder: &Builder, kind: AclType, place: Option<u32>) -> bool
    requires { IfSome place (λ p. p < length builder.now.acls) }
    ensures { result ≡ has_type builder.now.acls kind place }
{
    match place {
        None => true,
        Some(place) => type_place(builder.acl_type(place)) == type_place(kind),
    }
}

/// An acl that stands, with `!` or without.
#[tactic(auto, unfolding(sq_rules::specs::AclLines::known_term))]
pub fn known_term(alloc: Global, builder: &Builder, word: &Text) -> Result<Term, ReadFault>
    ensures read { Gives (λ t. t) result (known_term builder.now.acls word.now) }
    ensures within { IfOk result (λ t. t.acl < length builder.now.acls) }
{
    match word.as_bytes() {
        [] => term_at(builder, false, word),
        [first, name @ ..] => {
            if *first == b'!' {
                let name = Text::from_slice(alloc, name)?;
                term_at(builder, true, &name)
            } else {
                term_at(builder, false, word)
            }
        }
    }
}

// The term of the acl of this name.
fn term_at(builder: &Builder, negated: bool, name: &Text) -> Result<Term, ReadFault>
    ensures read { Gives (λ t. t) result (term_from negated (place_of builder.now.acls name.now)) }
    ensures within { IfOk result (λ t. t.acl < length builder.now.acls) }
{
    match builder.acl_place(name) {
        None => Err(ReadFault::Fault(Kind::UndefinedAcl)),
        Some(acl) => Ok(Term { acl, negated }),
    }
}

/// One such term or more.
pub fn known_terms(alloc: Global, builder: &Builder, words: &[Text]) -> Result<Terms, ReadFault>
    ensures read { Gives (λ t. t) result (known_terms builder.now.acls words.now) }
    ensures known { IfOk result (λ terms. are_known (length builder.now.acls) terms ≡ true) }
{
    if words.is_empty() {
        return Err(ReadFault::Fault(Kind::MissingWord));
    }
    let mut terms = Listed::new(alloc);
    for word in words {
        terms.push(known_term(alloc, builder, word)?)?;
    }
    Ok(terms)
}
