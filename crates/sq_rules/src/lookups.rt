//! Acls of type `dst` where the names of hosts are looked up: what is made for one, and whether it stands.
ghost use Rattle.std.specs.Prelude.{◌≡◌, ◌∷◌, ◌++◌, ◌<◌, ◌^◌, ◌||◌, ◌==◌, not, [], length, bytes_eq, Some, IfOk};
ghost use Rattle.sq_rules.specs.declared.configs.Body.TheVariants as body;
ghost use Rattle.sq_rules.specs.Lookups.{are_behind, are_either, are_in_four, are_looked_up, are_named, asking_acl, begins_literal, begins_lookup, begins_with_all, either_acl, has_blank, has_no_words, holds_all, is_all, is_asking, is_dst, is_either_body, is_last_of_four, is_lookup_format, is_lookup_program, is_named_body, is_no_literal, is_plain, is_values_of, literal_acl, literal_name, lookup_class, lookup_name, named_acl, named_name, plain_term};

use crate::classes::{Class, Token};
use crate::configs::{Acl, Body, Lines, Term, Terms};
use crate::leaves::Leaf;
use sq_base::{Addr, Listed, Range, Text, Texts, WantOfMemory};
use std::alloc::Global;
use std::marker::Model;

const LITERAL: &[u8] = b" literal";

const LOOKUP: &[u8] = b" lookup";

const NAMED: &[u8] = b" named";

/// Whether a space or a tab stands in a name.
pub fn has_blank(name: &[u8]) -> bool
    ensures { result ≡ has_blank name.now }
{
    name.iter().any(|&byte| byte == b' ' || byte == b'\t')
}

// A name with more at its end.
fn longer(alloc: Global, name: &[u8], end: &[u8]) -> Result<Text, WantOfMemory>
    ensures { IfOk result (λ t. t ≡ name.now ++ end.now) }
{
    let mut text = Text::from_slice(alloc, name)?;
    text.append(end)?;
    Ok(text)
}

/// The name of the acl of values that is made for the acl of a name.
pub fn literal_name(alloc: Global, name: &Text) -> Result<Text, WantOfMemory>
    ensures { IfOk result (λ t. t ≡ literal_name name.now) }
{
    longer(alloc, name.as_bytes(), LITERAL)
}

/// The name of the acl that asks for the look-up.
pub fn lookup_name(alloc: Global, name: &Text) -> Result<Text, WantOfMemory>
    ensures { IfOk result (λ t. t ≡ lookup_name name.now) }
{
    longer(alloc, name.as_bytes(), LOOKUP)
}

/// The name of the group over that acl.
pub fn named_name(alloc: Global, name: &Text) -> Result<Text, WantOfMemory>
    ensures { IfOk result (λ t. t ≡ named_name name.now) }
{
    longer(alloc, name.as_bytes(), NAMED)
}

fn plain(acl: u32) -> Term
    ensures { result ≡ plain_term acl }
{
    Term {
        acl,
        negated: false,
    }
}

fn pair(alloc: Global, first: Term, second: Term) -> Result<Terms, WantOfMemory>
    ensures { IfOk result (λ t. t ≡ first ∷ second ∷ []) }
{
    let mut terms = Listed::new(alloc);
    terms.push(first)?;
    terms.push(second)?;
    Ok(terms)
}

/// A question to the class of look-ups.
pub fn asking(alloc: Global) -> Body
    ensures { result ≡ (asking_acl []).body }
{
    Body::External {
        class: 0,
        arguments: Listed::new(alloc),
    }
}

/// All-of `!dst literal` and the look-up, where the acl of values stands at this place.
pub fn named_body(alloc: Global, place: u32) -> Result<Body, WantOfMemory>
    requires { place < 2 ^ 31 }
    ensures { IfOk result (λ b. b ≡ (named_acl place []).body) }
{
    let no_literal = Term {
        acl: 0,
        negated: true,
    };
    let mut lines: Lines = Listed::new(alloc);
    lines.push(pair(alloc, no_literal, plain(place + 1))?)?;
    Ok(Body::AllOf(lines))
}

/// Any-of the values, which stand at this place, and that group.
pub fn either_body(alloc: Global, place: u32) -> Result<Body, WantOfMemory>
    requires { place < 2 ^ 31 }
    ensures { IfOk result (λ b. b ≡ (either_acl place []).body) }
{
    Ok(Body::AnyOf(pair(alloc, plain(place), plain(place + 2))?))
}

/// The acl that holds of each host that is an address.
pub fn literal_leaf(alloc: Global) -> Result<Body, WantOfMemory>
    ensures { IfOk result (λ b. b ≡ literal_acl.body) }
{
    let all = Range {
        first: Addr {
            v6: false,
            number: 0,
        },
        last: Addr {
            v6: true,
            number: u128::MAX,
        },
    };
    let mut ranges = Listed::new(alloc);
    ranges.push(all)?;
    Ok(Body::Leaf(Leaf::Dst(ranges)))
}

/// How many names are looked up at once, and how many further questions wait.
#[derive(Drop)]
pub struct LookupSizes {
    pub children_max: u32,
    pub queue_size: u32,
}

impl Model for LookupSizes {
    ghost use Rattle.sq_rules.specs.Lookups.{AreLookupSizes, LookupSizes};

    ghost Value = { LookupSizes };

    ghost view = { λ s. record { children_max = s.children_max; queue_size = s.queue_size } };

    ghost invariant = { λ s. AreLookupSizes
        (record { children_max = s.children_max; queue_size = s.queue_size }) };
}

/// The class by which names are looked up.
pub fn lookup_class(alloc: Global, sizes: LookupSizes) -> Result<Class, WantOfMemory>
    ensures { IfOk result (λ c. c ≡ lookup_class sizes) }
{
    let mut format = Listed::new(alloc);
    format.push(Token::Host)?;
    format.push(Token::AclName)?;
    format.push(Token::Arguments)?;
    let mut words: Texts = Listed::new(alloc);
    words.push(Text::from_slice(alloc, b"dst lookup")?)?;
    Ok(Class {
        name: Text::from_slice(alloc, b"dst lookup")?,
        ttl: 60,
        negative_ttl: 60,
        grace: 0,
        cache: 262_144,
        children_max: sizes.children_max,
        startup: 0,
        concurrency: 0,
        queue_size: sizes.queue_size,
        format,
        words,
    })
}

// Whether a name is another one with this at its end.
#[tactic(auto, using(crate::proofs::LookupLaws::front_first))]
fn is_longer(name: &[u8], base: &[u8], end: &[u8]) -> bool
    ensures { result ≡ bytes_eq name.now (base.now ++ end.now) }
{
    match name.strip_prefix(base) {
        Some(rest) => rest == end,
        None => false,
    }
}

fn is_dst(body: &Body) -> bool
    ensures { result ≡ is_dst body.now }
{
    match body {
        Body::Leaf(Leaf::Dst(_)) => true,
        _ => false,
    }
}

fn is_all(range: &Range) -> bool
    ensures { result ≡ is_all range.now }
{
    !range.first.v6 && range.first.number == 0 && range.last.v6 && range.last.number == u128::MAX
}

fn begins_with_all(ranges: &[Range]) -> bool
    ensures { result ≡ begins_with_all ranges.now }
{
    match ranges {
        [] => false,
        [range, ..] => is_all(range),
    }
}

fn holds_all(body: &Body) -> bool
    ensures { result ≡ holds_all body.now }
{
    match body {
        Body::Leaf(Leaf::Dst(values)) => begins_with_all(values.as_slice()),
        _ => false,
    }
}

fn is_plain(place: u32, term: Term) -> bool
    ensures { result ≡ is_plain place term }
{
    term.acl == place && !term.negated
}

fn is_no_literal(term: Term) -> bool
    ensures { result ≡ is_no_literal term }
{
    term.acl == 0 && term.negated
}

fn is_asking(body: &Body) -> bool
    ensures { result ≡ is_asking body.now }
{
    match body {
        Body::External { class, arguments } => *class == 0 && has_no_words(arguments.as_slice()),
        _ => false,
    }
}

fn has_no_words(words: &[Text]) -> bool
    ensures { result ≡ has_no_words words.now }
{
    match words {
        [] => true,
        [_, ..] => false,
    }
}

fn are_named(place: u32, terms: &[Term]) -> bool
    requires { place < 2 ^ 31 }
    ensures { result ≡ are_named place terms.now }
{
    match terms {
        [first, second] => is_no_literal(*first) && is_plain(place + 1, *second),
        _ => false,
    }
}

fn is_named_line(place: u32, lines: &[Terms]) -> bool
    requires { place < 2 ^ 31 }
    ensures { result ≡ is_named_body place (body.AllOf lines.now) }
{
    match lines {
        [terms] => are_named(place, terms.as_slice()),
        _ => false,
    }
}

fn is_named_body(place: u32, body: &Body) -> bool
    requires { place < 2 ^ 31 }
    ensures { result ≡ is_named_body place body.now }
{
    match body {
        Body::AllOf(lines) => is_named_line(place, lines.as_slice()),
        _ => false,
    }
}

fn are_either(place: u32, terms: &[Term]) -> bool
    requires { place < 2 ^ 31 }
    ensures { result ≡ are_either place terms.now }
{
    match terms {
        [first, second] => is_plain(place, *first) && is_plain(place + 2, *second),
        _ => false,
    }
}

fn is_either_body(place: u32, body: &Body) -> bool
    requires { place < 2 ^ 31 }
    ensures { result ≡ is_either_body place body.now }
{
    match body {
        Body::AnyOf(terms) => are_either(place, terms.as_slice()),
        _ => false,
    }
}

// Whether the three others of four stand behind an acl of values, which stands at this place.
fn are_behind(place: u32, values: &Acl, others: &[Acl]) -> bool
    requires { place < 2 ^ 31 }
    ensures { result ≡ are_behind place values.now others.now }
{
    match others {
        [asking, named, either, ..] => {
            is_longer(values.name.as_bytes(), either.name.as_bytes(), LITERAL)
                && is_longer(asking.name.as_bytes(), either.name.as_bytes(), LOOKUP)
                && is_asking(&asking.body)
                && is_longer(named.name.as_bytes(), either.name.as_bytes(), NAMED)
                && is_named_body(place, &named.body)
                && is_either_body(place, &either.body)
        }
        _ => false,
    }
}

// Whether an acl is no acl of values but the very first, or has the three others of four behind it.
fn is_in_four(place: u32, acl: &Acl, others: &[Acl]) -> bool
    requires { place < 2 ^ 31 }
    ensures { result ≡ (not (is_dst acl.now.body) || place == 0
        || are_behind place acl.now others.now) }
{
    !is_dst(&acl.body) || place == 0 || are_behind(place, acl, others)
}

// Whether each acl of type dst but the very first is the first of four.
fn are_in_four(acls: &[Acl]) -> bool
    requires { length acls.now < 2 ^ 31 }
    ensures { result ≡ are_in_four 0 acls.now }
{
    for (place, acl) in acls.iter().enumerate() {
        if !is_in_four(place as u32, acl, &acls[place + 1..]) {
            return false;
        }
    }
    true
}

fn begins_literal(acls: &[Acl]) -> bool
    ensures { result ≡ begins_literal acls.now }
{
    match acls {
        [] => false,
        [acl, ..] => acl.name.as_bytes() == b"dst literal".as_slice() && holds_all(&acl.body),
    }
}

fn is_lookup_format(format: &[Token]) -> bool
    ensures { result ≡ is_lookup_format format.now }
{
    match format {
        [Token::Host, Token::AclName, Token::Arguments] => true,
        _ => false,
    }
}

fn is_lookup_program(words: &[Text]) -> bool
    ensures { result ≡ is_lookup_program words.now }
{
    match words {
        [word] => word.as_bytes() == b"dst lookup".as_slice(),
        _ => false,
    }
}

fn begins_lookup(classes: &[Class]) -> bool
    ensures { result ≡ begins_lookup classes.now }
{
    match classes {
        [] => false,
        [class, ..] => {
            class.name.as_bytes() == b"dst lookup".as_slice()
                && is_lookup_format(class.format.as_slice())
                && is_lookup_program(class.words.as_slice())
        }
    }
}

/// Whether the class of look-ups and `dst literal` stand first, and each acl of type `dst` with its look-up, where names are
/// looked up.
pub fn are_looked_up(lookup: bool, classes: &[Class], acls: &[Acl]) -> bool
    requires { length acls.now < 2 ^ 31 }
    ensures { result ≡ are_looked_up lookup classes.now acls.now }
{
    !lookup || (begins_lookup(classes) && begins_literal(acls) && are_in_four(acls))
}

// Whether the first is the acl of values that is made for the second.
fn is_values_of(values: &Acl, acl: &Acl) -> bool
    ensures { result ≡ is_values_of (Some values.now) (Some acl.now) }
{
    is_dst(&values.body) && is_longer(values.name.as_bytes(), acl.name.as_bytes(), LITERAL)
}

/// Whether the acl at a place is the last of four: three places before it, and behind `dst literal`, stands that of its
/// values.
pub fn is_last_of_four(acls: &[Acl], place: u32) -> bool
    ensures { result ≡ is_last_of_four acls.now place }
{
    let place = place as usize;
    if place < 4 {
        return false;
    }
    match (acls.get(place - 3), acls.get(place)) {
        (Some(values), Some(acl)) => is_values_of(values, acl),
        _ => false,
    }
}
