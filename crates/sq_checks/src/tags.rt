//! The tag of a check.
ghost use Rattle.std.specs.Prelude.{◌≡◌, ◌<◌, ◌≤◌, ℕ, List, Some, true, find, length, map, slice_get, IfOk};
ghost use Rattle.std.specs.List.{list_all};
ghost use Rattle.std.specs.Option.{option_copied, option_or};
ghost use Rattle.sq_rules.specs.Tags.{tag_in, tag_of, tag_pair};
ghost use Rattle.sq_rules.specs.Configurations.{are_known, is_known_body, is_known_rule};
ghost use Rattle.sq_rules.specs.Facts.{facts_of};
ghost use Rattle.sq_rules.specs.Keys.{key_text};
ghost use Rattle.sq_rules.specs.Values.{answer_for, answer_value};
ghost use Rattle.sq_eval.specs.Takings.{answers_for};
ghost use Rattle.sq_checks.specs.Traces as traces;

use sq_base::{Answer, Answers, Copying, Pair, Steps, Text, WantOfMemory, What};
use sq_eval::{turned, value_if, what_value};
use sq_format::key;
use sq_rules::{Acl, Body, Config, Facts, Rule, Sight, Term, TermValue, Terms};
use std::alloc::Global;
use std::marker::Brand;
use std::sync::ledger::{Blank, Ledger};

// A configuration, what a check sees, its facts, and the answers of helpers that it has.
#[derive(Drop)]
struct TagInputs<'a> {
    alloc: Global,
    config: &'a Config,
    facts: &'a Facts,
    sight: &'a Sight,
    answers: &'a Answers,
}

// What something comes to, with the first tag of the acls that it looked at.
#[derive(Drop)]
struct Traced {
    value: TermValue,
    tag: Option<Text>,
}

// The first of two tags.
fn first_of(one: Option<Text>, other: Option<Text>) -> Option<Text>
    ensures { result ≡ option_or one other }
{
    match one {
        Some(tag) => Some(tag),
        None => other,
    }
}

// The value of the first pair `tag`.
fn tag_pair(alloc: Global, pairs: &[Pair]) -> Result<Option<Text>, WantOfMemory>
    ensures { IfOk result (λ t. t ≡ tag_pair pairs.now) }
{
    match pairs
        .iter()
        .find(|pair| pair.key.as_bytes() == b"tag".as_slice())
    {
        Some(pair) => {
            let tag = pair.value.copy(alloc)?;
            Ok(Some(tag))
        }
        None => Ok(None),
    }
}

// The answer for a class and key.
fn find_answer<'a>(answers: &'a [Answer], class: u32, key: &Text) -> Option<&'a Answer>
    ensures { option_copied result ≡ find (λ a. answers_for a class key.now) answers.now }
{
    answers
        .iter()
        .find(|answer| answer.class == class && answer.key == *key)
}

// The tag of an answer: the value of the first pair `tag`, unless it is a fault.
fn what_tag(alloc: Global, what: &What) -> Result<Option<Text>, WantOfMemory>
    ensures { IfOk result (λ t. t ≡ tag_in (Some what.now)) }
{
    match what {
        What::Yes(pairs) => tag_pair(alloc, pairs.as_slice()),
        What::No(pairs) => tag_pair(alloc, pairs.as_slice()),
        What::Fault(_) => Ok(None),
    }
}

// The external acl at a place, with this answer.
fn traced_by(alloc: Global, acl: u32, what: &What) -> Result<Traced, WantOfMemory>
    ensures value { (key : List ℕ)
        → IfOk result (λ x. x.value ≡ answer_value acl key (Some what.now)) }
    ensures tag { IfOk result (λ x. x.tag ≡ tag_in (Some what.now)) }
{
    let tag = what_tag(alloc, what)?;
    let value = what_value(acl, what);
    Ok(Traced { value, tag })
}

// The external acl at a place, of this class, by the answer for the key.
fn asked_traced(inputs: &TagInputs, acl: u32, class: u32) -> Result<Traced, WantOfMemory>
    ensures value { IfOk result (λ x. x.value ≡ answer_value acl
        (key_text inputs.now.config.now acl inputs.now.sight.now)
        (answer_for inputs.now.answers.now class
        (key_text inputs.now.config.now acl inputs.now.sight.now))) }
    ensures tag { IfOk result (λ x. x.tag ≡ tag_in (answer_for inputs.now.answers.now class
        (key_text inputs.now.config.now acl inputs.now.sight.now))) }
{
    let key = key(inputs.alloc, inputs.config, acl, inputs.sight)?;
    match find_answer(inputs.answers.as_slice(), class, &key) {
        Some(answer) => traced_by(inputs.alloc, acl, &answer.what),
        None => Ok(Traced {
            value: TermValue::Need { acl, key },
            tag: None,
        }),
    }
}

// The acl at a place. What it names stands before it.
fn acl_at(config: &Config, acl: u32) -> &Acl
    requires { acl < length config.now.acls }
    ensures there { slice_get config.now.acls acl ≡ Some result.now }
    ensures known { is_known_body (length config.now.classes) acl result.now.body ≡ true }
{
    config.facts();
    &config.acls()[acl as usize]
}

// A term.
#[cycle(tags)]
fn term_traced<L: Ledger>(
    inputs: &TagInputs,
    term: Term,
    steps: &mut Steps<L>,
) -> Result<Traced, WantOfMemory>
    requires facts { inputs.now.facts.now
        ≡ facts_of inputs.now.config.now.acls inputs.now.sight.now }
    requires here { term.acl < length inputs.now.config.now.acls }
    ensures { IfOk result (λ x. x ≡ traces.term_traced inputs.now term) }
{
    inputs.config.facts();
    let traced = acl_traced(inputs, term.acl, steps)?;
    Ok(Traced {
        value: turned(term.negated, traced.value),
        tag: traced.tag,
    })
}

// The acl at a place.
#[cycle(tags)]
fn acl_traced<L: Ledger>(
    inputs: &TagInputs,
    acl: u32,
    steps: &mut Steps<L>,
) -> Result<Traced, WantOfMemory>
    requires facts { inputs.now.facts.now
        ≡ facts_of inputs.now.config.now.acls inputs.now.sight.now }
    requires here { acl < length inputs.now.config.now.acls }
    ensures { IfOk result (λ x. x ≡ traces.acl_traced inputs.now acl) }
{
    match &acl_at(inputs.config, acl).body {
        Body::Leaf(_) => Ok(Traced {
            value: value_if(inputs.facts.look(acl, steps)),
            tag: None,
        }),
        Body::External {
            class,
            arguments: _,
        } => asked_traced(inputs, acl, *class),
        Body::AnyOf(terms) => some_term(inputs, acl, terms.as_slice(), steps),
        Body::AllOf(lines) => some_line(inputs, acl, lines.as_slice(), steps),
    }
}

// Terms that name acls before a place, up to the first that is no mismatch.
#[cycle(tags)]
fn some_term<L: Ledger>(
    inputs: &TagInputs,
    before: u32,
    terms: &[Term],
    steps: &mut Steps<L>,
) -> Result<Traced, WantOfMemory>
    requires facts { inputs.now.facts.now
        ≡ facts_of inputs.now.config.now.acls inputs.now.sight.now }
    requires here { before < length inputs.now.config.now.acls }
    requires known { are_known before terms.now ≡ true }
    ensures { IfOk result
        (λ x. x ≡ traces.some_traced (map (traces.term_traced inputs.now) terms.now)) }
{
    let mut tag = None;
    for term in terms {
        let traced = term_traced(inputs, *term, steps)?;
        tag = first_of(tag, traced.tag);
        match traced.value {
            TermValue::Miss => {}
            value => return Ok(Traced { value, tag }),
        }
    }
    let value = TermValue::Miss;
    Ok(Traced { value, tag })
}

// Lines, up to the first that is no mismatch.
#[cycle(tags)]
fn some_line<L: Ledger>(
    inputs: &TagInputs,
    before: u32,
    lines: &[Terms],
    steps: &mut Steps<L>,
) -> Result<Traced, WantOfMemory>
    requires facts { inputs.now.facts.now
        ≡ facts_of inputs.now.config.now.acls inputs.now.sight.now }
    requires here { before < length inputs.now.config.now.acls }
    requires known { list_all (are_known before) lines.now ≡ true }
    ensures { IfOk result
        (λ x. x ≡ traces.some_traced (map (λ l. traces.line_traced inputs.now l) lines.now)) }
{
    let mut tag = None;
    for line in lines {
        let traced = every_term(inputs, before, line.as_slice(), steps)?;
        tag = first_of(tag, traced.tag);
        match traced.value {
            TermValue::Miss => {}
            value => return Ok(Traced { value, tag }),
        }
    }
    let value = TermValue::Miss;
    Ok(Traced { value, tag })
}

// Terms that name acls before a place, up to the first that is no match.
#[cycle(tags)]
fn every_term<L: Ledger>(
    inputs: &TagInputs,
    before: u32,
    terms: &[Term],
    steps: &mut Steps<L>,
) -> Result<Traced, WantOfMemory>
    requires facts { inputs.now.facts.now
        ≡ facts_of inputs.now.config.now.acls inputs.now.sight.now }
    requires here { before ≤ length inputs.now.config.now.acls }
    requires known { are_known before terms.now ≡ true }
    ensures { IfOk result (λ x. x ≡ traces.line_traced inputs.now terms.now) }
{
    let mut tag = None;
    for term in terms {
        let traced = term_traced(inputs, *term, steps)?;
        tag = first_of(tag, traced.tag);
        match traced.value {
            TermValue::Hit => {}
            value => return Ok(Traced { value, tag }),
        }
    }
    let value = TermValue::Hit;
    Ok(Traced { value, tag })
}

// The first tag of rules, up to the first that decides.
fn rules_tag<L: Ledger>(
    inputs: &TagInputs,
    rules: &[Rule],
    blank: Blank,
) -> Result<Option<Text>, WantOfMemory>
    requires name { blank.name ≡ L.name }
    requires parts { blank.parts ≡ L.parts }
    requires whole { 0 < blank.parts }
    requires facts { inputs.now.facts.now
        ≡ facts_of inputs.now.config.now.acls inputs.now.sight.now }
    requires known { list_all (is_known_rule (length inputs.now.config.now.acls)) rules.now
        ≡ true }
    ensures { IfOk result (λ t. t ≡ traces.rules_tag inputs.now rules.now) }
{
    let mut steps = Steps::<L>::open(blank);
    let acls = inputs.config.acls().len() as u32;
    for rule in rules {
        let traced = every_term(inputs, acls, rule.terms.as_slice(), &mut steps)?;
        match (traced.tag, traced.value) {
            (Some(tag), _) => return Ok(Some(tag)),
            (None, TermValue::Miss) => {}
            (None, _) => return Ok(None),
        }
    }
    Ok(None)
}

/// The tag that the helpers of a check named, over the facts of it and the answers that it has: the value of the first
/// pair `tag` of the first external term of its walk whose answer is OK or ERR and has such a pair. It takes memory for a
/// key at each external acl that it reaches, and for tags.
pub(crate) fn tag_of<'a>(
    alloc: Global,
    config: &'a Config,
    facts: &'a Facts,
    sight: &'a Sight,
    answers: &'a Answers,
) -> Result<Option<Text>, WantOfMemory>
    requires { facts.now ≡ facts_of config.now.acls sight.now }
    ensures { IfOk result (λ t. t ≡ tag_of config.now sight.now answers.now) }
{
    config.facts();
    let inputs = TagInputs {
        alloc,
        config,
        facts,
        sight,
        answers,
    };
    rules_tag::<Brand>(&inputs, config.rules(), Blank::new(1))
}
