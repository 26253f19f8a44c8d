//! The values of terms, acls and lists of terms.
ghost use Rattle.std.specs.Prelude.{◌≡◌, ◌<◌, ◌≤◌, ℕ, List, Bool, true, length, map, slice_get, IfOk, OnErr};
ghost use Rattle.std.specs.List.{list_all};
ghost use Rattle.sq_rules.specs.Configurations.{are_known, is_known_body};
ghost use Rattle.sq_rules.specs.Values.{acl_value, body_value, both, either, term_value};
ghost use Rattle.sq_rules.specs.declared.configs.Term.{Term};
ghost use Rattle.sq_rules.specs.declared.values.TermValue.{TermValue};
ghost use Rattle.sq_eval.specs.Takings.{acls_in, has_answers, taken_by, taken_in, read_of_body};
ghost use Rattle.sq_eval.specs.declared.taking.Helpers.{Helpers};

use crate::taking::{EvalInputs, asked, turned, value_if};
use sq_base::{Steps, WantOfMemory};
use sq_rules::{Body, Config, Term, TermValue, Terms};
use std::sync::ledger::Ledger;

// What the acl at a place is. What it names stands before it.
fn body_at(config: &Config, acl: u32) -> &Body
    requires { acl < length config.now.acls }
    ensures value { (taken : ℕ → TermValue) (member : Term → TermValue)
        → acl_value taken member acl (slice_get config.now.acls acl)
        ≡ body_value taken member acl result.now }
    ensures taken { (facts : List Bool) (h : Helpers)
        → taken_by config.now facts h acl ≡ read_of_body config.now facts h acl result.now }
    ensures known { is_known_body (length config.now.classes) acl result.now ≡ true }
{
    config.facts();
    &config.acls()[acl as usize].body
}

/// The value of a term.
#[cycle(terms)]
pub fn term_value<L: Ledger>(
    taking: &EvalInputs,
    term: Term,
    steps: &mut Steps<L>,
) -> Result<TermValue, WantOfMemory>
    requires facts { length taking.now.facts.now ≡ length taking.now.config.now.acls }
    requires here { term.acl < length taking.now.config.now.acls }
    ensures value { IfOk result
        (λ v. v ≡ term_value (taken_in taking.now) (acls_in taking.now) term) }
    ensures kept { OnErr result (has_answers taking.now.helpers ≡ true) }
{
    taking.config.facts();
    let value = acl_value(taking, term.acl, steps)?;
    Ok(turned(term.negated, value))
}

// The value of the acl at a place.
#[cycle(terms)]
fn acl_value<L: Ledger>(
    taking: &EvalInputs,
    acl: u32,
    steps: &mut Steps<L>,
) -> Result<TermValue, WantOfMemory>
    requires facts { length taking.now.facts.now ≡ length taking.now.config.now.acls }
    requires here { acl < length taking.now.config.now.acls }
    ensures value { IfOk result
        (λ v. v ≡ acl_value (taken_in taking.now)
        (term_value (taken_in taking.now) (acls_in taking.now)) acl
        (slice_get (acls_in taking.now) acl)) }
    ensures kept { OnErr result (has_answers taking.now.helpers ≡ true) }
{
    match body_at(taking.config, acl) {
        Body::Leaf(_) => Ok(value_if(taking.facts.look(acl, steps))),
        Body::External {
            class,
            arguments: _,
        } => asked(taking, acl, *class),
        Body::AnyOf(terms) => some_term(taking, acl, terms.as_slice(), steps),
        Body::AllOf(lines) => some_line(taking, acl, lines.as_slice(), steps),
    }
}

// The first value that is no mismatch, of terms that name acls before a place.
#[cycle(terms)]
fn some_term<L: Ledger>(
    taking: &EvalInputs,
    before: u32,
    terms: &[Term],
    steps: &mut Steps<L>,
) -> Result<TermValue, WantOfMemory>
    requires facts { length taking.now.facts.now ≡ length taking.now.config.now.acls }
    requires here { before < length taking.now.config.now.acls }
    requires known { are_known before terms.now ≡ true }
    ensures value { IfOk result
        (λ v. v ≡ either (map (term_value (taken_in taking.now) (acls_in taking.now)) terms.now)) }
    ensures kept { OnErr result (has_answers taking.now.helpers ≡ true) }
{
    for term in terms {
        match term_value(taking, *term, steps)? {
            TermValue::Miss => {}
            value => return Ok(value),
        }
    }
    Ok(TermValue::Miss)
}

// The first value of a line that is no mismatch.
#[cycle(terms)]
fn some_line<L: Ledger>(
    taking: &EvalInputs,
    before: u32,
    lines: &[Terms],
    steps: &mut Steps<L>,
) -> Result<TermValue, WantOfMemory>
    requires facts { length taking.now.facts.now ≡ length taking.now.config.now.acls }
    requires here { before < length taking.now.config.now.acls }
    requires known { list_all (are_known before) lines.now ≡ true }
    ensures value { IfOk result
        (λ v. v ≡ either (map (λ l. both
        (map (term_value (taken_in taking.now) (acls_in taking.now)) l)) lines.now)) }
    ensures kept { OnErr result (has_answers taking.now.helpers ≡ true) }
{
    for line in lines {
        match every_term(taking, before, line.as_slice(), steps)? {
            TermValue::Miss => continue,
            value => return Ok(value),
        }
    }
    Ok(TermValue::Miss)
}

/// The first value that is no match, of terms that name acls before a place.
#[cycle(terms)]
pub fn every_term<L: Ledger>(
    taking: &EvalInputs,
    before: u32,
    terms: &[Term],
    steps: &mut Steps<L>,
) -> Result<TermValue, WantOfMemory>
    requires facts { length taking.now.facts.now ≡ length taking.now.config.now.acls }
    requires here { before ≤ length taking.now.config.now.acls }
    requires known { are_known before terms.now ≡ true }
    ensures value { IfOk result
        (λ v. v ≡ both (map (term_value (taken_in taking.now) (acls_in taking.now)) terms.now)) }
    ensures kept { OnErr result (has_answers taking.now.helpers ≡ true) }
{
    for term in terms {
        match term_value(taking, *term, steps)? {
            TermValue::Hit => {}
            value => return Ok(value),
        }
    }
    Ok(TermValue::Hit)
}
