//! What one rule decides.
ghost use Rattle.std.specs.Prelude.{◌≡◌, ◌<◌, ℕ, true, false, length, unwrap_or, Some};
ghost use Rattle.sq_rules.specs.Configurations.{is_fast_rule};
ghost use Rattle.sq_rules.specs.Values.{rule_value};
ghost use Rattle.sq_rules.specs.Verdicts.{decided, outcome_so_far};
ghost use Rattle.sq_rules.specs.declared.values.Value.{Value};
ghost use Rattle.sq_eval.specs.Rans.{shown_as};
ghost use Rattle.sq_eval.specs.Takings.{acls_in, fact_taken, has_answers, taken_in};

use crate::taking::{EvalInputs, Helpers};
use crate::terms::every_term;
use sq_base::{Steps, WantOfMemory};
use sq_rules::{Config, Facts, Rule, TermValue};
use std::marker::Brand;
use std::sync::ledger::{Blank, Ledger};

// Whether a rule with this value allows, if it decides.
fn shown(rule: &Rule, value: &TermValue) -> Option<bool>
    ensures { result ≡ shown_as rule.now value.now }
{
    match value {
        TermValue::Hit => Some(rule.allow),
        TermValue::Miss => None,
        TermValue::Fault { acl: _, cause: _ } => Some(false),
        TermValue::Need { acl: _, key: _ } => Some(false),
    }
}

// What the rule decides, where nobody is asked.
#[tactic(auto, using(crate::proofs::PoolLaws::fast_known))]
fn decision_over<L: Ledger>(taking: &EvalInputs, rule: &Rule, blank: Blank) -> Option<bool>
    requires name { blank.name ≡ L.name }
    requires parts { blank.parts ≡ L.parts }
    requires whole { 0 < blank.parts }
    requires facts { length taking.now.facts.now ≡ length taking.now.config.now.acls }
    requires fast { is_fast_rule taking.now.config.now.acls rule.now ≡ true }
    requires nobody { has_answers taking.now.helpers ≡ false }
    ensures { result
        ≡ shown_as rule.now (rule_value (taken_in taking.now) (acls_in taking.now) rule.now) }
{
    taking.config.facts();
    let mut steps = Steps::<L>::open(blank);
    let acls = taking.config.acls().len() as u32;
    match every_term(taking, acls, rule.terms.as_slice(), &mut steps) {
        Ok(value) => shown(rule, &value),
        Err(WantOfMemory) => unreachable!(),
    }
}

/// What a rule decides over the facts of a check: whether it allows where it matches, and nothing where it
/// does not. No term of it asks a helper. It takes no memory.
pub fn decision<'a>(config: &'a Config, facts: &'a Facts, rule: &Rule) -> Option<bool>
    requires facts { length facts.now ≡ length config.now.acls }
    requires fast { is_fast_rule config.now.acls rule.now ≡ true }
    ensures { (number : ℕ) (rest : Value)
        → (outcome_so_far (decided config.now.acls number rule.now
        (rule_value (fact_taken facts.now) config.now.acls rule.now) rest)).allow
        ≡ unwrap_or result (outcome_so_far rest).allow }
{
    config.facts();
    let taking = EvalInputs {
        config,
        facts,
        helpers: Helpers::Nobody,
    };
    decision_over::<Brand>(&taking, rule, Blank::new(1))
}
