//! The verdict of a configuration, or what is needed for it.
ghost use Rattle.std.specs.Prelude.{◌≡◌, ◌<◌, ◌≤◌, length, slice_get, IfOk};
ghost use Rattle.sq_rules.specs.Facts.{facts_of};
ghost use Rattle.sq_rules.specs.Limits.{rule_limit};
ghost use Rattle.sq_rules.specs.Verdicts.{default_of, name_of, rules_from, verdict_over};
ghost use Rattle.sq_rules.specs.declared.values.Value.TheVariants as value;
ghost use Rattle.sq_eval.specs.Rans.{rule_of, ran_value};
ghost use Rattle.sq_eval.specs.Takings.{acls_in, taken_in};

use crate::rules::{RulesResult, first_rule};
use crate::taking::{EvalInputs, Helpers};
use sq_base::{Answers, Copying, Steps, Text, WantOfMemory};
use sq_rules::{Acl, Config, Facts, Outcome, Sight, Value, Why};
use std::alloc::Global;
use std::marker::Brand;
use std::sync::ledger::{Blank, Ledger};

// The name of the acl at a place.
fn name_of(alloc: Global, acls: &[Acl], place: u32) -> Result<Text, WantOfMemory>
    ensures { IfOk result (λ n. n ≡ name_of (slice_get acls.now place)) }
{
    match acls.get(place as usize) {
        Some(acl) => acl.name.copy(alloc),
        None => Ok(Text::new(alloc)),
    }
}

// An outcome as a value.
fn verdict(allow: bool, why: Why) -> Value
    ensures { result ≡ value.Verdict (record { allow = allow; why = why }) }
{
    Value::Verdict(Outcome { allow, why })
}

// What rules came to, with the name of an acl that had a fault.
fn value_of(alloc: Global, acls: &[Acl], ran: RulesResult) -> Result<Value, WantOfMemory>
    requires { rule_of ran ≤ rule_limit }
    ensures { IfOk result (λ v. v ≡ ran_value acls.now ran) }
{
    match ran {
        RulesResult::Rule { rule, allow } => Ok(verdict(allow, Why::Rule(rule as u32))),
        RulesResult::Default { allow } => Ok(verdict(allow, Why::Default)),
        RulesResult::Empty => Ok(verdict(false, Why::Empty)),
        RulesResult::Fault { rule, acl, cause } => {
            let acl = name_of(alloc, acls, acl)?;
            let rule = rule as u32;
            Ok(verdict(false, Why::Fault { rule, acl, cause }))
        }
        RulesResult::Need { acl, key } => Ok(Value::Need { acl, key }),
    }
}

// What the rules of the configuration came to.
fn ran_over<L: Ledger>(taking: &EvalInputs, blank: Blank) -> Result<RulesResult, WantOfMemory>
    requires name { blank.name ≡ L.name }
    requires parts { blank.parts ≡ L.parts }
    requires whole { 0 < blank.parts }
    requires facts { length taking.now.facts.now ≡ length taking.now.config.now.acls }
    ensures ran { IfOk result
        (λ r. ran_value (acls_in taking.now) r
        ≡ rules_from (taken_in taking.now) (acls_in taking.now)
        (default_of taking.now.config.now.rules) 1 taking.now.config.now.rules) }
    ensures number { IfOk result (λ r. rule_of r ≤ rule_limit) }
{
    taking.config.facts();
    let mut steps = Steps::<L>::open(blank);
    first_rule(taking, taking.config.rules(), &mut steps)
}

/// What the rules of a configuration come to over the facts of a check and the answers of helpers that it
/// has: the verdict, or the external acl, by its place from 0, and the key whose answer is needed first.
/// It takes memory for a key at each external acl that it reaches, and for the name of one with a fault.
#[tactic(auto, using(crate::proofs::TakingLaws::facts_count))]
pub fn evaluate<'a>(
    alloc: Global,
    config: &'a Config,
    facts: &'a Facts,
    sight: &'a Sight,
    answers: &'a Answers,
) -> Result<Value, WantOfMemory>
    requires { facts.now ≡ facts_of config.now.acls sight.now }
    ensures { IfOk result (λ v. v ≡ verdict_over answers.now config.now sight.now) }
{
    let taking = EvalInputs {
        config,
        facts,
        helpers: Helpers::Answered {
            alloc,
            sight,
            answers,
        },
    };
    let ran = ran_over::<Brand>(&taking, Blank::new(1))?;
    value_of(alloc, config.acls(), ran)
}
