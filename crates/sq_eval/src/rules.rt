//! What a list of rules comes to.
ghost use Rattle.std.specs.Prelude.{◌≡◌, ◌≤◌, List, true, length, IfOk, IfSome, OnErr};
ghost use Rattle.std.specs.List.{list_all};
ghost use Rattle.sq_rules.specs.Configurations.{is_known_rule};
ghost use Rattle.sq_rules.specs.Verdicts.{decided, default_of, rules_from};
ghost use Rattle.sq_rules.specs.declared.configs.Acl.{Acl};
ghost use Rattle.sq_rules.specs.declared.values.Value.{Value};
ghost use Rattle.sq_rules.specs.declared.values.Value.TheVariants as value;
ghost use Rattle.sq_eval.specs.Rans.{rule_of, ran_value, shown_or};
ghost use Rattle.sq_eval.specs.Takings.{acls_in, has_answers, taken_in};

use crate::taking::EvalInputs;
use crate::terms::every_term;
use sq_base::{Cause, Steps, Text, WantOfMemory};
use sq_rules::{Rule, TermValue};
use std::sync::ledger::Ledger;

/// What rules came to.
#[derive(Drop)]
pub enum RulesResult {
    /// The rule of this number, from 1, matched.
    Rule { rule: usize, allow: bool },
    /// No rule matched: the opposite of the last one.
    Default { allow: bool },
    /// There is no rule.
    Empty,
    /// The external acl at this place, in the rule of this number, had a fault.
    Fault { rule: usize, acl: u32, cause: Cause },
    /// The external acl at this place has no answer yet for this key.
    Need { acl: u32, key: Text },
}

// What is decided where no rule matches.
fn default_of(rules: &[Rule]) -> RulesResult
    ensures default { (acls : List Acl)
        → ran_value acls result ≡ value.Verdict (default_of rules.now) }
    ensures number { rule_of result ≡ 0 }
{
    match rules.split_last() {
        None => RulesResult::Empty,
        Some((last, _)) => RulesResult::Default { allow: !last.allow },
    }
}

// What the rule of a number decides with its value, if it decides.
fn decision(number: usize, rule: &Rule, value: TermValue) -> Option<RulesResult>
    ensures decided { (acls : List Acl) (rest : Value)
        → decided acls number rule.now value rest ≡ shown_or acls result rest }
    ensures number { IfSome result (λ r. rule_of r ≤ number) }
{
    match value {
        TermValue::Hit => Some(RulesResult::Rule {
            rule: number,
            allow: rule.allow,
        }),
        TermValue::Miss => None,
        TermValue::Fault { acl, cause } => Some(RulesResult::Fault {
            rule: number,
            acl,
            cause,
        }),
        TermValue::Need { acl, key } => Some(RulesResult::Need { acl, key }),
    }
}

/// What the rules come to, from number 1 on: the first that matches decides.
pub fn first_rule<L: Ledger>(
    taking: &EvalInputs,
    rules: &[Rule],
    steps: &mut Steps<L>,
) -> Result<RulesResult, WantOfMemory>
    requires facts { length taking.now.facts.now ≡ length taking.now.config.now.acls }
    requires known { list_all (is_known_rule (length taking.now.config.now.acls)) rules.now ≡ true }
    ensures ran { IfOk result
        (λ r. ran_value (acls_in taking.now) r
        ≡ rules_from (taken_in taking.now) (acls_in taking.now) (default_of rules.now) 1
        rules.now) }
    ensures number { IfOk result (λ r. rule_of r ≤ length rules.now) }
    ensures kept { OnErr result (has_answers taking.now.helpers ≡ true) }
{
    let acls = taking.config.acls().len() as u32;
    let mut number = 1;
    for rule in rules {
        let value = every_term(taking, acls, rule.terms.as_slice(), steps)?;
        if let Some(ran) = decision(number, rule, value) {
            return Ok(ran);
        }
        number += 1;
    }
    Ok(default_of(rules))
}
