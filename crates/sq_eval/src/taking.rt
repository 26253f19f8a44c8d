//! What the values of leaf acls and of external acls are taken from.
ghost use Rattle.std.specs.Prelude.{◌≡◌, ℕ, List, Some, true, IfOk, OnErr};
ghost use Rattle.sq_rules.specs.Values.{answer_for, answer_value, turned, value_if};
ghost use Rattle.sq_eval.specs.Takings.{asked_of, answers_for, has_answers};

use sq_base::{Answer, Answers, Text, WantOfMemory, What};
use sq_format::key;
use sq_rules::{Config, Facts, Sight, TermValue};
use std::alloc::Global;

/// The answers of helpers to a check: none are looked for, or those for the keys of what the check sees.
#[derive(Clone, Copy)]
pub enum Helpers<'a> {
    Nobody,
    Answered {
        alloc: Global,
        sight: &'a Sight,
        answers: &'a Answers,
    },
}

/// A configuration, the facts of a check over it, and the answers of helpers.
#[derive(Drop)]
pub struct EvalInputs<'a> {
    pub config: &'a Config,
    pub facts: &'a Facts,
    pub helpers: Helpers<'a>,
}

// Whether an answer is for this class and key.
fn is_for(answer: &Answer, class: u32, key: &Text) -> bool
    ensures { result ≡ answers_for answer.now class key.now }
{
    answer.class == class && answer.key == *key
}

/// The value of an external acl with this answer: OK is a match, ERR is none.
pub fn what_value(acl: u32, what: &What) -> TermValue
    ensures { (key : List ℕ) → result ≡ answer_value acl key (Some what.now) }
{
    match what {
        What::Yes(_) => TermValue::Hit,
        What::No(_) => TermValue::Miss,
        What::Fault(cause) => TermValue::Fault { acl, cause: *cause },
    }
}

// The value of an external acl of this class by the answer for the key, or the need of one.
fn answered(answers: &[Answer], acl: u32, class: u32, key: Text) -> TermValue
    ensures { result ≡ answer_value acl key (answer_for answers.now class key) }
{
    for answer in answers {
        if is_for(answer, class, &key) {
            return what_value(acl, &answer.what);
        }
    }
    TermValue::Need { acl, key }
}

/// The value of the external acl at a place, of this class. Where answers are looked for, it takes memory
/// for the key.
pub fn asked(taking: &EvalInputs, acl: u32, class: u32) -> Result<TermValue, WantOfMemory>
    ensures value { IfOk result
        (λ v. v ≡ asked_of taking.now.helpers taking.now.config.now acl class) }
    ensures kept { OnErr result (has_answers taking.now.helpers ≡ true) }
{
    match taking.helpers {
        Helpers::Nobody => Ok(TermValue::Miss),
        Helpers::Answered {
            alloc,
            sight,
            answers,
        } => {
            let key = key(alloc, taking.config, acl, sight)?;
            Ok(answered(answers.as_slice(), acl, class, key))
        }
    }
}

/// A match where it holds.
pub fn value_if(holds: bool) -> TermValue
    ensures { result ≡ value_if holds }
{
    if holds {
        TermValue::Hit
    } else {
        TermValue::Miss
    }
}

/// With `!` a match and a mismatch are exchanged; a fault and a need stay.
pub fn turned(negated: bool, value: TermValue) -> TermValue
    ensures { result ≡ turned negated value }
{
    match value {
        TermValue::Hit => value_if(!negated),
        TermValue::Miss => value_if(negated),
        TermValue::Fault { acl, cause } => TermValue::Fault { acl, cause },
        TermValue::Need { acl, key } => TermValue::Need { acl, key },
    }
}
