//! The rules of a check, gone on with over the answers that it has.
ghost use Rattle.std.specs.Prelude.{◌≡◌, ◌<◌, ◌&&◌, ◌==◌, Bool, List, [], true, bytes_eq, slice_get, IfOk, IfSome, Some, None};
ghost use Rattle.std.specs.Option.{option_map};
ghost use Rattle.sq_base.specs.declared.helpers.Answer.{Answer};
ghost use Rattle.sq_rules.specs.Configurations.{Configuration};
ghost use Rattle.sq_rules.specs.declared.sights.Sight.{Sight};
ghost use Rattle.sq_rules.specs.Facts.{facts_of};
ghost use Rattle.sq_rules.specs.Values.{answer_for, taken_at};
ghost use Rattle.sq_rules.specs.Verdicts.{name_of, verdict_over};
ghost use Rattle.sq_rules.specs.declared.values.Value.TheVariants as value;
ghost use Rattle.sq_machine.specs.StepRule.{class_of_acl};
ghost use Rattle.sq_checks.specs.GivenValues.{given_value, ran_value, why_of};
ghost use Rattle.sq_checks.specs.Slots.{is_external_at};
ghost use Rattle.sq_checks.specs.Standing.{looks_in};
ghost use Rattle.sq_checks.specs.declared.answers.Ran.TheVariants as ran;
ghost use Rattle.sq_checks.specs.Givens.{found_value, given_by, leaves_over, looks_over, AreCounted, AreFrames};

use crate::answers::{Given, Place, Ran};
use crate::frames::Frames;
use sq_base::{Answer, Answers, Copying, Steps, Text, WantOfMemory, What};
use sq_format::key;
use sq_rules::{Acl, Body, Config, Facts, Outcome, Sight, Value, Why};
use std::alloc::Global;
use std::sync::ledger::Ledger;

/// What there is for an external acl that is needed: the value by its answer, or its key, for which there is none.
#[derive(Drop)]
pub enum Found {
    Answered(Given),
    Open(Text),
}

/// The class, by its place, that the external acl at a place asks, if there is one there.
pub fn class_of(config: &Config, acl: u32) -> Option<u32>
    ensures { result ≡ class_of_acl config.now.acls acl }
{
    match &config.acls().get(acl as usize)?.body {
        Body::External {
            class,
            arguments: _,
        } => Some(*class),
        _ => None,
    }
}

// Whether an answer is for this class and key.
fn is_for(answer: &Answer, class: u32, key: &Text) -> bool
    ensures { result ≡ (answer.now.class == class && bytes_eq answer.now.key key.now) }
{
    answer.class == class && answer.key == *key
}

/// What an external acl is given by an answer.
pub(crate) fn given_by(what: &What) -> Given
    ensures { result ≡ given_by what.now }
{
    match what {
        What::Yes(_) => Given::Hit,
        What::No(_) => Given::Miss,
        What::Fault(cause) => Given::Fault(*cause),
    }
}

// What is given by the answer for a class and key, if there is one.
fn answered(answers: &[Answer], class: u32, key: &Text) -> Option<Given>
    ensures { result ≡ option_map given_by (answer_for answers.now class key.now) }
{
    for answer in answers {
        if is_for(answer, class, key) {
            return Some(given_by(&answer.what));
        }
    }
    None
}

// What there is for an external acl that is needed. Its key is made once.
fn find(
    alloc: Global,
    config: &Config,
    sight: &Sight,
    answers: &Answers,
    acl: u32,
) -> Result<Found, WantOfMemory>
    requires { is_external_at config.now.acls acl ≡ true }
    ensures { IfOk result (λ f. found_value acl f ≡ taken_at config.now sight.now answers.now acl) }
{
    let Some(class) = class_of(config, acl) else {
        unreachable!();
    };
    let key = key(alloc, config, acl, sight)?;
    match answered(answers.as_slice(), class, &key) {
        Some(value) => Ok(Found::Answered(value)),
        None => Ok(Found::Open(key)),
    }
}

// The name of the acl at a place.
fn name_of(alloc: Global, acls: &[Acl], place: u32) -> Result<Text, WantOfMemory>
    ensures { IfOk result (λ n. n ≡ name_of (slice_get acls.now place)) }
{
    match acls.get(place as usize) {
        Some(acl) => acl.name.copy(alloc),
        None => Ok(Text::new(alloc)),
    }
}

// Why a run decided so, with the name of an acl that had a fault.
fn why_of(alloc: Global, acls: &[Acl], place: Place) -> Result<Why, WantOfMemory>
    ensures { IfOk result (λ w. w ≡ why_of acls.now place) }
{
    match place {
        Place::Rule(rule) => Ok(Why::Rule(rule)),
        Place::Default => Ok(Why::Default),
        Place::Empty => Ok(Why::Empty),
        Place::Fault { rule, acl, cause } => {
            let acl = name_of(alloc, acls, acl)?;
            Ok(Why::Fault { rule, acl, cause })
        }
    }
}

// The verdict that a run came to.
fn verdict(alloc: Global, acls: &[Acl], allow: bool, place: Place) -> Result<Value, WantOfMemory>
    ensures { IfOk result (λ v. v ≡ ran_value acls.now (ran.Verdict allow place)) }
{
    let why = why_of(alloc, acls, place)?;
    Ok(Value::Verdict(Outcome { allow, why }))
}

/// Gives frames the value of an answer, where they need the acl for which was asked. It takes no memory.
pub(crate) fn give_asked(frames: &mut Frames, asks: Option<u32>, value: Given)
    ensures looks { looks_in frames.new ≡ looks_in frames.old }
    ensures given { (config : Configuration) (sight : Sight) (answers : List Answer)
        (facts : List Bool) → AreFrames config sight answers facts frames.old
        → IfSome asks (λ acl. taken_at config sight answers acl ≡ given_value acl (Some value))
        → AreFrames config sight answers facts frames.new }
{
    let (Some(acl), Some(need)) = (asks, frames.need()) else {
        return;
    };
    if acl == need {
        frames.give(value);
    }
}

/// What the rules come to over the answers, from the place of the frames on: each external acl that is needed is
/// given the value of its answer, up to one for which there is none. Then all runs of the frames have looked as often as
/// the walk over the answers has leaf acls, and these runs as often as the counter rose, which is no more. It takes
/// memory for the key of each acl that is needed, and for the name of one with a fault.
pub fn come_to<L: Ledger>(
    alloc: Global,
    frames: &mut Frames,
    config: &Config,
    facts: &Facts,
    sight: &Sight,
    answers: &Answers,
    steps: &mut Steps<L>,
) -> Result<Value, WantOfMemory>
    requires facts { facts.now ≡ facts_of config.now.acls sight.now }
    requires frames { AreFrames config.now sight.now answers.now facts.now frames.old }
    ensures frames { AreFrames config.now sight.now answers.now facts.now frames.new }
    ensures value { IfOk result (λ v. v ≡ verdict_over answers.now config.now sight.now) }
    ensures looks { IfOk result
        (λ v. looks_in frames.new ≡ looks_over answers.now config.now sight.now) }
    ensures counted { AreCounted (leaves_over answers.now config.now sight.now) steps.old steps.new
        (looks_in frames.old) (looks_in frames.new) }
{
    'needs: loop {
        match frames.run(facts, steps) {
            Ran::Verdict { allow, place } => {
                return verdict(alloc, config.acls(), allow, place);
            }
            Ran::Need(acl) => match find(alloc, config, sight, answers, acl)? {
                Found::Answered(value) => frames.give(value),
                Found::Open(key) => return Ok(Value::Need { acl, key }),
            },
        }
    }
}
