//! How far an open check has come.
ghost use Rattle.std.specs.Prelude.{◌≡◌, Some, IfOk};
ghost use Rattle.std.specs.Option.{option_copied};
ghost use Rattle.sq_checks.specs.Stages.{came_in, decided_in, ended_stage, given, need_in, noted_stage, question_in};

use sq_base::{Answer, Copying, Moment, QuestionNo, Text, WantOfMemory, What};
use sq_model::Stepped;
use sq_rules::Outcome;
use std::alloc::Global;

/// What a check waits for: the question, and the class, by its place, and key that it is for.
#[derive(Drop)]
pub struct Need {
    pub question: QuestionNo,
    pub class: u32,
    pub key: Text,
}

/// How far a check has come.
#[derive(Drop)]
pub enum CheckStage {
    /// It can be evaluated.
    Ready,
    /// An answer came that is not put among the others yet, which takes memory.
    Came(Answer),
    /// It waits for an answer.
    Waits(Need),
    /// A step of it said that it is done.
    Done(Outcome),
}

// The answer that the end of a question gives to a need.
fn given(need: Need, what: What, now: Moment) -> Answer
    ensures { result ≡ given what now need }
{
    Answer {
        class: need.class,
        key: need.key,
        what,
        question: Some(need.question),
        date: now,
        taken: now,
    }
}

/// The stage after the end of a question: a check that waits for it is given what it ended with.
pub(crate) fn ended(stage: CheckStage, question: QuestionNo, what: What, now: Moment) -> CheckStage
    ensures { result ≡ ended_stage question what now stage }
{
    match stage {
        CheckStage::Waits(need) => {
            if need.question == question {
                CheckStage::Came(given(need, what, now))
            } else {
                CheckStage::Waits(need)
            }
        }
        other => other,
    }
}

/// The stage after a step that asked for this key of the class at this place, and took an answer or said to
/// wait for a question.
pub(crate) fn noted(
    took: Option<Answer>,
    told: Option<QuestionNo>,
    class: u32,
    key: Text,
) -> CheckStage
    ensures { result ≡ noted_stage took told class key }
{
    match took {
        Some(answer) => CheckStage::Came(answer),
        None => match told {
            Some(question) => CheckStage::Waits(Need {
                question,
                class,
                key,
            }),
            None => CheckStage::Ready,
        },
    }
}

/// A copy of the answer that came, if one did.
pub(crate) fn came(alloc: Global, stage: &CheckStage) -> Result<Option<Answer>, WantOfMemory>
    ensures { IfOk result (λ a. a ≡ came_in stage.now) }
{
    match stage {
        CheckStage::Came(answer) => {
            let copy = answer.copy(alloc)?;
            Ok(Some(copy))
        }
        _ => Ok(None),
    }
}

/// The question that is waited for, if one is.
pub(crate) fn question(stage: &CheckStage) -> Option<QuestionNo>
    ensures { result ≡ question_in stage.now }
{
    match stage {
        CheckStage::Waits(need) => Some(need.question),
        _ => None,
    }
}

/// What is waited for, if something is.
pub(crate) fn need_of(stage: &CheckStage) -> Option<&Need>
    ensures { option_copied result ≡ need_in stage.now }
{
    match stage {
        CheckStage::Waits(need) => Some(need),
        _ => None,
    }
}

/// The outcome, where the check is done.
pub(crate) fn decided(stage: &CheckStage) -> Option<&Outcome>
    ensures { option_copied result ≡ decided_in stage.now }
{
    match stage {
        CheckStage::Done(outcome) => Some(outcome),
        _ => None,
    }
}
