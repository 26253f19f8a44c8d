//! What a step of a check says.

ghost use Rattle.std.specs.Prelude.{◌≡◌};
ghost use Rattle.sq_model.specs.StepRows.{question_told};

use sq_base::{Answer, QuestionNo};

/// The answer of a step.
#[derive(Clone, Copy)]
pub enum Stepped {
    /// An answer, or a fault in place of one, was taken: of the class at this place.
    Took(u32),
    /// The check waits for this question.
    Waits(QuestionNo),
    /// No answer is missing: the outcome can be taken.
    Done,
}

impl Stepped {
    /// The question that the check was told to wait for, if it was.
    pub fn question(self) -> Option<QuestionNo>
        ensures { result ≡ question_told self }
    {
        match self {
            Stepped::Waits(question) => Some(question),
            Stepped::Took(_class) => None,
            Stepped::Done => None,
        }
    }
}

/// What a step says: its answer, what the check takes, and whether a question is put.
#[derive(Drop)]
pub struct StepEffect {
    pub stepped: Stepped,
    pub took: Option<Answer>,
    pub put: bool,
}
