//! The questions for whose answers sessions wait.
ghost use Rattle.std.specs.Prelude.{◌≡◌, ◌<◌, [], vec_len, vec_capacity, OnOk};
ghost use Rattle.sq_shared.specs.Waking.{after_line, after_step, is_awaited, with_question, without_question};

use sq_base::{QuestionNo, WantOfMemory};
use sq_calls::DeskFault;
use sq_channel::Got;
use sq_model::Stepped;
use std::alloc::Global;

/// The questions for which sessions were told to wait, each once, and whose answers have not come since.
#[derive(Drop)]
pub(crate) struct Awaited {
    questions: Vec<QuestionNo>,
}

impl Awaited {
    // None is awaited yet.
    pub(crate) fn new(alloc: Global) -> Awaited
        ensures { result.questions.items ≡ [] }
    {
        Awaited {
            questions: Vec::new(alloc),
        }
    }

    // Whether this question is awaited.
    pub(crate) fn has(&self, question: QuestionNo) -> bool
        ensures { result ≡ is_awaited question self.now.questions.items }
    {
        self.questions.contains(&question)
    }

    // Makes room for one more.
    pub(crate) fn reserve(&mut self) -> Result<(), WantOfMemory>
        ensures room { OnOk result (vec_len self.new.questions < vec_capacity self.new.questions) }
        ensures same { self.new.questions.items ≡ self.old.questions.items }
    {
        self.questions.reserve(1)?;
        Ok(())
    }

    // A question is awaited from here on. It takes no memory.
    fn put(&mut self, question: QuestionNo)
        requires { vec_len self.old.questions < vec_capacity self.old.questions }
        ensures { self.new.questions.items ≡ with_question question self.old.questions.items }
    {
        if !self.has(question) {
            self.questions.push_reserved(question);
        }
    }

    // A question was answered.
    fn remove(&mut self, question: QuestionNo)
        ensures { self.new.questions.items ≡ without_question question self.old.questions.items }
    {
        self.questions.retain(|awaited| *awaited != question);
    }

    // Any question may have been answered: who waits has to look again.
    pub(crate) fn clear(&mut self)
        ensures { self.new.questions.items ≡ [] }
    {
        self.questions.clear();
    }

    // A step came to this: where it said to wait, its question is awaited. It takes no memory.
    pub(crate) fn begin(&mut self, gave: &Result<Stepped, DeskFault>)
        requires { vec_len self.old.questions < vec_capacity self.old.questions }
        ensures { self.new.questions.items ≡ after_step gave.now self.old.questions.items }
    {
        match gave {
            Ok(Stepped::Waits(question)) => self.put(*question),
            Ok(Stepped::Took(_)) | Ok(Stepped::Done) | Err(_) => {}
        }
    }

    // A line of a process came to this: a reply to a question, or the end of the process, which may end any.
    pub(crate) fn end(&mut self, gave: &Result<Got, DeskFault>)
        ensures { self.new.questions.items ≡ after_line gave.now self.old.questions.items }
    {
        match gave {
            Ok(Got::Reply(question, _)) => self.remove(*question),
            Ok(Got::Bad) | Ok(Got::Stray) => self.clear(),
            Err(_) => {}
        }
    }
}
