//! `Questions`: the questions that were asked and not taken.
ghost use Rattle.std.specs.Prelude.{◌≡◌, [], None, Some, is_some, if◌then◌else◌, OnOk, OnErr, IfSome, IfNone};
ghost use Rattle.std.specs.Option.{option_map};
ghost use Rattle.sq_rewrite.specs.declared.rows.QuestionRow.TheVariants as rows;
ghost use Rattle.sq_rewrite.specs.States.{ended_in, ended_row, row_at, taken_of, with_row, without_row};

use crate::rewritings::Rewriting;
use sq_base::{QuestionNo, Request, WantOfMemory};
use std::alloc::Global;
use std::collections::BTreeMap;
use std::marker::Model;

/// What is known of a question.
#[derive(Drop)]
pub enum QuestionRow {
    /// It is about this request, and has not ended.
    Open(Request),
    /// It came to this, which was not taken.
    Ended(Rewriting),
}

/// Questions by number.
#[derive(Drop)]
pub struct Questions {
    map: BTreeMap<QuestionNo, QuestionRow>,
}

impl Model for Questions {
    ghost use Rattle.sq_rewrite.specs.States.{Rows};

    ghost Value = { Rows };

    ghost view = { λ q. q.map.entries };
}

impl Questions {
    /// None. It takes no memory.
    pub fn new(alloc: Global) -> Questions
        ensures { result ≡ [] }
    {
        Questions {
            map: BTreeMap::new(alloc),
        }
    }

    /// Puts an open question, of a number that none has.
    pub fn put(&mut self, question: QuestionNo, request: Request) -> Result<(), WantOfMemory>
        requires { row_at question self.old ≡ None }
        ensures ok { OnOk result (self.new ≡ with_row question (rows.Open request) self.old) }
        // It can be taken out again.
        ensures undo { OnOk result (without_row question self.new ≡ self.old) }
        ensures err { OnErr result (self.new ≡ self.old) }
    {
        let _was = self.map.insert(question, QuestionRow::Open(request))?;
        Ok(())
    }

    /// What is known of a question, lent.
    pub fn row(&self, question: QuestionNo) -> Option<&QuestionRow>
        ensures { option_map (λ r. r.now) result ≡ row_at question self.now }
    {
        self.map.get(&question)
    }

    /// Ends a question, if it is there. It takes no memory.
    pub fn end(&mut self, question: QuestionNo, rewriting: Rewriting)
        ensures { self.new ≡ ended_row question rewriting self.old }
    {
        let Some(row) = self.map.get_mut(&question) else {
            return;
        };
        end_row(row, rewriting);
    }

    /// Takes a question out. It takes no memory.
    pub fn remove(&mut self, question: QuestionNo) -> Option<QuestionRow>
        ensures row { result ≡ row_at question self.old }
        ensures others { self.new ≡ without_row question self.old }
    {
        // For the proof: the questions ascend.
        let _len = self.map.len();
        self.map.remove(&question)
    }

    /// What a question came to, which is taken out then; `Some(None)` where it has not ended. It takes no memory.
    pub fn take(&mut self, question: QuestionNo) -> Option<Option<Rewriting>>
        ensures row { result ≡ option_map taken_of (row_at question self.old) }
        ensures taken { IfSome result
            (λ w. self.new ≡ (if is_some w then without_row question self.old else self.old)) }
        ensures none { IfNone result (self.new ≡ self.old) }
    {
        match self.row(question)? {
            QuestionRow::Open(_) => Some(None),
            QuestionRow::Ended(_) => Some(taken_of(self.remove(question))),
        }
    }
}

fn end_row(row: &mut QuestionRow, rewriting: Rewriting)
    ensures { row.new ≡ rows.Ended rewriting }
{
    *row = QuestionRow::Ended(rewriting);
}

fn taken_of(row: Option<QuestionRow>) -> Option<Rewriting>
    ensures { result ≡ ended_in row }
{
    match row {
        Some(QuestionRow::Ended(rewriting)) => Some(rewriting),
        Some(QuestionRow::Open(_)) => None,
        None => None,
    }
}
