//! The open lookups by question.
ghost use Rattle.std.specs.Prelude.{◌≡◌, ◌==◌, ◌&&◌, ◌||◌, not, true, [], ℕ, Some, None, filter, is_some, if◌then◌else◌, OnOk, OnErr, IfErr, IfNone};
ghost use Rattle.std.specs.Option.{option_copied};
ghost use Rattle.sq_machine.specs.OpenLookups.{with_lookup};
ghost use Rattle.sq_lookup.specs.Index.{row_at, rows_of, listed_in, without_row};
ghost use Rattle.sq_lookup.specs.Waits.{has_check};

use crate::checks::Checks;
use sq_base::{CheckNo, QuestionNo, Text, WantOfMemory};
use std::alloc::Global;
use std::collections::BTreeMap;
use std::marker::Model;

// An open lookup: its key, and the checks that wait for its question.
#[derive(Drop)]
pub(crate) struct Row {
    pub(crate) key: Text,
    pub(crate) checks: Checks,
}

// Open lookups by question.
#[derive(Drop)]
pub(crate) struct Rows {
    map: BTreeMap<QuestionNo, Row>,
}

impl Model for Rows {
    ghost use Rattle.std.specs.Prelude.{List, ℕ};
    ghost use Rattle.sq_lookup.specs.declared.rows.Row.{Row as OneRow};

    ghost Value = { List (ℕ × OneRow) };

    ghost view = { λ r. r.map.entries };
}

impl Rows {
    pub(crate) fn new(alloc: Global) -> Rows
        ensures { result ≡ [] }
    {
        Rows {
            map: BTreeMap::new(alloc),
        }
    }

    // The lookup of a question.
    pub(crate) fn row(&self, question: QuestionNo) -> Option<&Row>
        ensures { option_copied result ≡ row_at self.now question }
    {
        self.map.get(&question)
    }

    // Puts the lookup of a question that has none; it comes back where there is no memory.
    pub(crate) fn put(&mut self, question: QuestionNo, row: Row) -> Result<(), Row>
        requires { row_at self.old question ≡ None }
        ensures rows { OnOk result
            (rows_of self.new ≡ with_lookup (record { question = question; key = row.key })
            (rows_of self.old)) }
        ensures lists { OnOk result
            ((q n : ℕ) → listed_in self.new q n
            ≡ (if q == question then has_check n row.checks else listed_in self.old q n)) }
        ensures back { IfErr result (λ r. r ≡ row) }
        ensures err { OnErr result (self.new ≡ self.old) }
    {
        match self.map.insert(question, row) {
            Ok(_) => Ok(()),
            Err(failed) => Err(failed.value.1),
        }
    }

    // Takes the lookup of a question out.
    pub(crate) fn remove(&mut self, question: QuestionNo) -> Option<Row>
        ensures row { result ≡ row_at self.old question }
        ensures unchanged { IfNone result (self.new ≡ self.old) }
        ensures rows { rows_of self.new ≡ without_row question (rows_of self.old) }
        ensures others { rows_of self.new
            ≡ filter (λ l. not (question == l.question)) (rows_of self.old) }
        ensures lists { (q n : ℕ)
            → listed_in self.new q n ≡ (not (q == question) && listed_in self.old q n) }
    {
        // For the proof: the questions ascend.
        let _len = self.map.len();
        self.map.remove(&question)
    }

    // Puts a check into the list of an open question.
    pub(crate) fn add(&mut self, question: QuestionNo, check: CheckNo) -> Result<(), WantOfMemory>
        requires { is_some (row_at self.old question) ≡ true }
        ensures rows { rows_of self.new ≡ rows_of self.old }
        ensures lists { OnOk result
            ((q n : ℕ) → listed_in self.new q n
            ≡ ((q == question && n == check) || listed_in self.old q n)) }
        ensures err { OnErr result (self.new ≡ self.old) }
    {
        match self.map.get_mut(&question) {
            Some(row) => {
                row.checks.add(check)?;
                Ok(())
            }
            None => unreachable!(),
        }
    }

    // Takes a check out of the list of an open question.
    pub(crate) fn drop_check(&mut self, question: QuestionNo, check: CheckNo)
        requires { is_some (row_at self.old question) ≡ true }
        ensures rows { rows_of self.new ≡ rows_of self.old }
        ensures lists { (q n : ℕ)
            → listed_in self.new q n
            ≡ (not (q == question && n == check) && listed_in self.old q n) }
    {
        match self.map.get_mut(&question) {
            Some(row) => row.checks.remove(check),
            None => unreachable!(),
        }
    }
}
