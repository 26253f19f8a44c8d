//! The open lookups of one class.
ghost use Rattle.std.specs.Prelude.{◌≡◌, ◌==◌, ◌++◌, ◌∷◌, [], ℕ, not, true, false, is_some, filter, if◌then◌else◌, Some, None, OnOk, OnErr, IfOk, IfSome};
ghost use Rattle.sq_machine.specs.Events.{is_number};
ghost use Rattle.sq_machine.specs.OpenLookups.{pending_in, keys_once, is_open_lookup, with_lookup, all_below, question_of, waits_in};
ghost use Rattle.sq_lookup.specs.Index.{IsListed};
ghost use Rattle.sq_lookup.specs.Waits.{has_check, is_free};

use crate::checks::Checks;
use crate::keys::Keys;
use crate::rows::{Row, Rows};
use crate::waiters::Waiters;
use sq_base::{CheckNo, Copying, QuestionNo, Text, WantOfMemory};
use std::alloc::Global;
use std::marker::Model;

/// The questions of a class that have no answer yet, with their keys, and the checks that wait for them.
/// A contract sees questions and keys in the order of the questions, and for each check its question.
pub struct Lookups {
    keys: Keys,
    rows: Rows,
    waiters: Waiters,
}

impl Drop for Lookups {
    fn drop(self) {
        let Lookups {
            keys: _,
            rows: _,
            waiters: _,
        } = self;
    }
}

impl Model for Lookups {
    ghost use Rattle.sq_lookup.specs.Index.{OpenLookups, IsIndexed, rows_of};

    ghost Value = { OpenLookups };

    ghost view = { λ l. record { rows = rows_of l.rows; waiting = l.waiters } };

    ghost invariant = { λ l. IsIndexed l.keys l.rows l.waiters };
}

impl Lookups {
    /// No open lookup. It takes no memory.
    pub fn new(alloc: Global) -> Lookups
        ensures { result ≡ record { rows = []; waiting = [] } }
    {
        Lookups {
            keys: Keys::new(alloc),
            rows: Rows::new(alloc),
            waiters: Waiters::new(alloc),
        }
    }

    /// The question that is open for a key. It takes no memory.
    pub fn pending(&self, key: &Text) -> Option<QuestionNo>
        ensures question { result ≡ pending_in key.now self.now.rows }
        ensures once { keys_once self.now.rows ≡ true }
        // Nobody waits for a question that is not open.
        ensures alone { (q n : ℕ) → is_open_lookup q self.now.rows ≡ false
            → waits_in self.now.waiting q n ≡ false }
    {
        self.keys.question(key)
    }

    /// The question that a check waits for. It takes no memory.
    pub fn question(&self, check: CheckNo) -> Option<QuestionNo>
        ensures { result ≡ question_of check self.now.waiting }
    {
        self.waiters.question(check)
    }

    /// Opens the lookup of a key, for which the check waits; with no check it is a refresh.
    pub fn open(
        &mut self,
        alloc: Global,
        key: Text,
        question: QuestionNo,
        check: Option<CheckNo>,
    ) -> Result<(), WantOfMemory>
        requires key { pending_in key self.old.rows ≡ None }
        requires question { is_open_lookup question self.old.rows ≡ false }
        requires check { is_free check self.old.waiting ≡ true }
        ensures rows { OnOk result
            (self.new.rows ≡ with_lookup (record { question = question; key = key })
            self.old.rows) }
        ensures last { OnOk result
            (all_below question self.old.rows ≡ true
            → self.new.rows ≡ self.old.rows ++ record { question = question; key = key } ∷ []) }
        ensures waiting { OnOk result
            ((n : ℕ) → question_of n self.new.waiting
            ≡ (if is_number n check then Some question else question_of n self.old.waiting)) }
        ensures err { OnErr result (self.new ≡ self.old) }
    {
        let copy = key.copy(alloc)?;
        let checks = list_of(alloc, &check)?;
        self.waiters.put_some(&check, question)?;
        match self.keys.put(copy, question) {
            Ok(()) => {}
            Err(error) => {
                self.waiters.remove_some(&check);
                return Err(error);
            }
        }
        match self.rows.put(question, Row { key, checks }) {
            Ok(()) => Ok(()),
            Err(row) => {
                self.keys.remove(&row.key);
                self.waiters.remove_some(&check);
                Err(WantOfMemory)
            }
        }
    }

    /// Lets a check that waits for nothing wait for the open question of a key, and tells the question.
    pub fn join(&mut self, key: &Text, check: CheckNo) -> Result<QuestionNo, WantOfMemory>
        requires pending { is_some (pending_in key.now self.old.rows) ≡ true }
        requires check { question_of check self.old.waiting ≡ None }
        ensures question { IfOk result (λ q. pending_in key.now self.old.rows ≡ Some q) }
        ensures waiting { IfOk result
            (λ question. (n : ℕ) → question_of n self.new.waiting
            ≡ (if n == check then Some question else question_of n self.old.waiting)) }
        ensures rows { self.new.rows ≡ self.old.rows }
        ensures err { OnErr result (self.new ≡ self.old) }
    {
        let Some(question) = self.keys.question(key) else {
            unreachable!();
        };
        self.waiters.put(check, question)?;
        if self.rows.add(question, check).is_err() {
            self.waiters.remove(check);
            return Err(WantOfMemory);
        }
        Ok(question)
    }

    /// The key of an open question and the checks that wait for it, lent; none where it is not open. It takes
    /// no memory.
    pub fn waiting(&self, question: QuestionNo) -> Option<(&Text, &Checks)>
        ensures open { is_some result ≡ is_open_lookup question self.now.rows }
        ensures listed { IfSome result (λ p. IsListed self.now question p.0.now p.1.now) }
    {
        let row = self.rows.row(question)?;
        Some((&row.key, &row.checks))
    }

    /// Ends an open question, and hands its key out and the checks that waited for it; none where it is not
    /// open. It takes no memory.
    pub fn answered(&mut self, question: QuestionNo) -> Option<(Text, Checks)>
        ensures open { is_some result ≡ is_open_lookup question self.old.rows }
        ensures listed { IfSome result (λ p. IsListed self.old question p.0 p.1) }
        ensures rows { self.new.rows ≡ filter (λ l. not (question == l.question)) self.old.rows }
        ensures waiting { (n : ℕ)
            → question_of n self.new.waiting
            ≡ (if waits_in self.old.waiting question n then None
            else question_of n self.old.waiting) }
    {
        let Some(row) = self.rows.remove(question) else {
            return None;
        };
        self.keys.remove(&row.key);
        self.waiters.remove_all(&row.checks);
        Some((row.key, row.checks))
    }

    /// Takes a check away from the list in which it waits, if it waits. It takes no memory, and does not walk
    /// over the others.
    pub fn leave(&mut self, check: CheckNo)
        ensures rows { self.new.rows ≡ self.old.rows }
        ensures waiting { (n : ℕ)
            → question_of n self.new.waiting
            ≡ (if n == check then None else question_of n self.old.waiting) }
    {
        let Some(question) = self.waiters.question(check) else {
            return;
        };
        self.rows.drop_check(question, check);
        self.waiters.remove(check);
    }
}

// A list with a check, if there is one.
fn list_of(alloc: Global, check: &Option<CheckNo>) -> Result<Checks, WantOfMemory>
    ensures { IfOk result (λ c. (n : ℕ) → has_check n c ≡ is_number n check.now) }
{
    let mut checks = Checks::new(alloc);
    if let Some(check) = check {
        checks.add(*check)?;
    }
    Ok(checks)
}
