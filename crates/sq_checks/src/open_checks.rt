//! The open checks by number.
ghost use Rattle.std.specs.Prelude.{◌≡◌, ◌<◌, ◌++◌, ◌∷◌, [], ℕ, true, false, length, map, is_some, IfSome, IfOk, OnOk, OnErr, Some};
ghost use Rattle.std.specs.Option.{option_copied};
ghost use Rattle.sq_base.specs.Distinct.{has_answer};
ghost use Rattle.sq_lookup.specs.Waits.{has_check};
ghost use Rattle.sq_model.specs.CheckRows.{after_step, without_check};
ghost use Rattle.sq_machine.specs.Events.{is_number};
ghost use Rattle.sq_machine.specs.Rising.{Rises};
ghost use Rattle.sq_machine.specs.StepRule.{class_of_acl, says_done};
ghost use Rattle.sq_rules.specs.Keys.{key_text};
ghost use Rattle.sq_rules.specs.declared.values.Value.TheVariants as value;
ghost use Rattle.sq_checks.specs.Givens.{looks_over};
ghost use Rattle.sq_checks.specs.OpenChecks.{AllAre, HasCome, IsNoted, all_before, all_ended, change_at, ended_by, finished, looked, noted, row, rows_of, says_of, says_waits, settled, wait_at, waited, without_entry};
ghost use Rattle.sq_checks.specs.Stages.{is_idle, is_settled, question_in};
ghost use Rattle.sq_checks.specs.Tables.{value_at};

use crate::open_check::OpenCheck;
use sq_base::{Cause, CheckNo, Moment, QuestionNo, Steps, Text, WantOfMemory, What};
use sq_lookup::Checks;
use sq_model::StepEffect;
use sq_rules::{Outcome, Value};
use std::alloc::Global;
use std::collections::BTreeMap;
use std::marker::{Brand, Model};
use std::sync::ledger::{Blank, Ledger};

/// The open checks. A contract sees each number with its check, in the order of the numbers.
pub struct OpenChecks {
    map: BTreeMap<CheckNo, OpenCheck>,
}

// Written out, so that the drops of its parts are proved here alone, and not in each crate that lets checks go.
impl Drop for OpenChecks {
    fn drop(self) {
        let OpenChecks { map: _ } = self;
    }
}

impl Model for OpenChecks {
    ghost use Rattle.std.specs.Prelude.{List, ℕ};
    ghost use Rattle.sq_checks.specs.OpenChecks.{CheckParts};

    ghost Value = { List (ℕ × CheckParts) };

    ghost view = { λ c. c.map.entries };
}

impl OpenChecks {
    /// No check. It takes no memory.
    pub fn new(alloc: Global) -> OpenChecks
        ensures { result ≡ [] }
    {
        OpenChecks {
            map: BTreeMap::new(alloc),
        }
    }

    /// How many checks are open. Their numbers rise.
    pub fn len(&self) -> usize
        ensures value { result ≡ length self.now }
        ensures rise { Rises (map (λ h. h.number) (rows_of self.now)) }
    {
        self.map.len()
    }

    /// A check, where it is open.
    pub fn get(&self, check: CheckNo) -> Option<&OpenCheck>
        ensures { option_copied result ≡ value_at self.now check }
    {
        self.map.get(&check)
    }

    /// Puts a check that begins under a number above all that are open.
    pub fn begin(&mut self, number: CheckNo, check: OpenCheck) -> Result<(), WantOfMemory>
        requires { all_before number (rows_of self.old) ≡ true }
        ensures list { OnOk result (self.new ≡ self.old ++ (number, check) ∷ []) }
        ensures rows { OnOk result (rows_of self.new ≡ rows_of self.old ++ row number check ∷ []) }
        ensures err { OnErr result (self.new ≡ self.old) }
    {
        drop(self.map.insert(number, check)?);
        Ok(())
    }

    /// Puts the answer that came to a check among its others, if one did. As a row it stays as it is.
    pub fn settle(&mut self, alloc: Global, number: CheckNo) -> Result<(), WantOfMemory>
        ensures list { OnOk result (self.new ≡ change_at number settled self.old) }
        ensures rows { OnOk result (rows_of self.new ≡ rows_of self.old) }
        ensures err { OnErr result (self.new ≡ self.old) }
    {
        let Some(check) = self.map.get_mut(&number) else {
            return Ok(());
        };
        check.settle(alloc)?;
        Ok(())
    }

    // The same, by a counter that is opened here.
    fn come_on<L: Ledger>(
        &mut self,
        alloc: Global,
        number: CheckNo,
        blank: Blank,
    ) -> Result<Value, WantOfMemory>
        requires name { blank.name ≡ L.name }
        requires parts { blank.parts ≡ L.parts }
        requires whole { 0 < blank.parts }
        requires there { is_some (value_at self.old number) ≡ true }
        requires settled { IfSome (value_at self.old number) (λ c. is_settled c.stage ≡ true) }
        ensures list { (k : ℕ) × (self.new ≡ change_at number (looked k) self.old) }
        ensures rows { rows_of self.new ≡ rows_of self.old }
        ensures come { IfOk result (λ v. IfSome (value_at self.new number) (λ c. HasCome c v)) }
    {
        let mut steps = Steps::<L>::open(blank);
        match self.map.get_mut(&number) {
            Some(check) => check.come_to(alloc, &mut steps),
            None => unreachable!(),
        }
    }

    /// What a check comes to over its answers, from the place in its rules on to which it came before. As a row it
    /// stays as it is.
    pub fn come_to(&mut self, alloc: Global, number: CheckNo) -> Result<Value, WantOfMemory>
        requires there { is_some (value_at self.old number) ≡ true }
        requires settled { IfSome (value_at self.old number) (λ c. is_settled c.stage ≡ true) }
        ensures list { (k : ℕ) × (self.new ≡ change_at number (looked k) self.old) }
        ensures rows { rows_of self.new ≡ rows_of self.old }
        ensures come { IfOk result (λ v. IfSome (value_at self.new number) (λ c. HasCome c v)) }
    {
        self.come_on::<Brand>(alloc, number, Blank::new(1))
    }

    /// Takes what a step of a check says that asked for the external acl at this place, which is of this class and
    /// key, and up to which its rules were gone on with. It takes no memory.
    pub fn note(&mut self, number: CheckNo, said: StepEffect, acl: u32, class: u32, key: Text)
        requires there { is_some (value_at self.old number) ≡ true }
        requires idle { IfSome (value_at self.old number) (λ c. is_idle c.stage ≡ true) }
        requires said { IsNoted class key said }
        requires of_class { IfSome (value_at self.old number)
            (λ c. class_of_acl c.config.acls acl ≡ Some class) }
        requires of_key { IfSome (value_at self.old number)
            (λ c. key_text c.config acl c.sight ≡ key) }
        requires other { IfSome (value_at self.old number)
            (λ c. has_answer c.answers class key ≡ false) }
        requires looks { IfSome (value_at self.old number)
            (λ c. c.looks ≡ looks_over c.answers c.config c.sight) }
        ensures list { self.new ≡ change_at number (noted said class key) self.old }
        ensures rows { rows_of self.new ≡ after_step number (says_of said) (rows_of self.old) }
    {
        match self.map.get_mut(&number) {
            Some(check) => check.note(said, acl, class, key),
            None => unreachable!(),
        }
    }

    /// Counts a step of a check that waits, and waits on. It takes no memory.
    pub fn wait_on(&mut self, number: CheckNo)
        requires there { is_some (value_at self.old number) ≡ true }
        ensures list { self.new ≡ change_at number waited self.old }
        ensures rows { (q : ℕ)
            → IfSome (value_at self.old number) (λ c. question_in c.stage ≡ Some q)
            → rows_of self.new ≡ after_step number (says_waits q) (rows_of self.old) }
    {
        match self.map.get_mut(&number) {
            Some(check) => check.wait_on(),
            None => unreachable!(),
        }
    }

    /// Takes the verdict to which a step of a check came. It takes no memory.
    pub fn finish(&mut self, number: CheckNo, outcome: Outcome)
        requires there { is_some (value_at self.old number) ≡ true }
        requires settled { IfSome (value_at self.old number) (λ c. is_settled c.stage ≡ true) }
        requires verdict { IfSome (value_at self.old number)
            (λ c. HasCome c (value.Verdict outcome)) }
        ensures list { self.new ≡ change_at number (finished outcome) self.old }
        ensures rows { rows_of self.new ≡ after_step number says_done (rows_of self.old) }
    {
        match self.map.get_mut(&number) {
            Some(check) => check.finish(outcome),
            None => unreachable!(),
        }
    }

    /// Gives a check what a question ended with at a moment, where it waits for that one. It takes no memory.
    pub fn serve(&mut self, number: CheckNo, question: QuestionNo, what: What, now: Moment)
        ensures { self.new ≡ change_at number (ended_by question what now) self.old }
    {
        let Some(check) = self.map.get_mut(&number) else {
            return;
        };
        check.serve(question, what, now);
    }

    /// Ends a question by a fault: each check that waits for it, which are these, is given the fault. It takes
    /// no memory.
    pub fn fault(&mut self, question: QuestionNo, waiting: &Checks, cause: Cause, now: Moment)
        requires { (n : ℕ) → has_check n waiting.now ≡ is_number question (wait_at n self.old) }
        ensures { self.new ≡ all_ended question (What.Fault cause) now self.old }
    {
        // For the proof: the numbers ascend.
        let _len = self.map.len();
        for check in waiting.iter() {
            self.serve(*check, question, What::Fault(cause), now);
        }
    }

    /// Ends a question by an answer: each check that waits for it, which are these, is given the answer, of
    /// which there is a copy for each. It takes no memory.
    pub fn answer(
        &mut self,
        question: QuestionNo,
        waiting: &Checks,
        mut copies: Vec<What>,
        now: Moment,
    )
        requires waiting { (n : ℕ)
            → has_check n waiting.now ≡ is_number question (wait_at n self.old) }
        requires enough { length copies.items ≡ length waiting.now }
        ensures { (what : What) → AllAre what copies.items
            → self.new ≡ all_ended question what now self.old }
    {
        // For the proof: the numbers ascend.
        let _len = self.map.len();
        for check in waiting.iter() {
            match copies.pop() {
                Some(what) => self.serve(*check, question, what, now),
                None => unreachable!(),
            }
        }
    }

    /// Takes a check out. It takes no memory.
    pub fn remove(&mut self, number: CheckNo) -> Option<OpenCheck>
        ensures check { result ≡ value_at self.old number }
        ensures list { self.new ≡ without_entry number self.old }
        ensures rows { rows_of self.new ≡ without_check number (rows_of self.old) }
    {
        // For the proof: the numbers ascend.
        let _len = self.map.len();
        self.map.remove(&number)
    }
}
