//! The question that each check waits for.
ghost use Rattle.std.specs.Prelude.{◌≡◌, ◌==◌, [], ℕ, true, Some, None, if◌then◌else◌, OnOk, OnErr};
ghost use Rattle.sq_machine.specs.OpenLookups.{question_of};
ghost use Rattle.sq_lookup.specs.Waits.{has_check, is_free, without_waiting, without_some};
ghost use Rattle.sq_machine.specs.Events.{is_number};

use crate::checks::Checks;
use sq_base::{CheckNo, QuestionNo, WantOfMemory};
use std::alloc::Global;
use std::collections::BTreeMap;
use std::marker::Model;

// Questions by check.
#[derive(Drop)]
pub(crate) struct Waiters {
    map: BTreeMap<CheckNo, QuestionNo>,
}

impl Model for Waiters {
    ghost use Rattle.sq_machine.specs.OpenLookups.{WaitingChecks};

    ghost Value = { WaitingChecks };

    ghost view = { λ w. w.map.entries };
}

impl Waiters {
    pub(crate) fn new(alloc: Global) -> Waiters
        ensures { result ≡ [] }
    {
        Waiters {
            map: BTreeMap::new(alloc),
        }
    }

    // The question that a check waits for.
    pub(crate) fn question(&self, check: CheckNo) -> Option<QuestionNo>
        ensures { result ≡ question_of check self.now }
    {
        self.map.get(&check).copied()
    }

    // Lets a check wait that waits for nothing.
    pub(crate) fn put(&mut self, check: CheckNo, question: QuestionNo) -> Result<(), WantOfMemory>
        requires { question_of check self.old ≡ None }
        ensures ok { OnOk result
            ((n : ℕ) → question_of n self.new
            ≡ (if n == check then Some question else question_of n self.old)) }
        ensures undo { OnOk result (without_waiting check self.new ≡ self.old) }
        ensures err { OnErr result (self.new ≡ self.old) }
    {
        let _was = self.map.insert(check, question)?;
        Ok(())
    }

    // Takes a check away.
    pub(crate) fn remove(&mut self, check: CheckNo)
        ensures list { self.new ≡ without_waiting check self.old }
        ensures question { (n : ℕ)
            → question_of n self.new ≡ (if n == check then None else question_of n self.old) }
    {
        let _was = self.map.remove(&check);
    }

    // Lets a check wait, if there is one, that waits for nothing.
    pub(crate) fn put_some(
        &mut self,
        check: &Option<CheckNo>,
        question: QuestionNo,
    ) -> Result<(), WantOfMemory>
        requires { is_free check.now self.old ≡ true }
        ensures ok { OnOk result
            ((n : ℕ) → question_of n self.new
            ≡ (if is_number n check.now then Some question else question_of n self.old)) }
        ensures undo { OnOk result (without_some check.now self.new ≡ self.old) }
        ensures err { OnErr result (self.new ≡ self.old) }
    {
        match check {
            Some(check) => self.put(*check, question),
            None => Ok(()),
        }
    }

    // Takes a check away, if there is one.
    pub(crate) fn remove_some(&mut self, check: &Option<CheckNo>)
        ensures { self.new ≡ without_some check.now self.old }
    {
        if let Some(check) = check {
            self.remove(*check);
        }
    }

    // Takes these checks away.
    pub(crate) fn remove_all(&mut self, checks: &Checks)
        ensures { (n : ℕ) → question_of n self.new
            ≡ (if has_check n checks.now then None else question_of n self.old) }
    {
        for check in checks.iter() {
            self.remove(*check);
        }
    }
}
