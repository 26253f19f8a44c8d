//! The rule of a step on the class that it asks.
ghost use Rattle.std.specs.Prelude.{◌≡◌, ◌≤◌, ◌<◌, ◌^◌, ◌&&◌, ℕ, List, suc, true, false, Some, None, if◌then◌else◌, IfOk, OnOk, OnErr, IsErrOf};
ghost use Rattle.sq_lookup.specs.Waits.{is_free};
ghost use Rattle.sq_machine.specs.Events.{is_number};
ghost use Rattle.sq_machine.specs.Farms.{full};
ghost use Rattle.sq_machine.specs.KeptLists.{is_fault};
ghost use Rattle.sq_machine.specs.Limits.{last_number};
ghost use Rattle.sq_machine.specs.OpenLookups.{all_below, pending_in, question_of};
ghost use Rattle.sq_machine.specs.StepRule.{says_fault};
ghost use Rattle.sq_model.specs.ClassRows.{with_question};
ghost use Rattle.sq_model.specs.StepRows.{said_of, says_of_row};
ghost use Rattle.sq_class.specs.Parts.{IsAsBefore};
ghost use Rattle.sq_class.specs.Steps.{IsSpent, IsStepped, may_put, says_open, says_taken};

use crate::faults::ResolveFault;
use crate::parts::Part;
use sq_base::{Answer, Cause, CheckNo, Copying, Moment, QuestionNo, Text, WantOfMemory, What};
use sq_cache::Taken;
use sq_machine::LAST_NUMBER;
use sq_model::{StepEffect, Stepped};
use sq_rules::Class;
use std::alloc::Global;

// Bytes of a key.
const KEY_LIMIT: usize = 8192;

// A fault is taken, for which no question stands.
fn fault(
    alloc: Global,
    place: u32,
    key: &Text,
    cause: Cause,
    now: Moment,
) -> Result<StepEffect, WantOfMemory>
    ensures { IfOk result
        (λ s. (e : ℕ) (name : List ℕ)
        → s ≡ said_of place (says_fault name (record { epoch = e; class = place; key = key.now })
        cause now)) }
{
    let key = key.copy(alloc)?;
    Ok(StepEffect {
        stepped: Stepped::Took(place),
        took: Some(Answer {
            class: place,
            key,
            what: What::Fault(cause),
            question: None,
            date: now,
            taken: now,
        }),
        put: false,
    })
}

impl Part {
    // Opens the lookup of a key that has none, for which the check waits, and queues its question.
    fn put(
        &mut self,
        alloc: Global,
        key: &Text,
        count: u64,
        check: Option<CheckNo>,
    ) -> Result<QuestionNo, ResolveFault>
        requires key { pending_in key.now self.old.row.lookups ≡ None }
        requires room { full self.old.row.stock ≡ false }
        requires counted { all_below (suc count) self.old.row.lookups ≡ true }
        requires few { count < 2 ^ 63 }
        requires check { is_free check self.old.waiting ≡ true }
        ensures spent { IsErrOf result ResolveFault.Spent → last_number ≤ suc count }
        ensures fits { OnOk result (suc count < last_number) }
        ensures question { IfOk result (λ q. q ≡ suc count) }
        ensures row { OnOk result (self.new.row ≡ with_question (suc count) key.now self.old.row) }
        ensures waiting { OnOk result
            ((n : ℕ) → question_of n self.new.waiting
            ≡ (if is_number n check then Some (suc count) else question_of n self.old.waiting)) }
        ensures limit { self.new.limit ≡ self.old.limit }
        ensures err { OnErr result (IsAsBefore self.old self.new) }
    {
        let number = count + 1;
        if number >= LAST_NUMBER {
            return Err(ResolveFault::Spent);
        }
        let question = QuestionNo(number);
        let text = key.copy(alloc)?;
        let name = key.copy(alloc)?;
        // For the proof: nobody waits for a question that is not open.
        let _none = self.lookups.pending(key);
        self.lookups.open(alloc, name, question, check)?;
        match self.farm.put(question, text) {
            Ok(()) => Ok(question),
            Err(_) => {
                let _ = self.lookups.answered(question);
                Err(ResolveFault::WantOfMemory)
            }
        }
    }

    // Whether a question may be put for a key: none is open, and the queue has room.
    fn may_put(&self, key: &Text) -> bool
        ensures { result ≡ may_put key.now self.now.row }
    {
        self.lookups.pending(key).is_none() && !self.farm.is_full()
    }

    // Puts the refresh of a key where it is due and may be put, and tells whether it did.
    fn refresh(
        &mut self,
        alloc: Global,
        key: &Text,
        count: u64,
        due: bool,
    ) -> Result<bool, ResolveFault>
        requires counted { all_below (suc count) self.old.row.lookups ≡ true }
        requires few { count < 2 ^ 63 }
        ensures spent { IsErrOf result ResolveFault.Spent
            → ((due && may_put key.now self.old.row) ≡ true) × (last_number ≤ suc count) }
        ensures put { IfOk result (λ b. b ≡ (due && may_put key.now self.old.row)) }
        ensures fits { IfOk result (λ b. b ≡ true → suc count < last_number) }
        ensures row { IfOk result
            (λ b. self.new.row ≡ (if b then with_question (suc count) key.now self.old.row
            else self.old.row)) }
        ensures waiting { (n : ℕ)
            → question_of n self.new.waiting ≡ question_of n self.old.waiting }
        ensures limit { self.new.limit ≡ self.old.limit }
        ensures err { OnErr result (IsAsBefore self.old self.new) }
    {
        if !due || !self.may_put(key) {
            return Ok(false);
        }
        self.put(alloc, key, count, None)?;
        Ok(true)
    }

    // Takes a fresh verdict, and puts its refresh where that is due and may be put.
    fn take(
        &mut self,
        alloc: Global,
        place: u32,
        key: &Text,
        now: Moment,
        count: u64,
        taken: Taken,
    ) -> Result<StepEffect, ResolveFault>
        requires answer { is_fault taken.what ≡ false }
        requires counted { all_below (suc count) self.old.row.lookups ≡ true }
        requires few { count < 2 ^ 63 }
        ensures spent { IsErrOf result ResolveFault.Spent → (e : ℕ) (name : List ℕ)
            → IsSpent count (says_taken name (record { epoch = e; class = place; key = key.now })
            now taken self.old.row) }
        ensures ok { IfOk result
            (λ s. (e check : ℕ) (name : List ℕ) → question_of check self.old.waiting ≡ None
            → IsStepped place count check
            (says_taken name (record { epoch = e; class = place; key = key.now }) now taken
            self.old.row) s self.old self.new) }
        ensures err { OnErr result (IsAsBefore self.old self.new) }
    {
        let name = key.copy(alloc)?;
        let put = self.refresh(alloc, key, count, taken.refresh)?;
        self.kept.promote(key);
        Ok(StepEffect {
            stepped: Stepped::Took(place),
            took: Some(Answer {
                class: place,
                key: name,
                what: taken.what,
                question: Some(taken.question),
                date: taken.date,
                taken: now,
            }),
            put,
        })
    }

    // Lets a check wait for the open question of a key, or for one that is put where there is room.
    fn ask(
        &mut self,
        alloc: Global,
        place: u32,
        key: &Text,
        now: Moment,
        check: CheckNo,
        count: u64,
    ) -> Result<StepEffect, ResolveFault>
        requires free { question_of check self.old.waiting ≡ None }
        requires counted { all_below (suc count) self.old.row.lookups ≡ true }
        requires few { count < 2 ^ 63 }
        ensures spent { IsErrOf result ResolveFault.Spent → (e : ℕ) (name : List ℕ)
            → IsSpent count (says_open name (record { epoch = e; class = place; key = key.now }) now
            count self.old.row) }
        ensures ok { IfOk result
            (λ s. (e : ℕ) (name : List ℕ)
            → IsStepped place count check
            (says_open name (record { epoch = e; class = place; key = key.now }) now count
            self.old.row) s self.old self.new) }
        ensures err { OnErr result (IsAsBefore self.old self.new) }
    {
        if self.lookups.pending(key).is_some() {
            let question = self.lookups.join(key, check)?;
            return Ok(StepEffect {
                stepped: Stepped::Waits(question),
                took: None,
                put: false,
            });
        }
        if self.farm.is_full() {
            let said = fault(alloc, place, key, Cause::QueueFull, now)?;
            return Ok(said);
        }
        let question = self.put(alloc, key, count, Some(check))?;
        Ok(StepEffect {
            stepped: Stepped::Waits(question),
            took: None,
            put: true,
        })
    }

    /// A step of a check that waits for nothing and needs the answer of a key of this class, which stands at this
    /// place of its configuration, where so many questions were put in all. A question that is put gets the next
    /// number; it is refused where that would be 2^63 - 1, unless memory is wanting before.
    pub fn resolve(
        &mut self,
        alloc: Global,
        class: &Class,
        place: u32,
        key: &Text,
        now: Moment,
        check: CheckNo,
        count: u64,
    ) -> Result<StepEffect, ResolveFault>
        requires free { question_of check self.old.waiting ≡ None }
        requires counted { all_below (suc count) self.old.row.lookups ≡ true }
        requires few { count < 2 ^ 63 }
        ensures spent { IsErrOf result ResolveFault.Spent → (e : ℕ)
            → IsSpent count (says_of_row class.now e place key.now now count self.old.row) }
        ensures ok { IfOk result
            (λ s. (e : ℕ) → IsStepped place count check
            (says_of_row class.now e place key.now now count self.old.row) s self.old self.new) }
        ensures err { OnErr result (IsAsBefore self.old self.new) }
    {
        if key.len() > KEY_LIMIT {
            let said = fault(alloc, place, key, Cause::KeyTooLong, now)?;
            return Ok(said);
        }
        let found = self.kept.peek(alloc, key, class, now)?;
        match found {
            Some(taken) => self.take(alloc, place, key, now, count, taken),
            None => self.ask(alloc, place, key, now, check, count),
        }
    }
}
