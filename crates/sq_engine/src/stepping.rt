//! A check goes on.
ghost use Rattle.std.specs.Prelude.{◌≡◌, ◌<◌, ◌^◌, suc, if◌then◌else◌, ℕ, max, true, false, is_some, slice_get, IfSome, IfOk, OnOk, OnErr, Some, None};
ghost use Rattle.sq_base.specs.Distinct.{has_answer};
ghost use Rattle.sq_machine.specs.Machine.{step_next};
ghost use Rattle.sq_machine.specs.declared.entries.Event.TheVariants as event;
ghost use Rattle.sq_machine.specs.StepRule.{class_of_acl, says_done};
ghost use Rattle.sq_rules.specs.Keys.{key_text};
ghost use Rattle.sq_rules.specs.declared.values.Value.TheVariants as value;
ghost use Rattle.sq_model.specs.CheckRows.{after_step};
ghost use Rattle.sq_model.specs.declared.stepping.Stepped.TheVariants as stepped;
ghost use Rattle.sq_checks.specs.Givens.{looks_over};
ghost use Rattle.sq_checks.specs.OpenChecks.{HasCome, change_at, looked, rows_of, says_waits, settled};
ghost use Rattle.sq_checks.specs.Stages.{is_idle, is_settled, need_in, question_in};
ghost use Rattle.sq_checks.specs.Tables.{value_at};
ghost use Rattle.sq_epochs.specs.EpochStates.{part_at};
ghost use Rattle.sq_model.specs.Changes.{after_step_of};
ghost use Rattle.sq_model.specs.Says.{says_place_in};
ghost use Rattle.sq_model.specs.States.{IsSame};
ghost use Rattle.sq_engine.specs.Begun.{AreKept, AreKeptBut};
ghost use Rattle.sq_engine.specs.EngineViews.{state_of};
ghost use Rattle.sq_engine.specs.Promised.{IsPromised};
ghost use Rattle.sq_engine.specs.Stepping.{NeedsAcl, after_step_now, epoch_of, step_now, stepped_told};
ghost use Rattle.sq_engine.specs.Tellings.{IsTold};

use crate::engines::Engine;
use sq_base::{CheckNo, EpochNo, Moment, QuestionNo, Text, WantOfMemory};
use sq_checks::class_of;
use sq_class::ResolveFault;
use sq_machine::{Refusal, later};
use sq_model::Stepped;
use sq_rules::{Config, Outcome, Value};
use std::alloc::Global;

// The class that an acl asks whose answer is needed.
fn needed_class(config: &Config, acl: u32) -> u32
    requires { NeedsAcl config.now acl }
    ensures class { class_of_acl config.now.acls acl ≡ Some result }
    ensures there { is_some (slice_get config.now.classes result) ≡ true }
{
    config.facts();
    match class_of(config, acl) {
        Some(class) => class,
        None => unreachable!(),
    }
}

// How many questions were put, with one that is put.
fn puts_after(puts: u64, put: bool) -> u64
    requires { puts < 2 ^ 63 }
    ensures { result ≡ (if put then suc puts else puts) }
{
    if put { puts + 1 } else { puts }
}

impl Engine {
    // A step of a check that waits for this question. It takes no memory.
    fn wait_on(&mut self, check: CheckNo, question: QuestionNo, moment: Moment) -> Stepped
        requires there { is_some (value_at self.old.checks check) ≡ true }
        requires waits { IfSome (value_at self.old.checks check)
            (λ k. question_in k.stage ≡ Some question) }
        ensures told { result ≡ stepped.Waits question }
        ensures value { self.new ≡ record self.old { checks = self.new.checks; latest = moment } }
        ensures rows { rows_of self.new.checks
            ≡ after_step check (says_waits question) (rows_of self.old.checks) }
        ensures kept { AreKept self.old.checks self.new.checks }
    {
        self.checks.wait_on(check);
        self.latest = moment;
        Stepped::Waits(question)
    }

    // Puts the answer that came to a check among its others, if one did.
    fn settle(&mut self, alloc: Global, check: CheckNo) -> Result<(), WantOfMemory>
        ensures value { self.new ≡ record self.old { checks = self.new.checks } }
        ensures ok { OnOk result (self.new.checks ≡ change_at check settled self.old.checks) }
        ensures rows { rows_of self.new.checks ≡ rows_of self.old.checks }
        ensures kept { AreKept self.old.checks self.new.checks }
    {
        self.checks.settle(alloc, check)
    }

    // A step of a check that has come to this verdict.
    fn decide(&mut self, check: CheckNo, outcome: Outcome, moment: Moment)
        requires there { is_some (value_at self.old.checks check) ≡ true }
        requires settled { IfSome (value_at self.old.checks check)
            (λ k. is_settled k.stage ≡ true) }
        requires idle { IfSome (value_at self.old.checks check) (λ k. need_in k.stage ≡ None) }
        requires verdict { IfSome (value_at self.old.checks check)
            (λ k. HasCome k (value.Verdict outcome)) }
        ensures value { self.new ≡ record self.old { checks = self.new.checks; latest = moment } }
        ensures rows { rows_of self.new.checks
            ≡ after_step check says_done (rows_of self.old.checks) }
        ensures kept { AreKept self.old.checks self.new.checks }
    {
        self.checks.finish(check, outcome);
        self.latest = moment;
    }

    // A step of a check that needs the answer of the external acl at this place, which is of this key of the class at
    // this place of its epoch, and looked at as many facts as the walk over its answers has leaf acls.
    fn resolve(
        &mut self,
        alloc: Global,
        check: CheckNo,
        epoch: EpochNo,
        acl: u32,
        class: u32,
        key: Text,
        moment: Moment,
    ) -> Result<Stepped, Refusal>
        requires there { is_some (value_at self.old.checks check) ≡ true }
        requires part { is_some (part_at self.old.epochs epoch class) ≡ true }
        requires of_epoch { IfSome (value_at self.old.checks check) (λ k. k.epoch ≡ epoch) }
        requires idle { IfSome (value_at self.old.checks check) (λ k. is_idle k.stage ≡ true) }
        requires needs_none { IfSome (value_at self.old.checks check)
            (λ k. need_in k.stage ≡ None) }
        requires of_class { IfSome (value_at self.old.checks check)
            (λ k. class_of_acl k.config.acls acl ≡ Some class) }
        requires of_key { IfSome (value_at self.old.checks check)
            (λ k. key_text k.config acl k.sight ≡ key) }
        requires other { IfSome (value_at self.old.checks check)
            (λ k. has_answer k.answers class key ≡ false) }
        requires looks { IfSome (value_at self.old.checks check)
            (λ k. k.looks ≡ looks_over k.answers k.config k.sight) }
        ensures told { IsTold (stepped_told (state_of self.old) epoch)
            (step_next self.old.puts
            (says_place_in (state_of self.old) moment epoch key (Some class))) result }
        ensures ok { OnOk result
            (IsSame (state_of self.new)
            (after_step_of check epoch
            (says_place_in (state_of self.old) moment epoch key (Some class)) moment
            (state_of self.old))) }
        ensures err { OnErr result (IsSame (state_of self.new) (state_of self.old)) }
        ensures kept { AreKept self.old.checks self.new.checks }
    {
        let said = match self
            .epochs
            .resolve(alloc, epoch, class, &key, moment, check, self.puts)
        {
            Ok(said) => said,
            Err(ResolveFault::Spent) => return Err(Refusal::Spent(self.puts + 1)),
            Err(ResolveFault::WantOfMemory) => return Err(Refusal::WantOfMemory),
        };
        let stepped = said.stepped;
        self.puts = puts_after(self.puts, said.put);
        self.checks.note(check, said, acl, class, key);
        self.latest = moment;
        Ok(stepped)
    }

    // What a check comes to over its answers, from the place in its rules on to which it came before.
    fn come_to(&mut self, alloc: Global, check: CheckNo) -> Result<Value, WantOfMemory>
        requires there { is_some (value_at self.old.checks check) ≡ true }
        requires settled { IfSome (value_at self.old.checks check)
            (λ k. is_settled k.stage ≡ true) }
        ensures value { self.new ≡ record self.old { checks = self.new.checks } }
        ensures list { (k : ℕ)
            × (self.new.checks ≡ change_at check (looked k) self.old.checks) }
        ensures rows { rows_of self.new.checks ≡ rows_of self.old.checks }
        ensures come { IfOk result
            (λ v. IfSome (value_at self.new.checks check) (λ k. HasCome k v)) }
        ensures kept { AreKeptBut check self.old.checks self.new.checks }
    {
        self.checks.come_to(alloc, check)
    }

    // A step of a check that waits for nothing, and came to this.
    fn go_on(
        &mut self,
        alloc: Global,
        check: CheckNo,
        value: Value,
        moment: Moment,
    ) -> Result<Stepped, Refusal>
        requires there { is_some (value_at self.old.checks check) ≡ true }
        requires settled { IfSome (value_at self.old.checks check)
            (λ k. is_settled k.stage ≡ true) }
        requires idle { IfSome (value_at self.old.checks check) (λ k. need_in k.stage ≡ None) }
        requires come { IfSome (value_at self.old.checks check) (λ k. HasCome k value) }
        ensures told { IsTold (stepped_told (state_of self.old)
            (epoch_of (state_of self.old) check)) (step_now (state_of self.old) check moment)
            result }
        ensures ok { OnOk result
            (IsSame (state_of self.new) (after_step_now (state_of self.old) check moment)) }
        ensures err { OnErr result (IsSame (state_of self.new) (state_of self.old)) }
        ensures kept { AreKept self.old.checks self.new.checks }
    {
        let Some(open) = self.checks.get(check) else {
            unreachable!();
        };
        let epoch = open.epoch();
        match value {
            Value::Verdict(outcome) => {
                self.decide(check, outcome, moment);
                Ok(Stepped::Done)
            }
            Value::Need { acl, key } => {
                let class = needed_class(open.config(), acl);
                self.resolve(alloc, check, epoch, acl, class, key, moment)
            }
        }
    }

    // A step of a check, by the state alone.
    fn step_on(&mut self, alloc: Global, check: CheckNo, now: Moment) -> Result<Stepped, Refusal>
        ensures told { IsTold (stepped_told (state_of self.old)
            (epoch_of (state_of self.old) check))
            (step_now (state_of self.old) check (max now self.old.latest)) result }
        ensures ok { OnOk result
            (IsSame (state_of self.new)
            (after_step_now (state_of self.old) check (max now self.old.latest))) }
        ensures err { OnErr result (IsSame (state_of self.new) (state_of self.old)) }
        ensures unknown { value_at self.old.checks check ≡ None → self.new ≡ self.old }
        ensures kept { AreKeptBut check self.old.checks self.new.checks }
    {
        let moment = later(now, self.latest);
        let Some(open) = self.checks.get(check) else {
            return Err(Refusal::UnknownCheck(check));
        };
        if let Some(need) = open.need() {
            let question = need.question;
            return Ok(self.wait_on(check, question, moment));
        }
        match self.settle(alloc, check) {
            Ok(()) => {}
            Err(WantOfMemory) => return Err(Refusal::WantOfMemory),
        }
        let value = match self.come_to(alloc, check) {
            Ok(value) => value,
            Err(WantOfMemory) => return Err(Refusal::WantOfMemory),
        };
        self.go_on(alloc, check, value, moment)
    }

    /// A check goes on: it takes an answer, waits for one, or has its outcome. A step of a check that is not open
    /// changes nothing.
    pub fn step(&mut self, alloc: Global, check: CheckNo, now: Moment) -> Result<Stepped, Refusal>
        ensures told { IsTold (stepped_told (state_of self.old)
            (epoch_of (state_of self.old) check))
            (step_now (state_of self.old) check (max now self.old.latest)) result }
        ensures ok { OnOk result
            (IsSame (state_of self.new)
            (after_step_now (state_of self.old) check (max now self.old.latest))) }
        ensures err { OnErr result (IsSame (state_of self.new) (state_of self.old)) }
        ensures unknown { value_at self.old.checks check ≡ None → self.new ≡ self.old }
        ensures kept { AreKeptBut check self.old.checks self.new.checks }
        ensures promised { IsPromised
            (stepped_told (state_of self.old) (epoch_of (state_of self.old) check))
            (state_of self.old) (max now self.old.latest) (event.Step check) result
            (state_of self.new) }
    {
        self.step_on(alloc, check, now)
    }
}
