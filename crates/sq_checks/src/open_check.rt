//! An open check.
ghost use Rattle.std.specs.Prelude.{◌≡◌, ◌+◌, ◌≤◌, ℕ, true, false, Some, IfOk, OnOk, OnErr, IfSome, is_some};
ghost use Rattle.std.specs.Arc.{arc_value};
ghost use Rattle.std.specs.Option.{option_copied};
ghost use Rattle.sq_base.specs.Distinct.{has_answer};
ghost use Rattle.sq_rules.specs.Facts.{facts_of};
ghost use Rattle.sq_machine.specs.StepRule.{class_of_acl};
ghost use Rattle.sq_rules.specs.Keys.{key_text};
ghost use Rattle.sq_rules.specs.Verdicts.{verdict_over};
ghost use Rattle.sq_rules.specs.declared.values.Value.TheVariants as value;
ghost use Rattle.sq_checks.specs.Positions.{look_limit};
ghost use Rattle.sq_checks.specs.Givens.{leaves_over, looks_over};
ghost use Rattle.sq_checks.specs.OpenChecks.{HasCome, IsNoted, begun_parts, ended_by, finished, looked, noted, settled, waited};
ghost use Rattle.sq_checks.specs.Records.{judged_of};
ghost use Rattle.sq_checks.specs.Stages.{decided_in, is_idle, is_settled, need_in, question_in};

use crate::check_state::CheckState;
use crate::records::Record;
use crate::slots::Slots;
use crate::stages::Need;
use sq_base::{CheckNo, ConnNo, EpochNo, Moment, QuestionNo, Steps, Text, WantOfMemory, What};
use sq_model::StepEffect;
use sq_rules::{Config, Facts, Outcome, Sight, Value};
use std::alloc::Global;
use std::marker::Model;
use std::sync::Arc;
use std::sync::ledger::Ledger;

/// A check from its request to its outcome. Its own number is its place among the open checks.
#[derive(Drop)]
pub struct OpenCheck {
    // In memory of its own, so that what hands a check on has room for its address alone on the stack.
    state: Box<CheckState>,
}

impl Model for OpenCheck {
    ghost use Rattle.sq_checks.specs.OpenChecks.{CheckParts};

    ghost Value = { CheckParts };

    ghost view = { λ c. c.state.value };
}

impl OpenCheck {
    /// The check that begins on a connection, in an epoch with its configuration, with what it sees and the
    /// facts of that. It takes the room in which its rules are gone on with.
    pub fn new(
        alloc: Global,
        conn: ConnNo,
        epoch: EpochNo,
        slots: &Arc<Slots>,
        sight: Sight,
        facts: Facts,
    ) -> Result<OpenCheck, WantOfMemory>
        requires { facts ≡ facts_of (arc_value slots.now).acls sight }
        ensures { IfOk result (λ c. c ≡ begun_parts conn epoch (arc_value slots.now) sight) }
    {
        let state = CheckState::new(alloc, conn, epoch, slots, sight, facts)?;
        Ok(OpenCheck { state })
    }

    /// The connection of its request.
    pub fn conn(&self) -> ConnNo
        ensures { result ≡ self.now.conn }
    {
        self.state.conn()
    }

    /// The epoch in which it began.
    pub fn epoch(&self) -> EpochNo
        ensures { result ≡ self.now.epoch }
    {
        self.state.epoch()
    }

    /// The configuration of its epoch.
    pub fn config(&self) -> &Arc<Config>
        ensures { arc_value result.now ≡ self.now.config }
    {
        self.state.config()
    }

    /// What it sees.
    pub fn sight(&self) -> &Sight
        ensures { result.now ≡ self.now.sight }
    {
        self.state.sight()
    }

    /// The question that it waits for, if it waits.
    pub fn question(&self) -> Option<QuestionNo>
        ensures { result ≡ question_in self.now.stage }
    {
        self.state.question()
    }

    /// What it waits for, if it waits: the question, and the class and key that it is for, of which it has no
    /// answer. Then its rules were gone on with up to there: its looks are as many as the walk over its answers has
    /// leaf acls. No check has more than the greatest number of them.
    pub fn need(&self) -> Option<&Need>
        ensures value { option_copied result ≡ need_in self.now.stage }
        ensures other { IfSome (need_in self.now.stage)
            (λ n. has_answer self.now.answers n.class n.key ≡ false) }
        ensures looks { IfSome (need_in self.now.stage)
            (λ n. self.now.looks ≡ looks_over self.now.answers self.now.config self.now.sight) }
        ensures few { self.now.looks ≤ look_limit }
    {
        self.state.need()
    }

    /// The outcome, where a step said that it is done: the verdict of its configuration over what it sees and its
    /// answers.
    pub fn outcome(&self) -> Option<&Outcome>
        ensures value { option_copied result ≡ decided_in self.now.stage }
        ensures verdict { IfSome (decided_in self.now.stage)
            (λ o. verdict_over self.now.answers self.now.config self.now.sight ≡ value.Verdict o) }
    {
        self.state.outcome()
    }

    /// Whether no answer is left that came and is not put among the others.
    pub fn is_settled(&self) -> bool
        ensures { result ≡ is_settled self.now.stage }
    {
        self.state.is_settled()
    }

    /// What it comes to over its answers: the verdict, or the need of an answer that it does not have. It goes on from
    /// the place in its rules to which it came before: its looks rise by as many as the counter, by no more than the
    /// walk over its answers has leaf acls, and then they are as many as that.
    pub fn come_to<L: Ledger>(
        &mut self,
        alloc: Global,
        steps: &mut Steps<L>,
    ) -> Result<Value, WantOfMemory>
        requires { is_settled self.old.stage ≡ true }
        ensures same { (k : ℕ)
            × (k ≤ leaves_over self.old.answers self.old.config self.old.sight)
            × (steps.new ≡ steps.old + k) × (self.new ≡ looked k self.old) }
        ensures come { IfOk result (HasCome self.new) }
    {
        self.state.come_to(alloc, steps)
    }

    /// Puts the answer that came among the others, if one did. It takes a copy, since a push that fails gives
    /// nothing back.
    pub fn settle(&mut self, alloc: Global) -> Result<(), WantOfMemory>
        ensures ok { OnOk result (self.new ≡ settled self.old) }
        ensures err { OnErr result (self.new ≡ self.old) }
    {
        self.state.settle(alloc)
    }

    /// Takes what a step says that asked for the external acl at this place, which is of this class and key: the
    /// answer that it took has come, or the check waits for the question that it was told. Its rules must have been
    /// gone on with up to this need. It takes no memory.
    pub fn note(&mut self, said: StepEffect, acl: u32, class: u32, key: Text)
        requires idle { is_idle self.old.stage ≡ true }
        requires said { IsNoted class key said }
        requires of_class { class_of_acl self.old.config.acls acl ≡ Some class }
        requires of_key { key_text self.old.config acl self.old.sight ≡ key }
        requires other { has_answer self.old.answers class key ≡ false }
        requires looks { self.old.looks
            ≡ looks_over self.old.answers self.old.config self.old.sight }
        ensures { self.new ≡ noted said class key self.old }
    {
        self.state.note(said, acl, class, key)
    }

    /// Counts a step of a check that waits, and waits on. It takes no memory.
    pub fn wait_on(&mut self)
        ensures { self.new ≡ waited self.old }
    {
        self.state.wait_on()
    }

    /// Takes the verdict to which a step came. It takes no memory.
    pub fn finish(&mut self, outcome: Outcome)
        requires settled { is_settled self.old.stage ≡ true }
        requires verdict { HasCome self.old (value.Verdict outcome) }
        ensures { self.new ≡ finished outcome self.old }
    {
        self.state.finish(outcome)
    }

    /// Takes what a question ended with at a moment, where it waits for that one. It takes no memory.
    pub fn serve(&mut self, question: QuestionNo, what: What, now: Moment)
        ensures { self.new ≡ ended_by question what now self.old }
    {
        self.state.serve(question, what, now)
    }

    /// What is left of it, under its number, when its outcome is taken. It takes no memory.
    pub fn into_record(self, check: CheckNo) -> Record
        requires { is_some (decided_in self.stage) ≡ true }
        ensures { IfSome (decided_in self.stage) (λ o. result ≡ judged_of check o self) }
    {
        let OpenCheck { state } = self;
        Record::new(check, state)
    }
}
