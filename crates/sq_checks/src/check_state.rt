//! The state of an open check.
ghost use Rattle.std.specs.Prelude.{◌≡◌, ◌+◌, ◌≤◌, ℕ, true, false, Some, IfOk, OnOk, OnErr, IfSome, is_some};
ghost use Rattle.std.specs.Arc.{arc_value};
ghost use Rattle.std.specs.Option.{option_copied};
ghost use Rattle.sq_base.specs.Distinct.{has_answer};
ghost use Rattle.sq_rules.specs.Facts.{facts_of};
ghost use Rattle.sq_machine.specs.StepRule.{class_of_acl};
ghost use Rattle.sq_rules.specs.Keys.{key_text};
ghost use Rattle.sq_rules.specs.Verdicts.{pool_of, verdict_over};
ghost use Rattle.sq_rules.specs.declared.values.Value.TheVariants as value;
ghost use Rattle.sq_checks.specs.Positions.{look_limit};
ghost use Rattle.sq_checks.specs.Givens.{leaves_over, looks_over};
ghost use Rattle.sq_checks.specs.OpenChecks.{HasCome, IsNoted, begun_parts, emptied, ended_by, finished, looked, noted, settled, step_more, waited};
ghost use Rattle.sq_checks.specs.Stages.{decided_in, is_idle, is_settled, need_in, question_in};

use crate::frames::Frames;
use crate::going::{come_to, give_asked, given_by};
use crate::slots::Slots;
use crate::stages::{CheckStage, Need, came, decided, ended, need_of, noted, question};
use sq_base::{Answers, ConnNo, EpochNo, Moment, QuestionNo, Steps, Text, WantOfMemory, What};
use sq_eval::pool_of;
use sq_machine::LAST_NUMBER;
use sq_model::StepEffect;
use sq_rules::{Config, Facts, Outcome, Sight, Value};
use std::alloc::Global;
use std::marker::Model;
use std::mem;
use std::sync::Arc;
use std::sync::ledger::Ledger;

/// The state of a check from its request to its outcome.
#[derive(Drop)]
pub(crate) struct CheckState {
    conn: ConnNo,
    epoch: EpochNo,
    config: Arc<Config>,
    sight: Sight,
    facts: Facts,
    frames: Frames,
    pool: Option<u32>,
    answers: Answers,
    stage: CheckStage,
    steps: u64,
    // The external acl for which it asked last.
    asks: Option<u32>,
}

impl Model for CheckState {
    ghost use Rattle.std.specs.Arc.{arc_value};
    ghost use Rattle.sq_checks.specs.Standing.{looks_in};
    ghost use Rattle.sq_checks.specs.OpenChecks.{CheckParts, IsCheck};

    ghost Value = { CheckParts };

    ghost view = { λ c. record {
      conn = c.conn;
      epoch = c.epoch;
      config = arc_value c.config;
      sight = c.sight;
      pool = c.pool;
      answers = c.answers;
      stage = c.stage;
      looks = looks_in c.frames;
      steps = c.steps;
    } };

    ghost invariant = { λ c. IsCheck
        (record {
          conn = c.conn;
          epoch = c.epoch;
          config = arc_value c.config;
          sight = c.sight;
          pool = c.pool;
          answers = c.answers;
          stage = c.stage;
          looks = looks_in c.frames;
          steps = c.steps;
        }) c.facts c.frames c.asks };
}

// A step more.
fn step_more(steps: u64) -> u64
    ensures { result ≡ step_more steps }
{
    if steps < LAST_NUMBER {
        steps + 1
    } else {
        LAST_NUMBER
    }
}

impl CheckState {
    /// The check that begins on a connection, in an epoch with its configuration, with what it sees and the
    /// facts of that. It takes the room in which its rules are gone on with, and the memory of its own in which it is made.
    #[inline(never)]
    pub(crate) fn new(
        alloc: Global,
        conn: ConnNo,
        epoch: EpochNo,
        slots: &Arc<Slots>,
        sight: Sight,
        facts: Facts,
    ) -> Result<Box<CheckState>, WantOfMemory>
        requires { facts ≡ facts_of (arc_value slots.now).acls sight }
        ensures { IfOk result (λ c. c.value ≡ begun_parts conn epoch (arc_value slots.now) sight) }
    {
        let config = Arc::try_clone(slots.config())?;
        let frames = Frames::start(alloc, slots)?;
        let pool = pool_of(&config, &facts, sight.addr);
        match Box::new(
            alloc,
            CheckState {
                conn,
                epoch,
                config,
                sight,
                facts,
                frames,
                pool,
                answers: Answers::new(alloc),
                stage: CheckStage::Ready,
                steps: 0,
                asks: None,
            },
        ) {
            Ok(state) => Ok(state),
            Err(_) => Err(WantOfMemory),
        }
    }

    /// The connection of its request.
    pub(crate) fn conn(&self) -> ConnNo
        ensures { result ≡ self.now.conn }
    {
        self.conn
    }

    /// The epoch in which it began.
    pub(crate) fn epoch(&self) -> EpochNo
        ensures { result ≡ self.now.epoch }
    {
        self.epoch
    }

    /// The configuration of its epoch.
    pub(crate) fn config(&self) -> &Arc<Config>
        ensures { arc_value result.now ≡ self.now.config }
    {
        &self.config
    }

    /// Whether each leaf of its configuration holds over what it sees.
    pub(crate) fn facts(&self) -> &Facts
        ensures { result.now ≡ facts_of self.now.config.acls self.now.sight }
    {
        &self.facts
    }

    /// The answers of helpers that it took, in their order.
    pub(crate) fn answers(&self) -> &Answers
        ensures { result.now ≡ self.now.answers }
    {
        &self.answers
    }

    /// Its delay pool, by its place from 0, if it has one.
    pub(crate) fn pool(&self) -> Option<u32>
        ensures value { result ≡ self.now.pool }
        ensures theirs { result ≡ pool_of self.now.config self.now.sight }
    {
        self.pool
    }

    /// How many facts were looked at in all its steps; 2^63 - 1 stands for more, too.
    pub(crate) fn looks(&self) -> u64
        ensures { result ≡ self.now.looks }
    {
        self.frames.looks()
    }

    /// How often it was stepped; 2^63 - 1 stands for more, too.
    pub(crate) fn steps(&self) -> u64
        ensures { result ≡ self.now.steps }
    {
        self.steps
    }

    /// What it sees.
    pub(crate) fn sight(&self) -> &Sight
        ensures { result.now ≡ self.now.sight }
    {
        &self.sight
    }

    /// The question that it waits for, if it waits.
    pub(crate) fn question(&self) -> Option<QuestionNo>
        ensures { result ≡ question_in self.now.stage }
    {
        question(&self.stage)
    }

    /// What it waits for, if it waits: the question, and the class and key that it is for, of which it has no
    /// answer. Then its rules were gone on with up to there: its looks are as many as the walk over its answers has
    /// leaf acls. No check has more than the greatest number of them.
    pub(crate) fn need(&self) -> Option<&Need>
        ensures value { option_copied result ≡ need_in self.now.stage }
        ensures other { IfSome (need_in self.now.stage)
            (λ n. has_answer self.now.answers n.class n.key ≡ false) }
        ensures looks { IfSome (need_in self.now.stage)
            (λ n. self.now.looks ≡ looks_over self.now.answers self.now.config self.now.sight) }
        ensures few { self.now.looks ≤ look_limit }
    {
        need_of(&self.stage)
    }

    /// The outcome, where a step said that it is done: the verdict of its configuration over what it sees and its
    /// answers.
    pub(crate) fn outcome(&self) -> Option<&Outcome>
        ensures value { option_copied result ≡ decided_in self.now.stage }
        ensures verdict { IfSome (decided_in self.now.stage)
            (λ o. verdict_over self.now.answers self.now.config self.now.sight ≡ value.Verdict o) }
    {
        decided(&self.stage)
    }

    /// Whether no answer is left that came and is not put among the others.
    pub(crate) fn is_settled(&self) -> bool
        ensures { result ≡ is_settled self.now.stage }
    {
        !matches!(self.stage, CheckStage::Came(_))
    }

    /// What it comes to over its answers: the verdict, or the need of an answer that it does not have. It goes on from
    /// the place in its rules to which it came before: its looks rise by as many as the counter, by no more than the
    /// walk over its answers has leaf acls, and then they are as many as that.
    pub(crate) fn come_to<L: Ledger>(
        &mut self,
        alloc: Global,
        steps: &mut Steps<L>,
    ) -> Result<Value, WantOfMemory>
        requires { is_settled self.old.stage ≡ true }
        ensures same { (k : ℕ)
            × (k ≤ leaves_over self.old.answers self.old.config self.old.sight)
            × (steps.new ≡ steps.old + k) × (self.new ≡ looked k self.old) }
        ensures come { IfOk result (HasCome self.new) }
    {
        come_to(
            alloc,
            &mut self.frames,
            &self.config,
            &self.facts,
            &self.sight,
            &self.answers,
            steps,
        )
    }

    /// Puts the answer that came among the others, if one did. It takes a copy, since a push that fails gives
    /// nothing back.
    // Where the rules stopped at the acl for which was asked, it is given the value of the answer, so that they go on
    // from there without its key. What it is given, no clause says.
    pub(crate) fn settle(&mut self, alloc: Global) -> Result<(), WantOfMemory>
        ensures ok { OnOk result (self.new ≡ settled self.old) }
        ensures err { OnErr result (self.new ≡ self.old) }
    {
        let Some(answer) = came(alloc, &self.stage)? else {
            return Ok(());
        };
        let value = given_by(&answer.what);
        self.answers.push(answer)?;
        self.stage = CheckStage::Ready;
        give_asked(&mut self.frames, self.asks, value);
        Ok(())
    }

    /// Takes what a step says that asked for the external acl at this place, which is of this class and key: the
    /// answer that it took has come, or the check waits for the question that it was told. Its rules must have been
    /// gone on with up to this need. It takes no memory.
    pub(crate) fn note(&mut self, said: StepEffect, acl: u32, class: u32, key: Text)
        requires idle { is_idle self.old.stage ≡ true }
        requires said { IsNoted class key said }
        requires of_class { class_of_acl self.old.config.acls acl ≡ Some class }
        requires of_key { key_text self.old.config acl self.old.sight ≡ key }
        requires other { has_answer self.old.answers class key ≡ false }
        requires looks { self.old.looks
            ≡ looks_over self.old.answers self.old.config self.old.sight }
        ensures { self.new ≡ noted said class key self.old }
    {
        let StepEffect {
            stepped,
            took,
            put: _,
        } = said;
        self.asks = Some(acl);
        self.stage = noted(took, stepped.question(), class, key);
        self.steps = step_more(self.steps);
    }

    /// Counts a step of a check that waits, and waits on. It takes no memory.
    pub(crate) fn wait_on(&mut self)
        ensures { self.new ≡ waited self.old }
    {
        self.steps = step_more(self.steps);
    }

    /// Takes the verdict to which a step came. It takes no memory.
    pub(crate) fn finish(&mut self, outcome: Outcome)
        requires settled { is_settled self.old.stage ≡ true }
        requires verdict { HasCome self.old (value.Verdict outcome) }
        ensures { self.new ≡ finished outcome self.old }
    {
        self.stage = CheckStage::Done(outcome);
        self.steps = step_more(self.steps);
    }

    /// Takes what a question ended with at a moment, where it waits for that one. It takes no memory.
    pub(crate) fn serve(&mut self, question: QuestionNo, what: What, now: Moment)
        ensures { self.new ≡ ended_by question what now self.old }
    {
        let stage = mem::replace(&mut self.stage, CheckStage::Ready);
        self.stage = ended(stage, question, what, now);
    }

    /// Takes the outcome out of a check that is done: the verdict of its configuration over what it sees and its answers, the walk of
    /// which has as many leaf acls as it has looks. It takes no memory.
    pub(crate) fn take_outcome(&mut self) -> Outcome
        requires { is_some (decided_in self.old.stage) ≡ true }
        ensures outcome { IfSome (decided_in self.old.stage) (λ o. result ≡ o) }
        ensures verdict { verdict_over self.old.answers self.old.config self.old.sight
            ≡ value.Verdict result }
        ensures looks { self.old.looks
            ≡ looks_over self.old.answers self.old.config self.old.sight }
        ensures left { self.new ≡ emptied self.old }
    {
        // For the proof: what its stage says.
        let _stage = self.outcome();
        match mem::replace(&mut self.stage, CheckStage::Ready) {
            CheckStage::Done(outcome) => outcome,
            _ => unreachable!(),
        }
    }
}
