//! Checks whose outcomes were taken.
ghost use Rattle.std.specs.Prelude.{◌≡◌, true, IfSome, is_some};
ghost use Rattle.std.specs.Arc.{arc_value};
ghost use Rattle.sq_rules.specs.Facts.{facts_of};
ghost use Rattle.sq_rules.specs.Verdicts.{pool_of, verdict_over};
ghost use Rattle.sq_rules.specs.declared.values.Value.TheVariants as value;
ghost use Rattle.sq_checks.specs.Givens.{looks_over};
ghost use Rattle.sq_checks.specs.Records.{judged_of};
ghost use Rattle.sq_checks.specs.Stages.{decided_in};

use crate::check_state::CheckState;
use sq_base::{Answers, CheckNo, EpochNo};
use sq_rules::{Config, Facts, Outcome, Sight};
use std::marker::Model;
use std::sync::Arc;

/// A check that is over, with the facts of what it saw. Its outcome is the verdict of its configuration over that
/// and its answers.
pub struct Record {
    check: CheckNo,
    outcome: Outcome,
    // What is left of the check, without its outcome.
    state: Box<CheckState>,
}

// Written out, so that the drops of its parts are proved here alone, and not in each crate that lets a record go.
impl Drop for Record {
    fn drop(self) {
        let Record {
            check: _,
            outcome: _,
            state: _,
        } = self;
    }
}

impl Model for Record {
    ghost use Rattle.sq_checks.specs.Records.{IsJudged, Judged, judged_of};
    ghost use Rattle.sq_rules.specs.Facts.{facts_of};

    ghost Value = { Judged };

    ghost view = { λ r. judged_of r.check r.outcome r.state.value };

    ghost invariant = { λ r. IsJudged (judged_of r.check r.outcome r.state.value)
        (facts_of r.state.value.config.acls r.state.value.sight) };
}

impl Record {
    ghost use Rattle.sq_checks.specs.Records.{takes_client};

    /// The record of a check that is done, under its number. It takes no memory.
    pub(crate) fn new(check: CheckNo, state: Box<CheckState>) -> Record
        requires { is_some (decided_in state.value.stage) ≡ true }
        ensures { IfSome (decided_in state.value.stage)
            (λ o. result ≡ judged_of check o state.value) }
    {
        let mut state = state;
        // For the proof: its pool is that of what it saw.
        let _pool = state.pool();
        let outcome = state.take_outcome();
        Record {
            check,
            outcome,
            state,
        }
    }

    /// Its number.
    pub fn check(&self) -> CheckNo
        ensures { result ≡ self.now.check }
    {
        self.check
    }

    /// The epoch in which it began.
    pub fn epoch(&self) -> EpochNo
        ensures { result ≡ self.now.epoch }
    {
        self.state.epoch()
    }

    /// The configuration of its epoch.
    pub fn config(&self) -> &Arc<Config>
        ensures { arc_value result.now ≡ self.now.config }
    {
        self.state.config()
    }

    /// What it saw.
    pub fn sight(&self) -> &Sight
        ensures { result.now ≡ self.now.sight }
    {
        self.state.sight()
    }

    /// Whether each leaf of its configuration held over what it saw.
    pub fn facts(&self) -> &Facts
        ensures { result.now ≡ facts_of self.now.config.acls self.now.sight }
    {
        self.state.facts()
    }

    /// The answers of helpers that it took, in their order.
    pub fn answers(&self) -> &Answers
        ensures { result.now ≡ self.now.answers }
    {
        self.state.answers()
    }

    /// What it came to.
    pub fn outcome(&self) -> &Outcome
        ensures value { result.now ≡ self.now.outcome }
        ensures verdict { verdict_over self.now.answers self.now.config self.now.sight
            ≡ value.Verdict self.now.outcome }
    {
        &self.outcome
    }

    /// Its delay pool, by its place from 0, if it has one.
    pub fn pool(&self) -> Option<u32>
        ensures value { result ≡ self.now.pool }
        ensures theirs { result ≡ pool_of self.now.config self.now.sight }
        ensures takes { IfSome result
            (λ p. takes_client self.now.config.pools self.now.sight.addr p ≡ true) }
    {
        self.state.pool()
    }

    /// How many facts were looked at in all its steps: as many as the walk of its verdict has leaf acls, each place
    /// counted once; 2^63 - 1 stands for more, too.
    pub fn looks(&self) -> u64
        ensures value { result ≡ self.now.looks }
        ensures walk { result ≡ looks_over self.now.answers self.now.config self.now.sight }
    {
        self.state.looks()
    }

    /// How often it was stepped; 2^63 - 1 stands for more, too.
    pub fn steps(&self) -> u64
        ensures { result ≡ self.now.steps }
    {
        self.state.steps()
    }
}
