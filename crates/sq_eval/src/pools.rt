//! The delay pool of a check.
ghost use Rattle.std.specs.Prelude.{◌≡◌, ◌<◌, List, true, false, length};
ghost use Rattle.sq_rules.specs.Configurations.{is_pool};
ghost use Rattle.sq_rules.specs.Facts.{facts_of};
ghost use Rattle.sq_rules.specs.Verdicts.{is_in_pool, is_passed_over, outcome_so_far, pool_from, pool_of};
ghost use Rattle.sq_rules.specs.declared.configs.Acl.{Acl};
ghost use Rattle.sq_rules.specs.declared.sights.Sight.{Sight};
ghost use Rattle.sq_eval.specs.Rans.{ran_value};
ghost use Rattle.sq_eval.specs.Takings.{acls_in, has_answers, taken_in};

use crate::rules::{RulesResult, first_rule};
use crate::taking::{EvalInputs, Helpers};
use sq_base::{Addr, Steps, WantOfMemory};
use sq_rules::{Config, Facts, Pool};
use std::marker::Brand;
use std::sync::ledger::{Blank, Ledger};

// Whether a client of this address passes over the pool: its buckets are by parts of IPv4 addresses.
fn is_passed_over(addr: Addr, pool: &Pool) -> bool
    ensures { result ≡ is_passed_over addr pool.now }
{
    addr.v6 && pool.class >= 2 && pool.class <= 3
}

// Whether rules came to a verdict that allows.
fn allows(ran: &RulesResult) -> bool
    ensures { (acls : List Acl) → result ≡ (outcome_so_far (ran_value acls ran.now)).allow }
{
    match ran {
        RulesResult::Rule { rule: _, allow } => *allow,
        RulesResult::Default { allow } => *allow,
        _ => false,
    }
}

// Whether the rules of a pool allow. Nobody is asked.
#[tactic(auto, using(crate::proofs::PoolLaws::pool_known))]
fn is_in_pool<L: Ledger>(taking: &EvalInputs, pool: &Pool, steps: &mut Steps<L>) -> bool
    requires facts { length taking.now.facts.now ≡ length taking.now.config.now.acls }
    requires pool { is_pool taking.now.config.now.acls pool.now ≡ true }
    requires nobody { has_answers taking.now.helpers ≡ false }
    ensures { result ≡ is_in_pool (taken_in taking.now) (acls_in taking.now) pool.now }
{
    match first_rule(taking, pool.lists.as_slice(), steps) {
        Ok(ran) => allows(&ran),
        Err(WantOfMemory) => unreachable!(),
    }
}

// The place of the first pool that is not passed over and whose rules allow.
fn first_pool<L: Ledger>(taking: &EvalInputs, addr: Addr, blank: Blank) -> Option<u32>
    requires name { blank.name ≡ L.name }
    requires parts { blank.parts ≡ L.parts }
    requires whole { 0 < blank.parts }
    requires facts { length taking.now.facts.now ≡ length taking.now.config.now.acls }
    requires nobody { has_answers taking.now.helpers ≡ false }
    ensures { result ≡ pool_from (taken_in taking.now) (acls_in taking.now) addr 0
        taking.now.config.now.pools }
{
    taking.config.facts();
    let mut steps = Steps::<L>::open(blank);
    let mut place = 0;
    for pool in taking.config.pools() {
        if !is_passed_over(addr, pool) && is_in_pool(taking, pool, &mut steps) {
            return Some(place);
        }
        place += 1;
    }
    None
}

/// The delay pool of a check whose client has this address, by its place from 0, if it has one. The facts
/// are those of the check. It takes no memory.
pub fn pool_of<'a>(config: &'a Config, facts: &'a Facts, addr: Addr) -> Option<u32>
    requires { length facts.now ≡ length config.now.acls }
    ensures { (s : Sight) → facts.now ≡ facts_of config.now.acls s → s.addr ≡ addr
        → result ≡ pool_of config.now s }
{
    config.facts();
    let taking = EvalInputs {
        config,
        facts,
        helpers: Helpers::Nobody,
    };
    first_pool::<Brand>(&taking, addr, Blank::new(1))
}
