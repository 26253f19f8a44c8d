//! Delay pools under way, and whether their rules and those for fields are fast.
ghost use Rattle.std.specs.Prelude.{◌≡◌, ◌++◌, ◌∷◌, [], cond, true, false, is_some, map, replicate, slice_index_or, Some, None, IfOk, IfErr, OnOk, OnErr};
ghost use Rattle.std.specs.List.{list_all};
ghost use Rattle.sq_conf.specs.Sound.{stay_fast};
ghost use Rattle.sq_rules.specs.Configurations.{some_slow};
ghost use Rattle.sq_rules.specs.Drafts.{are_complete, are_fast_where, is_complete, is_fast, no_pool, pool_of_draft};

use crate::draft_faults::FinishFault;
use sq_base::{Listed, WantOfMemory};
use sq_rules::{HeaderRule, Limits, Pool, PoolList, Rule, Rules, Term};
use std::alloc::Global;
use std::marker::Model;

/// A delay pool as far as it is stated.
#[derive(Drop)]
pub struct StatedPool {
    class: Option<u8>,
    pairs: Option<Limits>,
    lists: Rules,
}

impl Model for StatedPool {
    ghost use Rattle.sq_rules.specs.Drafts.{PoolDraft};

    ghost Value = { PoolDraft };

    ghost view = { λ p. record { class = p.class; pairs = p.pairs; lists = p.lists } };
}

impl StatedPool {
    /// A pool of which nothing is stated.
    pub fn new(alloc: Global) -> StatedPool
        ensures { result ≡ no_pool }
    {
        StatedPool {
            class: None,
            pairs: None,
            lists: Listed::new(alloc),
        }
    }

    /// Its class, where one stands.
    pub fn class(&self) -> Option<u8>
        ensures { result ≡ self.now.class }
    {
        self.class
    }

    /// Whether its parameters stand.
    pub fn has_pairs(&self) -> bool
        ensures { result ≡ is_some self.now.pairs }
    {
        self.pairs.is_some()
    }

    /// Whether each of its rules names acls that are not slow, where these flags say which are.
    pub fn is_fast(&self, slow: &[bool]) -> bool
        ensures { result ≡ list_all (is_fast slow.now) self.now.lists }
    {
        are_fast_rules(slow, self.lists.as_slice())
    }

    /// Sets its class.
    pub fn set_class(&mut self, class: u8)
        ensures { self.new ≡ record self.old { class = Some class } }
    {
        self.class = Some(class);
    }

    /// Sets its parameters.
    pub fn set_pairs(&mut self, pairs: Limits)
        ensures { self.new ≡ record self.old { pairs = Some pairs } }
    {
        self.pairs = Some(pairs);
    }

    /// Puts a rule at the end.
    pub fn push_rule(&mut self, rule: Rule) -> Result<(), WantOfMemory>
        ensures ok { OnOk result
            (self.new ≡ record self.old { lists = self.old.lists ++ rule ∷ [] }) }
        ensures err { OnErr result (self.new ≡ self.old) }
    {
        self.lists.push(rule)
    }

    /// The pool, where it is complete.
    pub fn into_pool(self) -> Option<Pool>
        ensures { result ≡ cond (is_complete self) (Some (pool_of_draft self)) None }
    {
        match (self.class, self.pairs) {
            (Some(class), Some(pairs)) => Some(Pool {
                class,
                pairs,
                lists: self.lists,
            }),
            _ => None,
        }
    }
}

fn is_slow_at(slow: &[bool], term: Term) -> bool
    ensures { result ≡ slice_index_or slow.now term.acl false }
{
    match slow.get(term.acl as usize) {
        Some(slow) => *slow,
        None => false,
    }
}

fn some_slow(slow: &[bool], terms: &[Term]) -> bool
    ensures { result ≡ some_slow slow.now terms.now }
{
    terms.iter().any(|term| is_slow_at(slow, *term))
}

fn are_fast_rules(slow: &[bool], rules: &[Rule]) -> bool
    ensures { result ≡ list_all (is_fast slow.now) rules.now }
{
    for rule in rules {
        if some_slow(slow, rule.terms.as_slice()) {
            return false;
        }
    }
    true
}

fn are_fast_pools(slow: &[bool], pools: &[StatedPool]) -> bool
    ensures { result ≡ list_all (λ p. list_all (is_fast slow.now) p.lists) pools.now }
{
    for pool in pools {
        if !pool.is_fast(slow) {
            return false;
        }
    }
    true
}

fn are_fast_headers(slow: &[bool], headers: &[HeaderRule]) -> bool
    ensures { result ≡ list_all (λ h. is_fast slow.now h.rule) headers.now }
{
    for header in headers {
        if some_slow(slow, header.rule.terms.as_slice()) {
            return false;
        }
    }
    true
}

fn are_fast_where(slow: &[bool], pools: &[StatedPool], headers: &[HeaderRule]) -> bool
    ensures { result ≡ are_fast_where slow.now pools.now headers.now }
{
    are_fast_pools(slow, pools) && are_fast_headers(slow, headers)
}

/// Whether no rule of a pool or for a field names a slow acl, where these are slow, or the same as before.
pub fn stay_fast(slow: &Option<Listed<bool>>, pools: &[StatedPool], headers: &[HeaderRule]) -> bool
    ensures { result ≡ stay_fast slow.now pools.now headers.now }
{
    match slow {
        None => true,
        Some(slow) => are_fast_where(slow.as_slice(), pools, headers),
    }
}

/// So many pools of which nothing is stated.
pub fn new_pools(alloc: Global, count: u8) -> Result<Vec<StatedPool>, WantOfMemory>
    ensures { IfOk result (λ pools. pools.items ≡ replicate count no_pool) }
{
    let mut pools = Vec::with_capacity(alloc, count as usize)?;
    for _place in 0..count {
        pools.push(StatedPool::new(alloc))?;
    }
    Ok(pools)
}

/// The pools, where each is complete.
pub fn complete_pools(alloc: Global, stated: Vec<StatedPool>) -> Result<PoolList, FinishFault>
    ensures ok { IfOk result (λ pools. pools ≡ map pool_of_draft stated.items) }
    ensures complete { IfOk result (λ _. are_complete stated.items ≡ true) }
    ensures incomplete { IfErr result
        (λ e. e ≡ FinishFault.Incomplete → are_complete stated.items ≡ false) }
{
    let mut pools = Listed::new(alloc);
    for pool in stated {
        match pool.into_pool() {
            None => return Err(FinishFault::Incomplete),
            Some(pool) => pools.push(pool)?,
        }
    }
    Ok(pools)
}
