//! Delay pools.
ghost use Rattle.std.specs.Prelude.{◌≡◌, ◌≤◌, ◌++◌, ◌∷◌, ◌<◌, [], true, is_some, length, Some, None, OnOk, OnErr};
ghost use Rattle.std.specs.Option.{option_map};
ghost use Rattle.sq_rules.specs.Configurations.{is_known_rule, is_pool_class, pairs_of, slow_ones};
ghost use Rattle.sq_rules.specs.Drafts.{is_fast, pool_at, with_pool, with_pools};
ghost use Rattle.sq_rules.specs.Limits.{pool_limit};

use crate::builder::Builder;
use crate::pools::new_pools;
use sq_base::WantOfMemory;
use sq_rules::{Limits, Rule};
use std::alloc::Global;

impl Builder {
    /// Whether `delay_pools` stands.
    pub fn is_counted(&self) -> bool
        ensures { result ≡ self.now.counted }
    {
        self.counted
    }

    /// Counts the pools, of which nothing is stated then.
    pub fn count_pools(&mut self, alloc: Global, count: u8) -> Result<(), WantOfMemory>
        requires { count ≤ pool_limit }
        ensures ok { OnOk result (self.new ≡ with_pools count self.old) }
        ensures err { OnErr result (self.new ≡ self.old) }
    {
        let pools = new_pools(alloc, count)?;
        self.counted = true;
        self.pools = pools;
        Ok(())
    }

    /// How many pools there are.
    pub fn pool_count(&self) -> u8
        ensures count { result ≡ length self.now.pools }
        ensures few { result ≤ pool_limit }
    {
        self.pools.len() as u8
    }

    /// The class of the pool at a place, from 0, where one stands.
    pub fn pool_class(&self, place: u8) -> Option<u8>
        requires { place < length self.now.pools }
        ensures { result ≡ (pool_at self.now.pools place).class }
    {
        self.pools[place as usize].class()
    }

    /// Whether the parameters of the pool at a place, from 0, stand.
    pub fn has_pairs(&self, place: u8) -> bool
        requires { place < length self.now.pools }
        ensures { result ≡ is_some (pool_at self.now.pools place).pairs }
    {
        self.pools[place as usize].has_pairs()
    }

    /// Sets the class of the pool at a place, from 0, which has none.
    pub fn set_class(&mut self, place: u8, class: u8)
        requires within { place < length self.old.pools }
        requires none { (pool_at self.old.pools place).class ≡ None }
        requires one { is_pool_class class ≡ true }
        ensures { self.new ≡ with_pool place (λ p. record p { class = Some class }) self.old }
    {
        self.pools[place as usize].set_class(class);
    }

    /// Sets the parameters of the pool at a place, from 0: as many as its class has.
    pub fn set_pairs(&mut self, place: u8, pairs: Limits)
        requires within { place < length self.old.pools }
        requires class { option_map pairs_of (pool_at self.old.pools place).class
            ≡ Some (length pairs) }
        ensures { self.new ≡ with_pool place (λ p. record p { pairs = Some pairs }) self.old }
    {
        self.pools[place as usize].set_pairs(pairs);
    }

    /// One rule more of the pool at a place, from 0, whose terms name acls that stand and are not slow.
    pub fn push_pool_rule(&mut self, place: u8, rule: Rule) -> Result<(), WantOfMemory>
        requires within { place < length self.old.pools }
        requires known { is_known_rule (length self.old.acls) rule ≡ true }
        requires fast { is_fast (slow_ones self.old.acls) rule ≡ true }
        ensures ok { OnOk result
            (self.new ≡ with_pool place (λ p. record p { lists = p.lists ++ rule ∷ [] }) self.old) }
        ensures err { OnErr result (self.new ≡ self.old) }
    {
        self.pools[place as usize].push_rule(rule)
    }
}
