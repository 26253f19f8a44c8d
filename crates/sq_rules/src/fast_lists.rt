//! Delay pools and rules for fields over the acls of a configuration: their rules name no acl that asks a helper.
ghost use Rattle.std.specs.Prelude.{◌≡◌, ◌≤◌, ◌<◌, ◌∷◌, [], true, false, length, IfOk, slice_index_or};
ghost use Rattle.std.specs.List.{list_all};
ghost use Rattle.sq_rules.specs.Building.{each_made, fast_rule_made, fast_term_made, header_made, pool_made, pools_made, IsMade};
ghost use Rattle.sq_rules.specs.Configurations.{are_known, has_buckets, is_fast_rule, is_header, is_lower, is_pool, is_pool_class, pairs_of, slow_ones, some_slow};
ghost use Rattle.sq_rules.specs.Limits.{pool_limit};

use crate::acl_table::AclTable;
use crate::configs::{Rule, Rules, Term, Terms};
use crate::headers::{HeaderRule, HeaderRules, lowered};
use crate::parts::{
    BuildFault, HeaderPart, HeaderParts, PoolPart, PoolParts, RulePart, RuleParts, TermPart,
    TermParts,
};
use crate::pools::{Pool, PoolList};
use sq_base::Listed;
use std::alloc::Global;

fn fast_term_of(acls: &AclTable, part: TermPart) -> Result<Term, BuildFault>
    ensures made { IsMade result (fast_term_made acls.now part) }
    ensures known { IfOk result (λ t. are_known (length acls.now) (t ∷ []) ≡ true) }
    ensures fast { IfOk result (λ t. slice_index_or (slow_ones acls.now) t.acl false ≡ false) }
{
    match acls.place(&part.acl) {
        None => Err(BuildFault::UndefinedAcl(part.acl)),
        Some(acl) => {
            if acls.is_slow(acl) {
                return Err(BuildFault::SlowInFastList(part.acl));
            }
            Ok(Term {
                acl,
                negated: part.negated,
            })
        }
    }
}

#[tactic(auto, using(crate::proofs::MadeLaws::made_first))]
fn fast_terms_of(alloc: Global, acls: &AclTable, parts: TermParts) -> Result<Terms, BuildFault>
    ensures made { IsMade result (each_made (fast_term_made acls.now) parts) }
    ensures known { IfOk result (λ terms. are_known (length acls.now) terms ≡ true) }
    ensures fast { IfOk result (λ terms. some_slow (slow_ones acls.now) terms ≡ false) }
{
    let mut terms = Listed::new(alloc);
    for part in parts.into_vec() {
        let term = fast_term_of(acls, part)?;
        terms.push(term)?;
    }
    Ok(terms)
}

fn fast_rule_of(alloc: Global, acls: &AclTable, part: RulePart) -> Result<Rule, BuildFault>
    ensures made { IsMade result (fast_rule_made acls.now part) }
    ensures fast { IfOk result (λ r. is_fast_rule acls.now r ≡ true) }
{
    let terms = fast_terms_of(alloc, acls, part.terms)?;
    Ok(Rule {
        allow: part.allow,
        terms,
    })
}

#[tactic(auto, using(crate::proofs::MadeLaws::made_first))]
fn fast_rules_of(alloc: Global, acls: &AclTable, parts: RuleParts) -> Result<Rules, BuildFault>
    ensures made { IsMade result (each_made (fast_rule_made acls.now) parts) }
    ensures fast { IfOk result (λ rules. list_all (is_fast_rule acls.now) rules ≡ true) }
{
    let mut rules = Listed::new(alloc);
    for part in parts.into_vec() {
        let rule = fast_rule_of(alloc, acls, part)?;
        rules.push(rule)?;
    }
    Ok(rules)
}

/// Whether there are pools of this class.
pub fn is_pool_class(class: u8) -> bool
    ensures { result ≡ is_pool_class class }
{
    (1 <= class && class <= 3) || class == 5
}

/// How many limits a pool of this class has: one for each kind of its buckets.
pub fn pairs_of(class: u8) -> u8
    ensures { result ≡ pairs_of class }
{
    if class == 5 { 1 } else { class }
}

// Whether a pool has a class, and as many limits as that class has.
fn has_buckets(class: u8, pairs: usize) -> bool
    ensures { result ≡ has_buckets class pairs }
{
    is_pool_class(class) && pairs == pairs_of(class) as usize
}

fn pool_of(alloc: Global, acls: &AclTable, place: u32, part: PoolPart) -> Result<Pool, BuildFault>
    ensures made { IsMade result (pool_made acls.now place part) }
    ensures is_pool { IfOk result (λ p. is_pool acls.now p ≡ true) }
{
    if !has_buckets(part.class, part.pairs.len()) {
        return Err(BuildFault::PoolIncomplete(place));
    }
    let lists = fast_rules_of(alloc, acls, part.lists)?;
    Ok(Pool {
        class: part.class,
        pairs: part.pairs,
        lists,
    })
}

/// The pools over these acls, in the order of their numbers.
#[tactic(auto, using(crate::proofs::MadeLaws::pools_first))]
pub fn pools_of(alloc: Global, acls: &AclTable, parts: PoolParts) -> Result<PoolList, BuildFault>
    requires { length parts ≤ pool_limit }
    ensures made { IsMade result (pools_made acls.now 0 parts) }
    ensures count { IfOk result (λ pools. length pools ≡ length parts) }
    ensures are_pools { IfOk result (λ pools. list_all (is_pool acls.now) pools ≡ true) }
{
    let mut pools = Listed::new(alloc);
    for part in parts.into_vec() {
        let place = pools.len() as u32;
        let pool = pool_of(alloc, acls, place, part)?;
        pools.push(pool)?;
    }
    Ok(pools)
}

fn header_of(alloc: Global, acls: &AclTable, part: HeaderPart) -> Result<HeaderRule, BuildFault>
    ensures made { IsMade result (header_made acls.now part) }
    ensures is_header { IfOk result (λ h. is_header acls.now h ≡ true) }
    ensures lower { IfOk result (λ h. is_lower h ≡ true) }
{
    let HeaderPart { reply, name, rule } = part;
    let rule = fast_rule_of(alloc, acls, rule)?;
    let name = lowered(alloc, name.as_bytes())?;
    Ok(HeaderRule { reply, name, rule })
}

/// The rules for fields over these acls.
#[tactic(auto, using(crate::proofs::MadeLaws::made_first))]
pub fn headers_of(
    alloc: Global,
    acls: &AclTable,
    parts: HeaderParts,
) -> Result<HeaderRules, BuildFault>
    ensures made { IsMade result (each_made (header_made acls.now) parts) }
    ensures count { IfOk result (λ headers. length headers ≡ length parts) }
    ensures are_headers { IfOk result (λ headers. list_all (is_header acls.now) headers ≡ true) }
    ensures lower { IfOk result (λ headers. list_all is_lower headers ≡ true) }
{
    let mut headers = Listed::new(alloc);
    for part in parts.into_vec() {
        let header = header_of(alloc, acls, part)?;
        headers.push(header)?;
    }
    Ok(headers)
}
