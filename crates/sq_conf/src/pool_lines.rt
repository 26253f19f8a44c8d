//! Lines of delay pools.
ghost use Rattle.std.specs.Prelude.{◌≡◌, ◌≤◌, ◌<◌, true, false, length, slice_index_or, Some, IfOk};
ghost use Rattle.sq_conf.specs.Forms.{Gives, Makes};
ghost use Rattle.sq_rules.specs.Configurations.{are_known, is_pool_class, pairs_of, slow_ones, some_slow};
ghost use Rattle.sq_rules.specs.Drafts.{pool_at};
ghost use Rattle.sq_rules.specs.Limits.{pool_limit};
ghost use Rattle.sq_rules.specs.PoolLines.{class_for_pairs, fast_term, initial_line, limit_pairs_of, pool_access_line, pool_class, pool_class_line, pool_number, pool_pairs_line, pool_place, pools_line};
ghost use Rattle.sq_rules.specs.Steps.{some_of};

use crate::builder::Builder;
use crate::config_words::ConfigWords;
use crate::faults::ReadFault;
use crate::numbers::{digits_of, is_digits, number_in};
use crate::pairs::pair_of;
use crate::terms::{action, known_term};
use sq_base::{Listed, Text};
use sq_rules::{
    INITIAL_LIMIT, Kind, Limits, POOL_LIMIT, Rule, Term, Terms, is_pool_class, pairs_of,
};
use std::alloc::Global;

// How many pools there are.
#[tactic(auto, unfolding(sq_rules::specs::PoolLines::pool_number))]
fn pool_number(word: &[u8]) -> Result<u8, ReadFault>
    ensures read { Gives (λ n. n) result (pool_number word.now) }
    ensures bound { IfOk result (λ n. n ≤ pool_limit) }
{
    if !is_digits(word) {
        return Err(ReadFault::Fault(Kind::BadNumber));
    }
    match digits_of(word, POOL_LIMIT) {
        Some(number) => Ok(number as u8),
        None => Err(ReadFault::Fault(Kind::TooMany)),
    }
}

/// `delay_pools N`
#[tactic(auto, unfolding(sq_rules::specs::PoolLines::pools_line))]
pub fn pools_line(alloc: Global, builder: &mut Builder, words: &[Text]) -> Result<(), ReadFault>
    ensures { Makes result builder.new (pools_line builder.old words.now) }
{
    let mut words = ConfigWords::new(words);
    let count = pool_number(words.next()?.as_bytes())?;
    if builder.is_counted() {
        return Err(ReadFault::Fault(Kind::BadValue));
    }
    words.no_more()?;
    builder.count_pools(alloc, count)?;
    Ok(())
}

// The place of a pool, from 0, by its number, from 1.
#[tactic(auto, unfolding(sq_rules::specs::PoolLines::pool_place))]
fn pool_place(count: u8, word: &[u8]) -> Result<u8, ReadFault>
    ensures read { Gives (λ p. p) result (pool_place count word.now) }
    ensures within { IfOk result (λ p. p < count) }
{
    if !is_digits(word) {
        return Err(ReadFault::Fault(Kind::BadNumber));
    }
    match digits_of(word, POOL_LIMIT) {
        None => Err(ReadFault::Fault(Kind::PoolOutOfRange)),
        Some(number) => {
            if 1 <= number && number <= count as u64 {
                Ok((number - 1) as u8)
            } else {
                Err(ReadFault::Fault(Kind::PoolOutOfRange))
            }
        }
    }
}

// The class of a pool.
#[tactic(auto, unfolding(sq_rules::specs::PoolLines::pool_class))]
fn pool_class(word: &[u8]) -> Result<u8, ReadFault>
    ensures read { Gives (λ c. c) result (pool_class word.now) }
    ensures one { IfOk result (λ c. is_pool_class c ≡ true) }
{
    let class = number_in(word, 1, 5)? as u8;
    if !is_pool_class(class) {
        return Err(ReadFault::Fault(Kind::BadNumber));
    }
    Ok(class)
}

/// `delay_class POOL CLASS`
#[tactic(auto, unfolding(sq_rules::specs::PoolLines::pool_class_line))]
pub fn pool_class_line(builder: &mut Builder, words: &[Text]) -> Result<(), ReadFault>
    ensures { Makes result builder.new (pool_class_line builder.old words.now) }
{
    let mut words = ConfigWords::new(words);
    let place = pool_place(builder.pool_count(), words.next()?.as_bytes())?;
    if builder.pool_class(place).is_some() {
        return Err(ReadFault::Fault(Kind::BadValue));
    }
    let class = pool_class(words.next()?.as_bytes())?;
    words.no_more()?;
    builder.set_class(place, class);
    Ok(())
}

// An acl that stands, and reaches no helper.
#[tactic(auto, unfolding(sq_rules::specs::PoolLines::fast_term))]
fn fast_term(alloc: Global, builder: &Builder, word: &Text) -> Result<Term, ReadFault>
    ensures read { Gives (λ t. t) result (fast_term builder.now.acls word.now) }
    ensures within { IfOk result (λ t. t.acl < length builder.now.acls) }
    ensures fast { IfOk result
        (λ t. slice_index_or (slow_ones builder.now.acls) t.acl false ≡ false) }
{
    let term = known_term(alloc, builder, word)?;
    if builder.is_slow(term.acl) {
        return Err(ReadFault::Fault(Kind::SlowInFastList));
    }
    Ok(term)
}

/// One such term or more.
pub fn fast_terms(alloc: Global, builder: &Builder, words: &[Text]) -> Result<Terms, ReadFault>
    ensures read { Gives (λ t. t) result (some_of (fast_term builder.now.acls) words.now) }
    ensures known { IfOk result (λ terms. are_known (length builder.now.acls) terms ≡ true) }
    ensures fast { IfOk result (λ terms. some_slow (slow_ones builder.now.acls) terms ≡ false) }
{
    if words.is_empty() {
        return Err(ReadFault::Fault(Kind::MissingWord));
    }
    let mut terms = Listed::new(alloc);
    for word in words {
        terms.push(fast_term(alloc, builder, word)?)?;
    }
    Ok(terms)
}

/// `delay_access POOL allow|deny TERM ...`
#[tactic(auto, unfolding(sq_rules::specs::PoolLines::pool_access_line))]
pub fn pool_access_line(
    alloc: Global,
    builder: &mut Builder,
    words: &[Text],
) -> Result<(), ReadFault>
    ensures { Makes result builder.new (pool_access_line builder.old words.now) }
{
    let mut words = ConfigWords::new(words);
    let place = pool_place(builder.pool_count(), words.next()?.as_bytes())?;
    let allow = action(words.next()?.as_bytes())?;
    let terms = fast_terms(alloc, builder, words.rest())?;
    builder.push_pool_rule(place, Rule { allow, terms })?;
    Ok(())
}

// The class of a pool that has no parameters yet.
fn class_for_pairs(builder: &Builder, place: u8) -> Result<u8, ReadFault>
    requires { place < length builder.now.pools }
    ensures read { Gives (λ c. c) result (class_for_pairs (pool_at builder.now.pools place)) }
    ensures class { IfOk result (λ c. (pool_at builder.now.pools place).class ≡ Some c) }
{
    let Some(class) = builder.pool_class(place) else {
        return Err(ReadFault::Fault(Kind::BadValue));
    };
    if builder.has_pairs(place) {
        return Err(ReadFault::Fault(Kind::BadValue));
    }
    Ok(class)
}

// So many pairs.
#[tactic(auto, unfolding(sq_rules::specs::PoolLines::limit_pairs_of))]
fn read_pairs(alloc: Global, count: u8, words: &[Text]) -> Result<Limits, ReadFault>
    ensures read { Gives (λ p. p) result (limit_pairs_of count words.now) }
    ensures count { IfOk result (λ p. length p ≡ count) }
{
    let mut pairs = Listed::new(alloc);
    for word in words {
        if pairs.len() >= count as usize {
            return Err(ReadFault::Fault(Kind::BadValue));
        }
        pairs.push(pair_of(word.as_bytes())?)?;
    }
    if pairs.len() != count as usize {
        return Err(ReadFault::Fault(Kind::MissingWord));
    }
    Ok(pairs)
}

/// `delay_parameters POOL PAIR ...`
#[tactic(auto, unfolding(sq_rules::specs::PoolLines::pool_pairs_line))]
pub fn pool_pairs_line(
    alloc: Global,
    builder: &mut Builder,
    words: &[Text],
) -> Result<(), ReadFault>
    ensures { Makes result builder.new (pool_pairs_line builder.old words.now) }
{
    let mut words = ConfigWords::new(words);
    let place = pool_place(builder.pool_count(), words.next()?.as_bytes())?;
    let class = class_for_pairs(builder, place)?;
    let pairs = read_pairs(alloc, pairs_of(class), words.rest())?;
    builder.set_pairs(place, pairs);
    Ok(())
}

/// `delay_initial_bucket_level LEVEL`
#[tactic(auto, unfolding(sq_rules::specs::PoolLines::initial_line))]
pub fn initial_line(builder: &mut Builder, words: &[Text]) -> Result<(), ReadFault>
    ensures { Makes result builder.new (initial_line builder.old words.now) }
{
    let mut words = ConfigWords::new(words);
    let level = number_in(words.next()?.as_bytes(), 0, INITIAL_LIMIT)?;
    words.no_more()?;
    builder.set_initial(level as u8);
    Ok(())
}
