//! Whether a cached reply is fresh, and whether its refresh is due.
ghost use Rattle.std.specs.Prelude.{◌≡◌, ◌<◌};
ghost use Rattle.sq_machine.specs.Freshness.{ttl_of, age, is_fresh, is_due, due_age};

use sq_base::{Moment, What};
use sq_machine::CachedReply;
use sq_rules::Class;

// The seconds for which an answer is fresh.
pub(crate) fn ttl_of(class: &Class, what: &What) -> u32
    ensures { result ≡ ttl_of class.now what.now }
{
    match what {
        What::Yes(_) => class.ttl,
        What::No(_) => class.negative_ttl,
        What::Fault(_) => 0,
    }
}

// The age of a verdict in milliseconds.
fn age(verdict: &CachedReply, now: Moment) -> u64
    ensures { result ≡ age verdict.now now }
{
    now.0.saturating_sub(verdict.date.0)
}

// Whether a verdict is fresh.
pub(crate) fn is_fresh(class: &Class, verdict: &CachedReply, now: Moment) -> bool
    ensures { result ≡ is_fresh class.now verdict.now now }
{
    let ttl = u64::from(ttl_of(class, &verdict.what));
    age(verdict, now) < ttl * 1000
}

// The age from which a refresh is due.
fn due_age(class: &Class, what: &What) -> u64
    ensures { result ≡ due_age class.now what.now }
{
    let ttl = u64::from(ttl_of(class, what));
    let rest = u64::from(100 - class.grace);
    1000 * (ttl * rest / 100)
}

// Whether the refresh of a verdict is due.
pub(crate) fn is_due(class: &Class, verdict: &CachedReply, now: Moment) -> bool
    ensures { result ≡ is_due class.now verdict.now now }
{
    is_fresh(class, verdict, now)
        && class.grace > 0
        && age(verdict, now) >= due_age(class, &verdict.what)
}
