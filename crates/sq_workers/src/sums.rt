//! `Sums`: what the sessions of workers came to.
ghost use Rattle.std.specs.Prelude.{◌≡◌, ◌+◌, ◌<◌, ◌^◌, min};
ghost use Rattle.sq_outside.specs.Causes.{count_limit};

use crate::lock_hub::Shares;
use sq_outside::raised_by;
use sq_shared::{Asks, Grants, Ledgers, Refusals};
use std::sync::ledger::Share;

/// The sums of what the sessions of workers asked and were granted, each up to 2^63 - 1, with the workers' shares of the
/// books of requests and of grants: they are the same. The workers open their connections as so many numbers, one each, that
/// follow one another.
#[derive(Drop)]
pub struct Sums<B: Ledgers> {
    /// The number as which the first worker opens its connections.
    pub first: u32,
    /// How many workers there are.
    pub count: u32,
    /// The sum of the sessions' requests.
    pub requests: u64,
    /// The sum of the bytes that the sessions were granted.
    pub granted: u64,
    pub asked: Share<Asks<B>>,
    pub grants: Share<Grants<B>>,
    pub ghost requests_are: { requests ≡ min asked.amount count_limit },
    pub ghost granted_are: { granted ≡ min grants.amount count_limit },
}

impl<B: Ledgers> Sums<B> {
    /// Shares of one part each in which nothing is counted, for a session.
    #[inline(never)]
    pub(crate) fn lend(&mut self, refused: &mut Share<Refusals<B>>) -> Shares<B>
        requires asked { self.old.asked.parts ≡ 2 }
        requires grants { self.old.grants.parts ≡ 2 }
        requires refused { refused.old.parts ≡ 2 }
        ensures asked { (result.asked.parts ≡ 1) × (result.asked.amount ≡ 0) }
        ensures refused { result.refused.parts ≡ 1 }
        ensures granted { (result.granted.parts ≡ 1) × (result.granted.amount ≡ 0) }
        ensures requests { self.new.requests ≡ self.old.requests }
        ensures sum { self.new.granted ≡ self.old.granted }
        ensures numbers { (self.new.first ≡ self.old.first) × (self.new.count ≡ self.old.count) }
        ensures rest { (self.new.asked.parts ≡ 1) × (self.new.grants.parts ≡ 1)
            × (refused.new.parts ≡ 1) }
    {
        Shares {
            asked: self.asked.split_off(1, 0),
            refused: refused.split_off(1, 0),
            granted: self.grants.split_off(1, 0),
        }
    }

    /// Adds what a session asked and was granted, and takes its shares back.
    #[inline(never)]
    pub(crate) fn add(
        &mut self,
        refused: &mut Share<Refusals<B>>,
        back: Shares<B>,
        requests: u64,
        granted: u64,
    )
        requires requests { requests ≡ min back.asked.amount count_limit }
        requires granted { granted ≡ min back.granted.amount count_limit }
        requires parts { (back.asked.parts ≡ 1) × (back.refused.parts ≡ 1)
            × (back.granted.parts ≡ 1) }
        requires rest { (self.old.asked.parts ≡ 1) × (self.old.grants.parts ≡ 1)
            × (refused.old.parts ≡ 1) }
        ensures requests { self.new.requests ≡ min (self.old.requests + requests) count_limit }
        ensures granted { self.new.granted ≡ min (self.old.granted + granted) count_limit }
        ensures numbers { (self.new.first ≡ self.old.first) × (self.new.count ≡ self.old.count) }
        ensures asked { self.new.asked.parts ≡ 2 }
        ensures grants { self.new.grants.parts ≡ 2 }
        ensures refused { refused.new.parts ≡ 2 }
    {
        let Sums {
            first: _,
            count: _,
            requests: all_requests,
            granted: all_granted,
            asked,
            grants,
        } = self;
        asked.merge(back.asked);
        refused.merge(back.refused);
        grants.merge(back.granted);
        *all_requests = raised_by(*all_requests, requests);
        *all_granted = raised_by(*all_granted, granted);
    }
}

/// The sums of both. The numbers of the second begin where those of the first end, so no number is of two workers.
pub(crate) fn both<B: Ledgers>(one: Sums<B>, other: Sums<B>) -> Sums<B>
    requires next { other.first ≡ one.first + one.count }
    requires fits { one.count + other.count < 2 ^ 32 }
    ensures numbers { (result.first ≡ one.first) × (result.count ≡ one.count + other.count) }
    ensures requests { result.requests ≡ min (one.requests + other.requests) count_limit }
    ensures granted { result.granted ≡ min (one.granted + other.granted) count_limit }
    ensures asked { result.asked.parts ≡ one.asked.parts + other.asked.parts }
    ensures grants { result.grants.parts ≡ one.grants.parts + other.grants.parts }
{
    let Sums {
        first,
        count,
        requests,
        granted,
        mut asked,
        mut grants,
    } = one;
    let Sums {
        first: _,
        count: more,
        requests: more_requests,
        granted: more_granted,
        asked: more_asked,
        grants: more_grants,
    } = other;
    asked.merge(more_asked);
    grants.merge(more_grants);
    Sums {
        first,
        count: count + more,
        requests: raised_by(requests, more_requests),
        granted: raised_by(granted, more_granted),
        asked,
        grants,
    }
}
