//! The verdicts of one class.
ghost use Rattle.std.specs.Prelude.{◌≡◌, [], false, true, is_some, IfOk, IsOk, OnOk, OnErr};
ghost use Rattle.sq_machine.specs.KeptLists.{verdict_of, to_front, used, keep, is_fault};
ghost use Rattle.sq_cache.specs.Keeping.{taken_as, taken_for};

use crate::freshness::{is_due, is_fresh, ttl_of};
use crate::seed::HashSeed;
use lru::LruCache;
use sq_base::{Copying, Moment, QuestionNo, Text, WantOfMemory, What};
use sq_machine::CachedReply;
use sq_rules::Class;
use std::alloc::Global;
use std::marker::Model;
use std::mem;
use std::num::NonZeroUsize;

/// A verdict that was taken: the answer, the moment of its reply, the question that it answers, and
/// whether its refresh is due, which the caller then asks for.
#[derive(Drop)]
pub struct Taken {
    pub what: What,
    pub date: Moment,
    pub question: QuestionNo,
    pub refresh: bool,
}

/// The cached replies of one class. A contract sees them with their keys, the newest use first,
/// and how many there may be.
#[derive(Drop)]
pub struct Kept {
    cache: Option<LruCache<Text, CachedReply, HashSeed>>,
}

impl Model for Kept {
    ghost use Rattle.sq_cache.specs.Keeping.{Keeping, keeping_of};

    ghost Value = { Keeping };

    ghost view = { λ k. keeping_of k.cache };
}

impl Kept {
    /// Nothing, with a limit on how many verdicts there may be; 0 keeps none. Room is taken as they come.
    /// The seed of the hashes is the same in each run.
    pub fn new(alloc: Global, limit: u32) -> Result<Kept, WantOfMemory>
        ensures { IfOk result (λ k. k ≡ record { verdicts = []; limit = limit }) }
    {
        Kept::with_seed(alloc, limit, HashSeed::fixed())
    }

    /// Nothing, with a limit, and with a seed for the hashes of keys that strangers choose.
    pub fn with_seed(alloc: Global, limit: u32, seed: HashSeed) -> Result<Kept, WantOfMemory>
        ensures { IfOk result (λ k. k ≡ record { verdicts = []; limit = limit }) }
    {
        match NonZeroUsize::new(limit as usize) {
            Some(most) => {
                let mut cache = LruCache::unbounded_with_hasher(alloc, seed)?;
                cache.resize(most);
                Ok(Kept { cache: Some(cache) })
            }
            None => Ok(Kept { cache: None }),
        }
    }

    /// The verdict of a key, copied, where it is kept and fresh. Nothing moves.
    pub fn peek(
        &self,
        alloc: Global,
        key: &Text,
        class: &Class,
        now: Moment,
    ) -> Result<Option<Taken>, WantOfMemory>
        ensures { IfOk result (λ t. t ≡ taken_for class.now key.now now self.now.verdicts) }
    {
        let Some(cache) = &self.cache else {
            return Ok(None);
        };
        let Some(verdict) = cache.peek(key) else {
            return Ok(None);
        };
        if !is_fresh(class, verdict, now) {
            return Ok(None);
        }
        let taken = taken_as(alloc, class, verdict, now)?;
        Ok(Some(taken))
    }

    /// Makes a key that is kept the newest used. It takes no memory.
    pub fn promote(&mut self, key: &Text)
        ensures verdicts { self.new.verdicts ≡ to_front key.now self.old.verdicts }
        ensures limit { self.new.limit ≡ self.old.limit }
    {
        if let Some(cache) = &mut self.cache {
            let _was_there = cache.promote(key);
        }
    }

    /// The verdict of a key, copied, where it is kept and fresh; its key is then the newest used.
    pub fn take(
        &mut self,
        alloc: Global,
        key: &Text,
        class: &Class,
        now: Moment,
    ) -> Result<Option<Taken>, WantOfMemory>
        ensures taken { IfOk result (λ t. t ≡ taken_for class.now key.now now self.old.verdicts) }
        ensures ok { OnOk result
            (self.new.verdicts ≡ used class.now key.now now self.old.verdicts) }
        ensures limit { self.new.limit ≡ self.old.limit }
        ensures err { OnErr result (self.new ≡ self.old) }
    {
        let taken = self.peek(alloc, key, class, now)?;
        if taken.is_some() {
            self.promote(key);
        }
        Ok(taken)
    }

    /// Keeps a verdict of an OK or an ERR: its key is taken out, and where the time and the limit are above 0
    /// it stands in front and the least lately used goes. Nothing is kept where either is 0.
    pub fn put(
        &mut self,
        key: Text,
        what: What,
        question: QuestionNo,
        class: &Class,
        date: Moment,
    ) -> Result<(), WantOfMemory>
        requires { is_fault what ≡ false }
        ensures ok { OnOk result
            (self.new.verdicts ≡ keep self.old.limit class.now key
            (record { what = what; question = question; date = date }) self.old.verdicts) }
        ensures limit { self.new.limit ≡ self.old.limit }
        ensures err { OnErr result (self.new ≡ self.old) }
        ensures sure { is_some (verdict_of key self.old.verdicts) ≡ true → IsOk result }
    {
        let Some(cache) = &mut self.cache else {
            return Ok(());
        };
        if ttl_of(class, &what) == 0 {
            let _was = cache.pop(&key);
            return Ok(());
        }
        // For the proof: there are no more verdicts than the limit.
        let _len = cache.len();
        let verdict = CachedReply {
            what,
            question,
            date,
        };
        let _was = cache.put(key, verdict)?;
        Ok(())
    }

    /// Exchanges the verdicts of two classes of one limit, as of a class and the one that takes its place.
    pub fn exchange(&mut self, other: &mut Kept)
        requires { self.old.limit ≡ other.old.limit }
        ensures here { self.new ≡ other.old }
        ensures there { other.new ≡ self.old }
    {
        mem::swap(&mut self.cache, &mut other.cache);
    }
}

// A verdict as it is taken at this moment.
fn taken_as(
    alloc: Global,
    class: &Class,
    verdict: &CachedReply,
    now: Moment,
) -> Result<Taken, WantOfMemory>
    ensures { IfOk result (λ t. t ≡ taken_as class.now now verdict.now) }
{
    let what = verdict.what.copy(alloc)?;
    Ok(Taken {
        what,
        date: verdict.date,
        question: verdict.question,
        refresh: is_due(class, verdict, now),
    })
}
