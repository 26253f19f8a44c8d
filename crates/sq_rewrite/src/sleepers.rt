//! The sessions that sleep until a question has ended, as they stand behind the rewriter's lock.
ghost use Rattle.std.specs.Prelude.{◌≡◌, ◌+◌, ◌++◌, ◌∷◌, ◌==◌, ◌≤◌, [], position, vec_capacity, vec_len, IfNone, IfOk, IfSome};

use sq_base::{QuestionNo, WantOfMemory};
use std::alloc::Global;

/// A session that sleeps: the question that it waits for, and the place at which it sleeps.
#[derive(Clone, Copy)]
pub(crate) struct Sleeper {
    question: QuestionNo,
    place: usize,
}

/// The places at which nobody sleeps, and the sessions that sleep at the others. Both lists have room for all places.
#[derive(Drop)]
pub struct Sleepers {
    free: Vec<usize>,
    asleep: Vec<Sleeper>,
    ghost fits_free: { vec_len free + vec_len asleep ≤ vec_capacity free },
    ghost fits_asleep: { vec_len free + vec_len asleep ≤ vec_capacity asleep },
}

impl Sleepers {
    /// So many places, at which nobody sleeps.
    pub(crate) fn new(alloc: Global, places: usize) -> Result<Sleepers, WantOfMemory>
        ensures { IfOk result (λ s. s.asleep.items ≡ []) }
    {
        let mut free = Vec::new(alloc);
        let mut asleep = Vec::new(alloc);
        free.reserve(places)?;
        asleep.reserve(places)?;
        for place in 0..places {
            free.push_reserved(place);
        }
        Ok(Sleepers { free, asleep })
    }

    /// Gives a place to the session that waits for this question. None where none is free. It takes no memory.
    pub(crate) fn add(&mut self, question: QuestionNo) -> Option<usize>
        ensures asleep { IfSome result (λ place. self.new.asleep.items
            ≡ self.old.asleep.items ++ record { question = question; place = place } ∷ []) }
        ensures free { IfSome result
            (λ place. self.old.free.items ≡ self.new.free.items ++ place ∷ []) }
        ensures none { IfNone result (self.old.free.items ≡ []) }
        ensures none_same { IfNone result (self.new.asleep ≡ self.old.asleep) }
    {
        match self.free.pop() {
            None => None,
            Some(place) => {
                self.asleep.push_reserved(Sleeper { question, place });
                Some(place)
            }
        }
    }

    // Where the session that waits for this question stands in the list.
    fn at(&self, question: QuestionNo) -> Option<usize>
        ensures { result ≡ position (λ s. s.question == question) self.now.asleep.items }
    {
        self.asleep.iter().position(|s| s.question == question)
    }

    /// The place of the session that waits for this question. None where no session does.
    pub(crate) fn place_of(&self, question: QuestionNo) -> Option<usize> {
        match self.at(question) {
            None => None,
            Some(at) => Some(self.asleep[at].place),
        }
    }

    /// The session that waits for this question has woken. It takes no memory.
    pub(crate) fn remove(&mut self, question: QuestionNo) {
        if let Some(at) = self.at(question) {
            let woken = self.asleep.remove(at);
            self.free.push_reserved(woken.place);
        }
    }
}
