//! The sessions that sleep until the answer to a question comes, as they stand behind the desk's lock.
ghost use Rattle.std.specs.Prelude.{◌≡◌, ◌==◌, ◌≢◌, ◌<◌, ℕ, [], Some, false, slice_index_or, IfOk};
ghost use Rattle.sq_shared.specs.declared.wait_queues.WaitQueue.{WaitQueue};
ghost use Rattle.sq_shared.specs.Waking.{has_waiters, is_for, place_of};

use sq_base::{QuestionNo, WantOfMemory};
use std::alloc::Global;

/// The sessions that sleep at a place until the answer to this question comes: so many, or none.
#[derive(Clone, Copy)]
pub struct WaitQueue {
    question: QuestionNo,
    length: u64,
}

/// A queue for each place up to the last one that is taken.
#[derive(Drop)]
pub struct WaitQueues {
    queues: Vec<WaitQueue>,
}

impl WaitQueue {
    // Whether sessions sleep here.
    fn has_waiters(&self) -> bool
        ensures { result ≡ has_waiters self.now }
    {
        0 < self.length
    }

    // Whether sessions sleep here that wait for this question.
    fn is_for(&self, question: QuestionNo) -> bool
        ensures { result ≡ is_for question self.now }
    {
        self.has_waiters() && self.question == question
    }
}

impl WaitQueues {
    // Nobody sleeps, and there is no place.
    pub(crate) fn none(alloc: Global) -> WaitQueues
        ensures { result.queues.items ≡ [] }
    {
        WaitQueues {
            queues: Vec::new(alloc),
        }
    }

    // Nobody sleeps, and there are so many places.
    pub(crate) fn new(alloc: Global, places: usize) -> Result<WaitQueues, WantOfMemory>
        ensures { IfOk result (λ w. w.queues.items ≡ []) }
    {
        let mut queues = Vec::new(alloc);
        queues.reserve(places)?;
        Ok(WaitQueues { queues })
    }

    // The place at which the sessions sleep that wait for this question. None where none does.
    pub(crate) fn place_of(&self, question: QuestionNo) -> Option<usize>
        ensures { result ≡ place_of question self.now.queues.items }
    {
        self.queues.iter().position(|queue| queue.is_for(question))
    }

    // Puts a queue of one session at the first place at which nobody sleeps, if there is one. It takes no memory.
    fn put(&mut self, queue: WaitQueue)
        ensures others { (other : ℕ) → is_for other queue ≡ false
            → place_of other self.new.queues.items ≡ place_of other self.old.queues.items }
    {
        match self.queues.iter().position(|other| !other.has_waiters()) {
            Some(at) => self.queues[at] = queue,
            None => {
                if self.queues.len() < self.queues.capacity() {
                    self.queues.push_reserved(queue);
                }
            }
        }
    }

    // One session more waits for this question: its place. None where all are taken. It takes no memory.
    #[tactic(auto, using(crate::proofs::QueueLaws::longer))]
    pub(crate) fn add(&mut self, question: QuestionNo) -> Option<usize>
        ensures place { result ≡ place_of question self.new.queues.items }
        // No other queue goes to another place.
        ensures others { (other : ℕ) → (question == other) ≡ false
            → place_of other self.new.queues.items ≡ place_of other self.old.queues.items }
    {
        match self.place_of(question) {
            Some(at) => {
                let length = self.queues[at].length.saturating_add(1);
                self.queues[at] = WaitQueue { question, length };
            }
            None => self.put(WaitQueue {
                question,
                length: 1,
            }),
        }
        self.place_of(question)
    }

    // The queue at this place is one session shorter.
    #[tactic(auto, using(crate::proofs::QueueLaws::shorter))]
    fn shorten(&mut self, place: usize)
        ensures others { (other : ℕ) → place_of other self.old.queues.items ≢ Some place
            → place_of other self.new.queues.items ≡ place_of other self.old.queues.items }
        ensures shared { (other : ℕ) (d : WaitQueue)
            → 1 < (slice_index_or self.old.queues.items place d).length
            → place_of other self.new.queues.items ≡ place_of other self.old.queues.items }
    {
        if place < self.queues.len() {
            let length = self.queues[place].length;
            self.queues[place].length = length.saturating_sub(1);
        }
    }

    // Lets the last place go where nobody sleeps there.
    fn trim(&mut self)
        ensures { (other : ℕ)
            → place_of other self.new.queues.items ≡ place_of other self.old.queues.items }
    {
        if let Some(last) = self.queues.last() {
            if !last.has_waiters() {
                self.queues.pop();
            }
        }
    }

    // A session that waited at this place goes on. It takes no memory.
    pub(crate) fn remove(&mut self, place: usize)
        // No other queue goes to another place.
        ensures others { (other : ℕ) → place_of other self.old.queues.items ≢ Some place
            → place_of other self.new.queues.items ≡ place_of other self.old.queues.items }
        ensures shared { (other : ℕ) (d : WaitQueue)
            → 1 < (slice_index_or self.old.queues.items place d).length
            → place_of other self.new.queues.items ≡ place_of other self.old.queues.items }
    {
        self.shorten(place);
        self.trim();
    }
}
