//! What helper programs reply, and the answers that a check takes from them.
ghost use Rattle.std.specs.Prelude.{◌≡◌, ◌++◌, ◌∷◌, [], ◌==◌, false, length, OnOk, OnErr};

use crate::bytes::Text;
use crate::listed::Listed;
use crate::memory::{Copying, WantOfMemory};
use crate::numbers::{Moment, QuestionNo};
use std::alloc::Global;
use std::marker::Model;

/// A pair `key=value` of a helper's reply.
#[derive(PartialEq, Eq)]
pub struct Pair {
    pub key: Text,
    pub value: Text,
}

impl Drop for Pair {
    fn drop(self) {
        let Pair { key: _, value: _ } = self;
    }
}

/// A list of pairs.
pub type Pairs = Listed<Pair>;

impl Copying for Pair {
    fn copy(&self, alloc: Global) -> Result<Pair, WantOfMemory> {
        let key = self.key.copy(alloc)?;
        let value = self.value.copy(alloc)?;
        Ok(Pair { key, value })
    }
}

/// The result of a helper's reply: `OK`, `ERR` or `BH`, which says that the helper is broken.
#[derive(Clone, Copy, Debug, PartialEq, Eq)]
pub enum Word {
    Yes,
    No,
    Broken,
}

/// A helper's reply, without its channel.
#[derive(PartialEq, Eq)]
pub struct Reply {
    pub word: Word,
    pub pairs: Pairs,
}

impl Drop for Reply {
    fn drop(self) {
        let Reply { word: _, pairs: _ } = self;
    }
}

impl Copying for Reply {
    fn copy(&self, alloc: Global) -> Result<Reply, WantOfMemory> {
        let word = self.word;
        let pairs = self.pairs.copy(alloc)?;
        Ok(Reply { word, pairs })
    }
}

/// Why a question has a fault in place of a reply.
#[derive(Clone, Copy, Debug, PartialEq, Eq)]
pub enum Cause {
    /// The helper replied `BH`.
    Bh,
    /// Its process wrote a line outside the grammar of replies.
    BadReply,
    /// Its process wrote a line for a channel that has no question.
    Stray,
    /// Its process ended.
    Died,
    /// No process of its class could be started.
    NoHelper,
    /// The queue of its class was full.
    QueueFull,
    /// The key has more bytes than a key may have.
    KeyTooLong,
}

/// What a check took for a class and key: OK or ERR with the reply's pairs, or a fault.
#[derive(PartialEq, Eq)]
pub enum What {
    Yes(Pairs),
    No(Pairs),
    Fault(Cause),
}

impl Drop for What {
    fn drop(self) {
        match self {
            What::Yes(_) => {}
            What::No(_) => {}
            What::Fault(_) => {}
        }
    }
}

impl Copying for What {
    fn copy(&self, alloc: Global) -> Result<What, WantOfMemory> {
        match self {
            What::Yes(pairs) => {
                let pairs = pairs.copy(alloc)?;
                Ok(What::Yes(pairs))
            }
            What::No(pairs) => {
                let pairs = pairs.copy(alloc)?;
                Ok(What::No(pairs))
            }
            What::Fault(cause) => Ok(What::Fault(*cause)),
        }
    }
}

/// An answer that a check took: its class by place, its key, the question that it answers (none for
/// a full queue or a long key), the moment of the reply, and the moment at which it was taken.
#[derive(PartialEq, Eq)]
pub struct Answer {
    pub class: u32,
    pub key: Text,
    pub what: What,
    pub question: Option<QuestionNo>,
    pub date: Moment,
    pub taken: Moment,
}

impl Drop for Answer {
    fn drop(self) {
        let Answer {
            class: _,
            key: _,
            what: _,
            question: _,
            date: _,
            taken: _,
        } = self;
    }
}

impl Copying for Answer {
    fn copy(&self, alloc: Global) -> Result<Answer, WantOfMemory> {
        let key = self.key.copy(alloc)?;
        let what = self.what.copy(alloc)?;
        Ok(Answer {
            class: self.class,
            key,
            what,
            question: self.question,
            date: self.date,
            taken: self.taken,
        })
    }
}

/// Answers, of which no two have one class and key. A contract sees their list.
pub struct Answers {
    items: Listed<Answer>,
}

impl Drop for Answers {
    fn drop(self) {
        let Answers { items: _ } = self;
    }
}

impl Model for Answers {
    ghost use Rattle.std.specs.Prelude.{◌≡◌, List, true};
    ghost use Rattle.sq_base.specs.declared.helpers.Answer.{Answer};
    ghost use Rattle.sq_base.specs.Distinct.{are_distinct};

    ghost Value = { List Answer };

    ghost view = { λ a. a.items };

    ghost invariant = { λ a. are_distinct a.items ≡ true };
}

impl Answers {
    ghost use Rattle.sq_base.specs.Distinct.{has_answer};

    /// No answers. It takes no memory.
    pub fn new(alloc: Global) -> Answers
        ensures { result ≡ [] }
    {
        Answers {
            items: Listed::new(alloc),
        }
    }

    /// Puts an answer of another class and key at the end.
    pub fn push(&mut self, answer: Answer) -> Result<(), WantOfMemory>
        requires { has_answer self.old answer.class answer.key ≡ false }
        ensures ok { OnOk result (self.new ≡ self.old ++ answer ∷ []) }
        ensures err { OnErr result (self.new ≡ self.old) }
    {
        self.items.push(answer)
    }

    /// The answers, lent.
    pub fn as_slice(&self) -> &[Answer]
        ensures { result.now ≡ self.now }
    {
        self.items.as_slice()
    }

    /// How many answers there are.
    pub fn len(&self) -> usize
        ensures { result ≡ length self.now }
    {
        self.items.len()
    }

    /// Whether there is none.
    pub fn is_empty(&self) -> bool
        ensures { result ≡ (length self.now == 0) }
    {
        self.items.is_empty()
    }
}

impl Copying for Answers {
    fn copy(&self, alloc: Global) -> Result<Answers, WantOfMemory> {
        let items = self.items.copy(alloc)?;
        Ok(Answers { items })
    }
}
