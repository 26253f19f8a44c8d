//! The desk, as it lies behind its lock, with its three books.
ghost use Rattle.std.specs.Prelude.{◌≡◌, ◌==◌, ◌≢◌, ◌+◌, ◌<◌, ℕ, [], Some, false, min, nat_lt, slice_index_or, true, is_some, IfOk, IfSome};
ghost use Rattle.std.specs.Arc.{arc_value};
ghost use Rattle.sq_shared.specs.declared.wait_queues.WaitQueue.{WaitQueue};
ghost use Rattle.std.specs.Option.{ForSome};
ghost use Rattle.sq_outside.specs.Causes.{count_limit};
ghost use Rattle.sq_shared.specs.Books.{AreCounted, asks_in};
ghost use Rattle.sq_shared.specs.Waking.{is_awaited, one_more, place_after, place_of};
ghost use Rattle.sq_machine.specs.Readings.{current};

use crate::awaited::Awaited;
use crate::ledgers::{Asks, Ledgers, Makes, Refusals};
use crate::older::Older;
use crate::wait_queues::WaitQueues;
use sq_base::{EpochNo, QuestionNo, Texts, WantOfMemory};
use sq_calls::{DeskCalls, DeskFault};
use sq_channel::Got;
use sq_rules::Config;
use std::alloc::Global;
use std::sync::Arc;
use std::sync::ledger::{Book, Share};

/// A desk with the books of its requests, reconfigurations and refusals, how often an act may have become due, for which
/// questions' answers sessions wait and where these sleep, and whether it was given up. A book goes on counting where the number that
/// the desk tells stands at its limit.
#[derive(Drop)]
pub struct Hall<D: DeskCalls, B: Ledgers> {
    pub(crate) desk: D,
    pub(crate) requests: Book<Asks<B>>,
    pub(crate) makes: Book<Makes<B>>,
    pub(crate) refusals: Book<Refusals<B>>,
    pub(crate) changes: u64,
    pub(crate) awaited: Awaited,
    pub(crate) queues: WaitQueues,
    pub(crate) older: Older,
    pub(crate) stopped: bool,
    pub(crate) done: bool,
    ghost entries_are: { AreCounted requests.total makes.total (D.told desk) },
    ghost makes_are: { ForSome (D.made desk) (λ m. m ≡ makes.total) },
    ghost refusals_are: { D.refused desk ≡ min refusals.total count_limit },
}

impl<D: DeskCalls, B: Ledgers> Hall<D, B> {
    /// A desk and its books, without a place to sleep.
    pub fn new(
        alloc: Global,
        desk: D,
        requests: Book<Asks<B>>,
        makes: Book<Makes<B>>,
        refusals: Book<Refusals<B>>,
    ) -> Hall<D, B>
        requires entries { AreCounted requests.total makes.total (D.told desk) }
        requires makes { ForSome (D.made desk) (λ m. m ≡ makes.total) }
        requires refusals { D.refused desk ≡ min refusals.total count_limit }
        ensures desk { result.desk ≡ desk }
        ensures awaited { result.awaited.questions.items ≡ [] }
    {
        Hall {
            desk,
            requests,
            makes,
            refusals,
            changes: 0,
            awaited: Awaited::new(alloc),
            queues: WaitQueues::none(alloc),
            older: Older::new(),
            stopped: false,
            done: false,
        }
    }

    // The same with these places to sleep.
    pub(crate) fn with_queues(mut self, queues: WaitQueues) -> Hall<D, B>
        ensures desk { result.desk ≡ self.desk }
        ensures awaited { result.awaited ≡ self.awaited }
    {
        self.queues = queues;
        self
    }

    // Gives a place to a session that is about to sleep until the answer to this question comes. It takes no memory.
    pub(crate) fn add_waiter(&mut self, question: QuestionNo) -> Option<usize>
        ensures place { result ≡ place_of question self.new.queues.queues.items }
        ensures others { (other : ℕ) → (question == other) ≡ false
            → place_of other self.new.queues.queues.items
            ≡ place_of other self.old.queues.queues.items }
        ensures desk { self.new.desk ≡ self.old.desk }
        ensures changes { self.new.changes ≡ self.old.changes }
        ensures awaited { self.new.awaited ≡ self.old.awaited }
    {
        self.queues.add(question)
    }

    // A session that waited at this place goes on. It takes no memory.
    pub(crate) fn remove_waiter(&mut self, place: usize)
        ensures others { (other : ℕ) → place_of other self.old.queues.queues.items ≢ Some place
            → place_of other self.new.queues.queues.items
            ≡ place_of other self.old.queues.queues.items }
        ensures shared { (other : ℕ) (d : WaitQueue)
            → 1 < (slice_index_or self.old.queues.queues.items place d).length
            → place_of other self.new.queues.queues.items
            ≡ place_of other self.old.queues.queues.items }
        ensures desk { self.new.desk ≡ self.old.desk }
        ensures changes { self.new.changes ≡ self.old.changes }
        ensures awaited { self.new.awaited ≡ self.old.awaited }
    {
        self.queues.remove(place);
    }

    // Where the sessions sleep that wait for the question to which a line replied. None where none does.
    pub(crate) fn place_after(&self, gave: &Result<Got, DeskFault>) -> Option<usize>
        ensures { result ≡ place_after gave.now self.now.queues.queues.items }
    {
        match gave {
            Ok(Got::Reply(question, _)) => self.queues.place_of(*question),
            Ok(Got::Bad) | Ok(Got::Stray) | Err(_) => None,
        }
    }

    /// A copy of the words of the program of a class of a live epoch, as the desk has them.
    pub fn words(
        &self,
        alloc: Global,
        epoch: EpochNo,
        class: u32,
    ) -> Result<Option<Texts>, WantOfMemory>
        ensures { IfSome (D.programs self.now.desk epoch class) (λ p. IfOk result (λ t. t ≡ p)) }
    {
        self.desk.words(alloc, epoch, class)
    }

    /// The configuration of a live epoch, as the desk has it.
    pub fn config(&self, epoch: EpochNo) -> Option<Arc<Config>>
        ensures { IfSome (D.configs self.now.desk epoch)
            (λ o. IfSome result (λ c. o ≡ Some (arc_value c))) }
    {
        self.desk.config(epoch)
    }

    /// Whether this epoch lives.
    pub fn lives(&self, epoch: EpochNo) -> bool
        ensures { IfSome (D.configs self.now.desk epoch) (λ o. result ≡ is_some o) }
    {
        self.desk.lives(epoch)
    }

    /// How often an act may have become due, or a keeper have ended.
    pub fn changes(&self) -> u64
        ensures { result ≡ self.now.changes }
    {
        self.changes
    }

    /// A keeper has ended: the pump has to look.
    pub fn note_end(&mut self)
        ensures changes { self.new.changes ≡ one_more self.old.changes }
        ensures desk { self.new.desk ≡ self.old.desk }
        ensures awaited { self.new.awaited ≡ self.old.awaited }
    {
        self.changes = self.changes.wrapping_add(1);
    }

    /// Whether a session was told to wait for this question, and its answer has not come since.
    pub fn is_awaited(&self, question: QuestionNo) -> bool
        ensures { result ≡ is_awaited question self.now.awaited.questions.items }
    {
        self.awaited.has(question)
    }

    /// Whether an epoch may live that is not current: where its last check goes, acts are due.
    pub fn may_have_older(&self) -> bool
        ensures { result ≡ nat_lt self.now.older.oldest self.now.older.current }
    {
        self.older.may_live()
    }

    /// Whether it was given up.
    pub fn is_stopped(&self) -> bool
        ensures { result ≡ self.now.stopped }
    {
        self.stopped
    }

    /// Gives it up: its journal failed, so no call of it is made any more. Who waits for it has to look again.
    pub fn give_up(&mut self)
        ensures stopped { self.new.stopped ≡ true }
        ensures desk { self.new.desk ≡ self.old.desk }
        ensures changes { self.new.changes ≡ one_more self.old.changes }
        ensures awaited { self.new.awaited.questions.items ≡ [] }
    {
        self.changes = self.changes.wrapping_add(1);
        self.awaited.clear();
        self.stopped = true;
    }

    /// Whether no more is to be done.
    pub fn is_done(&self) -> bool
        ensures { result ≡ self.now.done }
    {
        self.done
    }

    /// No more is to be done from here on.
    pub fn set_done(&mut self)
        ensures done { self.new.done ≡ true }
        ensures desk { self.new.desk ≡ self.old.desk }
    {
        self.done = true;
    }

    /// The desk, given back. Where it tells its journal, its requests are the whole share of their book, and so are its
    /// reconfigurations.
    pub fn end(self, asked: Share<Asks<B>>, made: Share<Makes<B>>) -> D
        requires asked { asked.parts ≡ B.asks.parts }
        requires made { made.parts ≡ B.makes.parts }
        ensures desk { result ≡ self.desk }
        ensures asks { ForSome (D.told result) (λ h. asked.amount ≡ asks_in h) }
        ensures makes { ForSome (D.told result) (λ h. made.amount + 1 ≡ current h) }
    {
        let Hall {
            desk,
            mut requests,
            mut makes,
            ..
        } = self;
        let mut asked = asked;
        let mut made = made;
        requests.audit(&mut asked);
        makes.audit(&mut made);
        desk
    }
}
