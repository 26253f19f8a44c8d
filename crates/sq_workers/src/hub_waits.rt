//! `HubWaits`: what a hub's next wait and its next pause are for.
ghost use Rattle.std.specs.Prelude.{◌≡◌, IfNone, IfOk, IfSome, OnErr, Some, IsSomeAnd};
ghost use Rattle.sq_shared.specs.Waking.{number_told};

use crate::rooms::SessionRooms;
use sq_base::{Moment, QuestionNo};
use sq_calls::{DeskCalls, DeskFault};
use sq_checks::Record;
use sq_model::Stepped;
use sq_outside::Clock;
use sq_rewrite::{RewriteFault, RewriterRoom, Rewriting};
use sq_shared::{Ledgers, number_told, wait_answered};
use std::alloc::Global;
use std::sync::Wait;

// A question to the rewriter that had not ended, and how often one may have ended by then.
#[derive(Clone, Copy)]
struct RewriteWait {
    question: QuestionNo,
    ends: u64,
}

/// The number of the question for which the last step said to wait, or 0; the question to the rewriter of which nothing could be
/// taken yet, for the next wait alone; and when the buckets gain of the seat that was granted nothing last.
#[derive(Clone, Copy)]
pub(crate) struct HubWaits {
    question: QuestionNo,
    rewriting: Option<RewriteWait>,
    pub(crate) gains_at: Moment,
}

// So many pauses of a clock, of 10 milliseconds, come to a second.
const SECOND: u32 = 100;

/// Waits until this moment, a second at most. Pauses that take longer than they should move it by one of them, and not by all.
pub(crate) fn rest<C: Clock>(clock: &mut C, until: Moment) {
    for _ in 0..SECOND {
        clock.pause();
        if until <= clock.now() {
            return;
        }
    }
}

// Puts the question about the request of a record to the rewriter, if there is one.
pub(crate) fn put_rewrite<R: Wait>(
    rt: &R,
    rewriter: Option<&RewriterRoom>,
    alloc: Global,
    judged: &Record,
) -> Result<QuestionNo, RewriteFault> {
    let Some(rewriter) = rewriter else {
        return Err(RewriteFault::Full);
    };
    let sight = judged.sight();
    rewriter.ask(rt, alloc, &sight.request, sight.addr)
}

impl HubWaits {
    /// Nothing is waited for.
    pub(crate) fn new() -> HubWaits {
        HubWaits {
            question: QuestionNo(0),
            rewriting: None,
            gains_at: Moment(0),
        }
    }

    /// A step gave this.
    pub(crate) fn stepped(&mut self, gave: &Result<Stepped, DeskFault>)
        ensures question { self.new.question ≡ number_told gave.now }
        ensures rewriting { self.new.rewriting ≡ self.old.rewriting }
        ensures gains_at { self.new.gains_at ≡ self.old.gains_at }
    {
        self.question = QuestionNo(number_told(gave));
    }

    // This was taken of a question to the rewriter, and so often one may have ended by then.
    fn taken(
        &mut self,
        question: QuestionNo,
        gave: &Result<Option<Rewriting>, RewriteFault>,
        ends: u64,
    )
        ensures open { IfOk gave.now
            (λ o. IfNone o (self.new.rewriting
            ≡ Some (record { question = question; ends = ends }))) }
        ensures ended { IfOk gave.now
            (λ o. IfSome o (λ _. self.new.rewriting ≡ self.old.rewriting)) }
        ensures refused { OnErr gave.now (self.new.rewriting ≡ self.old.rewriting) }
        ensures question { self.new.question ≡ self.old.question }
        ensures gains_at { self.new.gains_at ≡ self.old.gains_at }
    {
        if let Ok(None) = gave {
            self.rewriting = Some(RewriteWait { question, ends });
        }
    }

    /// What a question to the rewriter came to. Where it has not ended, the next wait is for it.
    pub(crate) fn take_rewrite<R: Wait>(
        &mut self,
        rt: &R,
        rewriter: Option<&RewriterRoom>,
        question: QuestionNo,
    ) -> Result<Option<Rewriting>, RewriteFault>
        ensures open { IfOk result
            (λ o. IfNone o (IsSomeAnd self.new.rewriting (λ w. w.question ≡ question))) }
        ensures ended { IfOk result
            (λ o. IfSome o (λ _. self.new.rewriting ≡ self.old.rewriting)) }
        ensures refused { OnErr result (self.new.rewriting ≡ self.old.rewriting) }
        ensures question { self.new.question ≡ self.old.question }
        ensures gains_at { self.new.gains_at ≡ self.old.gains_at }
    {
        let Some(rewriter) = rewriter else {
            return Err(RewriteFault::UnknownQuestion(question));
        };
        let (gave, ends) = rewriter.take(rt, question);
        self.taken(question, &gave, ends);
        gave
    }

    /// Waits until something changed.
    pub(crate) fn wait<R: Wait, D: DeskCalls, B: Ledgers>(
        &mut self,
        rt: &R,
        rooms: &SessionRooms<'_, D, B>,
    ) {
        if let (Some(rewriter), Some(wait)) = (rooms.rewriter, self.rewriting.take()) {
            rewriter.wait_answered(rt, wait.question, wait.ends);
            return;
        }
        wait_answered(rt, rooms.room, self.question);
    }

    /// Waits until buckets gain, a second at most.
    pub(crate) fn pause<C: Clock>(&self, clock: &mut C) {
        rest(clock, self.gains_at);
    }
}
