//! The rewriter of requests, as it lies behind its lock.
ghost use Rattle.std.specs.Prelude.{◌≡◌, true, IfOk, IfErr, IfSome, IfNone, MatchOption, OnOk, OnErr};
ghost use Rattle.std.specs.Option.{option_map};
ghost use Rattle.sq_rewrite.specs.Calls.{Asked, Acted, Started, StartFailed, Wrote, Died, Took};
ghost use Rattle.sq_rewrite.specs.States.{Answers, Refuses, act_due, after, ask_refusal, fail_refusal, proc_refusal, row_at, start_refusal, take_refusal, taken_of};
ghost use Rattle.sq_rewrite.specs.Rounds.{one_more};

use crate::acts::RewriteAct;
use crate::faults::RewriteFault;
use crate::rewriters::Rewriter;
use crate::rewritings::Rewriting;
use crate::sleepers::Sleepers;
use sq_base::{Addr, ProcNo, QuestionNo, Request, WantOfMemory};
use sq_farm::Got;
use std::alloc::Global;

/// A rewriter, how often an act of it may have become due or a keeper have ended, how often a question to it may have ended,
/// the sessions that sleep meanwhile, and whether no more is to be done. Both counts go round at 2^64.
#[derive(Drop)]
pub struct RewriterHall {
    rewriter: Rewriter,
    changes: u64,
    ends: u64,
    sleepers: Sleepers,
    done: bool,
}

impl RewriterHall {
    /// This rewriter, of which more is to be done, with places for so many sessions that sleep.
    pub fn new(
        alloc: Global,
        rewriter: Rewriter,
        places: usize,
    ) -> Result<RewriterHall, WantOfMemory>
        ensures { IfOk result (λ hall. hall.rewriter ≡ rewriter) }
    {
        let sleepers = Sleepers::new(alloc, places)?;
        Ok(RewriterHall {
            rewriter,
            changes: 0,
            ends: 0,
            sleepers,
            done: false,
        })
    }

    // Gives a place to a session that is about to sleep until this question has ended.
    pub(crate) fn add_sleeper(&mut self, question: QuestionNo) -> Option<usize>
        ensures rewriter { self.new.rewriter ≡ self.old.rewriter }
        ensures changes { self.new.changes ≡ self.old.changes }
        ensures ends { self.new.ends ≡ self.old.ends }
    {
        self.sleepers.add(question)
    }

    // The session that waits for this question has woken.
    pub(crate) fn remove_sleeper(&mut self, question: QuestionNo)
        ensures rewriter { self.new.rewriter ≡ self.old.rewriter }
        ensures changes { self.new.changes ≡ self.old.changes }
        ensures ends { self.new.ends ≡ self.old.ends }
    {
        self.sleepers.remove(question);
    }

    // The place of the session that sleeps until a question has ended to which a line replied.
    pub(crate) fn sleeper_after(&self, gave: &Result<Got, RewriteFault>) -> Option<usize> {
        match gave {
            Ok(Got::Reply(question, _)) => self.sleepers.place_of(*question),
            Ok(Got::Bad) | Ok(Got::Stray) | Err(_) => None,
        }
    }

    /// How often an act may have become due, or a keeper have ended.
    pub fn changes(&self) -> u64
        ensures { result ≡ self.now.changes }
    {
        self.changes
    }

    /// How often a question may have ended.
    pub fn ends(&self) -> u64
        ensures { result ≡ self.now.ends }
    {
        self.ends
    }

    /// Whether no more is to be done.
    pub fn is_done(&self) -> bool
        ensures { result ≡ self.now.done }
    {
        self.done
    }

    /// No more is to be done from here on.
    pub fn set_done(&mut self)
        ensures done { self.new.done ≡ true }
        ensures rewriter { self.new.rewriter ≡ self.old.rewriter }
    {
        self.done = true;
    }

    /// An act may have become due, or a keeper has ended: the pump has to look.
    pub fn note_change(&mut self)
        ensures changes { self.new.changes ≡ one_more self.old.changes }
        ensures ends { self.new.ends ≡ self.old.ends }
        ensures rewriter { self.new.rewriter ≡ self.old.rewriter }
    {
        self.changes = self.changes.wrapping_add(1);
    }

    // A question may have ended, too: who waits for one has to look.
    fn note_end(&mut self)
        ensures changes { self.new.changes ≡ one_more self.old.changes }
        ensures ends { self.new.ends ≡ one_more self.old.ends }
        ensures rewriter { self.new.rewriter ≡ self.old.rewriter }
    {
        self.note_change();
        self.ends = self.ends.wrapping_add(1);
    }

    /// Puts the question about a request of the client with this address.
    pub fn ask(
        &mut self,
        alloc: Global,
        request: &Request,
        addr: Addr,
    ) -> Result<QuestionNo, RewriteFault>
        ensures refused { IfErr result (Refuses (ask_refusal self.old.rewriter)) }
        ensures answers { IfOk result
            (λ q. Answers (Asked request.now addr q) self.old.rewriter) }
        ensures ok { IfOk result
            (λ q. self.new.rewriter ≡ after (Asked request.now addr q) self.old.rewriter) }
        ensures err { OnErr result (self.new.rewriter ≡ self.old.rewriter) }
        ensures changes { self.new.changes ≡ one_more self.old.changes }
        ensures ends { self.new.ends ≡ self.old.ends }
    {
        self.note_change();
        self.rewriter.ask(alloc, request, addr)
    }

    /// What a question came to, which can be taken once; `None` where it has not ended. It takes no memory.
    pub fn take(&mut self, question: QuestionNo) -> Result<Option<Rewriting>, RewriteFault>
        ensures refused { IfErr result (λ e. take_refusal question self.old.rewriter ≡ Some e) }
        ensures row { IfOk result
            (λ o. option_map taken_of (row_at question self.old.rewriter.rows) ≡ Some o) }
        ensures answers { IfOk result
            (λ o. IfSome o (λ w. Answers (Took question w) self.old.rewriter)) }
        ensures ok { IfOk result
            (λ o. MatchOption o (self.new.rewriter ≡ self.old.rewriter)
            (λ w. self.new.rewriter ≡ after (Took question w) self.old.rewriter)) }
        ensures err { OnErr result (self.new.rewriter ≡ self.old.rewriter) }
        ensures changes { self.new.changes ≡ self.old.changes }
        ensures ends { self.new.ends ≡ self.old.ends }
    {
        self.rewriter.take(question)
    }

    /// The next act that is due, which is made with this call. It takes no memory.
    pub fn act(&mut self) -> Option<RewriteAct>
        ensures due { result ≡ act_due self.old.rewriter }
        ensures some { IfSome result
            (λ a. self.new.rewriter ≡ after (Acted a) self.old.rewriter) }
        ensures none { IfNone result (self.new.rewriter ≡ self.old.rewriter) }
        ensures changes { self.new.changes ≡ self.old.changes }
        ensures ends { self.new.ends ≡ self.old.ends }
    {
        self.rewriter.act()
    }

    /// A process runs for an open start. It gets the next number.
    pub fn started(&mut self, alloc: Global) -> Result<ProcNo, RewriteFault>
        ensures refused { IfErr result (Refuses (start_refusal self.old.rewriter)) }
        ensures answers { IfOk result (λ k. Answers (Started k) self.old.rewriter) }
        ensures ok { IfOk result
            (λ k. self.new.rewriter ≡ after (Started k) self.old.rewriter) }
        ensures err { OnErr result (self.new.rewriter ≡ self.old.rewriter) }
        ensures changes { self.new.changes ≡ one_more self.old.changes }
        ensures ends { self.new.ends ≡ self.old.ends }
    {
        self.note_change();
        self.rewriter.started(alloc)
    }

    /// A start failed. It takes no memory.
    pub fn start_failed(&mut self) -> Result<(), RewriteFault>
        ensures refused { IfErr result (λ e. fail_refusal self.old.rewriter ≡ Some e) }
        ensures answers { OnOk result (Answers StartFailed self.old.rewriter) }
        ensures ok { OnOk result (self.new.rewriter ≡ after StartFailed self.old.rewriter) }
        ensures err { OnErr result (self.new.rewriter ≡ self.old.rewriter) }
        ensures changes { self.new.changes ≡ one_more self.old.changes }
        ensures ends { self.new.ends ≡ one_more self.old.ends }
    {
        self.note_end();
        self.rewriter.start_failed()
    }

    /// A process wrote a line.
    pub fn line(&mut self, alloc: Global, proc: ProcNo, bytes: &[u8]) -> Result<Got, RewriteFault>
        ensures refused { IfErr result (Refuses (proc_refusal proc self.old.rewriter)) }
        ensures answers { IfOk result
            (λ g. Answers (Wrote proc bytes.now g) self.old.rewriter) }
        ensures ok { IfOk result
            (λ g. self.new.rewriter ≡ after (Wrote proc bytes.now g) self.old.rewriter) }
        ensures err { OnErr result (self.new.rewriter ≡ self.old.rewriter) }
        ensures changes { self.new.changes ≡ one_more self.old.changes }
        ensures ends { self.new.ends ≡ one_more self.old.ends }
    {
        self.note_end();
        self.rewriter.line(alloc, proc, bytes)
    }

    /// A process died. It takes no memory.
    pub fn died(&mut self, proc: ProcNo) -> Result<(), RewriteFault>
        ensures refused { IfErr result (λ e. proc_refusal proc self.old.rewriter ≡ Some e) }
        ensures answers { OnOk result (Answers (Died proc) self.old.rewriter) }
        ensures ok { OnOk result (self.new.rewriter ≡ after (Died proc) self.old.rewriter) }
        ensures err { OnErr result (self.new.rewriter ≡ self.old.rewriter) }
        ensures changes { self.new.changes ≡ one_more self.old.changes }
        ensures ends { self.new.ends ≡ one_more self.old.ends }
    {
        self.note_end();
        self.rewriter.died(proc)
    }
}
