//! The rewriter's lock. Each call is one hold of it, in which it makes the one call of its name with the arguments that it was
//! handed; then it wakes whom that concerns. Nothing is proved here of what lies under the lock, and nothing is said of when a
//! thread wakes.
use crate::acts::RewriteAct;
use crate::faults::RewriteFault;
use crate::rewriter_hall::RewriterHall;
use crate::rewriters::Rewriter;
use crate::rewritings::Rewriting;
use sq_base::{Addr, ProcNo, QuestionNo, Request, WantOfMemory};
use sq_farm::Got;
use std::alloc::Global;
use std::sync::{Condvar, Mutex, Wait};

/// The rewriter behind its lock, and where threads sleep: each session at a place of its own, or at `others` where there are
/// more of them than places, the pump at `due` until an act may be due.
#[derive(Drop)]
pub struct RewriterRoom {
    hall: Mutex<RewriterHall>,
    answered: Vec<Condvar>,
    others: Condvar,
    due: Condvar,
}

impl RewriterRoom {
    /// A lock round this rewriter, with a place for each of so many workers.
    pub fn new(
        alloc: Global,
        rewriter: Rewriter,
        workers: u32,
    ) -> Result<RewriterRoom, WantOfMemory> {
        let places = workers as usize;
        let hall = RewriterHall::new(alloc, rewriter, places)?;
        let mut answered = Vec::new(alloc);
        answered.reserve(places)?;
        for _ in 0..places {
            answered.push_reserved(Condvar::new());
        }
        Ok(RewriterRoom {
            hall: Mutex::new(hall),
            answered,
            others: Condvar::new(),
            due: Condvar::new(),
        })
    }

    // Where the session sleeps that was given this place.
    fn place(&self, place: Option<usize>) -> &Condvar {
        match place {
            None => &self.others,
            Some(place) => match self.answered.get(place) {
                None => &self.others,
                Some(condition) => condition,
            },
        }
    }

    // Wakes the pump, and all sessions: any question may have ended.
    fn wake_all(&self) {
        for condition in &self.answered {
            condition.notify_all();
        }
        self.others.notify_all();
        self.due.notify_all();
    }

    // After a line of a process: the session that waits for the question that it replied to learns it, or all sessions where it ended
    // the process.
    fn wake_after_line(&self, gave: &Result<Got, RewriteFault>, place: Option<usize>) {
        match gave {
            Ok(Got::Reply(_, _)) => {
                self.place(place).notify_all();
                self.due.notify_all();
            }
            Ok(Got::Bad) | Ok(Got::Stray) => self.wake_all(),
            Err(_) => {}
        }
    }

    /// Puts the question about a request of the client with this address. The pump learns it.
    pub fn ask<R: Wait>(
        &self,
        rt: &R,
        alloc: Global,
        request: &Request,
        addr: Addr,
    ) -> Result<QuestionNo, RewriteFault> {
        let gave = self.hall.lock(rt).ask(alloc, request, addr);
        self.due.notify_all();
        gave
    }

    /// What a question came to, which can be taken once, and how often a question may have ended by then.
    pub fn take<R: Wait>(
        &self,
        rt: &R,
        question: QuestionNo,
    ) -> (Result<Option<Rewriting>, RewriteFault>, u64) {
        let mut hall = self.hall.lock(rt);
        let gave = hall.take(question);
        (gave, hall.ends())
    }

    /// The next act that is due.
    pub fn act<R: Wait>(&self, rt: &R) -> Option<RewriteAct> {
        self.hall.lock(rt).act()
    }

    /// A process runs for an open start.
    pub fn started<R: Wait>(&self, rt: &R, alloc: Global) -> Result<ProcNo, RewriteFault> {
        let gave = self.hall.lock(rt).started(alloc);
        self.due.notify_all();
        gave
    }

    /// A start failed. Who waits for a question learns it.
    pub fn start_failed<R: Wait>(&self, rt: &R) -> Result<(), RewriteFault> {
        let gave = self.hall.lock(rt).start_failed();
        self.wake_all();
        gave
    }

    /// A process wrote a line. Who waits for what that ended learns it.
    pub fn line<R: Wait>(
        &self,
        rt: &R,
        alloc: Global,
        proc: ProcNo,
        bytes: &[u8],
    ) -> Result<Got, RewriteFault> {
        let (gave, place) = {
            let mut hall = self.hall.lock(rt);
            let gave = hall.line(alloc, proc, bytes);
            let place = hall.sleeper_after(&gave);
            (gave, place)
        };
        self.wake_after_line(&gave, place);
        gave
    }

    /// A process died. Who waits for a question learns it.
    pub fn died<R: Wait>(&self, rt: &R, proc: ProcNo) -> Result<(), RewriteFault> {
        let gave = self.hall.lock(rt).died(proc);
        self.wake_all();
        gave
    }

    /// How often an act may have become due, or a keeper have ended, so far.
    pub fn changes<R: Wait>(&self, rt: &R) -> u64 {
        self.hall.lock(rt).changes()
    }

    /// Sleeps, as a session does that waits for this question, until a question may have ended more often than this.
    pub fn wait_answered<R: Wait>(&self, rt: &R, question: QuestionNo, ends: u64) {
        let mut guard = self.hall.lock(rt);
        let place = guard.add_sleeper(question);
        let mut guard = self
            .place(place)
            .wait_while(rt, guard, |hall| hall.ends() == ends);
        guard.remove_sleeper(question);
    }

    /// Sleeps, as the pump does, until acts may have become due more often than this, or no more is to be done. Answers whether
    /// that is so.
    pub fn wait_due<R: Wait>(&self, rt: &R, seen: u64) -> bool {
        let guard = self.hall.lock(rt);
        let guard = self.due.wait_while(rt, guard, |hall| {
            hall.changes() == seen && !hall.is_done()
        });
        guard.is_done()
    }

    /// Whether no more is to be done.
    pub fn is_done<R: Wait>(&self, rt: &R) -> bool {
        self.hall.lock(rt).is_done()
    }

    /// A keeper has ended, and the pump learns it.
    pub fn tell_end<R: Wait>(&self, rt: &R) {
        self.hall.lock(rt).note_change();
        self.due.notify_all();
    }

    /// No more is to be done, and the pump learns it.
    pub fn set_done<R: Wait>(&self, rt: &R) {
        self.hall.lock(rt).set_done();
        self.due.notify_all();
    }
}
