//! `Rewriter`: the processes of a redirector, and the questions to them.
ghost use Rattle.std.specs.Prelude.{◌≡◌, ◌<◌, [], suc, true, false, if◌then◌else◌, Some, None, IfOk, IfErr, IfSome, IfNone, MatchOption, OnOk, OnErr};
ghost use Rattle.std.specs.Option.{option_map};
ghost use Rattle.sq_channel.specs.Gots.{names_open};
ghost use Rattle.sq_farm.specs.Replies.{got_of};
ghost use Rattle.sq_machine.specs.Farms.{places};
ghost use Rattle.sq_machine.specs.Limits.{last_number};
ghost use Rattle.sq_machine.specs.Living.{lives, slots_in};
ghost use Rattle.sq_rewrite.specs.Calls.{Asked, Acted, Started, StartFailed, Wrote, Died, Took};
ghost use Rattle.sq_rewrite.specs.States.{Answers, Refuses, act_due, after, answered_row, ask_refusal, begun, fail_refusal, is_spent, lost_rows, proc_refusal, row_at, rows_after, start_refusal, stops_after, take_refusal, taken_of};
ghost use Rattle.sq_rewrite.specs.declared.faults.RewriteFault.TheVariants as fault;

use crate::acts::{RewriteAct, as_act};
use crate::faults::RewriteFault;
use crate::rewritings::{Rewriting, question_text, rewriting_of};
use crate::rows::{QuestionRow, Questions};
use crate::stops::RewriterStops;
use sq_base::{Addr, Cause, Copying, ProcNo, QuestionNo, Reply, Request, WantOfMemory};
use sq_farm::{Farm, FarmFault, Got};
use sq_machine::LAST_NUMBER;
use sq_rules::Class;
use std::alloc::Global;
use std::marker::Model;

/// The processes of a redirector, and the questions to them.
pub struct Rewriter {
    farm: Farm,
    stops: RewriterStops,
    // How many questions and how many processes have a number.
    asked: u64,
    started: u64,
    questions: Questions,
}

// Written out, so that the drops of its parts are proved here alone, and not in each crate that lets a rewriter go.
impl Drop for Rewriter {
    fn drop(self) {
        let Rewriter {
            farm: _,
            stops: _,
            asked: _,
            started: _,
            questions: _,
        } = self;
    }
}

impl Model for Rewriter {
    ghost use Rattle.sq_rewrite.specs.States.{IsReached, RewriteState};

    ghost Value = { RewriteState };

    ghost view = { λ r. record {
      stock = r.farm;
      stops = r.stops;
      asked = r.asked;
      started = r.started;
      rows = r.questions;
    } };

    ghost invariant = { λ r. IsReached
        (record {
          stock = r.farm;
          stops = r.stops;
          asked = r.asked;
          started = r.started;
          rows = r.questions;
        }) };
}

// The number behind so many.
fn next_number(count: u64) -> Result<u64, RewriteFault>
    ensures next { IfOk result (λ n. n ≡ suc count) }
    ensures few { OnOk result (is_spent count ≡ false) }
    ensures spent { IfErr result (λ e. e ≡ fault.Spent last_number) }
    ensures many { OnErr result (is_spent count ≡ true) }
{
    if count >= LAST_NUMBER - 1 {
        Err(RewriteFault::Spent(LAST_NUMBER))
    } else {
        Ok(count + 1)
    }
}

// Ends the questions that an end or a failed start gave a fault.
fn hand_out(farm: &mut Farm, questions: &mut Questions)
    ensures farm { farm.new ≡ record farm.old { losses = [] } }
    ensures questions { questions.new ≡ lost_rows farm.old.losses questions.old }
{
    while let Some(loss) = farm.next_lost() {
        let (question, cause) = loss;
        questions.end(question, Rewriting::Same(Some(cause)));
    }
}

// What a line of a process comes to.
fn look(farm: &Farm, alloc: Global, proc: ProcNo, line: &[u8]) -> Result<Got, RewriteFault>
    ensures alive { OnOk result (lives proc farm.now.procs ≡ true) }
    ensures value { IfOk result (λ g. got_of proc farm.now line.now ≡ Some g) }
    ensures opened { IfOk result (names_open (slots_in proc farm.now.procs)) }
    ensures refused { IfErr result
        (Refuses (if lives proc farm.now.procs then None else Some (fault.UnknownProc proc))) }
{
    match farm.look(alloc, proc, line) {
        Ok(got) => Ok(got),
        Err(FarmFault::UnknownProc) => Err(RewriteFault::UnknownProc(proc)),
        Err(FarmFault::WantOfMemory) => Err(RewriteFault::WantOfMemory),
    }
}

// Ends a question by its reply.
fn answer(
    alloc: Global,
    questions: &mut Questions,
    question: QuestionNo,
    reply: &Reply,
) -> Result<(), WantOfMemory>
    ensures ok { OnOk result (questions.new ≡ answered_row question reply.now questions.old) }
    ensures err { OnErr result (questions.new ≡ questions.old) }
{
    match questions.row(question) {
        Some(QuestionRow::Open(request)) => {
            let rewriting = rewriting_of(alloc, reply, request)?;
            questions.end(question, rewriting);
            Ok(())
        }
        Some(QuestionRow::Ended(_)) => Ok(()),
        None => Ok(()),
    }
}

// What a line makes of the questions and of the stops that are due.
fn note(
    alloc: Global,
    stops: &mut RewriterStops,
    questions: &mut Questions,
    proc: ProcNo,
    got: &Got,
) -> Result<(), WantOfMemory>
    ensures stops { OnOk result (stops.new ≡ stops_after proc got.now stops.old) }
    ensures questions { OnOk result (questions.new ≡ rows_after got.now questions.old) }
    ensures err { OnErr result ((stops.new ≡ stops.old) × (questions.new ≡ questions.old)) }
{
    match got {
        Got::Reply(question, reply) => answer(alloc, questions, *question, reply),
        Got::Bad => stops.put(proc),
        Got::Stray => stops.put(proc),
    }
}

impl Rewriter {
    /// A rewriter of this class, without questions and processes. It takes no memory.
    pub fn new(alloc: Global, class: &Class) -> Rewriter
        ensures { result ≡ begun class.now }
    {
        Rewriter {
            farm: Farm::new(alloc, class),
            stops: RewriterStops::new(alloc),
            asked: 0,
            started: 0,
            questions: Questions::new(alloc),
        }
    }

    // For the proofs: the next numbers are new, and no lost question is left.
    fn has_new_numbers(&self)
        ensures question { places (suc self.now.asked) self.now.stock ≡ 0 }
        ensures row { row_at (suc self.now.asked) self.now.rows ≡ None }
        ensures proc { lives (suc self.now.started) self.now.stock.procs ≡ false }
    {
        let _ = &self.farm;
    }

    /// Puts the question about a request of the client with this address.
    pub fn ask(
        &mut self,
        alloc: Global,
        request: &Request,
        addr: Addr,
    ) -> Result<QuestionNo, RewriteFault>
        ensures refused { IfErr result (Refuses (ask_refusal self.old)) }
        ensures answers { IfOk result (λ q. Answers (Asked request.now addr q) self.old) }
        ensures ok { IfOk result (λ q. self.new ≡ after (Asked request.now addr q) self.old) }
        ensures err { OnErr result (self.new ≡ self.old) }
    {
        let number = next_number(self.asked)?;
        if self.farm.is_full() {
            return Err(RewriteFault::Full);
        }
        let question = QuestionNo(number);
        self.has_new_numbers();
        let text = question_text(alloc, request, addr)?;
        let copy = request.copy(alloc)?;
        self.questions.put(question, copy)?;
        match self.farm.put(question, text) {
            Ok(()) => {
                self.asked = number;
                Ok(question)
            }
            Err(_) => {
                self.questions.remove(question);
                Err(RewriteFault::WantOfMemory)
            }
        }
    }

    /// The next act that is due, which is made with this call: a stop, a send or a start. It takes no memory.
    pub fn act(&mut self) -> Option<RewriteAct>
        ensures due { result ≡ act_due self.old }
        ensures some { IfSome result (λ a. self.new ≡ after (Acted a) self.old) }
        ensures none { IfNone result (self.new ≡ self.old) }
    {
        match self.stops.next() {
            Some(proc) => Some(RewriteAct::Stop(proc)),
            None => as_act(self.farm.act()),
        }
    }

    /// A process runs for an open start. It gets the next number.
    pub fn started(&mut self, alloc: Global) -> Result<ProcNo, RewriteFault>
        ensures refused { IfErr result (Refuses (start_refusal self.old)) }
        ensures answers { IfOk result (λ k. Answers (Started k) self.old) }
        ensures ok { IfOk result (λ k. self.new ≡ after (Started k) self.old) }
        ensures err { OnErr result (self.new ≡ self.old) }
    {
        if !self.farm.start_open() {
            return Err(RewriteFault::NoStartOpen);
        }
        let number = next_number(self.started)?;
        let proc = ProcNo(number);
        self.has_new_numbers();
        match self.farm.started(alloc, proc) {
            Ok(()) => {
                self.started = number;
                Ok(proc)
            }
            Err(_) => Err(RewriteFault::WantOfMemory),
        }
    }

    /// A start failed. It takes no memory.
    pub fn start_failed(&mut self) -> Result<(), RewriteFault>
        ensures refused { IfErr result (λ e. fail_refusal self.old ≡ Some e) }
        ensures answers { OnOk result (Answers StartFailed self.old) }
        ensures ok { OnOk result (self.new ≡ after StartFailed self.old) }
        ensures err { OnErr result (self.new ≡ self.old) }
    {
        if self.farm.start_failed().is_err() {
            return Err(RewriteFault::NoStartOpen);
        }
        hand_out(&mut self.farm, &mut self.questions);
        Ok(())
    }

    /// What a line of a process comes to, and its change. A reply ends its question; any other line ends the
    /// process and what was sent to it, and then its stop is due.
    pub fn line(&mut self, alloc: Global, proc: ProcNo, bytes: &[u8]) -> Result<Got, RewriteFault>
        ensures refused { IfErr result (Refuses (proc_refusal proc self.old)) }
        ensures answers { IfOk result (λ g. Answers (Wrote proc bytes.now g) self.old) }
        ensures ok { IfOk result (λ g. self.new ≡ after (Wrote proc bytes.now g) self.old) }
        ensures err { OnErr result (self.new ≡ self.old) }
    {
        let got = look(&self.farm, alloc, proc, bytes)?;
        note(alloc, &mut self.stops, &mut self.questions, proc, &got)?;
        self.farm.settle(proc, &got);
        hand_out(&mut self.farm, &mut self.questions);
        Ok(got)
    }

    /// A process died, and the questions that were sent to it end. It takes no memory.
    pub fn died(&mut self, proc: ProcNo) -> Result<(), RewriteFault>
        ensures refused { IfErr result (λ e. proc_refusal proc self.old ≡ Some e) }
        ensures answers { OnOk result (Answers (Died proc) self.old) }
        ensures ok { OnOk result (self.new ≡ after (Died proc) self.old) }
        ensures err { OnErr result (self.new ≡ self.old) }
    {
        if !self.farm.end(proc, Cause::Died) {
            return Err(RewriteFault::UnknownProc(proc));
        }
        hand_out(&mut self.farm, &mut self.questions);
        Ok(())
    }

    /// What a question came to, which can be taken once; `None` where it has not ended. It takes no memory.
    pub fn take(&mut self, question: QuestionNo) -> Result<Option<Rewriting>, RewriteFault>
        ensures refused { IfErr result (λ e. take_refusal question self.old ≡ Some e) }
        ensures row { IfOk result
            (λ o. option_map taken_of (row_at question self.old.rows) ≡ Some o) }
        ensures answers { IfOk result (λ o. IfSome o (λ w. Answers (Took question w) self.old)) }
        ensures ok { IfOk result
            (λ o. MatchOption o (self.new ≡ self.old)
            (λ w. self.new ≡ after (Took question w) self.old)) }
        ensures err { OnErr result (self.new ≡ self.old) }
    {
        match self.questions.take(question) {
            Some(Some(rewriting)) => Ok(Some(rewriting)),
            Some(None) => Ok(None),
            None => Err(RewriteFault::UnknownQuestion(question)),
        }
    }
}
