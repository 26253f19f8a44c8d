//! The calls of the desk under its lock, each counted. Those of a session are made at the moment that its clock gives
//! there: it is the moment of the entry, and that at which a refusal is the machine's.
ghost use Rattle.std.specs.Prelude.{◌≡◌, ◌+◌, ◌<◌, [], true, IfNone, IfOk, IfSome, IsErrOf, OnErr, OnSome, nat_lt};
ghost use Rattle.sq_calls.specs.declared.faults.DeskFault.TheVariants as fault;
ghost use Rattle.sq_calls.specs.Legality.{IsStated};
ghost use Rattle.sq_calls.specs.Moments.{AtMoment};
ghost use Rattle.sq_calls.specs.Telling.{IsAsking, IsClosing, IsDead, IsFailed, IsLine, IsOpening, IsReread, IsStarted, IsStep, IsStepTold, IsTakeTold, IsTaking, IsUnrefused, MayAct, Notes, NotesAs, Refuses, RefusesAt, got_told, reports_stop};
ghost use Rattle.sq_machine.specs.declared.entries.Event.TheVariants as event;
ghost use Rattle.sq_machine.specs.declared.entries.Told.TheVariants as answer;
ghost use Rattle.sq_shared.specs.Books.{SharesLine, SharesMade, SharesRefusal};
ghost use Rattle.sq_shared.specs.Waking.{after_line, after_step, current_after, may_ask, oldest_after, one_more, raised_if};

use crate::counting::{count, count_line, count_made};
use crate::hall::Hall;
use crate::ledgers::{Asks, Ledgers, Makes, Refusals};
use crate::older::may_ask;
use sq_base::{Addr, CheckNo, ConnNo, EpochNo, Moment, ProcNo, Request};
use sq_calls::{DeskCalls, DeskFault};
use sq_channel::Got;
use sq_checks::Record;
use sq_machine::Act;
use sq_model::Stepped;
use sq_outside::Clock;
use sq_urlmatch::Setup;
use std::alloc::Global;
use std::sync::ledger::Share;

impl<D: DeskCalls, B: Ledgers> Hall<D, B> {
    /// A client's connection opens.
    #[tactic(auto, using(crate::proofs::BookLaws::kept_open, crate::proofs::BookLaws::kept_refusal))]
    pub fn open<C: Clock>(
        &mut self,
        conn: ConnNo,
        addr: Addr,
        port: u16,
        clock: &mut C,
        refused: &mut Share<Refusals<B>>,
    ) -> Result<(), DeskFault>
        requires { 0 < refused.old.parts }
        ensures noted { AtMoment (C.moments clock.old) (C.moments clock.new)
            (λ now. Notes D.first now (λ _. answer.Fine) (IsOpening conn addr port)
            (D.told self.old.desk) (D.told self.new.desk) result
            × Refuses D.first now (event.Open conn addr port) (D.told self.old.desk) result) }
        ensures refused { SharesRefusal refused.old.amount refused.new.amount result }
        ensures parts { refused.new.parts ≡ refused.old.parts }
        ensures changes { self.new.changes ≡ self.old.changes }
        ensures awaited { self.new.awaited ≡ self.old.awaited }
    {
        let now = clock.now();
        let Hall { desk, refusals, .. } = self;
        let gave = desk.open(conn, addr, port, now);
        count(refusals, refused, &gave);
        gave
    }

    /// A connection closes.
    #[tactic(auto, using(crate::proofs::BookLaws::kept_close, crate::proofs::BookLaws::kept_refusal))]
    pub fn close<C: Clock>(
        &mut self,
        conn: ConnNo,
        clock: &mut C,
        refused: &mut Share<Refusals<B>>,
    ) -> Result<(), DeskFault>
        requires { 0 < refused.old.parts }
        ensures noted { AtMoment (C.moments clock.old) (C.moments clock.new)
            (λ now. Notes D.first now (λ _. answer.Fine) (IsClosing conn) (D.told self.old.desk)
            (D.told self.new.desk) result
            × Refuses D.first now (event.Close conn) (D.told self.old.desk) result) }
        ensures memory { IsErrOf result fault.WantOfMemory → ⊥ }
        ensures refused { SharesRefusal refused.old.amount refused.new.amount result }
        ensures parts { refused.new.parts ≡ refused.old.parts }
        ensures changes { self.new.changes
            ≡ raised_if (nat_lt self.old.older.oldest self.old.older.current) self.old.changes }
        ensures awaited { self.new.awaited ≡ self.old.awaited }
    {
        let now = clock.now();
        let Hall {
            desk,
            refusals,
            changes,
            older,
            ..
        } = self;
        if older.may_live() {
            *changes = changes.wrapping_add(1);
        }
        let gave = desk.close(conn, now);
        count(refusals, refused, &gave);
        gave
    }

    /// A request arrives on a connection.
    #[tactic(auto, using(crate::proofs::BookLaws::kept_ask, crate::proofs::BookLaws::kept_refusal))]
    pub fn ask<C: Clock>(
        &mut self,
        alloc: Global,
        conn: ConnNo,
        request: Request,
        clock: &mut C,
        asked: &mut Share<Asks<B>>,
        refused: &mut Share<Refusals<B>>,
    ) -> Result<CheckNo, DeskFault>
        requires asked { 0 < asked.old.parts }
        requires refused { 0 < refused.old.parts }
        ensures noted { AtMoment (C.moments clock.old) (C.moments clock.new)
            (λ now. Notes D.first now answer.Check (IsAsking conn request) (D.told self.old.desk)
            (D.told self.new.desk) result
            × Refuses D.first now
            (event.Ask conn request.method request.target request.fields) (D.told self.old.desk)
            result) }
        ensures asked { SharesMade asked.old.amount asked.new.amount result }
        ensures asked_parts { asked.new.parts ≡ asked.old.parts }
        ensures refused { SharesRefusal refused.old.amount refused.new.amount result }
        ensures parts { refused.new.parts ≡ refused.old.parts }
        ensures changes { self.new.changes ≡ self.old.changes }
        ensures awaited { self.new.awaited ≡ self.old.awaited }
    {
        let now = clock.now();
        let Hall {
            desk,
            requests,
            refusals,
            ..
        } = self;
        let gave = desk.ask(alloc, conn, request, now);
        count_made(requests, asked, &gave);
        count(refusals, refused, &gave);
        gave
    }

    /// A check goes on.
    #[tactic(auto, using(crate::proofs::BookLaws::kept_step, crate::proofs::BookLaws::kept_refusal))]
    pub fn step<C: Clock>(
        &mut self,
        alloc: Global,
        check: CheckNo,
        clock: &mut C,
        refused: &mut Share<Refusals<B>>,
    ) -> Result<Stepped, DeskFault>
        requires { 0 < refused.old.parts }
        ensures noted { AtMoment (C.moments clock.old) (C.moments clock.new)
            (λ now. NotesAs D.first now IsStepTold (IsStep check) (D.told self.old.desk)
            (D.told self.new.desk) result
            × Refuses D.first now (event.Step check) (D.told self.old.desk) result) }
        ensures refused { SharesRefusal refused.old.amount refused.new.amount result }
        ensures parts { refused.new.parts ≡ refused.old.parts }
        ensures changes { self.new.changes ≡ raised_if (may_ask result) self.old.changes }
        ensures awaited { self.new.awaited.questions.items
            ≡ after_step result self.old.awaited.questions.items }
    {
        let now = clock.now();
        let Hall {
            desk,
            refusals,
            changes,
            awaited,
            ..
        } = self;
        if awaited.reserve().is_err() {
            return Err(DeskFault::WantOfMemory);
        }
        let gave = desk.step(alloc, check, now);
        if may_ask(&gave) {
            *changes = changes.wrapping_add(1);
        }
        awaited.begin(&gave);
        count(refusals, refused, &gave);
        gave
    }

    /// The outcome of a check is taken.
    #[tactic(auto, using(crate::proofs::BookLaws::kept_take, crate::proofs::BookLaws::kept_refusal))]
    pub fn take<C: Clock>(
        &mut self,
        alloc: Global,
        check: CheckNo,
        clock: &mut C,
        refused: &mut Share<Refusals<B>>,
    ) -> Result<Record, DeskFault>
        requires { 0 < refused.old.parts }
        ensures noted { AtMoment (C.moments clock.old) (C.moments clock.new)
            (λ now. NotesAs D.first now IsTakeTold (IsTaking check) (D.told self.old.desk)
            (D.told self.new.desk) result
            × Refuses D.first now (event.Take check) (D.told self.old.desk) result) }
        ensures record { IfOk result (λ r. r.check ≡ check) }
        ensures refused { SharesRefusal refused.old.amount refused.new.amount result }
        ensures parts { refused.new.parts ≡ refused.old.parts }
        ensures changes { self.new.changes
            ≡ raised_if (nat_lt self.old.older.oldest self.old.older.current) self.old.changes }
        ensures awaited { self.new.awaited ≡ self.old.awaited }
    {
        let now = clock.now();
        let Hall {
            desk,
            refusals,
            changes,
            older,
            ..
        } = self;
        if older.may_live() {
            *changes = changes.wrapping_add(1);
        }
        let gave = desk.take(alloc, check, now);
        count(refusals, refused, &gave);
        gave
    }

    /// A process was started.
    #[tactic(auto, using(crate::proofs::BookLaws::kept_started, crate::proofs::BookLaws::kept_refusal))]
    pub fn started(
        &mut self,
        alloc: Global,
        epoch: EpochNo,
        class: u32,
        now: Moment,
        refused: &mut Share<Refusals<B>>,
    ) -> Result<ProcNo, DeskFault>
        requires { 0 < refused.old.parts }
        ensures noted { Notes D.first now answer.Proc
            (IsStarted D.first (D.told self.old.desk) epoch class) (D.told self.old.desk)
            (D.told self.new.desk) result }
        ensures refuses { RefusesAt D.first now (λ name. event.Started epoch name) epoch class
            (D.told self.old.desk) result }
        ensures stopped { D.is_stopped self.new.desk ≡ reports_stop result }
        ensures refused { SharesRefusal refused.old.amount refused.new.amount result }
        ensures parts { refused.new.parts ≡ refused.old.parts }
        ensures changes { self.new.changes ≡ one_more self.old.changes }
        ensures awaited { self.new.awaited ≡ self.old.awaited }
    {
        let Hall {
            desk,
            refusals,
            changes,
            ..
        } = self;
        *changes = changes.wrapping_add(1);
        let gave = desk.started(alloc, epoch, class, now);
        count(refusals, refused, &gave);
        gave
    }

    /// A start failed.
    #[tactic(auto, using(crate::proofs::BookLaws::kept_failed, crate::proofs::BookLaws::kept_refusal))]
    pub fn start_failed(
        &mut self,
        alloc: Global,
        epoch: EpochNo,
        class: u32,
        now: Moment,
        refused: &mut Share<Refusals<B>>,
    ) -> Result<(), DeskFault>
        requires { 0 < refused.old.parts }
        ensures noted { Notes D.first now (λ _. answer.Fine)
            (IsFailed D.first (D.told self.old.desk) epoch class) (D.told self.old.desk)
            (D.told self.new.desk) result }
        ensures refuses { RefusesAt D.first now (λ name. event.StartFail epoch name) epoch class
            (D.told self.old.desk) result }
        ensures stopped { D.is_stopped self.new.desk ≡ reports_stop result }
        ensures refused { SharesRefusal refused.old.amount refused.new.amount result }
        ensures parts { refused.new.parts ≡ refused.old.parts }
        ensures changes { self.new.changes ≡ one_more self.old.changes }
        ensures awaited { self.new.awaited.questions.items ≡ [] }
    {
        let Hall {
            desk,
            refusals,
            changes,
            awaited,
            ..
        } = self;
        *changes = changes.wrapping_add(1);
        awaited.clear();
        let gave = desk.start_failed(alloc, epoch, class, now);
        count(refusals, refused, &gave);
        gave
    }

    /// A process wrote a line.
    #[tactic(auto, using(crate::proofs::BookLaws::kept_line, crate::proofs::BookLaws::kept_line_refusal))]
    pub fn line(
        &mut self,
        alloc: Global,
        proc: ProcNo,
        bytes: &[u8],
        now: Moment,
        refused: &mut Share<Refusals<B>>,
    ) -> Result<Got, DeskFault>
        requires { 0 < refused.old.parts }
        ensures noted { Notes D.first now got_told (IsLine proc bytes.now) (D.told self.old.desk)
            (D.told self.new.desk) result }
        ensures refuses { Refuses D.first now (event.Line proc bytes.now) (D.told self.old.desk)
            result }
        ensures stopped { D.is_stopped self.new.desk ≡ reports_stop result }
        ensures refused { SharesLine refused.old.amount refused.new.amount result }
        ensures parts { refused.new.parts ≡ refused.old.parts }
        ensures changes { self.new.changes ≡ one_more self.old.changes }
        ensures awaited { self.new.awaited.questions.items
            ≡ after_line result self.old.awaited.questions.items }
    {
        let Hall {
            desk,
            refusals,
            changes,
            awaited,
            ..
        } = self;
        *changes = changes.wrapping_add(1);
        let gave = desk.line(alloc, proc, bytes, now);
        awaited.end(&gave);
        count_line(refusals, refused, &gave);
        gave
    }

    /// A process died.
    #[tactic(auto, using(crate::proofs::BookLaws::kept_died, crate::proofs::BookLaws::kept_refusal))]
    pub fn died(
        &mut self,
        proc: ProcNo,
        now: Moment,
        refused: &mut Share<Refusals<B>>,
    ) -> Result<(), DeskFault>
        requires { 0 < refused.old.parts }
        ensures noted { Notes D.first now (λ _. answer.Fine) (IsDead proc) (D.told self.old.desk)
            (D.told self.new.desk) result }
        ensures memory { IsErrOf result fault.WantOfMemory → ⊥ }
        ensures refuses { Refuses D.first now (event.Died proc) (D.told self.old.desk) result }
        ensures stopped { D.is_stopped self.new.desk ≡ reports_stop result }
        ensures refused { SharesRefusal refused.old.amount refused.new.amount result }
        ensures parts { refused.new.parts ≡ refused.old.parts }
        ensures changes { self.new.changes ≡ one_more self.old.changes }
        ensures awaited { self.new.awaited.questions.items ≡ [] }
    {
        let Hall {
            desk,
            refusals,
            changes,
            awaited,
            ..
        } = self;
        *changes = changes.wrapping_add(1);
        awaited.clear();
        let gave = desk.died(proc, now);
        count(refusals, refused, &gave);
        gave
    }

    /// The next act that is due. The machine refuses none.
    #[tactic(auto, using(crate::proofs::BookLaws::counted_act, crate::proofs::BookLaws::kept_refusal))]
    pub fn act(
        &mut self,
        alloc: Global,
        now: Moment,
        refused: &mut Share<Refusals<B>>,
    ) -> Result<Option<Act>, DeskFault>
        requires { 0 < refused.old.parts }
        ensures noted { MayAct D.first now (D.told self.old.desk) (D.told self.new.desk) result }
        ensures unrefused { IsUnrefused result }
        ensures refuses { Refuses D.first now event.Act (D.told self.old.desk) result }
        ensures stopped { D.is_stopped self.new.desk ≡ reports_stop result }
        ensures refused { SharesRefusal refused.old.amount refused.new.amount result }
        ensures parts { refused.new.parts ≡ refused.old.parts }
        ensures changes { self.new.changes ≡ self.old.changes }
        ensures awaited { self.new.awaited ≡ self.old.awaited }
        // Where nothing is due, the oldest epoch is let go where it lives no more and is not current.
        ensures oldest { IfOk result (λ o. IfNone o
            (IfSome (D.configs self.new.desk self.old.older.oldest)
            (λ c. self.new.older.oldest
            ≡ oldest_after c self.old.older.oldest self.old.older.current))) }
        ensures older { IfOk result (λ o. OnSome o (self.new.older ≡ self.old.older)) }
        ensures older_err { OnErr result (self.new.older ≡ self.old.older) }
        ensures current { self.new.older.current ≡ self.old.older.current }
    {
        let Hall {
            desk,
            refusals,
            older,
            ..
        } = self;
        let gave = desk.act(alloc, now);
        if let Ok(None) = gave {
            older.forget(&*desk);
        }
        count(refusals, refused, &gave);
        gave
    }

    /// Another configuration is current.
    #[tactic(auto, using(crate::proofs::BookLaws::kept_reread, crate::proofs::BookLaws::kept_refusal, crate::proofs::BookLaws::kept_made, crate::proofs::BookLaws::epoch_whole))]
    pub fn reconfigure(
        &mut self,
        alloc: Global,
        setup: Setup,
        now: Moment,
        made: &mut Share<Makes<B>>,
        refused: &mut Share<Refusals<B>>,
    ) -> Result<EpochNo, DeskFault>
        requires stated { IsStated setup }
        requires counting { D.is_counting ≡ true }
        requires made { 0 < made.old.parts }
        requires refused { 0 < refused.old.parts }
        ensures noted { Notes D.first now answer.Epoch (IsReread setup) (D.told self.old.desk)
            (D.told self.new.desk) result }
        ensures refuses { Refuses D.first now (event.Reconfigure setup.source)
            (D.told self.old.desk) result }
        ensures rereads { D.rereads self.old.desk setup now result self.new.desk }
        ensures made { SharesMade made.old.amount made.new.amount result }
        ensures made_parts { made.new.parts ≡ made.old.parts }
        // Where the share is the whole book's, it tells the number of the epoch.
        ensures whole { made.old.parts ≡ B.makes.parts
            → IfOk result (λ e. e ≡ made.new.amount + 1) }
        ensures refused { SharesRefusal refused.old.amount refused.new.amount result }
        ensures parts { refused.new.parts ≡ refused.old.parts }
        ensures changes { self.new.changes ≡ one_more self.old.changes }
        ensures awaited { self.new.awaited ≡ self.old.awaited }
        ensures current { self.new.older.current ≡ current_after result self.old.older.current }
        ensures oldest { self.new.older.oldest ≡ self.old.older.oldest }
    {
        let Hall {
            desk,
            makes,
            refusals,
            changes,
            older,
            ..
        } = self;
        *changes = changes.wrapping_add(1);
        makes.audit(made);
        let gave = desk.reconfigure(alloc, setup, now);
        if let Ok(epoch) = gave {
            older.begin(epoch);
        }
        count_made(makes, made, &gave);
        count(refusals, refused, &gave);
        gave
    }
}
