//! The calls of a desk, by who makes them. Each makes the engine's call and notes its entry, and what holds of every desk
//! stays so.
ghost use Rattle.std.proofs.Common.{arith};
ghost use Rattle.std.specs.Prelude.{◌≡◌, IfOk, IsErrOf, Some, is_some, true, max};
ghost use Rattle.sq_base.specs.Targets.{target_of};
ghost use Rattle.sq_calls.specs.Legality.{IsStated};
ghost use Rattle.sq_calls.specs.Telling.{IsStepTold, IsTakeTold};
ghost use Rattle.sq_calls.specs.declared.faults.DeskFault.TheVariants as fault;
ghost use Rattle.sq_checks.specs.OpenChecks.{CheckParts};
ghost use Rattle.sq_checks.specs.Records.{judged_of};
ghost use Rattle.sq_checks.specs.Tables.{value_at};
ghost use Rattle.sq_notes.specs.Calling.{Acts, Makes, Reads, Rereads, after_died};
ghost use Rattle.sq_desk.specs.Tells.{Tells, TellsAct, TellsAs, TellsClass, TellsLine, TellsReread, programs_of, shown};
ghost use Rattle.sq_engine.specs.Acting.{IsActPromised};
ghost use Rattle.sq_engine.specs.EngineViews.{state_of};
ghost use Rattle.sq_engine.specs.Stepping.{after_step_now, epoch_of, step_now, stepped_told};
ghost use Rattle.sq_machine.specs.declared.entries.Event.TheVariants as event;
ghost use Rattle.sq_machine.specs.declared.entries.Told.TheVariants as told;
ghost use Rattle.sq_model.specs.Answers.{ask_answer, asked_in, close_answer, died_answer, failed_answer, name_in, open_answer, started_answer, take_answer};
ghost use Rattle.sq_model.specs.Changes.{after_ask, after_close, after_failed_at, after_open, after_started_at, after_take};

use crate::desks::{Desk, DeskStart};
use sq_base::{
    Addr, CheckNo, ConnNo, Copying, EpochNo, Moment, ProcNo, Request, Texts, WantOfMemory,
};
use sq_calls::{ConnCalls, ControlCalls, DeskCalls, DeskFault, HelperCalls, TellsJournal};
use sq_channel::Got;
use sq_checks::Record;
use sq_journal::Journal;
use sq_machine::Act;
use sq_model::Stepped;
use sq_notes::{acts, checks, conns, ends, lines, reconfiguring, starts, stepping, taking};
use sq_rules::Config;
use sq_urlmatch::Setup;
use std::alloc::Global;
use std::sync::Arc;

impl<J: Journal, F: DeskStart> TellsJournal for Desk<J, F> {
    ghost told = { λ d. d.notes.history };

    ghost first = { Some F.first };

    ghost refused = { shown };

    ghost made = { λ d. Some d.notes.made };

    ghost configs = { λ d epoch. Some ((state_of d.engine).config epoch) };

    fn config(&self, epoch: EpochNo) -> Option<Arc<Config>> {
        match self.engine.config(epoch) {
            Some(config) => match Arc::try_clone(config) {
                Ok(config) => Some(config),
                Err(_) => None,
            },
            None => None,
        }
    }

    fn lives(&self, epoch: EpochNo) -> bool {
        self.engine.config(epoch).is_some()
    }

    ghost capped = { λ d. Prim.search arith };
}

impl<J: Journal, F: DeskStart> ConnCalls for Desk<J, F> {
    fn open(&mut self, conn: ConnNo, addr: Addr, port: u16, now: Moment) -> Result<(), DeskFault>
        ensures tells { Tells F.first now (λ _. told.Fine) (event.Open conn addr port) self.old
            self.new result }
        ensures makes { Makes (λ _. told.Fine) (open_answer (state_of self.old.engine) conn)
            (max now self.old.engine.latest) (event.Open conn addr port)
            (after_open conn (record { addr = addr; port = port }) (max now self.old.engine.latest)
            (state_of self.old.engine)) self.old result self.new }
    {
        conns::open(&mut self.engine, &mut self.notes, conn, addr, port, now)
    }

    // The open check of the connection is dropped.
    fn close(&mut self, conn: ConnNo, now: Moment) -> Result<(), DeskFault>
        ensures tells { Tells F.first now (λ _. told.Fine) (event.Close conn) self.old self.new
            result }
        ensures makes { Makes (λ _. told.Fine) (close_answer (state_of self.old.engine) conn)
            (max now self.old.engine.latest) (event.Close conn)
            (after_close conn (max now self.old.engine.latest) (state_of self.old.engine)) self.old
            result self.new }
        ensures memory { IsErrOf result fault.WantOfMemory → ⊥ }
    {
        conns::close(&mut self.engine, &mut self.notes, conn, now)
    }

    fn ask(
        &mut self,
        alloc: Global,
        conn: ConnNo,
        request: Request,
        now: Moment,
    ) -> Result<CheckNo, DeskFault>
        ensures tells { Tells F.first now told.Check
            (event.Ask conn request.method request.target request.fields) self.old self.new
            result }
        ensures makes { Makes (λ n. told.Check n) (ask_answer (state_of self.old.engine) conn)
            (max now self.old.engine.latest)
            (event.Ask conn request.method request.target request.fields)
            (after_ask (asked_in (state_of self.old.engine) (max now self.old.engine.latest) conn
            request.method request.target request.fields) (max now self.old.engine.latest)
            (state_of self.old.engine))
            self.old result self.new }
        ensures formed { is_some (target_of request.method request.target) ≡ true }
    {
        checks::ask(&mut self.engine, &mut self.notes, alloc, conn, request, now)
    }

    // It takes an answer, waits for one, or has its outcome.
    fn step(&mut self, alloc: Global, check: CheckNo, now: Moment) -> Result<Stepped, DeskFault>
        ensures tells { TellsAs F.first now IsStepTold (event.Step check) self.old self.new result }
        ensures makes { Makes (stepped_told (state_of self.old.engine)
            (epoch_of (state_of self.old.engine) check))
            (step_now (state_of self.old.engine) check (max now self.old.engine.latest))
            (max now self.old.engine.latest) (event.Step check)
            (after_step_now (state_of self.old.engine) check (max now self.old.engine.latest))
            self.old result self.new }
    {
        stepping::step(&mut self.engine, &mut self.notes, alloc, check, now)
    }

    // The record comes exactly where its entry is in the journal.
    fn take(&mut self, alloc: Global, check: CheckNo, now: Moment) -> Result<Record, DeskFault>
        ensures tells { TellsAs F.first now IsTakeTold (event.Take check) self.old self.new result }
        ensures makes { Makes (λ r. told.Judged r.epoch r.outcome)
            (take_answer (state_of self.old.engine) check) (max now self.old.engine.latest)
            (event.Take check)
            (after_take check (max now self.old.engine.latest) (state_of self.old.engine)) self.old
            result self.new }
        ensures record { IfOk result (λ r. r.check ≡ check) }
        ensures parts { IfOk result
            (λ r. (k : CheckParts) → value_at self.old.engine.checks check ≡ Some k
            → r ≡ judged_of check r.outcome k) }
    {
        taking::take(&mut self.engine, &mut self.notes, alloc, check, now)
    }
}

impl<J: Journal, F: DeskStart> HelperCalls for Desk<J, F> {
    ghost programs = { programs_of };

    ghost is_stopped = { λ d. d.notes.stopped };

    // Where no start is open, the caller stops the process itself.
    fn started(
        &mut self,
        alloc: Global,
        epoch: EpochNo,
        class: u32,
        now: Moment,
    ) -> Result<ProcNo, DeskFault>
        ensures tells { TellsClass F.first now told.Proc (λ name. event.Started epoch name)
            (record { epoch = epoch; class = class }) self.old self.new result }
        ensures makes { Makes told.Proc
            (started_answer (state_of self.old.engine) (record { epoch = epoch; class = class }))
            (max now self.old.engine.latest)
            (event.Started epoch (name_in (state_of self.old.engine)
            (record { epoch = epoch; class = class })))
            (after_started_at (record { epoch = epoch; class = class })
            (max now self.old.engine.latest) (state_of self.old.engine)) self.old result self.new }
    {
        starts::started(&mut self.engine, &mut self.notes, alloc, epoch, class, now)
    }

    fn start_failed(
        &mut self,
        alloc: Global,
        epoch: EpochNo,
        class: u32,
        now: Moment,
    ) -> Result<(), DeskFault>
        ensures tells { TellsClass F.first now (λ _. told.Fine) (λ name. event.StartFail epoch name)
            (record { epoch = epoch; class = class }) self.old self.new result }
        ensures makes { Makes (λ _. told.Fine)
            (failed_answer (state_of self.old.engine) (record { epoch = epoch; class = class }))
            (max now self.old.engine.latest)
            (event.StartFail epoch (name_in (state_of self.old.engine)
            (record { epoch = epoch; class = class })))
            (after_failed_at (record { epoch = epoch; class = class })
            (max now self.old.engine.latest) (state_of self.old.engine)) self.old result self.new }
    {
        starts::start_failed(&mut self.engine, &mut self.notes, alloc, epoch, class, now)
    }

    // A reply to a question that is open on the process, or a line that ends it, which counts as a refusal.
    fn line(
        &mut self,
        alloc: Global,
        proc: ProcNo,
        bytes: &[u8],
        now: Moment,
    ) -> Result<Got, DeskFault>
        ensures tells { TellsLine F.first now proc bytes.now self.old self.new result }
        ensures reads { Reads (max now self.old.engine.latest) proc bytes.now self.old result
            self.new }
    {
        lines::line(&mut self.engine, &mut self.notes, alloc, proc, bytes, now)
    }

    fn died(&mut self, proc: ProcNo, now: Moment) -> Result<(), DeskFault>
        ensures tells { Tells F.first now (λ _. told.Fine) (event.Died proc) self.old self.new
            result }
        ensures makes { Makes (λ _. told.Fine) (died_answer (state_of self.old.engine) proc)
            (max now self.old.engine.latest) (event.Died proc)
            (after_died proc (max now self.old.engine.latest) (state_of self.old.engine)) self.old
            result self.new }
        ensures memory { IsErrOf result fault.WantOfMemory → ⊥ }
    {
        ends::died(&mut self.engine, &mut self.notes, proc, now)
    }

    fn act(&mut self, alloc: Global, now: Moment) -> Result<Option<Act>, DeskFault>
        ensures tells { TellsAct F.first now self.old self.new result }
        ensures acts { Acts (max now self.old.engine.latest) self.old result self.new }
        ensures promised { IfOk result
            (λ a. IsActPromised (state_of self.old.engine) (max now self.old.engine.latest) a
            (state_of self.new.engine)) }
    {
        acts::act(&mut self.engine, &mut self.notes, alloc, now)
    }

    fn words(
        &self,
        alloc: Global,
        epoch: EpochNo,
        class: u32,
    ) -> Result<Option<Texts>, WantOfMemory> {
        match self.engine.words(epoch, class) {
            Some(words) => match words.copy(alloc) {
                Ok(words) => Ok(Some(words)),
                Err(WantOfMemory) => Err(WantOfMemory),
            },
            None => Ok(None),
        }
    }
}

impl<J: Journal, F: DeskStart> ControlCalls for Desk<J, F> {
    ghost is_counting = { true };

    ghost rereads = { λ d config now answer after. Rereads (max now d.engine.latest) config d answer
        after };

    fn reconfigure(
        &mut self,
        alloc: Global,
        setup: Setup,
        now: Moment,
    ) -> Result<EpochNo, DeskFault>
        requires { IsStated setup }
        ensures tells { TellsReread F.first setup now self.old self.new result }
        ensures rereads { Rereads (max now self.old.engine.latest) setup self.old result self.new }
    {
        // For the proof: what holds of the configuration.
        reconfiguring::good(&setup);
        reconfiguring::reconfigure(&mut self.engine, &mut self.notes, alloc, setup, now)
    }
}

impl<J: Journal, F: DeskStart> DeskCalls for Desk<J, F> {}
