//! A request arrives.
ghost use Rattle.std.specs.Prelude.{◌≡◌, ◌<◌, ◌++◌, ◌∷◌, [], ℕ, suc, List, max, true, None, Some, is_some, IfErr, IfOk, OnOk, OnErr};
ghost use Rattle.sq_base.specs.Targets.{target_of};
ghost use Rattle.sq_base.specs.declared.requests.Field.{Field};
ghost use Rattle.sq_rules.specs.Facts.{facts_of};
ghost use Rattle.sq_rules.specs.Sights.{asked_request, unversioned};
ghost use Rattle.sq_machine.specs.declared.refusals.Refusal.TheVariants as refusal;
ghost use Rattle.sq_machine.specs.Limits.{last_number};
ghost use Rattle.sq_checks.specs.Conns.{check_in, client_in};
ghost use Rattle.sq_checks.specs.OpenChecks.{all_before, begun_parts, row, rows_of};
ghost use Rattle.sq_machine.specs.declared.entries.Event.TheVariants as event;
ghost use Rattle.sq_machine.specs.declared.entries.Told.TheVariants as told;
ghost use Rattle.sq_model.specs.Answers.{ask_answer, asked_in};
ghost use Rattle.sq_model.specs.Changes.{after_ask};
ghost use Rattle.sq_model.specs.States.{IsSame};
ghost use Rattle.sq_engine.specs.Begun.{HasBegun};
ghost use Rattle.sq_engine.specs.EngineViews.{state_of};
ghost use Rattle.sq_engine.specs.Promised.{IsPromised};
ghost use Rattle.sq_engine.specs.Tellings.{IsAlwaysTold, IsTold};

use crate::current::Current;
use crate::engines::Engine;
use sq_base::{CheckNo, ConnNo, EpochNo, Moment, Request, WantOfMemory};
use sq_checks::OpenChecks;
use sq_machine::{LAST_NUMBER, Refusal, later};
use sq_model::minute_of_week;
use sq_rules::{Facts, Peer, Sight};
use std::alloc::Global;

// The facts of what a check sees. The stack has little of the call that asks for them, since a search of a pattern takes much of it.
fn facts_in(alloc: Global, setup: &mut Current, sight: &Sight) -> Result<Facts, Refusal>
    ensures ok { IfOk result (λ f. f ≡ facts_of setup.old.acls sight.now) }
    ensures err { IfErr result (λ r. r ≡ refusal.WantOfMemory) }
    ensures same { setup.new ≡ setup.old }
{
    match setup.facts(alloc, sight) {
        Ok(facts) => Ok(facts),
        Err(WantOfMemory) => Err(Refusal::WantOfMemory),
    }
}

// Begins a check in the epoch of a configuration, under a number above all that are open.
#[inline(never)]
fn begin(
    alloc: Global,
    checks: &mut OpenChecks,
    setup: &Current,
    number: CheckNo,
    conn: ConnNo,
    epoch: EpochNo,
    sight: Sight,
    facts: Facts,
) -> Result<(), WantOfMemory>
    requires above { all_before number (rows_of checks.old) ≡ true }
    requires facts { facts ≡ facts_of setup.now.acls sight }
    ensures list { OnOk result
        (checks.new ≡ checks.old ++ (number, begun_parts conn epoch setup.now sight) ∷ []) }
    ensures rows { OnOk result
        (rows_of checks.new
        ≡ rows_of checks.old ++ row number (begun_parts conn epoch setup.now sight) ∷ []) }
    ensures err { OnErr result (checks.new ≡ checks.old) }
{
    let open = setup.begun(alloc, conn, epoch, sight, facts)?;
    checks.begin(number, open)
}

impl Engine {
    // The client of a connection on which a check may begin, and the number that it gets.
    fn admitted(&self, conn: ConnNo) -> Result<(Peer, u64), Refusal>
        ensures told { IsAlwaysTold (λ r. told.Check r.1) (ask_answer (state_of self.now) conn)
            result }
        ensures client { IfOk result (λ r. client_in self.now.conns conn ≡ Some r.0) }
        ensures free { OnOk result (check_in self.now.conns conn ≡ None) }
        ensures number { IfOk result (λ r. r.1 ≡ suc self.now.asks) }
        ensures few { IfOk result (λ r. r.1 < last_number) }
    {
        let Some(peer) = self.conns.peer(conn) else {
            return Err(Refusal::UnknownConn(conn));
        };
        if let Some(check) = self.conns.check(conn) {
            return Err(Refusal::CheckOpen(check));
        }
        let number = self.asks + 1;
        if number >= LAST_NUMBER {
            return Err(Refusal::Spent(number));
        }
        Ok((peer, number))
    }

    // A request arrives, by the state alone.
    fn ask_on(
        &mut self,
        alloc: Global,
        conn: ConnNo,
        request: Request,
        now: Moment,
    ) -> Result<CheckNo, Refusal>
        ensures told { IsTold (λ n. told.Check n) (ask_answer (state_of self.old) conn) result }
        ensures ok { OnOk result
            ((method target : List ℕ) (fields : List Field)
            → unversioned request ≡ asked_request method target fields
            → IsSame (state_of self.new)
            (after_ask (asked_in (state_of self.old) (max now self.old.latest) conn method target
            fields) (max now self.old.latest) (state_of self.old))) }
        ensures err { OnErr result (self.new ≡ self.old) }
        ensures begun { IfOk result
            (λ n. HasBegun n self.old.setup request self.old.checks self.new.checks) }
    {
        let (peer, number) = self.admitted(conn)?;
        // For the proof: the numbers ascend.
        let _len = self.checks.len();
        let check = CheckNo(number);
        let epoch = self.epochs.current();
        let moment = later(now, self.latest);
        let sight = Sight {
            request,
            addr: peer.addr,
            port: peer.port,
            minute: minute_of_week(moment, self.offset),
            conns: self.conns.of(peer.addr),
        };
        let facts = facts_in(alloc, &mut self.setup, &sight)?;
        match begin(
            alloc,
            &mut self.checks,
            &self.setup,
            check,
            conn,
            epoch,
            sight,
            facts,
        ) {
            Ok(()) => {}
            Err(WantOfMemory) => return Err(Refusal::WantOfMemory),
        }
        self.conns.set_check(conn, Some(check));
        self.epochs.began(epoch);
        self.asks = number;
        self.latest = moment;
        Ok(check)
    }

    /// A request arrives on a connection, and its check begins in the current epoch: what it sees is read now.
    pub fn ask(
        &mut self,
        alloc: Global,
        conn: ConnNo,
        request: Request,
        now: Moment,
    ) -> Result<CheckNo, Refusal>
        ensures told { IsTold (λ n. told.Check n) (ask_answer (state_of self.old) conn) result }
        ensures ok { OnOk result
            ((method target : List ℕ) (fields : List Field)
            → unversioned request ≡ asked_request method target fields
            → IsSame (state_of self.new)
            (after_ask (asked_in (state_of self.old) (max now self.old.latest) conn method target
            fields) (max now self.old.latest) (state_of self.old))) }
        ensures err { OnErr result (self.new ≡ self.old) }
        ensures begun { IfOk result
            (λ n. HasBegun n self.old.setup request self.old.checks self.new.checks) }
        ensures promised { (method target : List ℕ) (fields : List Field)
            → unversioned request ≡ asked_request method target fields
            → is_some (target_of method target) ≡ true
            → IsPromised (λ n. told.Check n) (state_of self.old) (max now self.old.latest)
            (event.Ask conn method target fields) result (state_of self.new) }
    {
        self.ask_on(alloc, conn, request, now)
    }
}
