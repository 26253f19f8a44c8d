//! A connection opens.
ghost use Rattle.std.specs.Prelude.{◌≡◌, max, OnOk, OnErr};
ghost use Rattle.sq_machine.specs.declared.entries.Event.TheVariants as event;
ghost use Rattle.sq_machine.specs.declared.entries.Told.TheVariants as told;
ghost use Rattle.sq_model.specs.Answers.{open_answer};
ghost use Rattle.sq_model.specs.Changes.{after_open};
ghost use Rattle.sq_model.specs.States.{IsSame};
ghost use Rattle.sq_engine.specs.EngineViews.{state_of};
ghost use Rattle.sq_engine.specs.Promised.{IsPromised};
ghost use Rattle.sq_engine.specs.Tellings.{IsTold};

use crate::engines::Engine;
use sq_base::{Addr, ConnNo, Moment, WantOfMemory};
use sq_machine::{CONN_LIMIT, Refusal, later};

impl Engine {
    /// A client's connection opens.
    pub fn open(&mut self, conn: ConnNo, addr: Addr, port: u16, now: Moment) -> Result<(), Refusal>
        ensures told { IsTold (λ _. told.Fine) (open_answer (state_of self.old) conn) result }
        ensures ok { OnOk result
            (IsSame (state_of self.new)
            (after_open conn (record { addr = addr; port = port }) (max now self.old.latest)
            (state_of self.old))) }
        ensures err { OnErr result (self.new ≡ self.old) }
        ensures checks { self.new.checks ≡ self.old.checks }
        ensures promised { IsPromised (λ _. told.Fine) (state_of self.old) (max now self.old.latest)
            (event.Open conn addr port) result (state_of self.new) }
    {
        if self.conns.peer(conn).is_some() {
            return Err(Refusal::ConnInUse(conn));
        }
        if self.conns.is_full() {
            return Err(Refusal::TooManyConns(CONN_LIMIT));
        }
        match self.conns.open(conn, addr, port) {
            Ok(()) => {}
            Err(WantOfMemory) => return Err(Refusal::WantOfMemory),
        }
        self.latest = later(now, self.latest);
        Ok(())
    }
}
