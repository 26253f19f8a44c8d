//! The events of a script's lines, made by the machine.
ghost use Rattle.std.specs.Prelude.{◌≡◌, true, false, max, IfOk, OnOk};
ghost use Rattle.sq_machine.specs.Entries.{is_event, is_row};
ghost use Rattle.sq_machine.specs.Events.{begins_epoch};
ghost use Rattle.sq_machine.specs.declared.entries.Event.TheVariants as event;
ghost use Rattle.sq_replay.specs.MachineViews.{machine_of};
ghost use Rattle.sq_replay.specs.Making.{IsLeft, IsMaking, is_pooled};

use crate::machines::ScriptMachine;
use crate::stops::{Stop, stop_by};
use sq_base::{Addr, CheckNo, ConnNo, Copying, Fields, Moment, ProcNo, Text, WantOfMemory};
use sq_machine::{Event, Told, later};
use sq_model::copy_outcome;
use sq_request::{BadRequest, make_request};
use std::alloc::Global;

impl ScriptMachine {
    /// Makes the event of a line, at the greatest moment so far, or says why not. `begin` stands in the first line
    /// alone, which is run without this call, and `act` in none; a reconfiguration is `reconfigure`. An event that is
    /// refused and is none of delay pools leaves the machine. Where memory is wanting, it is not to be used any more.
    pub fn make(&mut self, alloc: Global, event: &Event, now: Moment) -> Result<Told, Stop>
        requires event { is_event event.now ≡ true }
        requires plain { begins_epoch event.now ≡ false }
        ensures making { IsMaking (machine_of self.old) (machine_of self.new) now event.now result }
        ensures left { is_pooled event.now ≡ false
            → IsLeft (machine_of self.old) (machine_of self.new) result }
        ensures row { IfOk result (λ told. is_row event.now told ≡ true) }
        ensures latest { OnOk result (self.new.latest ≡ max now self.old.latest) }
    {
        match event {
            Event::Begin { offset: _ } => Err(Stop::Refused),
            Event::Open { conn, addr, port } => self.open(*conn, *addr, *port, now),
            Event::Close { conn } => self.close(*conn, now),
            Event::Ask {
                conn,
                method,
                target,
                fields,
            } => self.ask(alloc, *conn, method, target, fields, now),
            Event::Step { check } => self.step(alloc, *check, now),
            Event::Take { check } => self.take(alloc, *check, now),
            Event::Started { epoch, class } => self.started(alloc, *epoch, class, now),
            Event::StartFail { epoch, class } => self.start_failed(*epoch, class, now),
            Event::Line { proc, bytes } => self.line(alloc, *proc, bytes, now),
            Event::Died { proc } => self.died(*proc, now),
            Event::Act => Err(Stop::Refused),
            Event::Reconfigure { text: _ } => Err(Stop::Refused),
            Event::Seat { conn } => self.seat(alloc, *conn, now),
            Event::Grant { seat, wanted } => self.grant(*seat, *wanted, now),
            Event::Leave { seat } => self.leave(*seat, now),
        }
    }

    // A client's connection opens.
    fn open(&mut self, conn: ConnNo, addr: Addr, port: u16, now: Moment) -> Result<Told, Stop>
        ensures making { IsMaking (machine_of self.old) (machine_of self.new) now
            (event.Open conn addr port) result }
        ensures left { IsLeft (machine_of self.old) (machine_of self.new) result }
        ensures row { IfOk result (λ told. is_row (event.Open conn addr port) told ≡ true) }
        ensures latest { OnOk result (self.new.latest ≡ max now self.old.latest) }
    {
        // For the proof: what holds of the pools.
        self.pools.facts();
        let moment = later(now, self.latest);
        match self.engine.open(conn, addr, port, moment) {
            Ok(()) => {}
            Err(refusal) => return Err(stop_by(refusal)),
        }
        self.latest = moment;
        Ok(Told::Fine)
    }

    // A connection closes, and its record is forgotten.
    fn close(&mut self, conn: ConnNo, now: Moment) -> Result<Told, Stop>
        ensures making { IsMaking (machine_of self.old) (machine_of self.new) now (event.Close conn)
            result }
        ensures left { IsLeft (machine_of self.old) (machine_of self.new) result }
        ensures row { IfOk result (λ told. is_row (event.Close conn) told ≡ true) }
        ensures latest { OnOk result (self.new.latest ≡ max now self.old.latest) }
    {
        // For the proof: what holds of the pools.
        self.pools.facts();
        let moment = later(now, self.latest);
        match self.engine.close(conn, moment) {
            Ok(()) => {}
            Err(refusal) => return Err(stop_by(refusal)),
        }
        self.riders.remove(conn);
        self.latest = moment;
        Ok(Told::Fine)
    }

    // A request of a script has version 1.1, and one that can't be made is refused.
    fn ask(
        &mut self,
        alloc: Global,
        conn: ConnNo,
        method: &Text,
        target: &Text,
        fields: &Fields,
        now: Moment,
    ) -> Result<Told, Stop>
        ensures making { IsMaking (machine_of self.old) (machine_of self.new) now
            (event.Ask conn method.now target.now fields.now) result }
        ensures left { IsLeft (machine_of self.old) (machine_of self.new) result }
        ensures row { IfOk result
            (λ told. is_row (event.Ask conn method.now target.now fields.now) told ≡ true) }
        ensures latest { OnOk result (self.new.latest ≡ max now self.old.latest) }
    {
        // For the proof: what holds of the pools.
        self.pools.facts();
        let copy = match fields.copy(alloc) {
            Ok(copy) => copy,
            Err(WantOfMemory) => return Err(Stop::WantOfMemory),
        };
        let request = match make_request(alloc, method.as_bytes(), target.as_bytes(), 1, copy) {
            Ok(request) => request,
            Err(BadRequest::WantOfMemory) => return Err(Stop::WantOfMemory),
            Err(_) => return Err(Stop::Refused),
        };
        let moment = later(now, self.latest);
        let check = match self.engine.ask(alloc, conn, request, moment) {
            Ok(check) => check,
            Err(refusal) => return Err(stop_by(refusal)),
        };
        self.latest = moment;
        Ok(Told::Check(check))
    }

    // The outcome of a check is taken. Where it allows, its record is the one that seats of its connection need.
    fn take(&mut self, alloc: Global, check: CheckNo, now: Moment) -> Result<Told, Stop>
        ensures making { IsMaking (machine_of self.old) (machine_of self.new) now (event.Take check)
            result }
        ensures left { IsLeft (machine_of self.old) (machine_of self.new) result }
        ensures row { IfOk result (λ told. is_row (event.Take check) told ≡ true) }
        ensures latest { OnOk result (self.new.latest ≡ max now self.old.latest) }
    {
        // For the proof: what holds of the engine and of the pools.
        self.engine.facts();
        self.pools.facts();
        let moment = later(now, self.latest);
        let Some(conn) = self.engine.conn_of(check) else {
            return Err(Stop::Refused);
        };
        let taken = match self.engine.take(check, moment) {
            Ok(taken) => taken,
            Err(refusal) => return Err(stop_by(refusal)),
        };
        // For the proof: the pool is that of its configuration.
        let _pool = taken.pool();
        match self.riders.note(alloc, conn, &taken) {
            Ok(()) => {}
            Err(WantOfMemory) => return Err(Stop::WantOfMemory),
        }
        let outcome = match copy_outcome(alloc, taken.outcome()) {
            Ok(outcome) => outcome,
            Err(WantOfMemory) => return Err(Stop::WantOfMemory),
        };
        self.latest = moment;
        Ok(Told::Judged {
            epoch: taken.epoch(),
            outcome,
        })
    }

    // A process died.
    fn died(&mut self, proc: ProcNo, now: Moment) -> Result<Told, Stop>
        ensures making { IsMaking (machine_of self.old) (machine_of self.new) now (event.Died proc)
            result }
        ensures left { IsLeft (machine_of self.old) (machine_of self.new) result }
        ensures row { IfOk result (λ told. is_row (event.Died proc) told ≡ true) }
        ensures latest { OnOk result (self.new.latest ≡ max now self.old.latest) }
    {
        // For the proof: what holds of the pools.
        self.pools.facts();
        let moment = later(now, self.latest);
        match self.engine.died(proc, moment) {
            Ok(()) => {}
            Err(refusal) => return Err(stop_by(refusal)),
        }
        self.latest = moment;
        Ok(Told::Fine)
    }
}
