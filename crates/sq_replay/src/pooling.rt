//! Seats in delay pools, and what they are granted.
ghost use Rattle.std.specs.Prelude.{◌≡◌, true, max, IfOk, OnOk};
ghost use Rattle.sq_machine.specs.Entries.{is_amount, is_row};
ghost use Rattle.sq_machine.specs.declared.entries.Event.TheVariants as event;
ghost use Rattle.sq_replay.specs.MachineViews.{machine_of};
ghost use Rattle.sq_replay.specs.Making.{IsMaking};

use crate::machines::ScriptMachine;
use crate::stops::Stop;
use sq_base::{ConnNo, Moment, SeatNo};
use sq_machine::{SeatPlace, Told, later};
use sq_pools::ChooseFault;
use std::alloc::Global;

impl ScriptMachine {
    // The connection asks for a seat in the pool of the record that was last taken on it, where that allows.
    pub(crate) fn seat(&mut self, alloc: Global, conn: ConnNo, now: Moment) -> Result<Told, Stop>
        ensures making { IsMaking (machine_of self.old) (machine_of self.new) now (event.Seat conn)
            result }
        ensures row { IfOk result (λ told. is_row (event.Seat conn) told ≡ true) }
        ensures latest { OnOk result (self.new.latest ≡ max now self.old.latest) }
    {
        // For the proof: what holds of the pools.
        self.pools.facts();
        let moment = later(now, self.latest);
        let Some(ride) = self.riders.get(conn) else {
            return Err(Stop::Refused);
        };
        match &ride.place {
            SeatPlace::Nowhere => {
                self.latest = moment;
                Ok(Told::NoSeat)
            }
            SeatPlace::ByAddress(pool) => {
                let pool = *pool;
                let seat = match self
                    .pools
                    .choose(alloc, ride.epoch, &ride.config, pool, ride.addr, moment)
                {
                    Ok(seat) => seat,
                    Err(ChooseFault::Spent) => return Err(Stop::Refused),
                    Err(ChooseFault::WantOfMemory) => return Err(Stop::WantOfMemory),
                };
                self.latest = moment;
                Ok(Told::Seat { seat, pool })
            }
            SeatPlace::ByTag(pool, tag) => {
                let pool = *pool;
                let seat = match self
                    .pools
                    .choose_tag(alloc, ride.epoch, &ride.config, pool, tag, moment)
                {
                    Ok(seat) => seat,
                    Err(ChooseFault::Spent) => return Err(Stop::Refused),
                    Err(ChooseFault::WantOfMemory) => return Err(Stop::WantOfMemory),
                };
                self.latest = moment;
                Ok(Told::Seat { seat, pool })
            }
        }
    }

    // A seat in use wants so many bytes.
    pub(crate) fn grant(&mut self, seat: SeatNo, wanted: u64, now: Moment) -> Result<Told, Stop>
        requires { is_amount wanted ≡ true }
        ensures making { IsMaking (machine_of self.old) (machine_of self.new) now
            (event.Grant seat wanted) result }
        ensures row { IfOk result (λ told. is_row (event.Grant seat wanted) told ≡ true) }
        ensures latest { OnOk result (self.new.latest ≡ max now self.old.latest) }
    {
        // For the proof: what holds of the pools.
        self.pools.facts();
        let moment = later(now, self.latest);
        let Some(amount) = self.pools.grant(seat, wanted, moment) else {
            return Err(Stop::Refused);
        };
        self.latest = moment;
        Ok(Told::Granted(amount))
    }

    // A seat in use is given up.
    pub(crate) fn leave(&mut self, seat: SeatNo, now: Moment) -> Result<Told, Stop>
        ensures making { IsMaking (machine_of self.old) (machine_of self.new) now (event.Leave seat)
            result }
        ensures row { IfOk result (λ told. is_row (event.Leave seat) told ≡ true) }
        ensures latest { OnOk result (self.new.latest ≡ max now self.old.latest) }
    {
        // For the proof: what holds of the pools.
        self.pools.facts();
        if !self.pools.leave(seat) {
            return Err(Stop::Refused);
        }
        self.latest = later(now, self.latest);
        Ok(Told::Fine)
    }
}
