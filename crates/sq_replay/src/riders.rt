//! The records last taken on connections, as seats need them.
ghost use Rattle.std.specs.Prelude.{◌≡◌, ◌==◌, [], ℕ, Some, None, if◌then◌else◌, IfOk, OnOk, OnErr};
ghost use Rattle.std.specs.Option.{option_copied};
ghost use Rattle.sq_replay.specs.Riding.{rider_at, rider_of};

use sq_base::{Addr, ConnNo, EpochNo, WantOfMemory};
use sq_checks::Record;
use sq_machine::SeatPlace;
use sq_rules::Config;
use std::alloc::Global;
use std::collections::BTreeMap;
use std::marker::Model;
use std::sync::Arc;

// A record that allows, as a seat needs it. Its pool takes its client, or has buckets by tags.
#[derive(Drop)]
pub(crate) struct Ride {
    pub(crate) epoch: EpochNo,
    pub(crate) config: Arc<Config>,
    pub(crate) place: SeatPlace,
    pub(crate) addr: Addr,
}

impl Model for Ride {
    ghost use Rattle.std.specs.Arc.{arc_value};
    ghost use Rattle.sq_replay.specs.Riding.{IsSeatable};
    ghost use Rattle.sq_replay.specs.Runs.{Rider};

    ghost Value = { Rider };

    ghost view = { λ r. record {
      epoch = r.epoch;
      config = arc_value r.config;
      place = r.place;
      addr = r.addr;
    } };

    ghost invariant = { λ r. IsSeatable
        (record { epoch = r.epoch; config = arc_value r.config; place = r.place; addr = r.addr }) };
}

// What a seat needs of a record.
#[tactic(auto, using(crate::proofs::RecordLaws::seatable))]
fn ride_of(alloc: Global, taken: &Record) -> Result<Ride, WantOfMemory>
    ensures { IfOk result (λ r. r ≡ rider_of taken.now) }
{
    let config = Arc::try_clone(taken.config())?;
    let place = taken.seat_place(alloc)?;
    Ok(Ride {
        epoch: taken.epoch(),
        config,
        place,
        addr: taken.sight().addr,
    })
}

// The records by connection.
#[derive(Drop)]
pub(crate) struct Riders {
    map: BTreeMap<ConnNo, Ride>,
}

impl Model for Riders {
    ghost use Rattle.std.specs.Prelude.{List, ℕ};
    ghost use Rattle.sq_replay.specs.Runs.{Rider};

    ghost Value = { List (ℕ × Rider) };

    ghost view = { λ r. r.map.entries };
}

impl Riders {
    pub(crate) fn new(alloc: Global) -> Riders
        ensures { result ≡ [] }
    {
        Riders {
            map: BTreeMap::new(alloc),
        }
    }

    // The record of a connection, lent.
    pub(crate) fn get(&self, conn: ConnNo) -> Option<&Ride>
        ensures { option_copied result ≡ rider_at self.now conn }
    {
        self.map.get(&conn)
    }

    // Notes the record that was last taken on a connection: one that denies has none.
    pub(crate) fn note(
        &mut self,
        alloc: Global,
        conn: ConnNo,
        taken: &Record,
    ) -> Result<(), WantOfMemory>
        ensures ok { OnOk result
            ((c : ℕ) → rider_at self.new c
            ≡ (if c == conn then (if taken.now.outcome.allow then Some (rider_of taken.now)
            else None) else rider_at self.old c)) }
    {
        if !taken.outcome().allow {
            self.remove(conn);
            return Ok(());
        }
        let ride = ride_of(alloc, taken)?;
        self.put(conn, ride)
    }

    // Puts the record of a connection in the place of the one before.
    fn put(&mut self, conn: ConnNo, ride: Ride) -> Result<(), WantOfMemory>
        ensures ok { OnOk result
            ((c : ℕ) → rider_at self.new c
            ≡ (if c == conn then Some ride else rider_at self.old c)) }
        ensures err { OnErr result (self.new ≡ self.old) }
    {
        let _was = self.map.insert(conn, ride)?;
        Ok(())
    }

    // Forgets the record of a connection.
    pub(crate) fn remove(&mut self, conn: ConnNo)
        ensures { (c : ℕ) → rider_at self.new c
            ≡ (if c == conn then None else rider_at self.old c) }
    {
        let _was = self.map.remove(&conn);
    }
}
