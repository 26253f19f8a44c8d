//! Seats in delay pools.
ghost use Rattle.std.specs.Prelude.{◌≡◌, ◌==◌, [], ℕ, Some, None, if◌then◌else◌, OnOk, OnErr};
ghost use Rattle.std.specs.Option.{option_copied};
ghost use Rattle.sq_pools.specs.Seats.{seat_at, without_seat};

use sq_base::{EpochNo, Listed, SeatNo, WantOfMemory};
use sq_buckets::BucketSpot;
use std::alloc::Global;
use std::collections::BTreeMap;
use std::marker::Model;

/// A seat in a delay pool. It is not copied: who has it gives it up once.
pub struct Seat {
    number: SeatNo,
}

impl Drop for Seat {
    fn drop(self) {
        let Seat { number: _ } = self;
    }
}

impl Model for Seat {
    ghost use Rattle.std.specs.Prelude.{ℕ};

    ghost Value = { ℕ };

    ghost view = { λ s. s.number };
}

impl Seat {
    pub(crate) fn new(number: SeatNo) -> Seat
        ensures { result ≡ number }
    {
        Seat { number }
    }

    /// Its number, from 1.
    pub fn number(&self) -> SeatNo
        ensures { result ≡ self.now }
    {
        self.number
    }
}

// A seat in use: its epoch, its pool, and the names of its buckets.
#[derive(Drop)]
pub(crate) struct Seated {
    pub(crate) epoch: EpochNo,
    pub(crate) pool: u32,
    pub(crate) spots: Listed<BucketSpot>,
}

impl Model for Seated {
    ghost use Rattle.sq_machine.specs.PoolReadings.{Sat};

    ghost Value = { Sat };

    ghost view = { λ s. record { epoch = s.epoch; pool = s.pool; spots = s.spots } };
}

// Seats in use, by number.
#[derive(Drop)]
pub(crate) struct Seats {
    map: BTreeMap<SeatNo, Seated>,
}

impl Model for Seats {
    ghost use Rattle.sq_machine.specs.PoolReadings.{Sat};
    ghost use Rattle.std.specs.Prelude.{List, ℕ};

    ghost Value = { List (ℕ × Sat) };

    ghost view = { λ s. s.map.entries };
}

impl Seats {
    pub(crate) fn new(alloc: Global) -> Seats
        ensures { result ≡ [] }
    {
        Seats {
            map: BTreeMap::new(alloc),
        }
    }

    // The seat of a number, lent.
    pub(crate) fn get(&self, number: SeatNo) -> Option<&Seated>
        ensures { option_copied result ≡ seat_at self.now number }
    {
        self.map.get(&number)
    }

    // Puts the seat of a number that has none.
    pub(crate) fn put(&mut self, number: SeatNo, seated: Seated) -> Result<(), WantOfMemory>
        requires { seat_at self.old number ≡ None }
        ensures ok { OnOk result
            ((n : ℕ) → seat_at self.new n
            ≡ (if n == number then Some seated else seat_at self.old n)) }
        ensures undo { OnOk result (without_seat number self.new ≡ self.old) }
        ensures err { OnErr result (self.new ≡ self.old) }
    {
        let _was = self.map.insert(number, seated)?;
        Ok(())
    }

    // Takes the seat of a number out.
    pub(crate) fn remove(&mut self, number: SeatNo) -> Option<Seated>
        ensures seat { result ≡ seat_at self.old number }
        ensures list { self.new ≡ without_seat number self.old }
        ensures others { (n : ℕ)
            → seat_at self.new n ≡ (if n == number then None else seat_at self.old n) }
    {
        self.map.remove(&number)
    }
}
