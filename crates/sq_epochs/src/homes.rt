//! `Homes`: of which epoch and class each living process is, and for which processes a stop is due.
ghost use Rattle.std.specs.Prelude.{◌≡◌, ◌≤◌, ◌<◌, ◌+◌, ◌++◌, ◌∷◌, ◌==◌, [], ℕ, suc, true, None, drop, length, map, nat_lt, if◌then◌else◌, is_some, Some, IfSome, OnOk, ◌^◌};
ghost use Rattle.std.specs.Option.{option_map};
ghost use Rattle.sq_epochs.specs.HomeStates.{AreHomes, home_in, home_number, is_of_epoch, other_homes, procs_of, with_number, with_numbers, without_home};
ghost use Rattle.sq_machine.specs.DueActs.{first_of};
ghost use Rattle.sq_machine.specs.Limits.{last_number};
ghost use Rattle.sq_machine.specs.Rising.{Rises, place_among, times_of};

use crate::stops::Stops;
use sq_base::{EpochNo, ProcNo, WantOfMemory};
use sq_machine::LAST_NUMBER;
use std::alloc::Global;
use std::marker::Model;

/// Of which epoch and class a living process is.
#[derive(Drop)]
pub struct Home {
    pub proc: ProcNo,
    pub epoch: EpochNo,
    pub class: u32,
}

impl Model for Home {
    ghost use Rattle.sq_epochs.specs.HomeStates.{Home};

    ghost Value = { Home };

    ghost view = { λ h. record {
      proc = h.proc;
      place = record { epoch = h.epoch; class = h.class };
    } };
}

/// The homes of living processes, by number, and the due stops. A contract sees both, how many processes were
/// numbered, and for how many more there is room.
#[derive(Drop)]
pub struct Homes {
    given: u64,
    homes: Vec<Home>,
    // It has room for a stop of each living process.
    stops: Stops,
}

impl Model for Homes {
    ghost use Rattle.std.specs.Prelude.{◌≤◌, ◌<◌, ◌^◌, ◌+◌, ◌-◌, length, min};
    ghost use Rattle.std.specs.Vec.{vec_capacity};
    ghost use Rattle.sq_epochs.specs.HomeStates.{AreHomes, HomesState};

    ghost Value = { HomesState };

    ghost view = { λ h. record {
      given = h.given;
      homes = h.homes.items;
      stops = h.stops.numbers;
      room = min (vec_capacity h.homes - length h.homes.items)
          (h.stops.room - (length h.homes.items + length h.stops.numbers));
    } };

    ghost invariant = { λ h. AreHomes h.given h.homes.items h.stops.numbers × (h.given < 2 ^ 63)
        × (length h.homes.items + length h.stops.numbers ≤ h.stops.room) };
}

fn place_of(homes: &[Home], proc: ProcNo) -> usize
    requires { Rises (map home_number homes.now) }
    ensures place { result ≡ place_among proc (map home_number homes.now) }
    ensures bound { result ≤ length homes.now }
{
    homes.partition_point(|home| home.proc.0 < proc.0)
}

fn is_of_epoch(home: &Home, epoch: EpochNo) -> bool
    ensures { result ≡ is_of_epoch epoch home.now }
{
    home.epoch.0 == epoch.0
}

// Makes the stop of a process due, or not.
fn put_if(stops: &mut Stops, proc: ProcNo, due: bool)
    requires room { length stops.old.numbers < stops.old.room }
    requires other { times_of proc stops.old.numbers ≡ 0 }
    ensures numbers { stops.new.numbers
        ≡ (if due then with_number proc stops.old.numbers else stops.old.numbers) }
    ensures room { stops.old.room ≤ stops.new.room }
{
    if due {
        stops.put(proc);
    }
}

// Makes the stop of each process of an epoch due.
fn put_all(stops: &mut Stops, homes: &[Home], epoch: EpochNo)
    requires room { length homes.now + length stops.old.numbers ≤ stops.old.room }
    requires rise { Rises (map home_number homes.now) }
    requires apart { (k : ℕ) → is_some (home_in k homes.now) ≡ true
        → times_of k stops.old.numbers ≡ 0 }
    ensures numbers { stops.new.numbers
        ≡ with_numbers (procs_of epoch homes.now) stops.old.numbers }
    ensures room { stops.old.room ≤ stops.new.room }
{
    for home in homes {
        let due = is_of_epoch(home, epoch);
        put_if(stops, home.proc, due);
    }
}

impl Homes {
    /// No process yet. It takes no memory.
    pub fn new(alloc: Global) -> Homes
        ensures given { result.given ≡ 0 }
        ensures homes { result.homes ≡ [] }
        ensures stops { result.stops ≡ [] }
    {
        Homes {
            given: 0,
            homes: Vec::new(alloc),
            stops: Stops::new(alloc),
        }
    }

    /// What holds of them: it changes nothing, and its contract says it to a proof.
    pub fn facts(&self)
        ensures { AreHomes self.now.given self.now.homes self.now.stops }
    {
        let _given = self.given;
    }

    /// How many processes were numbered.
    pub fn given(&self) -> u64
        ensures value { result ≡ self.now.given }
        ensures few { result < 2 ^ 63 }
    {
        self.given
    }

    /// How many processes live.
    pub fn len(&self) -> usize
        ensures { result ≡ length self.now.homes }
    {
        self.homes.len()
    }

    /// The home of a process, lent.
    pub fn get(&self, proc: ProcNo) -> Option<&Home>
        ensures place { option_map (λ h. h.now.place) result ≡ home_in proc self.now.homes }
        ensures number { IfSome result (λ h. h.now.proc ≡ proc) }
    {
        let place = place_of(&self.homes, proc);
        match self.homes.get(place) {
            Some(home) if home.proc.0 == proc.0 => Some(home),
            _ => None,
        }
    }

    /// The number of the next process, unless none is left.
    pub fn next(&self) -> Option<ProcNo>
        ensures { result ≡ (if nat_lt (suc self.now.given) last_number then Some
            (suc self.now.given) else None) }
    {
        let number = self.given + 1;
        if number < LAST_NUMBER {
            Some(ProcNo(number))
        } else {
            None
        }
    }

    /// Makes room for a process more, and for its stop.
    pub fn make_room(&mut self) -> Result<(), WantOfMemory>
        ensures given { self.new.given ≡ self.old.given }
        ensures homes { self.new.homes ≡ self.old.homes }
        ensures stops { self.new.stops ≡ self.old.stops }
        ensures room { OnOk result (0 < self.new.room) }
    {
        self.homes.reserve(1)?;
        self.stops.reserve(self.homes.len() + 1)?;
        Ok(())
    }

    /// A process more, of this class of this epoch. It takes no memory.
    pub fn add(&mut self, epoch: EpochNo, class: u32)
        requires room { 0 < self.old.room }
        requires fits { suc self.old.given < last_number }
        ensures given { self.new.given ≡ suc self.old.given }
        ensures homes { self.new.homes ≡ self.old.homes
            ++ record { proc = suc self.old.given; place = record { epoch = epoch; class = class } }
            ∷ [] }
        ensures stops { self.new.stops ≡ self.old.stops }
    {
        self.given += 1;
        let proc = ProcNo(self.given);
        self.homes.push_reserved(Home { proc, epoch, class });
    }

    /// Takes out a living process; its stop is due, or not. It takes no memory.
    pub fn remove(&mut self, proc: ProcNo, due: bool)
        requires { is_some (home_in proc self.old.homes) ≡ true }
        ensures given { self.new.given ≡ self.old.given }
        ensures homes { self.new.homes ≡ without_home proc self.old.homes }
        ensures stops { self.new.stops
            ≡ (if due then with_number proc self.old.stops else self.old.stops) }
    {
        let place = place_of(&self.homes, proc);
        self.homes.remove(place);
        put_if(&mut self.stops, proc, due);
    }

    /// Takes out the processes of an epoch, and the stop of each is due. It takes no memory.
    pub fn drop_epoch(&mut self, epoch: EpochNo)
        ensures given { self.new.given ≡ self.old.given }
        ensures homes { self.new.homes ≡ other_homes epoch self.old.homes }
        ensures stops { self.new.stops
            ≡ with_numbers (procs_of epoch self.old.homes) self.old.stops }
    {
        put_all(&mut self.stops, &self.homes, epoch);
        self.homes.retain(|home| !is_of_epoch(home, epoch));
    }

    /// The first due stop.
    pub fn first_stop(&self) -> Option<ProcNo>
        ensures { result ≡ first_of self.now.stops }
    {
        self.stops.first()
    }

    /// Takes out the first due stop. It takes no memory.
    pub fn next_stop(&mut self) -> Option<ProcNo>
        ensures value { result ≡ first_of self.old.stops }
        ensures given { self.new.given ≡ self.old.given }
        ensures homes { self.new.homes ≡ self.old.homes }
        ensures stops { self.new.stops ≡ drop 1 self.old.stops }
    {
        self.stops.next()
    }
}
