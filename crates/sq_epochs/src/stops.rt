//! `Stops`: the processes for which a stop is due.
ghost use Rattle.std.specs.Prelude.{◌≡◌, ◌<◌, ◌≤◌, ◌+◌, [], length, drop, OnOk};
ghost use Rattle.sq_epochs.specs.HomeStates.{with_number};
ghost use Rattle.sq_machine.specs.Rising.{Rises, place_among, times_of};
ghost use Rattle.sq_machine.specs.DueActs.{first_of};

use sq_base::{ProcNo, WantOfMemory};
use std::alloc::Global;
use std::collections::VecDeque;
use std::marker::Model;

/// The processes for which a stop is due, by number. A contract sees them, and for how many there is room.
#[derive(Drop)]
pub struct Stops {
    items: VecDeque<ProcNo>,
}

impl Model for Stops {
    ghost use Rattle.std.specs.VecDeque.{deque_capacity};
    ghost use Rattle.sq_epochs.specs.HomeStates.{StopsState};
    ghost use Rattle.sq_machine.specs.Rising.{Rises};

    ghost Value = { StopsState };

    ghost view = { λ s. record { numbers = s.items.items; room = deque_capacity s.items } };

    ghost invariant = { λ s. Rises s.items.items };
}

fn place_of(stops: &VecDeque<ProcNo>, proc: ProcNo) -> usize
    requires { Rises stops.now.items }
    ensures place { result ≡ place_among proc stops.now.items }
    ensures bound { result ≤ length stops.now.items }
{
    stops.partition_point(|stop| stop.0 < proc.0)
}

impl Stops {
    /// None. It takes no memory.
    pub fn new(alloc: Global) -> Stops
        ensures { result.numbers ≡ [] }
    {
        Stops {
            items: VecDeque::new(alloc),
        }
    }

    /// The first of them, lent.
    pub fn first(&self) -> Option<ProcNo>
        ensures { result ≡ first_of self.now.numbers }
    {
        self.items.front().copied()
    }

    /// Makes room for so many more.
    pub fn reserve(&mut self, more: usize) -> Result<(), WantOfMemory>
        ensures same { self.new.numbers ≡ self.old.numbers }
        ensures more { self.old.room ≤ self.new.room }
        ensures room { OnOk result (length self.new.numbers + more ≤ self.new.room) }
    {
        self.items.reserve(more)?;
        Ok(())
    }

    /// Puts a process to its place. It takes no memory.
    pub fn put(&mut self, proc: ProcNo)
        requires room { length self.old.numbers < self.old.room }
        requires other { times_of proc self.old.numbers ≡ 0 }
        ensures numbers { self.new.numbers ≡ with_number proc self.old.numbers }
        ensures room { self.old.room ≤ self.new.room }
    {
        let place = place_of(&self.items, proc);
        let _ = self.items.insert(place, proc);
    }

    /// Takes out the first. It takes no memory.
    pub fn next(&mut self) -> Option<ProcNo>
        ensures value { result ≡ first_of self.old.numbers }
        ensures numbers { self.new.numbers ≡ drop 1 self.old.numbers }
        ensures room { self.new.room ≡ self.old.room }
    {
        self.items.pop_front()
    }
}
