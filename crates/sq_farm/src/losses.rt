//! `Losses`: the questions that an end or a failed start gave a fault, until they are handed out.
ghost use Rattle.std.specs.Prelude.{◌≡◌, ◌<◌, ◌≤◌, ◌+◌, [], length, map, OnOk};
ghost use Rattle.sq_machine.specs.Losses.{first_lost, later_lost, lose, loss_number, times_lost};
ghost use Rattle.sq_machine.specs.Rising.{Rises, place_among};

use sq_base::{Cause, QuestionNo, WantOfMemory};
use std::alloc::Global;
use std::collections::VecDeque;
use std::marker::Model;

/// A question that has a fault and was not handed out yet.
#[derive(Drop)]
pub struct Loss {
    pub question: QuestionNo,
    pub cause: Cause,
}

impl Model for Loss {
    ghost use Rattle.sq_machine.specs.Losses.{Loss};

    ghost Value = { Loss };

    ghost view = { λ l. record { question = l.question; cause = l.cause } };
}

/// Lost questions, by number. A contract sees them, and for how many there is room.
#[derive(Drop)]
pub struct Losses {
    items: VecDeque<Loss>,
}

impl Model for Losses {
    ghost use Rattle.sq_machine.specs.Losses.{loss_number};
    ghost use Rattle.std.specs.Prelude.{map};
    ghost use Rattle.std.specs.VecDeque.{deque_capacity};
    ghost use Rattle.sq_farm.specs.Rooms.{LostOnes};
    ghost use Rattle.sq_machine.specs.Rising.{Rises};

    ghost Value = { LostOnes };

    ghost view = { λ l. record { losses = l.items.items; room = deque_capacity l.items } };

    ghost invariant = { λ l. Rises (map loss_number l.items.items) };
}

fn place_of(losses: &VecDeque<Loss>, question: QuestionNo) -> usize
    requires { Rises (map loss_number losses.now.items) }
    ensures place { result ≡ place_among question (map loss_number losses.now.items) }
    ensures bound { result ≤ length losses.now.items }
{
    losses.partition_point(|loss| loss.question.0 < question.0)
}

impl Losses {
    /// None. It takes no memory.
    pub fn new(alloc: Global) -> Losses
        ensures { result.losses ≡ [] }
    {
        Losses {
            items: VecDeque::new(alloc),
        }
    }

    /// Makes room for so many more.
    pub fn reserve(&mut self, more: usize) -> Result<(), WantOfMemory>
        ensures same { self.new.losses ≡ self.old.losses }
        ensures more { self.old.room ≤ self.new.room }
        ensures room { OnOk result (length self.new.losses + more ≤ self.new.room) }
    {
        self.items.reserve(more)?;
        Ok(())
    }

    /// Puts a question to its place. It takes no memory.
    pub fn lose(&mut self, question: QuestionNo, cause: Cause)
        requires room { length self.old.losses < self.old.room }
        requires other { times_lost question self.old.losses ≡ 0 }
        ensures losses { self.new.losses ≡ lose question cause self.old.losses }
        ensures room { self.old.room ≤ self.new.room }
    {
        let place = place_of(&self.items, question);
        let _ = self.items.insert(place, Loss { question, cause });
    }

    /// Takes out the least question. It takes no memory.
    pub fn next(&mut self) -> Option<(QuestionNo, Cause)>
        ensures value { result ≡ first_lost self.old.losses }
        ensures losses { self.new.losses ≡ later_lost self.old.losses }
        ensures room { self.new.room ≡ self.old.room }
    {
        let loss = self.items.pop_front()?;
        Some((loss.question, loss.cause))
    }
}
