//! `OpenQuestions`: on which channel each open question of a process is.
ghost use Rattle.std.specs.Prelude.{◌≡◌, ◌<◌, ◌≤◌, ◌+◌, [], ℕ, length, map, Some, None, true, is_some, ◌==◌, if◌then◌else◌, IfOk};
ghost use Rattle.sq_channel.specs.Indexes.{channel_in, place_question};
ghost use Rattle.sq_machine.specs.Rising.{Rises, place_among};

use sq_base::{QuestionNo, WantOfMemory};
use std::alloc::Global;
use std::collections::VecDeque;
use std::marker::Model;

/// An open question and its channel.
#[derive(Drop)]
pub struct Slot {
    pub question: QuestionNo,
    pub channel: u32,
}

/// Open questions and their channels, by question. A contract sees them, and for how many there is room.
#[derive(Drop)]
pub struct OpenQuestions {
    items: VecDeque<Slot>,
}

impl Model for OpenQuestions {
    ghost use Rattle.std.specs.Prelude.{map};
    ghost use Rattle.std.specs.VecDeque.{deque_capacity};
    ghost use Rattle.sq_channel.specs.Indexes.{Places, place_question};
    ghost use Rattle.sq_machine.specs.Rising.{Rises};

    ghost Value = { Places };

    ghost view = { λ o. record { places = o.items.items; room = deque_capacity o.items } };

    ghost invariant = { λ o. Rises (map place_question o.items.items) };
}

fn place_of(items: &VecDeque<Slot>, question: QuestionNo) -> usize
    requires { Rises (map place_question items.now.items) }
    ensures place { result ≡ place_among question (map place_question items.now.items) }
    ensures bound { result ≤ length items.now.items }
{
    items.partition_point(|place| place.question.0 < question.0)
}

impl OpenQuestions {
    /// None, and room for so many.
    pub fn new(alloc: Global, room: u32) -> Result<OpenQuestions, WantOfMemory>
        ensures places { IfOk result (λ o. o.places ≡ []) }
        ensures room { IfOk result (λ o. room ≤ o.room) }
    {
        let items = VecDeque::with_capacity(alloc, room as usize)?;
        Ok(OpenQuestions { items })
    }

    /// How many.
    pub fn len(&self) -> usize
        ensures { result ≡ length self.now.places }
    {
        self.items.len()
    }

    /// Notes the channel of one more. It takes no memory.
    pub fn note(&mut self, question: QuestionNo, channel: u32)
        requires room { length self.old.places < self.old.room }
        requires other { channel_in question self.old.places ≡ None }
        ensures channels { (q : ℕ)
            → channel_in q self.new.places
            ≡ (if q == question then Some channel else channel_in q self.old.places) }
        ensures count { length self.new.places ≡ length self.old.places + 1 }
        ensures room { self.old.room ≤ self.new.room }
    {
        let place = place_of(&self.items, question);
        let _ = self.items.insert(place, Slot { question, channel });
    }

    /// Takes out a question, and answers its channel.
    pub fn forget(&mut self, question: QuestionNo) -> u32
        requires { is_some (channel_in question self.old.places) ≡ true }
        ensures channel { Some result ≡ channel_in question self.old.places }
        ensures channels { (q : ℕ)
            → channel_in q self.new.places
            ≡ (if q == question then None else channel_in q self.old.places) }
        ensures count { length self.new.places + 1 ≡ length self.old.places }
        ensures room { self.new.room ≡ self.old.room }
    {
        let place = place_of(&self.items, question);
        let channel = self.items[place].channel;
        self.items.remove(place);
        channel
    }
}
