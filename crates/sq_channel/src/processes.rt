//! `Process`: which question is open on which channel of a helper process.
ghost use Rattle.std.specs.Prelude.{◌≡◌, ◌<◌, ◌≤◌, ◌+◌, ℕ, true, false, length, max, replicate, nat_lt, None, IfOk, OnErr, ◌++◌};
ghost use Rattle.std.specs.Option.{option_to_list};
ghost use Rattle.sq_machine.specs.Channels.{asked, channel_name, drained, first_open, free_count, is_open, least_free, opened, settled, slot_at, slot_of, times_open};
ghost use Rattle.sq_channel.specs.Gots.{got_at, got_in, names_open, settled_by};

use crate::channels::FreeChannels;
use crate::questions::OpenQuestions;
use crate::replies::Got;
use sq_base::{QuestionNo, Reply, WantOfMemory};
use sq_reply::{ReplyFault, read_reply};
use std::alloc::Global;
use std::marker::Model;

/// A helper process: the question that is open on each of its channels. One without channel numbers
/// has one channel.
#[derive(Drop)]
pub struct Process {
    numbered: bool,
    slots: Vec<Option<QuestionNo>>,
    // The channels without a question.
    free: FreeChannels,
    // The channel of each open question.
    open: OpenQuestions,
}

impl Model for Process {
    ghost use Rattle.sq_channel.specs.Indexes.{AreFree, ArePlaces};
    ghost use Rattle.sq_machine.specs.Channels.{Channels, IsProcess};

    ghost Value = { Channels };

    ghost view = { λ p. record { numbered = p.numbered; slots = p.slots.items } };

    ghost invariant = { λ p. IsProcess (record { numbered = p.numbered; slots = p.slots.items })
        × AreFree p.slots.items p.free × ArePlaces p.slots.items p.open };
}

fn first_open(slots: &[Option<QuestionNo>]) -> Option<QuestionNo>
    ensures { result ≡ first_open slots.now }
{
    for &slot in slots {
        if slot.is_some() {
            return slot;
        }
    }
    None
}

fn slot_at(slots: &[Option<QuestionNo>], place: usize) -> Option<QuestionNo>
    ensures { result ≡ slot_at slots.now place }
{
    match slots.get(place) {
        Some(slot) => *slot,
        None => None,
    }
}

fn slot_of(slots: &[Option<QuestionNo>], channel: Option<u32>) -> Option<QuestionNo>
    ensures { result ≡ slot_of slots.now channel }
{
    match channel {
        Some(number) => slot_at(slots, number as usize),
        None => slot_at(slots, 0),
    }
}

fn answer(slots: &[Option<QuestionNo>], channel: Option<u32>, reply: Reply) -> Got
    ensures value { result ≡ got_at (slot_of slots.now channel) reply }
    ensures open { names_open slots.now result }
{
    match slot_of(slots, channel) {
        Some(question) => Got::Reply(question, reply),
        None => Got::Stray,
    }
}

impl Process {
    /// A process on which no question is open.
    pub fn new(alloc: Global, concurrency: u32) -> Result<Process, WantOfMemory>
        ensures slots { IfOk result (λ p. p.slots ≡ replicate (max 1 concurrency) None) }
        ensures numbered { IfOk result (λ p. p.numbered ≡ nat_lt 0 concurrency) }
    {
        let count = concurrency.max(1);
        let free = FreeChannels::new(alloc, count)?;
        let open = OpenQuestions::new(alloc, count)?;
        let mut slots = Vec::with_capacity(alloc, count as usize)?;
        for _ in 0..count {
            slots.push_reserved(None);
        }
        Ok(Process {
            numbered: concurrency > 0,
            slots,
            free,
            open,
        })
    }

    /// How many channels have no question. The others have one question each, and each question has
    /// one channel.
    pub fn free(&self) -> u32
        ensures count { result ≡ free_count self.now.slots }
        ensures all { result + length (opened self.now.slots) ≡ length self.now.slots }
        ensures once { (q : ℕ) → times_open q self.now.slots ≤ 1 }
    {
        self.free.len() as u32
    }

    /// The question that is open on each channel, lent.
    pub fn slots(&self) -> &[Option<QuestionNo>]
        ensures { result.now ≡ self.now.slots }
    {
        &self.slots
    }

    /// How many questions are open.
    pub fn open_count(&self) -> u32
        ensures { result ≡ length (opened self.now.slots) }
    {
        self.open.len() as u32
    }

    /// The channel that the next question gets, where channels have numbers.
    pub fn next_channel(&self) -> Option<u32>
        requires { 0 < free_count self.now.slots }
        ensures { result ≡ channel_name self.now.numbered (least_free self.now.slots) }
    {
        let channel = self.free.first();
        if self.numbered { Some(channel) } else { None }
    }

    /// Puts a question on the least free channel, and answers that where channels have numbers.
    pub fn ask(&mut self, question: QuestionNo) -> Option<u32>
        requires room { 0 < free_count self.old.slots }
        requires other { is_open question self.old.slots ≡ false }
        ensures channel { result ≡ channel_name self.old.numbered (least_free self.old.slots) }
        ensures value { self.new ≡ record self.old { slots = asked question self.old.slots } }
    {
        let channel = self.free.take();
        self.slots[channel as usize] = Some(question);
        self.open.note(question, channel);
        if self.numbered { Some(channel) } else { None }
    }

    /// Frees the channel of this question.
    pub fn settle(&mut self, question: QuestionNo)
        requires { is_open question self.old.slots ≡ true }
        ensures value { self.new ≡ record self.old { slots = settled question self.old.slots } }
        // One more channel is free, and the others keep their questions.
        ensures free { free_count self.new.slots ≡ free_count self.old.slots + 1 }
    {
        let channel = self.open.forget(question);
        self.slots[channel as usize] = None;
        self.free.give(channel);
    }

    /// What the line answers. Nothing changes.
    #[tactic(auto, unfolding(crate::specs::Gots::got_in))]
    pub fn look(&self, alloc: Global, line: &[u8]) -> Result<Got, WantOfMemory>
        ensures value { IfOk result (λ g. g ≡ got_in self.now line.now) }
        ensures open { IfOk result (names_open self.now.slots) }
    {
        match read_reply(alloc, line, self.numbered) {
            Ok((channel, reply)) => Ok(answer(&self.slots, channel, reply)),
            Err(ReplyFault::Bad) => Ok(Got::Bad),
            Err(ReplyFault::WantOfMemory) => Err(WantOfMemory),
        }
    }

    /// What the line answers. A reply frees the channel of its question.
    pub fn got(&mut self, alloc: Global, line: &[u8]) -> Result<Got, WantOfMemory>
        ensures value { IfOk result (λ g. g ≡ got_in self.old line.now) }
        ensures settled { IfOk result
            (λ g. self.new ≡ record self.old { slots = settled_by g self.old.slots }) }
        ensures same { OnErr result (self.new ≡ self.old) }
    {
        let got = self.look(alloc, line)?;
        if let Got::Reply(question, _) = &got {
            self.settle(*question);
        }
        Ok(got)
    }

    /// Takes out the open question of the least channel.
    pub fn drain(&mut self) -> Option<QuestionNo>
        ensures question { result ≡ first_open self.old.slots }
        ensures value { self.new ≡ record self.old { slots = drained self.old.slots } }
        ensures all { opened self.old.slots ≡ option_to_list result ++ opened self.new.slots }
    {
        let question = first_open(&self.slots)?;
        self.settle(question);
        Some(question)
    }
}
