//! `FreeChannels`: the channels of a process that have no question.
ghost use Rattle.std.specs.Prelude.{◌≡◌, ◌<◌, ◌≤◌, ◌∷◌, [], length, replicate, None, IfOk, slice_index_or};
ghost use Rattle.std.specs.List.{insert};
ghost use Rattle.sq_channel.specs.Indexes.{free_channels};
ghost use Rattle.sq_machine.specs.Rising.{Rises, place_among, times_of};

use sq_base::WantOfMemory;
use std::alloc::Global;
use std::collections::VecDeque;
use std::marker::Model;

/// Channels in order. A contract sees them, and for how many there is room.
#[derive(Drop)]
pub struct FreeChannels {
    items: VecDeque<u32>,
}

impl Model for FreeChannels {
    ghost use Rattle.std.specs.VecDeque.{deque_capacity};
    ghost use Rattle.sq_channel.specs.Indexes.{Numbers};
    ghost use Rattle.sq_machine.specs.Rising.{Rises};

    ghost Value = { Numbers };

    ghost view = { λ f. record { numbers = f.items.items; room = deque_capacity f.items } };

    ghost invariant = { λ f. Rises f.items.items };
}

fn place_of(items: &VecDeque<u32>, channel: u32) -> usize
    requires { Rises items.now.items }
    ensures place { result ≡ place_among channel items.now.items }
    ensures bound { result ≤ length items.now.items }
{
    items.partition_point(|&number| number < channel)
}

impl FreeChannels {
    /// So many channels, from 0.
    pub fn new(alloc: Global, count: u32) -> Result<FreeChannels, WantOfMemory>
        ensures numbers { IfOk result (λ f. f.numbers ≡ free_channels 0 (replicate count None)) }
        ensures room { IfOk result (λ f. count ≤ f.room) }
    {
        let mut items = VecDeque::with_capacity(alloc, count as usize)?;
        for channel in 0..count {
            items.push_back_reserved(channel);
        }
        Ok(FreeChannels { items })
    }

    /// How many.
    pub fn len(&self) -> usize
        ensures { result ≡ length self.now.numbers }
    {
        self.items.len()
    }

    /// The least.
    pub fn first(&self) -> u32
        requires { 0 < length self.now.numbers }
        ensures { result ≡ slice_index_or self.now.numbers 0 result }
    {
        self.items[0]
    }

    /// Takes out the least.
    pub fn take(&mut self) -> u32
        requires { 0 < length self.old.numbers }
        ensures numbers { self.old.numbers ≡ result ∷ self.new.numbers }
        ensures room { self.new.room ≡ self.old.room }
    {
        let first = self.first();
        self.items.pop_front();
        first
    }

    /// Puts a channel to its place. It takes no memory.
    pub fn give(&mut self, channel: u32)
        requires room { length self.old.numbers < self.old.room }
        requires other { times_of channel self.old.numbers ≡ 0 }
        ensures numbers { self.new.numbers
            ≡ insert self.old.numbers (place_among channel self.old.numbers) channel }
        ensures room { self.old.room ≤ self.new.room }
    {
        let place = place_of(&self.items, channel);
        let _ = self.items.insert(place, channel);
    }
}
