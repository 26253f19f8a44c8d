//! Values that are put at the end and taken out at the front.
ghost use Rattle.std.specs.Prelude.{◌≡◌, ◌++◌, ◌∷◌, ◌==◌, [], drop, length, slice_get, OnOk};

use sq_base::WantOfMemory;
use std::alloc::Global;
use std::collections::VecDeque;
use std::marker::Model;

/// Values in a row. A contract sees their list.
#[derive(Drop)]
pub struct Queue<T> {
    items: VecDeque<T>,
}

impl<T> Model for Queue<T> {
    ghost use Rattle.std.specs.Prelude.{List};

    ghost Value = { List T };

    ghost view = { λ q. q.items.items };
}

impl<T: Copy + Drop> Queue<T> {
    /// The queue with no value. It takes no memory.
    pub fn new(alloc: Global) -> Queue<T>
        ensures { result ≡ [] }
    {
        Queue {
            items: VecDeque::new(alloc),
        }
    }

    /// How many values it has.
    pub fn len(&self) -> usize
        ensures { result ≡ length self.now }
    {
        self.items.len()
    }

    /// Whether it has no value.
    pub fn is_empty(&self) -> bool
        ensures { result ≡ (length self.now == 0) }
    {
        self.items.is_empty()
    }

    /// Puts a value at the end.
    pub fn push(&mut self, item: T) -> Result<(), WantOfMemory>
        ensures ok { OnOk result (self.new ≡ self.old ++ item ∷ []) }
    {
        self.items.push_back(item)?;
        Ok(())
    }

    /// The first value.
    pub fn first(&self) -> Option<T>
        ensures { result ≡ slice_get self.now 0 }
    {
        self.items.front().copied()
    }

    /// Takes out the first value, if there is one.
    pub fn pop(&mut self) -> Option<T>
        ensures value { result ≡ slice_get self.old 0 }
        ensures rest { self.new ≡ drop 1 self.old }
    {
        self.items.pop_front()
    }
}
