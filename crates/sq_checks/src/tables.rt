//! Values by number.
ghost use Rattle.std.specs.Prelude.{◌≡◌, ◌+◌, [], true, cond, if◌then◌else◌, ℕ, Some, None, length, is_none, is_some, OnOk, OnErr};
ghost use Rattle.std.specs.Ordering.{nat_cmp, is_eq};
ghost use Rattle.sq_checks.specs.Tables.{value_at, without};

use sq_base::WantOfMemory;
use std::alloc::Global;
use std::collections::BTreeMap;
use std::marker::Model;

/// Values by number. A contract sees each number with its value, in the order of the numbers.
#[derive(Drop)]
pub struct Table<V> {
    map: BTreeMap<u128, V>,
}

impl<V> Model for Table<V> {
    ghost use Rattle.std.specs.Prelude.{List, ℕ};

    ghost Value = { List (ℕ × V) };

    ghost view = { λ c. c.map.entries };
}

impl<V: Copy + Drop> Table<V> {
    /// No values yet.
    pub fn new(alloc: Global) -> Table<V>
        ensures { result ≡ [] }
    {
        Table {
            map: BTreeMap::new(alloc),
        }
    }

    /// How many values there are.
    pub fn len(&self) -> usize
        ensures { result ≡ length self.now }
    {
        self.map.len()
    }

    /// The value of a number.
    pub fn get(&self, number: u128) -> Option<V>
        ensures { result ≡ value_at self.now number }
    {
        self.map.get(&number).copied()
    }

    /// Puts the value of a number.
    pub fn put(&mut self, number: u128, value: V) -> Result<(), WantOfMemory>
        ensures ok { OnOk result
            ((c : ℕ) → value_at self.new c
            ≡ cond (is_eq (nat_cmp number c)) (Some value) (value_at self.old c)) }
        ensures len { OnOk result
            (length self.new ≡ length self.old
            + (if is_none (value_at self.old number) then 1 else 0)) }
        ensures undo { OnOk result
            (value_at self.old number ≡ None → without number self.new ≡ self.old) }
        ensures err { OnErr result (self.new ≡ self.old) }
    {
        match self.map.insert(number, value) {
            Ok(_) => {}
            Err(_) => return Err(WantOfMemory),
        }
        Ok(())
    }

    /// Puts another value in the place of one that is there, which takes no memory.
    pub fn change(&mut self, number: u128, value: V)
        requires { is_some (value_at self.old number) ≡ true }
        ensures value { (c : ℕ) → value_at self.new c
            ≡ cond (is_eq (nat_cmp number c)) (Some value) (value_at self.old c) }
        ensures len { length self.new ≡ length self.old }
    {
        match self.map.get_mut(&number) {
            Some(place) => *place = value,
            None => unreachable!(),
        }
    }

    /// Takes the value of a number away.
    pub fn remove(&mut self, number: u128)
        ensures list { self.new ≡ without number self.old }
        ensures value { (c : ℕ) → value_at self.new c
            ≡ cond (is_eq (nat_cmp number c)) None (value_at self.old c) }
        ensures len { length self.new + (if is_some (value_at self.old number) then 1 else 0)
            ≡ length self.old }
    {
        let _ = self.map.remove(&number);
    }
}
