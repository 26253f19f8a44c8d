//! How many connections of each address are open.
ghost use Rattle.std.specs.Prelude.{◌≡◌, ◌-◌, suc, if◌then◌else◌, OnOk, OnErr, unwrap_or};
ghost use Rattle.sq_base.specs.Addresses.{Address};
ghost use Rattle.sq_machine.specs.Connections.{is_address};
ghost use Rattle.sq_checks.specs.Counts.{tally, HasNoZeros, Lowers, Raises};
ghost use Rattle.sq_checks.specs.Tables.{value_at};

use crate::tables::Table;
use sq_base::{Addr, WantOfMemory};
use std::alloc::Global;
use std::marker::Model;

/// The counts of the addresses that have open connections; an address without one has no row. A contract sees the rows of
/// both kinds.
#[derive(Drop)]
pub struct ConnCounts {
    v4: Table<u32>,
    v6: Table<u32>,
}

impl Model for ConnCounts {
    ghost use Rattle.sq_checks.specs.Counts.{HasNoZeros, Tallies};

    ghost Value = { Tallies };

    ghost view = { λ c. record { v4 = c.v4; v6 = c.v6 } };

    // So an address whose connections have all closed takes no memory.
    ghost invariant = { λ c. HasNoZeros c.v4 × HasNoZeros c.v6 };
}

// The count that a table has for a number.
fn count_in(table: &Table<u32>, number: u128) -> u32
    ensures { result ≡ unwrap_or (value_at table.now number) 0 }
{
    match table.get(number) {
        None => 0,
        Some(count) => count,
    }
}

impl ConnCounts {
    /// No address has any.
    #[tactic(auto, using(crate::proofs::CountLaws::none_at_first))]
    pub fn new(alloc: Global) -> ConnCounts
        ensures { (a : Address) → tally result a ≡ 0 }
    {
        ConnCounts {
            v4: Table::new(alloc),
            v6: Table::new(alloc),
        }
    }

    /// The count of an address.
    pub fn count(&self, addr: Addr) -> u32
        ensures { result ≡ tally self.now addr }
    {
        if addr.v6 {
            count_in(&self.v6, addr.number)
        } else {
            count_in(&self.v4, addr.number)
        }
    }

    /// One more of an address.
    pub fn raise(&mut self, addr: Addr) -> Result<(), WantOfMemory>
        ensures ok { OnOk result
            ((a : Address) → tally self.new a
            ≡ (if is_address a addr then suc (tally self.old a) else tally self.old a)) }
        ensures err { OnErr result (self.new ≡ self.old) }
    {
        if addr.v6 {
            raise(&mut self.v6, addr.number)
        } else {
            raise(&mut self.v4, addr.number)
        }
    }

    /// One less of an address.
    pub fn lower(&mut self, addr: Addr)
        ensures { (a : Address)
            → tally self.new a ≡ (if is_address a addr then tally self.old a - 1
            else tally self.old a) }
    {
        if addr.v6 {
            lower(&mut self.v6, addr.number)
        } else {
            lower(&mut self.v4, addr.number)
        }
    }
}

// One more of a number. More connections than a count holds are as many as no memory holds.
#[tactic(auto, using(crate::proofs::CountLaws::none_put))]
fn raise(table: &mut Table<u32>, number: u128) -> Result<(), WantOfMemory>
    requires rows { HasNoZeros table.old }
    ensures ok { OnOk result (Raises table.old table.new number) }
    ensures err { OnErr result (table.new ≡ table.old) }
    ensures rows { HasNoZeros table.new }
{
    let Some(count) = count_in(table, number).checked_add(1) else {
        return Err(WantOfMemory);
    };
    table.put(number, count)
}

// One less of a number, whose row goes where none is left.
#[tactic(auto, using(crate::proofs::CountLaws::none_put, crate::proofs::CountLaws::none_removed))]
fn lower(table: &mut Table<u32>, number: u128)
    requires rows { HasNoZeros table.old }
    ensures lowers { Lowers table.old table.new number }
    ensures rows { HasNoZeros table.new }
{
    let count = count_in(table, number);
    if count > 1 {
        table.change(number, count - 1);
    } else {
        table.remove(number);
    }
}
