//! Rules that are evaluated by a stored place.
ghost use Rattle.std.specs.Prelude.{◌≡◌, ◌+◌, ◌≤◌, ℕ, suc, List, Bool, true, length, if◌then◌else◌, ◌==◌, Some, None, is_some, IfOk};
ghost use Rattle.std.specs.Arc.{arc_value};
ghost use Rattle.sq_checks.specs.Courses.{leaves_by};
ghost use Rattle.sq_checks.specs.GivenValues.{given_at, left_in, needed_by, ran_value, taken_given};
ghost use Rattle.sq_checks.specs.Positions.{Asks, FaultIs, IsPosition};
ghost use Rattle.sq_checks.specs.Slots.{externals_on, is_external_at, slots_of};
ghost use Rattle.sq_checks.specs.Standing.{given_to, leaves_of, looks_in, taken_of, value_of, value_over, IsAt, IsOver, IsPlaced, IsWhole};

use crate::answers::{Given, Ran, needed_by};
use crate::positions::{Position, begin};
use crate::slots::Slots;
use crate::stepping::run_on;
use crate::walk_inputs::{WalkInputs, give};
use sq_base::{Steps, WantOfMemory};
use sq_rules::{Config, Facts};
use std::alloc::Global;
use std::marker::Model;
use std::sync::Arc;
use std::sync::ledger::Ledger;

/// The rules of a configuration at a place in them, for one check. Each run asks for the same facts.
pub struct Frames {
    slots: Arc<Slots>,
    table: Vec<Option<Given>>,
    position: Position,
    need: Option<u32>,
}

// Written out, so that the drops of its parts are proved here alone.
impl Drop for Frames {
    fn drop(self) {
        let Frames {
            slots: _,
            table: _,
            position: _,
            need: _,
        } = self;
    }
}

impl Model for Frames {
    ghost use Rattle.std.specs.Arc.{arc_value};
    ghost use Rattle.sq_checks.specs.Standing.{IsStanding, Standing};

    ghost Value = { Standing };

    ghost view = { λ f. record {
      config = arc_value f.slots;
      table = f.table.items;
      position = f.position;
      need = f.need;
    } };

    ghost invariant = { λ f. IsStanding
        (record {
          config = arc_value f.slots;
          table = f.table.items;
          position = f.position;
          need = f.need;
        }) };
}

// Goes on from a place, and comes to another.
fn run_over<L: Ledger>(
    config: &Config,
    slots: &[u32],
    facts: &Facts,
    table: &[Option<Given>],
    position: &mut Position,
    steps: &mut Steps<L>,
) -> Ran
    requires facts { length facts.now ≡ length config.now.acls }
    requires slots { slots.now ≡ slots_of config.now.acls }
    requires position { IsPosition config.now position.old }
    requires over { (n : ℕ) × IsPlaced facts.now config.now table.now position.old n }
    ensures stands { IsPosition config.now position.new }
    ensures asks { Asks config.now.acls (slots_of config.now.acls) table.now (needed_by result) }
    ensures value { ran_value config.now.acls result ≡ value_over facts.now config.now table.now }
    ensures fault { FaultIs
        (taken_given config.now.acls (slots_of config.now.acls) facts.now table.now)
        config.now position.new result }
    ensures looked { IsPlaced facts.now config.now table.now position.new
        (leaves_by (taken_given config.now.acls (slots_of config.now.acls) facts.now table.now)
        config.now) }
    ensures whole { IsWhole facts.now config.now table.now (needed_by result) }
    ensures at { (n : ℕ) → IsPlaced facts.now config.now table.now position.old n
        → (k : ℕ) × (steps.new ≡ steps.old + k)
        × IsPlaced facts.now config.now table.now position.new (n + k) }
{
    let taking = WalkInputs {
        config,
        facts,
        slots,
        table,
    };
    run_on(&taking, position, steps)
}

// Gives an external acl that is needed its value.
fn give_to(slots: &Slots, table: &mut Vec<Option<Given>>, acl: u32, value: Given)
    requires counted { length table.old.items ≡ externals_on 0 slots.now.acls }
    requires external { is_external_at slots.now.acls acl ≡ true }
    requires none { given_at (slots_of slots.now.acls) table.old.items acl ≡ None }
    ensures counted { length table.new.items ≡ length table.old.items }
    ensures given { (other : ℕ) → is_external_at slots.now.acls other ≡ true
        → given_at (slots_of slots.now.acls) table.new.items other
        ≡ (if other == acl then Some value
        else given_at (slots_of slots.now.acls) table.old.items other) }
    ensures left { left_in table.old.items ≡ suc (left_in table.new.items) }
    ensures at { (facts : List Bool) (p : Position) (n : ℕ)
        → IsPlaced facts slots.now table.old.items p n
        → IsPlaced facts slots.now table.new.items p n }
{
    give(slots.as_slice(), table, acl, value);
}

// A table in which nothing was given.
fn nothing(alloc: Global, slots: &Slots) -> Result<Vec<Option<Given>>, WantOfMemory>
    ensures counted { IfOk result (λ t. length t.items ≡ externals_on 0 slots.now.acls) }
    ensures none { IfOk result
        (λ t. (acl : ℕ) → given_at (slots_of slots.now.acls) t.items acl ≡ None) }
{
    let table = vec![in alloc; None; slots.count() as usize]?;
    Ok(table)
}

// A table in which nothing was given, and the place before the first rule.
fn begun(alloc: Global, slots: &Slots) -> Result<(Vec<Option<Given>>, Position), WantOfMemory>
    ensures counted { IfOk result (λ r. length r.0.items ≡ externals_on 0 slots.now.acls) }
    ensures none { IfOk result
        (λ r. (acl : ℕ) → given_at (slots_of slots.now.acls) r.0.items acl ≡ None) }
    ensures stands { IfOk result (λ r. IsPosition slots.now r.1) }
    ensures at { IfOk result (λ r. (facts : List Bool) → IsPlaced facts slots.now r.0.items r.1 0) }
{
    let table = nothing(alloc, slots)?;
    let position = begin(alloc, slots.config(), slots.depth())?;
    Ok((table, position))
}

impl Frames {
    /// The place before the first rule, where no value was given yet.
    pub fn start(alloc: Global, slots: &Arc<Slots>) -> Result<Frames, WantOfMemory>
        ensures config { IfOk result (λ f. f.config ≡ arc_value slots.now) }
        ensures none { IfOk result (λ f. f.need ≡ None) }
        ensures given { IfOk result (λ f. (acl : ℕ) → given_to f acl ≡ None) }
        ensures at { IfOk result (λ f. (facts : List Bool) → IsAt facts f 0) }
    {
        let slots = Arc::try_clone(slots)?;
        let (table, position) = begun(alloc, &slots)?;
        Ok(Frames {
            slots,
            table,
            position,
            need: None,
        })
    }

    /// Goes on to a verdict, or to the first external acl for which no value was given. What it answers is what the
    /// rules come to over the values that were given. Then the looks of all runs are as many as the walk of the rules
    /// over these values has leaf acls, and this run's, by which the counter rose, are those that were not among them
    /// before it; where no acl is needed, or nothing is given for it, the walk has no others. An acl that had a fault is
    /// the one at which it stopped. It takes no memory.
    pub fn run<L: Ledger>(&mut self, facts: &Facts, steps: &mut Steps<L>) -> Ran
        requires facts { length facts.now ≡ length self.old.config.acls }
        requires over { IsOver facts.now self.old }
        ensures config { self.new.config ≡ self.old.config }
        ensures given { self.new.table ≡ self.old.table }
        ensures need { self.new.need ≡ needed_by result }
        ensures asks { Asks self.new.config.acls (slots_of self.new.config.acls) self.new.table
            (needed_by result) }
        ensures value { ran_value self.new.config.acls result ≡ value_of facts.now self.new }
        ensures fault { FaultIs (taken_of facts.now self.new) self.new.config self.new.position
            result }
        ensures looked { IsAt facts.now self.new (leaves_of facts.now self.new) }
        ensures whole { IsWhole facts.now self.new.config self.new.table (needed_by result) }
        ensures at { (looked : ℕ) → IsAt facts.now self.old looked
            → (k : ℕ) × (steps.new ≡ steps.old + k) × IsAt facts.now self.new (looked + k) }
    {
        let slots = &self.slots;
        let table = self.table.as_slice();
        let position = &mut self.position;
        let ran = run_over(
            slots.config(),
            slots.as_slice(),
            facts,
            table,
            position,
            steps,
        );
        self.need = needed_by(ran);
        ran
    }

    /// Gives the external acl that is needed its value. It asks that the last run answered that one is needed. It
    /// takes no memory.
    pub fn give(&mut self, value: Given)
        requires { is_some self.old.need ≡ true }
        ensures config { self.new.config ≡ self.old.config }
        ensures need { self.new.need ≡ None }
        ensures looks { looks_in self.new ≡ looks_in self.old }
        ensures given { (need acl : ℕ) → self.old.need ≡ Some need
            → is_external_at self.old.config.acls acl ≡ true
            → given_to self.new acl ≡ (if acl == need then Some value else given_to self.old acl) }
        ensures left { left_in self.old.table ≡ suc (left_in self.new.table) }
        ensures at { (facts : List Bool) (looked : ℕ) → IsAt facts self.old looked
            → IsAt facts self.new looked }
    {
        if let Some(acl) = self.need {
            give_to(&self.slots, &mut self.table, acl, value);
        }
        self.need = None;
    }

    /// The external acl that is needed, if the last run answered that one is and nothing was given for it yet. It takes
    /// no memory.
    pub fn need(&self) -> Option<u32>
        ensures { result ≡ self.now.need }
    {
        self.need
    }

    /// How many looks its runs made, as the counters of these rose; it stays at 2^63 - 1 once it is there. It takes no memory.
    pub fn looks(&self) -> u64
        ensures looks { result ≡ looks_in self.now }
        ensures few { (facts : List Bool) → IsOver facts self.now
            → result ≤ leaves_of facts self.now }
    {
        self.position.looks
    }
}
