//! `MemJournal`: a journal in memory.
ghost use Rattle.std.specs.Prelude.{◌≡◌, ◌+◌, ◌∷◌, [], ◌++◌, ◌<◌, ◌≤◌, max, vec_len, vec_capacity, Some, IfOk, OnOk, OnErr, is_err};
ghost use Rattle.sq_outside.specs.Calls.{next_call, counted};
ghost use Rattle.sq_outside.specs.Causes.{HasCause};
ghost use Rattle.sq_journal.specs.Noting.{with_entry};

use crate::journal::Journal;
use sq_base::WantOfMemory;
use sq_machine::Entry;
use sq_outside::{Calls, Failed};
use std::alloc::Global;

/// A journal with room for a stated number of entries, of which listed calls are to fail.
#[derive(Drop)]
pub struct MemJournal {
    entries: Vec<Entry>,
    room: usize,
    spare: usize,
    notes: Calls,
    reserves: Calls,
    ghost held: { vec_len entries + spare ≤ room },
    ghost fits: { room ≤ vec_capacity entries },
}

impl MemJournal {
    ghost use Rattle.sq_journal.specs.Memory.{mem_entries, mem_room, mem_spare, mem_fails, mem_notes, mem_wants, mem_reserves, mem_faults};

    /// A journal with this room, of which the notes with these numbers are to fail, and the reserves with those
    /// numbers to want memory. No place is made yet.
    pub fn new(
        alloc: Global,
        room: usize,
        fails: Vec<u64>,
        wants: Vec<u64>,
    ) -> Result<MemJournal, WantOfMemory>
        ensures empty { IfOk result (λ j. mem_entries j ≡ []) }
        ensures room { IfOk result (λ j. mem_room j ≡ room) }
        ensures spare { IfOk result (λ j. mem_spare j ≡ 0) }
        ensures fails { IfOk result (λ j. mem_fails j ≡ fails.items) }
        ensures notes { IfOk result (λ j. mem_notes j ≡ 0) }
        ensures wants { IfOk result (λ j. mem_wants j ≡ wants.items) }
        ensures reserves { IfOk result (λ j. mem_reserves j ≡ 0) }
        ensures faults { IfOk result (λ j. mem_faults j ≡ 0) }
    {
        let entries = Vec::with_capacity(alloc, room)?;
        Ok(MemJournal {
            entries,
            room,
            spare: 0,
            notes: Calls::new(fails),
            reserves: Calls::new(wants),
        })
    }

    /// The entries, the oldest first.
    pub fn entries(&self) -> &[Entry]
        ensures { result.now ≡ mem_entries self.now }
    {
        self.entries.as_slice()
    }
}

impl Journal for MemJournal {
    ghost use Rattle.sq_journal.specs.Memory.{mem_entries, mem_history, mem_room, mem_spare, mem_fails, mem_notes, mem_fails_next, mem_wants, mem_reserves, mem_wants_next, mem_faults};

    ghost history = { λ j. Some (mem_history j) };

    ghost spare = { mem_spare };

    ghost faults = { mem_faults };

    ghost capped = { λ j. j.notes.capped };

    fn reserve(&mut self, n: u32) -> Result<(), WantOfMemory>
        ensures made { OnOk result (n ≤ mem_spare self.new) }
        ensures stay { mem_spare self.old ≤ mem_spare self.new }
        ensures history { Some (mem_history self.new) ≡ Some (mem_history self.old) }
        ensures faults { mem_faults self.new ≡ mem_faults self.old }
        // It wants memory where it is listed, or there is no room for so many, and only there.
        ensures wants_next { is_err result ≡ mem_wants_next self.old n }
        ensures places { OnOk result (mem_spare self.new ≡ max (mem_spare self.old) n) }
        ensures kept { OnErr result (mem_spare self.new ≡ mem_spare self.old) }
        ensures room { mem_room self.new ≡ mem_room self.old }
        ensures fails { mem_fails self.new ≡ mem_fails self.old }
        ensures notes { mem_notes self.new ≡ mem_notes self.old }
        ensures wants { mem_wants self.new ≡ mem_wants self.old }
        ensures reserves { mem_reserves self.new ≡ next_call (mem_reserves self.old) }
    {
        let places = n as usize;
        match self.reserves.next() {
            Ok(()) => {}
            Err(Failed) => return Err(WantOfMemory),
        }
        if places > self.room - self.entries.len() {
            return Err(WantOfMemory);
        }
        self.spare = self.spare.max(places);
        Ok(())
    }

    fn note(&mut self, entry: Entry) -> Result<(), Failed>
        requires { 0 < mem_spare self.old }
        ensures noted { OnOk result
            (Some (mem_history self.new) ≡ with_entry entry (Some (mem_history self.old))) }
        ensures failed { OnErr result (Some (mem_history self.new) ≡ Some (mem_history self.old)) }
        ensures place { mem_spare self.new + 1 ≡ mem_spare self.old }
        ensures cause { HasCause (mem_faults self.old) (mem_faults self.new) result }
        ensures entries { OnOk result (mem_entries self.new ≡ mem_entries self.old ++ entry ∷ []) }
        ensures kept { OnErr result (mem_entries self.new ≡ mem_entries self.old) }
        // It fails where it is listed, and only there; each failure is counted.
        ensures fails_next { is_err result ≡ mem_fails_next self.old }
        ensures counts { mem_faults self.new
            ≡ counted (mem_fails_next self.old) (mem_faults self.old) }
        ensures room { OnOk result (mem_room self.new + 1 ≡ mem_room self.old) }
        ensures room_stays { OnErr result (mem_room self.new ≡ mem_room self.old) }
        ensures fails { mem_fails self.new ≡ mem_fails self.old }
        ensures notes { mem_notes self.new ≡ next_call (mem_notes self.old) }
        ensures wants { mem_wants self.new ≡ mem_wants self.old }
        ensures reserves { mem_reserves self.new ≡ mem_reserves self.old }
    {
        self.spare -= 1;
        match self.notes.next() {
            Ok(()) => {}
            Err(Failed) => return Err(Failed),
        }
        self.entries.push(entry).unwrap();
        Ok(())
    }
}
