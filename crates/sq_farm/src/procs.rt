//! `Procs`: the living processes of a class, by number, and which of them have a free channel.
ghost use Rattle.std.specs.Prelude.{◌≡◌, ◌<◌, ◌≤◌, ◌+◌, [], length, map, true, false, is_some, Some, None, IfSome, OnOk, OnErr};
ghost use Rattle.std.specs.Option.{option_map};
ghost use Rattle.sq_machine.specs.Channels.{is_open};
ghost use Rattle.sq_machine.specs.Living.{find_proc, free_numbers, has_free, is_none_living, lives, living_number, sent, settled_in, slots_in, some_free, target, times_in, with_proc, without};
ghost use Rattle.sq_machine.specs.Rising.{Rises, place_among};

use sq_base::{ProcNo, QuestionNo, WantOfMemory};
use sq_channel::Process;
use std::alloc::Global;
use std::marker::Model;

/// A living process.
#[derive(Drop)]
pub struct Living {
    pub number: ProcNo,
    pub process: Process,
}

impl Model for Living {
    ghost use Rattle.sq_machine.specs.Living.{Living};

    ghost Value = { Living };

    ghost view = { λ l. record { number = l.number; process = l.process } };
}

/// Living processes, by number. A contract sees their list.
#[derive(Drop)]
pub struct Procs {
    rows: Vec<Living>,
    // The processes with a free channel, by number. It has room for all.
    free: Vec<ProcNo>,
}

impl Model for Procs {
    ghost use Rattle.sq_machine.specs.Living.{Living, free_numbers, living_number};
    ghost use Rattle.std.specs.Prelude.{◌≡◌, ◌≤◌, List, length, map};
    ghost use Rattle.std.specs.Vec.{vec_capacity};
    ghost use Rattle.sq_machine.specs.Rising.{Rises};

    ghost Value = { List Living };

    ghost view = { λ p. p.rows.items };

    ghost invariant = { λ p. Rises (map living_number p.rows.items)
        × (p.free.items ≡ free_numbers p.rows.items)
        × (length p.rows.items ≤ vec_capacity p.free) };
}

fn place_of(rows: &[Living], proc: ProcNo) -> usize
    requires { Rises (map living_number rows.now) }
    ensures place { result ≡ place_among proc (map living_number rows.now) }
    ensures bound { result ≤ length rows.now }
{
    rows.partition_point(|living| living.number.0 < proc.0)
}

fn place_in(numbers: &[ProcNo], proc: ProcNo) -> usize
    requires { Rises numbers.now }
    ensures place { result ≡ place_among proc numbers.now }
    ensures bound { result ≤ length numbers.now }
{
    numbers.partition_point(|number| number.0 < proc.0)
}

fn find(rows: &[Living], proc: ProcNo) -> Option<usize>
    requires { Rises (map living_number rows.now) }
    ensures lives { is_some result ≡ lives proc rows.now }
    ensures place { IfSome result (λ i. i ≡ place_among proc (map living_number rows.now)) }
{
    let place = place_of(rows, proc);
    match rows.get(place) {
        Some(living) if living.number.0 == proc.0 => Some(place),
        _ => None,
    }
}

impl Procs {
    /// No process. It takes no memory.
    pub fn new(alloc: Global) -> Procs
        ensures { result ≡ [] }
    {
        Procs {
            rows: Vec::new(alloc),
            free: Vec::new(alloc),
        }
    }

    /// How many live.
    pub fn len(&self) -> usize
        ensures { result ≡ length self.now }
    {
        self.rows.len()
    }

    /// Whether none lives.
    pub fn is_empty(&self) -> bool
        ensures { result ≡ is_none_living self.now }
    {
        self.rows.is_empty()
    }

    /// Whether some process has a free channel.
    pub fn some_free(&self) -> bool
        ensures { result ≡ some_free self.now }
    {
        !self.free.is_empty()
    }

    /// Where the next question goes: the least process with a free channel, and that channel.
    pub fn target(&self) -> Option<(ProcNo, Option<u32>)>
        ensures { result ≡ target self.now }
    {
        if !self.some_free() {
            return None;
        }
        let number = self.free[0];
        let place = place_of(&self.rows, number);
        let living = &self.rows[place];
        let channel = living.process.next_channel();
        Some((number, channel))
    }

    /// Puts a question on the least free channel of the least process that has one.
    pub fn send(&mut self, question: QuestionNo) -> (ProcNo, Option<u32>)
        requires free { some_free self.old ≡ true }
        requires other { times_in question self.old ≡ 0 }
        ensures target { Some result ≡ target self.old }
        ensures value { self.new ≡ sent question self.old }
    {
        let number = self.free[0];
        let place = place_of(&self.rows, number);
        let living = &mut self.rows[place];
        let channel = living.process.ask(question);
        if living.process.free() == 0 {
            self.free.remove(0);
        }
        (number, channel)
    }

    /// Frees the channel of a question of this process.
    pub fn settle(&mut self, proc: ProcNo, question: QuestionNo)
        requires { is_open question (slots_in proc self.old) ≡ true }
        ensures { self.new ≡ settled_in proc question self.old }
    {
        let place = place_of(&self.rows, proc);
        let living = &mut self.rows[place];
        let was_full = living.process.free() == 0;
        living.process.settle(question);
        if was_full {
            let at = place_in(&self.free, proc);
            let _ = self.free.insert(at, proc);
        }
    }

    /// The process with this number, lent.
    pub fn get(&self, proc: ProcNo) -> Option<&Process>
        ensures { option_map (λ p. p.now) result ≡ find_proc proc self.now }
    {
        let place = find(&self.rows, proc)?;
        let living = &self.rows[place];
        Some(&living.process)
    }

    /// Takes out the process with this number.
    pub fn remove(&mut self, proc: ProcNo) -> Option<Process>
        ensures process { result ≡ find_proc proc self.old }
        ensures value { self.new ≡ without proc self.old }
    {
        let place = find(&self.rows, proc)?;
        let living = self.rows.remove(place);
        if living.process.free() > 0 {
            let at = place_in(&self.free, proc);
            self.free.remove(at);
        }
        Some(living.process)
    }

    /// One process more.
    pub fn insert(&mut self, number: ProcNo, process: Process) -> Result<(), WantOfMemory>
        requires other { lives number self.old ≡ false }
        requires free { has_free (record { number = number; process = process }) ≡ true }
        ensures ok { OnOk result
            (self.new ≡ with_proc (record { number = number; process = process }) self.old) }
        ensures err { OnErr result (self.new ≡ self.old) }
    {
        self.rows.reserve(1)?;
        self.free.reserve(self.rows.len() + 1)?;
        let at = place_in(&self.free, number);
        let place = place_of(&self.rows, number);
        let _ = self.free.insert(at, number);
        let _ = self.rows.insert(place, Living { number, process });
        Ok(())
    }
}
