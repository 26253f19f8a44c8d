//! `Epochs`: the live epochs, the homes of processes and the due stops.
ghost use Rattle.std.specs.Prelude.{◌≡◌, ◌<◌, ◌≤◌, ◌^◌, ◌∷◌, ◌==◌, [], ℕ, suc, true, is_some, Some, None, map, length, IfOk, IfNone, IfSome, OnOk, OnErr, IsErrOf};
ghost use Rattle.std.specs.Arc.{arc_value};
ghost use Rattle.std.specs.Option.{option_map};
ghost use Rattle.sq_class.specs.Parts.{IsAsBefore, PartState};
ghost use Rattle.sq_class.specs.Steps.{IsSpent};
ghost use Rattle.sq_rules.specs.Classes.{Class};
ghost use Rattle.sq_machine.specs.OpenLookups.{all_below, question_of};
ghost use Rattle.sq_machine.specs.Rising.{Rises, place_among};
ghost use Rattle.sq_model.specs.StepRows.{says_of_row};
ghost use Rattle.sq_epochs.specs.EpochStates.{IsChanged, class_at, epoch_at, epoch_number, home_at, new_epoch, part_at};
ghost use Rattle.sq_epochs.specs.EpochChanges.{HasFailed, HasLeft, HasNoLoss, HasNoStart, HasReplied, IsHandedOn, IsResolved};
ghost use Rattle.sq_machine.specs.Channels.{is_open};
ghost use Rattle.sq_farm.specs.Replies.{got_of};
ghost use Rattle.sq_machine.specs.Living.{lives, slots_in};

use crate::epoch::Epoch;
use crate::homes::{Home, Homes};
use sq_base::{CheckNo, EpochNo, Moment, ProcNo, QuestionNo, Text, WantOfMemory, What};
use sq_cache::HashSeed;
use sq_class::{Lost, ResolveFault};
use sq_farm::{Got, StartFault};
use sq_lookup::Checks;
use sq_model::StepEffect;
use sq_rules::{Class, Config};
use std::alloc::Global;
use std::marker::Model;
use std::sync::Arc;

/// The live epochs by number, the current one the last that began, with the parts of their classes; the homes of
/// processes and the due stops.
pub struct Epochs {
    pub(crate) current: EpochNo,
    pub(crate) epochs: Vec<Epoch>,
    pub(crate) homes: Homes,
}

impl Drop for Epochs {
    fn drop(self) {
        let Epochs {
            current: _,
            epochs: _,
            homes: _,
        } = self;
    }
}

impl Model for Epochs {
    ghost use Rattle.sq_epochs.specs.EpochStates.{EpochsState};
    ghost use Rattle.sq_epochs.specs.EpochProcs.{AreWhole};

    ghost Value = { EpochsState };

    ghost view = { λ v. record {
      current = v.current;
      epochs = v.epochs.items;
      procs = v.homes.given;
      homes = v.homes.homes;
      stops = v.homes.stops;
    } };

    ghost invariant = { λ v. AreWhole
        (record {
          current = v.current;
          epochs = v.epochs.items;
          procs = v.homes.given;
          homes = v.homes.homes;
          stops = v.homes.stops;
        }) };
}

pub(crate) fn place_of(epochs: &[Epoch], number: EpochNo) -> usize
    requires { Rises (map epoch_number epochs.now) }
    ensures place { result ≡ place_among number (map epoch_number epochs.now) }
    ensures bound { result ≤ length epochs.now }
{
    epochs.partition_point(|epoch| epoch.number.0 < number.0)
}

impl Epochs {
    /// The first epoch, with this configuration; it has no open check. The seed is for the hashes of keys.
    pub fn new(alloc: Global, config: Arc<Config>, seed: HashSeed) -> Result<Epochs, WantOfMemory>
        ensures { IfOk result
            (λ v. v ≡ record {
              current = 1;
              epochs = new_epoch 1 (arc_value config) ∷ [];
              procs = 0;
              homes = [];
              stops = [];
            }) }
    {
        let first = Epoch::new(alloc, EpochNo(1), config, seed)?;
        let mut epochs = Vec::new(alloc);
        epochs.push(first)?;
        Ok(Epochs {
            current: EpochNo(1),
            epochs,
            homes: Homes::new(alloc),
        })
    }

    /// The number of the current epoch.
    pub fn current(&self) -> EpochNo
        ensures { result ≡ self.now.current }
    {
        self.current
    }

    /// How many epochs live.
    pub fn len(&self) -> usize
        ensures { result ≡ length self.now.epochs }
    {
        self.epochs.len()
    }

    /// How many processes were started.
    pub fn procs(&self) -> u64
        ensures value { result ≡ self.now.procs }
        ensures few { result < 2 ^ 63 }
    {
        self.homes.given()
    }

    /// How many processes of live epochs live.
    pub fn living(&self) -> usize
        ensures { result ≡ length self.now.homes }
    {
        self.homes.len()
    }

    /// Of which epoch and class a living process is, lent.
    pub fn home(&self, proc: ProcNo) -> Option<&Home>
        ensures place { option_map (λ h. h.now.place) result ≡ home_at self.now proc }
        ensures number { IfSome result (λ h. h.now.proc ≡ proc) }
    {
        self.homes.get(proc)
    }

    // The live epoch with this number.
    pub(crate) fn epoch(&self, epoch: EpochNo) -> Option<&Epoch>
        ensures { option_map (λ x. x.now) result ≡ epoch_at self.now epoch }
    {
        let place = place_of(&self.epochs, epoch);
        match self.epochs.get(place) {
            Some(live) if live.number.0 == epoch.0 => Some(live),
            _ => None,
        }
    }

    /// The configuration of a live epoch, lent.
    pub fn config(&self, epoch: EpochNo) -> Option<&Arc<Config>>
        ensures { option_map (λ c. arc_value c.now) result
            ≡ option_map (λ x. x.config) (epoch_at self.now epoch) }
    {
        let live = self.epoch(epoch)?;
        Some(&live.config)
    }

    /// The class at a place of a live epoch, lent.
    pub fn class(&self, epoch: EpochNo, class: u32) -> Option<&Class>
        ensures class { option_map (λ c. c.now) result ≡ class_at self.now epoch class }
        // It is there where its part is.
        ensures there { is_some (class_at self.now epoch class)
            ≡ is_some (part_at self.now epoch class) }
    {
        let live = self.epoch(epoch)?;
        live.class(class)
    }

    /// A step of a check that waits for nothing and needs the answer of a key of this class, where so many questions
    /// were put in all. A question that is put gets the next number; it is refused where that would be 2^63 - 1,
    /// unless memory is wanting before.
    pub fn resolve(
        &mut self,
        alloc: Global,
        epoch: EpochNo,
        class: u32,
        key: &Text,
        now: Moment,
        check: CheckNo,
        count: u64,
    ) -> Result<StepEffect, ResolveFault>
        requires there { is_some (part_at self.old epoch class) ≡ true }
        requires free { (p : PartState) → part_at self.old epoch class ≡ Some p
            → question_of check p.waiting ≡ None }
        requires counted { (p : PartState) → part_at self.old epoch class ≡ Some p
            → all_below (suc count) p.row.lookups ≡ true }
        requires few { count < 2 ^ 63 }
        ensures spent { IsErrOf result ResolveFault.Spent → (p : PartState) (k : Class)
            → part_at self.old epoch class ≡ Some p → class_at self.old epoch class ≡ Some k
            → (e : ℕ) → IsSpent count (says_of_row k e class key.now now count p.row) }
        ensures ok { IfOk result
            (λ s. (k : Class) → class_at self.old epoch class ≡ Some k
            → IsChanged epoch class
            (IsResolved k class key.now (record { now = now; check = check; count = count }) s)
            self.old self.new) }
        ensures err { OnErr result (IsChanged epoch class IsAsBefore self.old self.new) }
    {
        let place = place_of(&self.epochs, epoch);
        let live = &mut self.epochs[place];
        live.resolve(alloc, class, key, now, check, count)
    }

    /// Takes a check away from the list in which it waits in this class, if it waits. It takes no memory.
    pub fn leave(&mut self, epoch: EpochNo, class: u32, check: CheckNo)
        requires there { is_some (part_at self.old epoch class) ≡ true }
        ensures { IsChanged epoch class (HasLeft check) self.old self.new }
    {
        let place = place_of(&self.epochs, epoch);
        let live = &mut self.epochs[place];
        live.leave(class, check);
    }

    /// A reply to a question that is open on this process of this class: what it says is kept under the question's
    /// key, unless it is a fault, and the checks that waited are handed out. Only what is kept takes memory.
    pub fn reply(
        &mut self,
        epoch: EpochNo,
        class: u32,
        proc: ProcNo,
        question: QuestionNo,
        key: Text,
        what: What,
        date: Moment,
    ) -> Result<Checks, WantOfMemory>
        requires there { is_some (part_at self.old epoch class) ≡ true }
        requires opened { (p : PartState) → part_at self.old epoch class ≡ Some p
            → is_open question (slots_in proc p.row.stock.procs) ≡ true }
        ensures ok { IfOk result
            (λ checks. (k : Class) → class_at self.old epoch class ≡ Some k
            → IsChanged epoch class
            (HasReplied k proc question key (record { what = what; date = date }) checks) self.old
            self.new) }
        ensures err { OnErr result (IsChanged epoch class IsAsBefore self.old self.new) }
    {
        let place = place_of(&self.epochs, epoch);
        let live = &mut self.epochs[place];
        live.reply(class, proc, question, key, what, date)
    }

    /// Hands out the least question of this class that is lost, with its key and the checks that waited for it. It
    /// takes no memory.
    pub fn next_lost(&mut self, epoch: EpochNo, class: u32) -> Option<Lost>
        requires there { is_some (part_at self.old epoch class) ≡ true }
        ensures handed { IfSome result
            (λ l. IsChanged epoch class (IsHandedOn l) self.old self.new) }
        ensures none { IfNone result (IsChanged epoch class HasNoLoss self.old self.new) }
    {
        let place = place_of(&self.epochs, epoch);
        let live = &mut self.epochs[place];
        live.next_lost(class)
    }

    /// A start of this class failed; refused where none is open. Where no process of it lives or starts then, the
    /// questions that wait for one are lost, and `next_lost` hands them out. It takes no memory.
    pub fn start_failed(&mut self, epoch: EpochNo, class: u32) -> Result<(), StartFault>
        requires there { is_some (part_at self.old epoch class) ≡ true }
        ensures ok { OnOk result (IsChanged epoch class HasFailed self.old self.new) }
        ensures err { OnErr result (IsChanged epoch class HasNoStart self.old self.new) }
    {
        let place = place_of(&self.epochs, epoch);
        let live = &mut self.epochs[place];
        live.start_failed(class)
    }

    /// What a line of a living process of this class comes to. Nothing changes.
    pub fn look(
        &self,
        alloc: Global,
        epoch: EpochNo,
        class: u32,
        proc: ProcNo,
        line: &[u8],
    ) -> Result<Got, WantOfMemory>
        requires there { is_some (part_at self.now epoch class) ≡ true }
        requires alive { (p : PartState) → part_at self.now epoch class ≡ Some p
            → lives proc p.row.stock.procs ≡ true }
        ensures { IfOk result
            (λ g. (p : PartState) → part_at self.now epoch class ≡ Some p
            → got_of proc p.row.stock line.now ≡ Some g) }
    {
        let place = place_of(&self.epochs, epoch);
        let live = &self.epochs[place];
        live.look(alloc, class, proc, line)
    }
}
