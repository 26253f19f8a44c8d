//! `Epoch`: a live epoch with a part for each class of its configuration.
ghost use Rattle.std.specs.Prelude.{◌≡◌, ◌<◌, ◌^◌, ◌∷◌, [], ℕ, suc, true, None, Some, is_some, map, length, slice_get, IfOk, IfNone, IfSome, OnOk, OnErr, IsErrOf};
ghost use Rattle.std.specs.Option.{option_map};
ghost use Rattle.std.specs.Arc.{arc_value};
ghost use Rattle.sq_class.specs.Parts.{IsAsBefore, PartState};
ghost use Rattle.sq_class.specs.Steps.{IsSpent};
ghost use Rattle.sq_rules.specs.Classes.{Class};
ghost use Rattle.sq_machine.specs.OpenLookups.{all_below, question_of};
ghost use Rattle.sq_model.specs.StepRows.{says_of_row};
ghost use Rattle.sq_epochs.specs.EpochStates.{IsEpochChanged, new_epoch, new_part};
ghost use Rattle.sq_epochs.specs.EpochProcs.{SameLiving};
ghost use Rattle.sq_epochs.specs.LiveEpochs.{check_less, check_more};
ghost use Rattle.sq_epochs.specs.Reconfigured.{alike_in, begun_epoch, begun_part, kept_alike, left_epoch};
ghost use Rattle.sq_rules.specs.Configurations.{have_distinct_names};
ghost use Rattle.sq_epochs.specs.EpochChanges.{HasFailed, HasLeft, HasNoLoss, HasNoStart, HasReplied, IsHandedOn, IsResolved};
ghost use Rattle.sq_machine.specs.Channels.{is_open};
ghost use Rattle.sq_farm.specs.Replies.{got_of};
ghost use Rattle.sq_machine.specs.Living.{lives, slots_in};

use crate::due::Due;
use sq_base::{CheckNo, EpochNo, Moment, ProcNo, QuestionNo, Text, WantOfMemory, What};
use sq_cache::HashSeed;
use sq_class::{Lost, Part, ResolveFault};
use sq_farm::{Got, StartFault};
use sq_lookup::Checks;
use sq_model::StepEffect;
use sq_rules::{Class, Config};
use std::alloc::Global;
use std::marker::Model;
use std::sync::Arc;

/// A live epoch.
pub struct Epoch {
    pub(crate) number: EpochNo,
    pub(crate) config: Arc<Config>,
    pub(crate) checks: u64,
    pub(crate) parts: Vec<Part>,
    // What is due of each class.
    pub(crate) due: Due,
}

// Written out, so that the drops of its parts are proved here alone, and not in each crate that lets an epoch go.
impl Drop for Epoch {
    fn drop(self) {
        let Epoch {
            number: _,
            config: _,
            checks: _,
            parts: _,
            due: _,
        } = self;
    }
}

impl Model for Epoch {
    ghost use Rattle.std.specs.Arc.{arc_value};
    ghost use Rattle.sq_epochs.specs.DueSets.{IsEpoch};
    ghost use Rattle.sq_epochs.specs.EpochStates.{EpochState};

    ghost Value = { EpochState };

    ghost view = { λ x. record {
      epoch = x.number;
      config = arc_value x.config;
      checks = x.checks;
      parts = x.parts.items;
    } };

    ghost invariant = { λ x. IsEpoch (arc_value x.config).classes x.parts.items x.due };
}

// A part for each class, of which nothing is kept.
fn parts_of(alloc: Global, classes: &[Class], seed: HashSeed) -> Result<Vec<Part>, WantOfMemory>
    ensures { IfOk result (λ parts. parts.items ≡ map new_part classes.now) }
{
    let mut parts = Vec::new(alloc);
    for class in classes {
        parts.push(Part::new(alloc, class, seed)?)?;
    }
    Ok(parts)
}

// The place of the class among these that is alike to this one.
fn alike_place(classes: &[Class], class: &Class) -> Option<usize>
    ensures first { result ≡ alike_in classes.now class.now }
    ensures inside { IfSome result (λ i. i < length classes.now) }
{
    classes.iter().position(|other| other.alike(class))
}

// Hands what is kept of an epoch's classes on to new parts of the classes that are alike.
fn inherit_parts(classes: &[Class], parts: &mut [Part], before: &mut Epoch)
    requires new { parts.old ≡ map new_part classes.now }
    requires own { have_distinct_names classes.now ≡ true }
    ensures begun { parts.new ≡ map (begun_part (kept_alike before.old)) classes.now }
    ensures left { before.new ≡ left_epoch classes.now before.old }
{
    for (place, class) in classes.iter().enumerate() {
        let part = &mut parts[place];
        before.hand_on(class, part);
    }
}

impl Epoch {
    // An epoch that begins.
    pub(crate) fn new(
        alloc: Global,
        number: EpochNo,
        config: Arc<Config>,
        seed: HashSeed,
    ) -> Result<Epoch, WantOfMemory>
        ensures { IfOk result (λ x. x ≡ new_epoch number (arc_value config)) }
    {
        let parts = parts_of(alloc, config.classes(), seed)?;
        let due = Due::of(&parts);
        Ok(Epoch {
            number,
            config,
            checks: 0,
            parts,
            due,
        })
    }

    // One check more is open.
    pub(crate) fn begin_check(&mut self)
        requires { suc self.old.checks < 2 ^ 64 }
        ensures { self.new ≡ check_more self.old }
    {
        self.checks += 1;
    }

    // One check fewer is open.
    pub(crate) fn end_check(&mut self)
        requires { 0 < self.old.checks }
        ensures { self.new ≡ check_less self.old }
    {
        self.checks -= 1;
    }

    // How many checks are open.
    pub(crate) fn open_checks(&self) -> u64
        ensures { result ≡ self.now.checks }
    {
        self.checks
    }

    // Hands what is kept of the class that is alike to this one on to a new part of it.
    fn hand_on(&mut self, class: &Class, part: &mut Part)
        requires fits { part.old.limit ≡ class.now.cache }
        requires empty { part.old.row.kept ≡ [] }
        ensures part { part.new ≡ record part.old
            { row = record part.old.row { kept = kept_alike self.old class.now } } }
        ensures left { self.new ≡ left_epoch (class.now ∷ []) self.old }
    {
        self.config.facts();
        let Some(place) = alike_place(self.config.classes(), class) else {
            return;
        };
        let own = &mut self.parts[place];
        own.exchange_kept(part);
    }

    // Begins with what is kept of the classes of the epoch before that are alike.
    pub(crate) fn inherit(&mut self, before: &mut Epoch)
        requires { self.old ≡ new_epoch self.old.epoch self.old.config }
        ensures begun { self.new
            ≡ begun_epoch (kept_alike before.old) self.old.epoch self.old.config }
        ensures left { before.new ≡ left_epoch self.old.config.classes before.old }
    {
        self.config.facts();
        inherit_parts(self.config.classes(), &mut self.parts, before);
    }

    // The class at this place.
    pub(crate) fn class(&self, class: u32) -> Option<&Class>
        ensures class { option_map (λ c. c.now) result ≡ slice_get self.now.config.classes class }
        ensures there { is_some (slice_get self.now.config.classes class)
            ≡ is_some (slice_get self.now.parts class) }
    {
        self.config.classes().get(class as usize)
    }

    // A step of a check on the class at this place.
    pub(crate) fn resolve(
        &mut self,
        alloc: Global,
        class: u32,
        key: &Text,
        now: Moment,
        check: CheckNo,
        count: u64,
    ) -> Result<StepEffect, ResolveFault>
        requires there { class < length self.old.parts }
        requires free { (p : PartState) → slice_get self.old.parts class ≡ Some p
            → question_of check p.waiting ≡ None }
        requires counted { (p : PartState) → slice_get self.old.parts class ≡ Some p
            → all_below (suc count) p.row.lookups ≡ true }
        requires few { count < 2 ^ 63 }
        ensures spent { IsErrOf result ResolveFault.Spent → (p : PartState) (k : Class)
            → slice_get self.old.parts class ≡ Some p
            → slice_get self.old.config.classes class ≡ Some k → (e : ℕ)
            → IsSpent count (says_of_row k e class key.now now count p.row) }
        ensures ok { IfOk result
            (λ s. (k : Class) → slice_get self.old.config.classes class ≡ Some k
            → IsEpochChanged class
            (IsResolved k class key.now (record { now = now; check = check; count = count }) s)
            self.old self.new) }
        ensures err { OnErr result (IsEpochChanged class IsAsBefore self.old self.new) }
        ensures number { self.new.epoch ≡ self.old.epoch }
        ensures checks { self.new.checks ≡ self.old.checks }
        ensures alive { SameLiving self.old self.new }
    {
        let rules = &self.config.classes()[class as usize];
        let part = &mut self.parts[class as usize];
        let said = part.resolve(alloc, rules, class, key, now, check, count);
        self.due.mark(class, part);
        said
    }

    // Takes a check away from the list in which it waits in the class at this place.
    pub(crate) fn leave(&mut self, class: u32, check: CheckNo)
        requires there { class < length self.old.parts }
        ensures changed { IsEpochChanged class (HasLeft check) self.old self.new }
        ensures alive { SameLiving self.old self.new }
    {
        let part = &mut self.parts[class as usize];
        part.leave(check);
    }

    // A reply to a question that is open on this process, in the class at this place.
    pub(crate) fn reply(
        &mut self,
        class: u32,
        proc: ProcNo,
        question: QuestionNo,
        key: Text,
        what: What,
        date: Moment,
    ) -> Result<Checks, WantOfMemory>
        requires there { class < length self.old.parts }
        requires opened { (p : PartState) → slice_get self.old.parts class ≡ Some p
            → is_open question (slots_in proc p.row.stock.procs) ≡ true }
        ensures ok { IfOk result
            (λ checks. (k : Class) → slice_get self.old.config.classes class ≡ Some k
            → IsEpochChanged class
            (HasReplied k proc question key (record { what = what; date = date }) checks) self.old
            self.new) }
        ensures err { OnErr result (IsEpochChanged class IsAsBefore self.old self.new) }
        ensures number { self.new.epoch ≡ self.old.epoch }
        ensures checks { self.new.checks ≡ self.old.checks }
        ensures alive { SameLiving self.old self.new }
    {
        let rules = &self.config.classes()[class as usize];
        let part = &mut self.parts[class as usize];
        let checks = part.reply(rules, proc, question, key, what, date);
        self.due.mark(class, part);
        checks
    }

    // Hands out the least question that is lost in the class at this place.
    pub(crate) fn next_lost(&mut self, class: u32) -> Option<Lost>
        requires there { class < length self.old.parts }
        ensures handed { IfSome result
            (λ l. IsEpochChanged class (IsHandedOn l) self.old self.new) }
        ensures none { IfNone result (IsEpochChanged class HasNoLoss self.old self.new) }
        ensures number { self.new.epoch ≡ self.old.epoch }
        ensures checks { self.new.checks ≡ self.old.checks }
        ensures alive { SameLiving self.old self.new }
    {
        let part = &mut self.parts[class as usize];
        let lost = part.next_lost();
        self.due.mark(class, part);
        lost
    }

    // A start of the class at this place failed.
    pub(crate) fn start_failed(&mut self, class: u32) -> Result<(), StartFault>
        requires there { class < length self.old.parts }
        ensures ok { OnOk result (IsEpochChanged class HasFailed self.old self.new) }
        ensures err { OnErr result (IsEpochChanged class HasNoStart self.old self.new) }
        ensures number { self.new.epoch ≡ self.old.epoch }
        ensures checks { self.new.checks ≡ self.old.checks }
        ensures alive { SameLiving self.old self.new }
    {
        let part = &mut self.parts[class as usize];
        let failed = part.start_failed();
        self.due.mark(class, part);
        failed
    }

    // What a line of a living process of the class at this place comes to.
    pub(crate) fn look(
        &self,
        alloc: Global,
        class: u32,
        proc: ProcNo,
        line: &[u8],
    ) -> Result<Got, WantOfMemory>
        requires there { class < length self.now.parts }
        requires alive { (p : PartState) → slice_get self.now.parts class ≡ Some p
            → lives proc p.row.stock.procs ≡ true }
        ensures { IfOk result
            (λ g. (p : PartState) → slice_get self.now.parts class ≡ Some p
            → got_of proc p.row.stock line.now ≡ Some g) }
    {
        let part = &self.parts[class as usize];
        part.look(alloc, proc, line)
    }
}
