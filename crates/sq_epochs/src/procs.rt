//! Who waits for a question, and how the starts and the lives of processes end.
ghost use Rattle.std.specs.Prelude.{◌≡◌, ◌↔◌, ◌≤◌, ◌<◌, ℕ, suc, true, false, Some, is_some, length, slice_get, IfOk, IfSome, OnOk, OnErr, IsErrOf};
ghost use Rattle.sq_lookup.specs.Index.{IsListed};
ghost use Rattle.sq_machine.specs.Channels.{is_open};
ghost use Rattle.sq_machine.specs.Limits.{last_number};
ghost use Rattle.sq_machine.specs.Living.{lives, slots_in};
ghost use Rattle.sq_machine.specs.OpenLookups.{is_open_lookup};
ghost use Rattle.sq_class.specs.Parts.{PartState};
ghost use Rattle.sq_epochs.specs.EpochProcs.{HasEnded, HasStarted, IsEnded, IsStarted, has_start, is_starting};
ghost use Rattle.sq_epochs.specs.EpochStates.{IsEpochChanged, home_at, part_at};

use crate::epoch::Epoch;
use crate::epochs::{Epochs, place_of};
use crate::faults::StartedFault;
use sq_base::{Cause, EpochNo, ProcNo, QuestionNo, Text};
use sq_farm::StartFault;
use sq_lookup::Checks;
use std::alloc::Global;

impl Epoch {
    // The key of an open question of the class at this place and the checks that wait for it, lent.
    pub(crate) fn waiting(&self, class: u32, question: QuestionNo) -> Option<(&Text, &Checks)>
        requires there { class < length self.now.parts }
        ensures open { (p : PartState) → slice_get self.now.parts class ≡ Some p
            → is_some result ≡ is_open_lookup question p.row.lookups }
        ensures sent { (p : PartState) → slice_get self.now.parts class ≡ Some p → (k : ℕ)
            → is_open question (slots_in k p.row.stock.procs) ≡ true → is_some result ≡ true }
        ensures listed { IfSome result
            (λ r. (p : PartState) → slice_get self.now.parts class ≡ Some p
            → IsListed (record { rows = p.row.lookups; waiting = p.waiting }) question r.0.now
            r.1.now) }
    {
        let part = &self.parts[class as usize];
        part.waiting(question)
    }

    // Whether a start of the class at this place is open.
    pub(crate) fn has_start(&self, class: u32) -> bool
        ensures { result ≡ is_starting (slice_get self.now.parts class) }
    {
        match self.parts.get(class as usize) {
            Some(part) => part.start_open(),
            None => false,
        }
    }

    // A process was started for an open start of the class at this place.
    pub(crate) fn started(
        &mut self,
        alloc: Global,
        class: u32,
        proc: ProcNo,
    ) -> Result<(), StartFault>
        requires there { class < length self.old.parts }
        requires fresh { (p : PartState) → slice_get self.old.parts class ≡ Some p
            → lives proc p.row.stock.procs ≡ false }
        ensures ok { OnOk result (IsEpochChanged class (HasStarted proc) self.old self.new) }
        ensures err { OnErr result (self.new ≡ self.old) }
        ensures number { self.new.epoch ≡ self.old.epoch }
        ensures checks { self.new.checks ≡ self.old.checks }
    {
        let part = &mut self.parts[class as usize];
        let started = part.started(alloc, proc);
        self.due.mark(class, part);
        started
    }

    // A living process of the class at this place ends.
    pub(crate) fn end(&mut self, class: u32, proc: ProcNo, cause: Cause)
        requires there { class < length self.old.parts }
        requires alive { (p : PartState) → slice_get self.old.parts class ≡ Some p
            → lives proc p.row.stock.procs ≡ true }
        ensures { IsEpochChanged class (HasEnded cause proc) self.old self.new }
    {
        let part = &mut self.parts[class as usize];
        part.end(proc, cause);
        self.due.mark(class, part);
    }
}

impl Epochs {
    /// The key of an open question of this class and the checks that wait for it, lent; none where it is not open.
    pub fn waiting(
        &self,
        epoch: EpochNo,
        class: u32,
        question: QuestionNo,
    ) -> Option<(&Text, &Checks)>
        requires there { is_some (part_at self.now epoch class) ≡ true }
        ensures open { (p : PartState) → part_at self.now epoch class ≡ Some p
            → is_some result ≡ is_open_lookup question p.row.lookups }
        // A question that is open on a process is open.
        ensures sent { (p : PartState) → part_at self.now epoch class ≡ Some p → (k : ℕ)
            → is_open question (slots_in k p.row.stock.procs) ≡ true → is_some result ≡ true }
        ensures listed { IfSome result
            (λ r. (p : PartState) → part_at self.now epoch class ≡ Some p
            → IsListed (record { rows = p.row.lookups; waiting = p.waiting }) question r.0.now
            r.1.now) }
    {
        let place = place_of(&self.epochs, epoch);
        let live = &self.epochs[place];
        live.waiting(class, question)
    }

    /// Whether a start of this class is open; false where it is not there.
    pub fn has_start(&self, epoch: EpochNo, class: u32) -> bool
        ensures { result ≡ has_start self.now epoch class }
    {
        match self.epoch(epoch) {
            Some(live) => live.has_start(class),
            None => false,
        }
    }

    /// A process was started for an open start of this class: its number. It is refused where no start is open, as
    /// where the class is not there, and where the number would be 2^63 - 1.
    pub fn started(
        &mut self,
        alloc: Global,
        epoch: EpochNo,
        class: u32,
    ) -> Result<ProcNo, StartedFault>
        ensures none { IsErrOf result StartedFault.NoStartOpen
            ↔ (has_start self.old epoch class ≡ false) }
        ensures spent { IsErrOf result StartedFault.Spent
            → (has_start self.old epoch class ≡ true) × (last_number ≤ suc self.old.procs) }
        ensures fits { OnOk result (suc self.old.procs < last_number) }
        ensures number { IfOk result (λ k. k ≡ suc self.old.procs) }
        ensures ok { OnOk result (IsStarted epoch class self.old self.new) }
        ensures err { OnErr result (self.new ≡ self.old) }
    {
        if !self.has_start(epoch, class) {
            return Err(StartedFault::NoStartOpen);
        }
        let Some(number) = self.homes.next() else {
            return Err(StartedFault::Spent);
        };
        self.homes.make_room()?;
        let place = place_of(&self.epochs, epoch);
        let live = &mut self.epochs[place];
        let Ok(_) = live.started(alloc, class, number) else {
            return Err(StartedFault::WantOfMemory);
        };
        self.homes.add(epoch, class);
        Ok(number)
    }

    /// A living process ends, by this cause; where it ends by a line, its stop is due. Its open questions are lost, and
    /// `next_lost` hands them out. It takes no memory.
    pub fn end(&mut self, proc: ProcNo, cause: Cause, by_line: bool)
        requires { is_some (home_at self.old proc) ≡ true }
        ensures { IsEnded cause proc by_line self.old self.new }
    {
        let Some(home) = self.homes.get(proc) else {
            unreachable!();
        };
        let epoch = home.epoch;
        let class = home.class;
        let place = place_of(&self.epochs, epoch);
        let live = &mut self.epochs[place];
        live.end(class, proc, cause);
        self.homes.remove(proc, by_line);
    }
}
