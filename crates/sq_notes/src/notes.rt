//! The journal of a desk.
ghost use Rattle.std.specs.Prelude.{◌≡◌, ◌+◌, ◌-◌, ◌<◌, ◌≤◌, IsErrOf, false};
ghost use Rattle.sq_calls.specs.Faults.{fault_of};
ghost use Rattle.sq_calls.specs.declared.faults.DeskFault.TheVariants as fault;
ghost use Rattle.sq_notes.specs.Noting.{IsNoted, IsReady, after_refusal, counted};

use sq_base::{EpochNo, WantOfMemory};
use sq_calls::DeskFault;
use sq_journal::Journal;
use sq_machine::{Entry, Refusal};
use sq_outside::{COUNT_LIMIT, Failed};
use std::marker::Model;

/// For how many entries places may be made, but for a few more.
const MOST: u128 = 0xFFFF_FF00;

/// A journal, whether a note of it failed, how many calls were refused, up to 2^63 - 1, and how many reconfigurations
/// were noted.
#[derive(Drop)]
pub struct Notes<J: Journal> {
    journal: J,
    stopped: bool,
    refusals: u64,
    made: u64,
}

impl<J: Journal> Model for Notes<J> {
    ghost use Rattle.std.specs.Prelude.{◌≤◌};
    ghost use Rattle.sq_outside.specs.Causes.{count_limit};
    ghost use Rattle.sq_notes.specs.Noting.{Notebook};

    ghost Value = { Notebook };

    ghost view = { λ n. record {
      history = J.history n.journal;
      spare = J.spare n.journal;
      faults = J.faults n.journal;
      stopped = n.stopped;
      refusals = n.refusals;
      made = n.made;
    } };

    ghost invariant = { λ n. n.refusals ≤ count_limit };
}

impl<J: Journal> Notes<J> {
    /// A journal of which no note failed yet.
    pub fn new(journal: J) -> Notes<J>
        ensures { result ≡ record {
          history = J.history journal;
          spare = J.spare journal;
          faults = J.faults journal;
          stopped = false;
          refusals = 0;
          made = 0;
        } }
    {
        Notes {
            journal,
            stopped: false,
            refusals: 0,
            made: 0,
        }
    }

    /// How many calls were refused.
    pub fn refusals(&self) -> u64
        ensures value { result ≡ self.now.refusals }
        ensures bound { result ≤ COUNT_LIMIT }
    {
        self.refusals
    }

    /// The journal, given back.
    pub fn into_journal(self) -> J
        ensures history { J.history result ≡ self.history }
        ensures spare { J.spare result ≡ self.spare }
        ensures faults { J.faults result ≡ self.faults }
    {
        self.journal
    }

    /// Counts a refusal.
    pub(crate) fn count(&mut self)
        ensures { self.new ≡ counted self.old }
    {
        if self.refusals < COUNT_LIMIT {
            self.refusals += 1;
        }
    }

    /// Counts the reconfigurations by the epoch of the last one, since epochs are numbered from 1 and the first began
    /// with the machine.
    pub(crate) fn reread(&mut self, epoch: EpochNo)
        ensures { self.new ≡ record self.old { made = epoch - 1 } }
    {
        self.made = epoch.0.saturating_sub(1);
    }

    /// Makes sure that no note failed, and makes places for so many entries and a few more.
    pub fn ready(&mut self, load: u128, more: u8) -> Result<(), DeskFault>
        ensures { IsReady (load + more) self.old result self.new }
    {
        if self.stopped {
            self.count();
            return Err(DeskFault::Stopped);
        }
        if load > MOST {
            return Err(DeskFault::WantOfMemory);
        }
        match self.journal.reserve(load as u32 + more as u32) {
            Ok(()) => Ok(()),
            Err(WantOfMemory) => Err(DeskFault::WantOfMemory),
        }
    }

    /// Makes sure that no note failed.
    pub(crate) fn going(&mut self) -> Result<(), DeskFault>
        ensures ready { IsReady 0 self.old result self.new }
        ensures memory { IsErrOf result fault.WantOfMemory → ⊥ }
    {
        if self.stopped {
            self.count();
            return Err(DeskFault::Stopped);
        }
        Ok(())
    }

    /// The fault of a refusal of the machine, counted where it is none of memory.
    pub(crate) fn refuse(&mut self, refusal: Refusal) -> DeskFault
        ensures fault { result ≡ fault_of refusal }
        ensures counts { self.new ≡ after_refusal refusal self.old }
    {
        match refusal {
            Refusal::WantOfMemory => {}
            _ => self.count(),
        }
        DeskFault::of(refusal)
    }

    /// Notes an entry in a place that was made. It takes no memory.
    pub fn note(&mut self, entry: Entry) -> Result<(), DeskFault>
        requires place { 0 < self.old.spare }
        requires going { self.old.stopped ≡ false }
        ensures { IsNoted entry self.old result self.new }
    {
        match self.journal.note(entry) {
            Ok(()) => Ok(()),
            Err(Failed) => {
                self.stopped = true;
                self.count();
                Err(DeskFault::JournalFault)
            }
        }
    }
}
