//! `SinkJournal`: a journal of version 2 over a sink.
ghost use Rattle.std.specs.Prelude.{◌≡◌, ◌+◌, ◌-◌, ◌^◌, ◌∷◌, [], ◌<◌, ◌≤◌, ℕ, List, Option, true, false, None, OnOk, OnErr};
ghost use Rattle.sq_outside.specs.Causes.{HasCause, raised};
ghost use Rattle.sq_outside.specs.Output.{Grew};
ghost use Rattle.sq_machine.specs.Entries.{History};
ghost use Rattle.sq_journal.specs.Noting.{with_entry};

use crate::journal::Journal;
use crate::lines::{next_epoch, next_number, write_next};
use sq_base::{EpochNo, WantOfMemory};
use sq_machine::Entry;
use sq_outside::{COUNT_LIMIT, Failed, Sink};

/// A journal that writes version 2 to a sink: the version line with the first entry, and of each entry its line. It
/// takes no memory. After a fault it writes nothing more, and each note fails.
#[derive(Drop)]
pub struct SinkJournal<S> {
    sink: S,
    number: u64,
    epoch: EpochNo,
    stopped: bool,
    spare: u32,
    faults: u64,
    ghost capped: { faults ≤ 2 ^ 63 - 1 },
    ghost numbers: { number ≤ 2 ^ 63 - 1 },
}

impl<S: Sink> SinkJournal<S> {
    ghost use Rattle.sq_journal.specs.Sinks.{HasWritten, sink_of, spare_of, faults_of, has_stopped};

    /// A journal without an entry, of which nothing is written yet.
    pub fn new(sink: S) -> SinkJournal<S>
        ensures sink { sink_of result ≡ sink }
        ensures holds { HasWritten (S.contents sink) (S.contents (sink_of result)) result [] }
        ensures spare { spare_of result ≡ 0 }
        ensures faults { faults_of result ≡ 0 }
    {
        SinkJournal {
            sink,
            number: 0,
            epoch: EpochNo(1),
            stopped: false,
            spare: 0,
            faults: 0,
        }
    }

    /// Its sink, given back.
    pub fn into_sink(self) -> S
        ensures { result ≡ sink_of self }
    {
        self.sink
    }

    // Counts a fault, after which nothing is written.
    fn stop(&mut self)
        ensures stops { has_stopped self.new ≡ true }
        ensures counts { faults_of self.new ≡ raised (faults_of self.old) }
        ensures sink { sink_of self.new ≡ sink_of self.old }
        ensures places { spare_of self.new ≡ spare_of self.old }
    {
        self.stopped = true;
        if self.faults < COUNT_LIMIT {
            self.faults += 1;
        }
    }
}

impl<S: Sink> Journal for SinkJournal<S> {
    ghost use Rattle.sq_journal.specs.Sinks.{HasWritten, IsCutIn, sink_of, spare_of, faults_of, has_stopped};

    ghost history = { λ _. None };

    ghost spare = { spare_of };

    ghost faults = { faults_of };

    ghost capped = { λ j. j.capped };

    fn reserve(&mut self, n: u32) -> Result<(), WantOfMemory>
        ensures made { OnOk result (n ≤ spare_of self.new) }
        ensures stay { spare_of self.old ≤ spare_of self.new }
        ensures history { ◌≡◌ {A = Option History} None None }
        ensures faults { faults_of self.new ≡ faults_of self.old }
        // It takes no memory, and changes nothing but its places.
        ensures always { OnErr result ⊥ }
        ensures sink { sink_of self.new ≡ sink_of self.old }
        ensures holds { (start : Option (List ℕ)) (h : History)
            → HasWritten start (S.contents (sink_of self.old)) self.old h
            → HasWritten start (S.contents (sink_of self.new)) self.new h }
        ensures stopped { has_stopped self.new ≡ has_stopped self.old }
    {
        self.spare = self.spare.max(n);
        Ok(())
    }

    fn note(&mut self, entry: Entry) -> Result<(), Failed>
        requires { 0 < spare_of self.old }
        ensures noted { OnOk result (◌≡◌ {A = Option History} None (with_entry entry None)) }
        ensures failed { OnErr result (◌≡◌ {A = Option History} None None) }
        ensures place { spare_of self.new + 1 ≡ spare_of self.old }
        ensures cause { HasCause (faults_of self.old) (faults_of self.new) result }
        // Where the journal stood for a history it stands for that with the entry,
        ensures holds { OnOk result
            ((start : Option (List ℕ)) (h : History)
            → HasWritten start (S.contents (sink_of self.old)) self.old h
            → HasWritten start (S.contents (sink_of self.new)) self.new (entry ∷ h)) }
        // or a part of what would follow was written, and not all.
        ensures cut { OnErr result
            ((start : Option (List ℕ)) (h : History)
            → HasWritten start (S.contents (sink_of self.old)) self.old h
            → Grew start (S.contents (sink_of self.new)) (IsCutIn h entry)) }
        // After a fault nothing more is written, and each note fails.
        ensures stops { OnErr result (has_stopped self.new ≡ true) }
        ensures stopped { has_stopped self.old ≡ true → OnOk result ⊥ }
        ensures silent { has_stopped self.old ≡ true → sink_of self.new ≡ sink_of self.old }
        // Before, it fails only where the sink does.
        ensures sink { has_stopped self.old ≡ false
            → HasCause (S.faults (sink_of self.old)) (S.faults (sink_of self.new)) result }
    {
        self.spare -= 1;
        if self.stopped {
            self.stop();
            return Err(Failed);
        }
        let number = next_number(self.number);
        let epoch = next_epoch(self.epoch, &entry.event);
        match write_next(self.number == 0, number, epoch, &entry, &mut self.sink) {
            Ok(()) => {
                self.number = number;
                self.epoch = epoch;
                Ok(())
            }
            Err(Failed) => {
                self.stop();
                Err(Failed)
            }
        }
    }
}
