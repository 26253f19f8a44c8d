//! A round of the pump: a turn, and the end of a process that no keeper reads.
ghost use Rattle.std.specs.Prelude.{◌≡◌, ◌<◌, ◌++◌, ◌∷◌, [], true, false, IfNone, IfSome, position};
ghost use Rattle.sq_keeper.specs.Waiting.{has_waited};
ghost use Rattle.sq_helper_threads.specs.Halves.{in_tells};
ghost use Rattle.sq_helper_threads.specs.Handing.{HandsDeath, desk_step};
ghost use Rattle.sq_helper_threads.specs.PumpRounds.{EndsRound, EndsWaited, NoHalfWaited, NoneWaited, OnlyHalves, PutsBack, TakesWaited, TurnsAndEnds, held_halves, is_refusal};
ghost use Rattle.sq_helper_threads.specs.Pumps.{pump_tells};
ghost use Rattle.sq_helper_threads.specs.ReaderViews.{reader_since};
ghost use Rattle.sq_helper_threads.specs.Turning.{LetsGo};

use crate::halves::AskerOut;
use crate::keeper_halves::ProcOut;
use crate::pump::ServePump;
use crate::reader::Reader;
use crate::turns::Turn;
use sq_base::{Moment, ProcNo};
use sq_calls::HelperCalls;
use sq_outside::Spawner;
use std::sync::Wait;

/// What a round of the pump's thread came to.
#[derive(Clone, Copy)]
pub(crate) enum PumpRound {
    /// An act was performed, or a process was ended.
    Worked,
    /// Nothing is due, and a process still waits for its keeper.
    Held,
    /// Nothing is due.
    Idle,
    /// There was no memory.
    WantOfMemory,
    /// The desk has stopped.
    Ended,
}

/// How it ended that halves were handed out.
#[derive(Clone, Copy)]
pub(crate) enum HandEnd {
    /// No half is left.
    All,
    /// For one no keeper could be had.
    Refused,
    /// There was no memory to hold on to a half that comes back, and none was handed out.
    WantOfMemory,
}

impl HandEnd {
    // Whether a keeper could not be had.
    pub(crate) fn is_refusal(self) -> bool
        ensures { result ≡ is_refusal self }
    {
        match self {
            HandEnd::Refused => true,
            HandEnd::All | HandEnd::WantOfMemory => false,
        }
    }
}

// The place of the first half that has waited for its keeper for as long as a process may owe an answer.
fn waited_at<P>(halves: &[Reader<P>], now: Moment) -> Option<usize>
    ensures { result ≡ position (λ half. has_waited (reader_since half) now) halves.now }
{
    halves.iter().position(|half| half.has_waited(now))
}

impl<'a, S: Spawner, K: HelperCalls, R: Wait> ServePump<'a, S, K, R>
where
    S::ChildIn: Drop,
{
    // A half that the pump holds, for a keeper: of a program, while it holds one. None where it holds none.
    pub(crate) fn next_half(&mut self) -> Option<ProcOut<'a, S::ChildOut, R>>
        ensures some { IfSome result
            (λ half. held_halves self.old ≡ held_halves self.new ++ half ∷ []) }
        ensures none { IfNone result ((self.new.readers ≡ []) × (self.new.asking ≡ [])) }
        ensures none_same { IfNone result (self.new ≡ self.old) }
        ensures room { 0 < self.old.room → 0 < self.new.room }
        ensures asking_room { 0 < self.old.asking_room → 0 < self.new.asking_room }
        ensures same { OnlyHalves self.old self.new }
    {
        match self.reader() {
            Some(half) => Some(ProcOut::Child(half)),
            None => {
                let half = self.asker()?;
                Some(ProcOut::Asker(half))
            }
        }
    }

    // Takes a half back, for which no keeper could be had.
    pub(crate) fn put_back(&mut self, half: ProcOut<'a, S::ChildOut, R>)
        requires { (0 < self.old.room) × (0 < self.old.asking_room) }
        ensures { PutsBack half.entry self.old self.new }
    {
        match half {
            ProcOut::Child(half) => self.unread(half),
            ProcOut::Asker(half) => self.unasked(half),
        }
    }

    // Takes out the first half of a program that has waited for so long.
    fn program_waited(&mut self, now: Moment) -> Option<Reader<S::ChildOut>>
        ensures some { IfSome result
            (λ half. TakesWaited now half self.old.readers self.new.readers) }
        ensures none { IfNone result (NoneWaited now self.old.readers) }
        ensures none_same { IfNone result (self.new ≡ self.old) }
        ensures same { self.new ≡ record self.old
            { readers = self.new.readers; room = self.new.room } }
    {
        match waited_at(self.readers.as_slice(), now) {
            None => None,
            Some(place) => Some(self.readers.remove(place)),
        }
    }

    // Takes out the first half of a thread that answers look-ups which has waited for so long.
    fn asker_waited(&mut self, now: Moment) -> Option<Reader<AskerOut<'a, R>>>
        ensures some { IfSome result
            (λ half. TakesWaited now half self.old.asking self.new.asking) }
        ensures none { IfNone result (NoneWaited now self.old.asking) }
        ensures none_same { IfNone result (self.new ≡ self.old) }
        ensures same { self.new ≡ record self.old
            { asking = self.new.asking; asking_room = self.new.asking_room } }
    {
        match waited_at(self.asking.as_slice(), now) {
            None => None,
            Some(place) => Some(self.asking.remove(place)),
        }
    }

    // Ends a process that no keeper reads: the half of it that is written to is closed and let go of, with those that were closed
    // before, and the desk is told of the death. It takes no memory.
    fn end_unread(&mut self, proc: ProcNo, now: Moment)
        ensures closes { LetsGo (in_tells S.ChildIn.contents S.ChildIn.faults S.ChildIn.closed) proc
            self.old.pipes self.new.pipes }
        ensures hands { HandsDeath (desk_step self.old.first self.old.told self.new.told
            self.old.refused self.new.refused self.new.stopped) proc now }
        ensures same { self.new
            ≡ record self.old {
              desk = self.new.desk;
              told = self.new.told;
              refused = self.new.refused;
              stopped = self.new.stopped;
              pipes = self.new.pipes;
            } }
    {
        self.ended(proc);
        let _gave = self.desk.died(proc, now);
    }

    // Ends the first program that has waited for its keeper for so long. Returns whether there was one.
    fn end_program(&mut self, now: Moment) -> bool
        ensures some { result ≡ true → EndsWaited
            (in_tells S.ChildIn.contents S.ChildIn.faults S.ChildIn.closed) now self.old
            self.new }
        ensures none { result ≡ false
            → NoneWaited now self.old.readers × (self.new ≡ self.old) }
    {
        match self.program_waited(now) {
            None => false,
            Some(half) => {
                self.end_unread(half.proc(), now);
                true
            }
        }
    }

    // Ends the first process of the class by which names are looked up that has waited for so long. Returns whether there was one.
    fn end_asker(&mut self, now: Moment) -> bool
        ensures some { result ≡ true → EndsWaited
            (in_tells S.ChildIn.contents S.ChildIn.faults S.ChildIn.closed) now self.old
            self.new }
        ensures none { result ≡ false
            → NoneWaited now self.old.asking × (self.new ≡ self.old) }
    {
        match self.asker_waited(now) {
            None => false,
            Some(half) => {
                self.end_unread(half.proc(), now);
                true
            }
        }
    }

    // Ends a process that has waited for its keeper for as long as it may owe an answer, a program before a thread: nobody would hear
    // it, nor see that it owes one. Returns whether there was one.
    fn end_waited(&mut self, now: Moment) -> bool
        ensures some { result ≡ true → EndsWaited
            (in_tells S.ChildIn.contents S.ChildIn.faults S.ChildIn.closed) now self.old
            self.new }
        ensures none { result ≡ false → NoHalfWaited now self.old × (self.new ≡ self.old) }
    {
        if self.end_program(now) {
            return true;
        }
        self.end_asker(now)
    }

    // Whether it holds no half for a keeper.
    fn holds_none(&self) -> bool
        ensures { result ≡ true → (self.now.readers ≡ []) × (self.now.asking ≡ []) }
    {
        self.readers.is_empty() && self.asking.is_empty()
    }

    // Where nothing is due, and a keeper could not be had just before, ends a process that has waited for its keeper for as long as it
    // may owe an answer.
    fn end_idle(&mut self, is_refused: bool, now: Moment) -> PumpRound
        ensures { EndsRound (in_tells S.ChildIn.contents S.ChildIn.faults S.ChildIn.closed) now
            is_refused Turn.Idle self.old result self.new }
    {
        if self.holds_none() {
            PumpRound::Idle
        } else if is_refused && self.end_waited(now) {
            PumpRound::Worked
        } else {
            PumpRound::Held
        }
    }

    // Performs a turn. Where nothing is due a process may be ended that has waited for its keeper.
    pub(crate) fn turn_and_end(&mut self, is_refused: bool, now: Moment) -> PumpRound
        ensures { TurnsAndEnds (pump_tells K.programs K.configs S.ChildOut.faults
            (in_tells S.ChildIn.contents S.ChildIn.faults S.ChildIn.closed)) now is_refused
            self.old result self.new }
    {
        match self.turn(now) {
            Turn::Acted(_) => PumpRound::Worked,
            Turn::WantOfMemory => PumpRound::WantOfMemory,
            Turn::Ended => PumpRound::Ended,
            Turn::Idle => self.end_idle(is_refused, now),
        }
    }
}
