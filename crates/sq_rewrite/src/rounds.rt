//! A round of a rewriter's pump: a turn, and the end of a process that no keeper reads.
ghost use Rattle.std.specs.Prelude.{◌≡◌, true, false, IfNone, IfSome, position};
ghost use Rattle.sq_keeper.specs.Pipes.{half_tells};
ghost use Rattle.sq_keeper.specs.Waiting.{has_waited};
ghost use Rattle.sq_rewrite.specs.Handing.{HandsDeath};
ghost use Rattle.sq_rewrite.specs.PumpRounds.{EndsWaited, NoneWaited, TakesWaited, TurnsAndEnds};
ghost use Rattle.sq_rewrite.specs.LineViews.{half_since};
ghost use Rattle.sq_rewrite.specs.Turning.{ClosesHalf};

use crate::calls::RewriterCalls;
use crate::pump::RewritePump;
use crate::turns::RewriterTurn;
use crate::unread::UnreadHalf;
use sq_base::{Moment, ProcNo};
use sq_outside::Spawner;

/// What a round of the pump's thread came to.
#[derive(Clone, Copy)]
pub(crate) enum RoundEnd {
    /// An act was performed, or a process was ended.
    Worked,
    /// Nothing is due, and a process still waits for its keeper.
    Held,
    /// Nothing is due.
    Idle,
    /// There was no memory.
    WantOfMemory,
}

// The place of the first half that has waited for its keeper for as long as a process may owe an answer.
fn waited_at<P>(halves: &[UnreadHalf<P>], now: Moment) -> Option<usize>
    ensures { result ≡ position (λ half. has_waited (half_since half) now) halves.now }
{
    halves.iter().position(|half| half.has_waited(now))
}

impl<S: Spawner, K: RewriterCalls> RewritePump<S, K>
where
    S::ChildIn: Drop,
{
    // Takes out the first half that has waited for so long.
    fn take_waited(&mut self, now: Moment) -> Option<UnreadHalf<S::ChildOut>>
        ensures some { IfSome result
            (λ half. TakesWaited now half self.old.readers self.new.readers) }
        ensures none { IfNone result (NoneWaited now self.old.readers) }
        ensures none_same { IfNone result (self.new ≡ self.old) }
        ensures same { self.new ≡ record self.old
            { readers = self.new.readers; room = self.new.room } }
    {
        match waited_at(self.readers.as_slice(), now) {
            None => None,
            Some(place) => Some(self.readers.remove(place)),
        }
    }

    // Ends a process that no keeper reads: the half of it that is written to is closed and dropped, with those that were closed
    // before, and the rewriter is told of the death. It takes no memory.
    fn end_unread(&mut self, proc: ProcNo)
        ensures closes { ClosesHalf
            (half_tells S.ChildIn.contents S.ChildIn.faults S.ChildIn.closed) proc self.old.pipes
            self.new.pipes }
        ensures hands { HandsDeath self.old.told self.new.told proc }
        ensures same { self.new ≡ record self.old
            { pipes = self.new.pipes; told = self.new.told } }
    {
        self.ended(proc);
        let _gave = self.rewriter.died(proc);
    }

    // Ends the first process that has waited for its keeper for as long as it may owe an answer: nobody would hear it, nor see that
    // it owes one. Returns whether there was one.
    fn end_waited(&mut self, now: Moment) -> bool
        ensures some { result ≡ true → EndsWaited
            (half_tells S.ChildIn.contents S.ChildIn.faults S.ChildIn.closed) now self.old
            self.new }
        ensures none { result ≡ false
            → NoneWaited now self.old.readers × (self.new ≡ self.old) }
    {
        match self.take_waited(now) {
            None => false,
            Some(half) => {
                self.end_unread(half.proc());
                true
            }
        }
    }

    // Performs a turn. Where nothing is due, and a keeper's thread was refused just before, a process is ended that has waited for its
    // keeper for as long as it may owe an answer.
    pub(crate) fn turn_and_end(&mut self, is_refused: bool, now: Moment) -> RoundEnd
        ensures { TurnsAndEnds S.ChildOut.faults
            (half_tells S.ChildIn.contents S.ChildIn.faults S.ChildIn.closed) now is_refused
            self.old result self.new }
    {
        match self.turn(now) {
            RewriterTurn::Acted(_) => RoundEnd::Worked,
            RewriterTurn::WantOfMemory => RoundEnd::WantOfMemory,
            RewriterTurn::Idle => {
                if self.readers.is_empty() {
                    RoundEnd::Idle
                } else if is_refused && self.end_waited(now) {
                    RoundEnd::Worked
                } else {
                    RoundEnd::Held
                }
            }
        }
    }
}
