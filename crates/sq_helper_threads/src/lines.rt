//! What hands a desk the lines of helper processes.
ghost use Rattle.std.specs.Prelude.{◌≡◌, ◌≤◌, None, [], ◌∷◌};
ghost use Rattle.sq_keeper.specs.Handing.{Adds, taken};
ghost use Rattle.sq_keeper.specs.declared.desk.Handed.TheVariants as handed;
ghost use Rattle.sq_outside.specs.Causes.{Rose};
ghost use Rattle.sq_calls.specs.Moments.{AtMoment};
ghost use Rattle.sq_helper_threads.specs.Handing.{HandsDeath, HandsLine, desk_step, line_end};

use sq_base::ProcNo;
use sq_calls::{DeskFault, HelperCalls};
use sq_channel::Got;
use sq_keeper::{LineDesk, LineEnd};
use sq_outside::Clock;
use std::alloc::Global;

/// The desk of a keeper. It hands each line and each death to a desk at the moment that its clock gives, and lets a
/// little time pass where that had no memory for a line.
#[derive(Drop)]
pub struct ServeLines<K, C> {
    alloc: Global,
    desk: K,
    clock: C,
}

// What a keeper is answered.
fn line_end(gave: &Result<Got, DeskFault>) -> LineEnd
    ensures { result ≡ line_end gave.now }
{
    match gave {
        Ok(Got::Reply(_, _)) => LineEnd::Go,
        Ok(Got::Bad) | Ok(Got::Stray) => LineEnd::End,
        Err(DeskFault::WantOfMemory) => LineEnd::WantOfMemory,
        Err(_) => LineEnd::End,
    }
}

impl<K: HelperCalls, C: Clock> ServeLines<K, C> {
    ghost use Rattle.sq_helper_threads.specs.LineViews.{lines_clock, lines_desk};

    /// Hands lines to this desk, at the moments of this clock.
    pub fn new(alloc: Global, desk: K, clock: C) -> ServeLines<K, C>
        ensures desk { lines_desk result ≡ desk }
        ensures clock { lines_clock result ≡ clock }
    {
        ServeLines { alloc, desk, clock }
    }

    // Hands the desk a line, at the moment that the clock gives, and its answer decides.
    fn hand_line(&mut self, proc: ProcNo, bytes: &[u8]) -> LineEnd
        ensures hands { AtMoment (C.moments (lines_clock self.old))
            (C.moments (lines_clock self.new))
            (HandsLine (desk_step K.first (K.told (lines_desk self.old))
            (K.told (lines_desk self.new)) (K.refused (lines_desk self.old))
            (K.refused (lines_desk self.new)) (K.is_stopped (lines_desk self.new))) proc
            bytes.now result) }
        ensures made { K.made (lines_desk self.new) ≡ K.made (lines_desk self.old) }
        ensures later { K.refused (lines_desk self.old) ≤ K.refused (lines_desk self.new) }
        ensures refused { result ≡ LineEnd.End
            → Rose (K.refused (lines_desk self.old)) (K.refused (lines_desk self.new)) }
    {
        let now = self.clock.now();
        let gave = self.desk.line(self.alloc, proc, bytes, now);
        let end = line_end(&gave);
        if end == LineEnd::WantOfMemory {
            self.clock.pause();
        }
        end
    }

    // Tells the desk of a death, at the moment that the clock gives. It notes it or refuses it.
    fn hand_death(&mut self, proc: ProcNo)
        ensures hands { AtMoment (C.moments (lines_clock self.old))
            (C.moments (lines_clock self.new))
            (HandsDeath (desk_step K.first (K.told (lines_desk self.old))
            (K.told (lines_desk self.new)) (K.refused (lines_desk self.old))
            (K.refused (lines_desk self.new)) (K.is_stopped (lines_desk self.new))) proc) }
        ensures made { K.made (lines_desk self.new) ≡ K.made (lines_desk self.old) }
        ensures later { K.refused (lines_desk self.old) ≤ K.refused (lines_desk self.new) }
    {
        let now = self.clock.now();
        let _gave = self.desk.died(proc, now);
    }
}

impl<K: HelperCalls, C: Clock> LineDesk for ServeLines<K, C> {
    ghost use Rattle.std.proofs.Common.{refl};
    ghost use Rattle.sq_calls.proofs.MomentLaws.{timely_and, timely_still};
    ghost use Rattle.sq_calls.specs.Moments.{IsTimely};
    ghost use Rattle.sq_helper_threads.specs.LineViews.{lines_clock, lines_desk};

    ghost refused = { λ s. K.refused (lines_desk s) };

    ghost handed = { λ _. None };

    // What was noted between two states was noted at moments that the clock gave meanwhile.
    ghost passes = { λ s t. IsTimely (C.moments (lines_clock s)) (C.moments (lines_clock t))
        (K.told (lines_desk s)) (K.told (lines_desk t)) };

    ghost still = { λ s. timely_still (C.moments (lines_clock s)) (C.moments (lines_clock s))
        (K.told (lines_desk s)) (K.told (lines_desk s)) refl refl };

    ghost further = { λ a b c. timely_and (C.moments (lines_clock a)) (C.moments (lines_clock b))
        (C.moments (lines_clock c)) (K.told (lines_desk a)) (K.told (lines_desk b))
        (K.told (lines_desk c)) };

    fn line(&mut self, proc: ProcNo, bytes: &[u8]) -> LineEnd
        ensures handed { Adds None None (taken proc bytes.now result) }
        ensures later { K.refused (lines_desk self.old) ≤ K.refused (lines_desk self.new) }
        ensures refused { result ≡ LineEnd.End
            → Rose (K.refused (lines_desk self.old)) (K.refused (lines_desk self.new)) }
        ensures passes { IsTimely (C.moments (lines_clock self.old))
            (C.moments (lines_clock self.new)) (K.told (lines_desk self.old))
            (K.told (lines_desk self.new)) }
        // The desk was handed this line at the moment that the clock gave, and its answer decides.
        ensures hands { AtMoment (C.moments (lines_clock self.old))
            (C.moments (lines_clock self.new))
            (HandsLine (desk_step K.first (K.told (lines_desk self.old))
            (K.told (lines_desk self.new)) (K.refused (lines_desk self.old))
            (K.refused (lines_desk self.new)) (K.is_stopped (lines_desk self.new))) proc
            bytes.now result) }
        ensures made { K.made (lines_desk self.new) ≡ K.made (lines_desk self.old) }
    {
        self.hand_line(proc, bytes)
    }

    fn died(&mut self, proc: ProcNo)
        ensures handed { Adds None None (handed.Died proc ∷ []) }
        ensures later { K.refused (lines_desk self.old) ≤ K.refused (lines_desk self.new) }
        ensures passes { IsTimely (C.moments (lines_clock self.old))
            (C.moments (lines_clock self.new)) (K.told (lines_desk self.old))
            (K.told (lines_desk self.new)) }
        // The desk was told of this death at the moment that the clock gave, and noted or refused it.
        ensures hands { AtMoment (C.moments (lines_clock self.old))
            (C.moments (lines_clock self.new))
            (HandsDeath (desk_step K.first (K.told (lines_desk self.old))
            (K.told (lines_desk self.new)) (K.refused (lines_desk self.old))
            (K.refused (lines_desk self.new)) (K.is_stopped (lines_desk self.new))) proc) }
        ensures made { K.made (lines_desk self.new) ≡ K.made (lines_desk self.old) }
    {
        self.hand_death(proc);
    }
}
