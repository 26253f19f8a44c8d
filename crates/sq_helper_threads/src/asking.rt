//! Starts of threads that answer look-ups of names.
ghost use Rattle.std.specs.Prelude.{◌≡◌, None, Some, IfSome};
ghost use Rattle.sq_rules.specs.Lookups.{is_lookup_program};
ghost use Rattle.sq_helper_threads.specs.Pumps.{step};
ghost use Rattle.sq_helper_threads.specs.ReaderViews.{asker_config};
ghost use Rattle.sq_helper_threads.specs.Turning.{IsAsking, PumpCounts};

use crate::halves::{AskerOut, ProcIn};
use crate::pump::ServePump;
use crate::turns::{Left, Turn};
use sq_base::{EpochNo, Moment, Text, WantOfMemory};
use sq_calls::HelperCalls;
use sq_dst::{PipeIn, pipe};
use sq_machine::Act;
use sq_outside::Spawner;
use std::alloc::Global;
use std::sync::Wait;

/// Whether these are the words of the class by which names are looked up. No word of a file has a space.
pub(crate) fn is_lookup_program(words: &[Text]) -> bool
    ensures { result ≡ is_lookup_program words.now }
{
    match words {
        [word] => word.as_bytes() == b"dst lookup".as_slice(),
        _ => false,
    }
}

// Both halves of a thread that is to answer look-ups by the configuration of this epoch. None where there is no such epoch, or no
// memory.
fn asker_halves<'a, K: HelperCalls, R: Wait>(
    rt: &'a R,
    alloc: Global,
    desk: &K,
    epoch: EpochNo,
) -> Option<(AskerOut<'a, R>, PipeIn<'a, R>)>
    ensures { IfSome result (λ halves. IfSome (K.configs desk.now epoch)
        (λ told. told ≡ Some (asker_config halves.0))) }
{
    match pipe(rt, alloc) {
        Err(WantOfMemory) => None,
        Ok((to, from)) => match desk.config(epoch) {
            None => None,
            Some(config) => Some((AskerOut { from, config }, to)),
        },
    }
}

impl<'a, S: Spawner, K: HelperCalls, R: Wait> ServePump<'a, S, K, R>
where
    S::ChildIn: Drop,
{
    // Begins a process of the class by which names are looked up. Halves that were closed are let go of.
    pub(crate) fn start_asker(&mut self, epoch: EpochNo, class: u32, now: Moment) -> Turn
        requires { self.old.left ≡ None }
        ensures asking { IsAsking K.configs epoch class (step now self.old result self.new) }
        ensures counts { PumpCounts self.old self.new }
    {
        match asker_halves(self.rt, self.alloc, &self.desk, epoch) {
            None => self.leave(Left::Whole(Act::Start { epoch, class })),
            Some((from, to)) => {
                self.pipes.sweep();
                self.take_up(epoch, class, from, ProcIn::Asker(to), now)
            }
        }
    }
}
