//! The thread of a rewriter's pump.
ghost use Rattle.std.specs.Prelude.{◌≡◌, IfOk};
ghost use Rattle.sq_keeper.specs.Pipes.{half_tells};
ghost use Rattle.sq_rewrite.specs.LineViews.{half_proc, placed_proc};
ghost use Rattle.sq_rewrite.specs.PumpRounds.{CountsKeeper, HandsOut, IsRound};

use crate::board::PlacedHalf;
use crate::calls::RewriterCalls;
use crate::half_counts::HalfCounts;
use crate::keeping::keep;
use crate::lock_rewriter::LockRewriter;
use crate::pump::RewritePump;
use crate::rewriter_room::RewriterRoom;
use crate::rewriter_shelf::RewriterShelf;
use crate::rounds::RoundEnd;
use crate::unread::UnreadHalf;
use sq_base::Texts;
use sq_outside::{Another, Clock, Source, Spawner};
use std::alloc::Global;
use std::sync::Wait;
use std::thread;
use std::thread::{Scope, Threads};

// Puts a half for a keeper, and starts one. Where its thread could not be started, a half is handed back, unless a keeper took it up.
fn begin<
    's,
    E,
    R: Threads + Wait + Sync + 's,
    P: Source + Send + Drop + 's,
    C: Clock + Another + Send + Drop + 's,
>(
    rt: &'s R,
    alloc: Global,
    scope: &'s Scope<'s, E>,
    room: &'s RewriterRoom,
    shelf: &'s RewriterShelf<P>,
    clock: &C,
    half: UnreadHalf<P>,
) -> Result<PlacedHalf, UnreadHalf<P>>
    ensures { IfOk result (λ placed. placed_proc placed ≡ half_proc half) }
{
    let placed = shelf.put(rt, half)?;
    let theirs = clock.another();
    let started = scope.spawn(move || keep(rt, alloc, room, shelf, theirs));
    if started.is_ok() {
        return Ok(placed);
    }
    match shelf.take_back(rt, placed) {
        Ok(back) => Err(back),
        Err(placed) => Ok(placed),
    }
}

// The keepers of a scope, how many halves they were given, and how often the thread of one could not be had.
#[derive(Drop)]
struct ScopeKeepers<'s, E, R, S: Spawner, C> {
    rt: &'s R,
    alloc: Global,
    scope: &'s Scope<'s, E>,
    room: &'s RewriterRoom,
    shelf: &'s RewriterShelf<S::ChildOut>,
    clock: C,
    counts: HalfCounts,
}

impl<
    's,
    E,
    R: Threads + Wait + Sync + 's,
    S: Spawner + Drop + 's,
    C: Clock + Another + Send + Drop + 's,
> ScopeKeepers<'s, E, R, S, C> {
    // Starts a keeper for a half. Where its thread cannot be had, a half is handed back, this one or another one, unless a keeper
    // that began before took it up.
    fn start(&mut self, half: UnreadHalf<S::ChildOut>) -> Result<(), UnreadHalf<S::ChildOut>>
        ensures { CountsKeeper self.old.counts self.new.counts result }
    {
        let gave = begin(
            self.rt,
            self.alloc,
            self.scope,
            self.room,
            self.shelf,
            &self.clock,
            half,
        );
        match gave {
            Ok(placed) => {
                self.counts.give(placed);
                Ok(())
            }
            Err(back) => {
                self.counts.refuse();
                Err(back)
            }
        }
    }

    // Starts a keeper for each half that the pump holds, up to one whose thread cannot be had: the pump holds on to that. Returns
    // whether there is one.
    fn hand_out<K: RewriterCalls>(&mut self, pump: &mut RewritePump<S, K>) -> bool
        ensures { HandsOut pump.old self.old.counts result pump.new self.new.counts }
    {
        while let Some(half) = pump.reader() {
            if let Err(back) = self.start(half) {
                pump.unread(back);
                return true;
            }
        }
        false
    }

    // Hands out the halves that the pump holds, and then has it make a turn, which may end a process that has waited.
    fn round<K: RewriterCalls, T: Clock>(
        &mut self,
        pump: &mut RewritePump<S, K>,
        clock: &mut T,
    ) -> RoundEnd
        ensures { IsRound S.ChildOut.faults
            (half_tells S.ChildIn.contents S.ChildIn.faults S.ChildIn.closed)
            (record {
              before = pump.old;
              now = pump.new;
              counts_before = self.old.counts;
              counts_now = self.new.counts;
              moments_before = T.moments clock.old;
              moments_now = T.moments clock.new;
            }) result }
    {
        let is_refused = self.hand_out(pump);
        let now = clock.now();
        pump.turn_and_end(is_refused, now)
    }
}

// Makes rounds until no more is to be done. How often an act may have become due is read before each: what changes later wakes the
// pump. While a process waits for its keeper's thread it is tried again after each pause.
fn turns<
    's,
    E,
    R: Threads + Wait + Sync + 's,
    S: Spawner + Drop + 's,
    C: Clock + Another + Send + Drop + 's,
>(
    rt: &'s R,
    alloc: Global,
    scope: &'s Scope<'s, E>,
    room: &'s RewriterRoom,
    shelf: &'s RewriterShelf<S::ChildOut>,
    spawner: S,
    mut clock: C,
    words: Texts,
) {
    let mut pump = RewritePump::new(alloc, spawner, LockRewriter::new(rt, room), words);
    let mut keepers: ScopeKeepers<E, R, S, C> = ScopeKeepers {
        rt,
        alloc,
        scope,
        room,
        shelf,
        clock: clock.another(),
        counts: HalfCounts::new(),
    };
    for _ in rt.forever() {
        let seen = room.changes(rt);
        if let Some(proc) = shelf.ended(rt) {
            pump.ended(proc);
            continue;
        }
        match keepers.round(&mut pump, &mut clock) {
            RoundEnd::Worked => {}
            RoundEnd::Held => {
                if room.is_done(rt) {
                    return;
                }
                clock.pause();
            }
            RoundEnd::Idle => {
                if room.wait_due(rt, seen) {
                    return;
                }
            }
            RoundEnd::WantOfMemory => clock.pause(),
        }
    }
}

/// Performs the acts of the rewriter behind its lock until no more is to be done, with processes of the program of these
/// words; then it stops them all, and returns once every keeper has. A keeper whose thread cannot be had is tried again for as
/// long as a process may owe an answer; then its process is ended as if it had died.
pub fn rewrite_all<
    'x,
    R: Threads + Wait + Sync,
    S: Spawner + Send + Drop,
    C: Clock + Another + Send + Drop,
>(
    rt: &'x R,
    alloc: Global,
    room: &'x RewriterRoom,
    shelf: &'x RewriterShelf<S::ChildOut>,
    spawner: S,
    clock: C,
    words: Texts,
) {
    thread::scope(thread::scope_env(), rt, move |scope| {
        turns(rt, alloc, scope, room, shelf, spawner, clock, words)
    });
}
