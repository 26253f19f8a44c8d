//! The pump's thread.
ghost use Rattle.std.specs.Prelude.{◌≡◌, ◌<◌, ◌≤◌, IfOk};
ghost use Rattle.std.specs.Thread.{IsSend};
ghost use Rattle.sq_helper_threads.specs.Boards.{placed_proc};
ghost use Rattle.sq_helper_threads.specs.Halves.{in_tells};
ghost use Rattle.sq_helper_threads.specs.KeeperHalves.{out_proc};
ghost use Rattle.sq_helper_threads.specs.PumpRounds.{CountsKeeper, HandsOut, IsRound, keepers_of};
ghost use Rattle.sq_helper_threads.specs.Pumps.{pump_tells};

use crate::board::{PlacedTask, Task};
use crate::keeper_counts::KeeperCounts;
use crate::keeper_halves::ProcOut;
use crate::pump::ServePump;
use crate::rounds::{HandEnd, PumpRound};
use crate::shelf::Shelf;
use crate::site::Site;
use sq_calls::{DeskCalls, HelperCalls};
use sq_outside::{Another, Clock, Resolver, Source, Spawner};
use sq_shared::{HelperTypes, Ledgers, LockDesk, Refusals, Room, changes, wait_due};
use std::alloc::Global;
use std::sync::Wait;
use std::sync::ledger::Share;
use std::thread;
use std::thread::{Scope, Threads};

/// What the pump starts processes with, what its keepers look names up with, and its clock.
#[derive(Drop)]
pub struct PumpTools<H: HelperTypes> {
    pub spawner: H::S,
    pub resolver: H::Q,
    pub clock: H::C,
}

/// The parts of the book of refusals that are for keepers, and how many they are.
#[derive(Drop)]
pub struct KeeperParts<B: Ledgers> {
    pub refused: Share<Refusals<B>>,
    pub spare: u64,
    pub ghost spare_is: { refused.parts ≡ spare },
}

/// The parts of the book of refusals that the pump has for itself, and those for its keepers.
#[derive(Drop)]
pub struct PumpParts<B: Ledgers> {
    pub own: Share<Refusals<B>>,
    pub keepers: KeeperParts<B>,
    pub ghost own_some: { 0 < own.parts },
}

impl<
    's,
    'r: 's,
    R: Threads + Wait + Sync + 's + 'r,
    P: Source + Send + Drop + 's,
    D: DeskCalls + Send + 's,
    B: Ledgers + Send + Sync + 's,
> Site<'s, 'r, R, P, D, B> {
    // Puts a task for a keeper, and starts one. Where its thread could not be started, a task is handed back, unless a keeper took it up.
    fn begin<'e, Q: Resolver + Another + Send + Drop + 's, C: Clock + Another + Send + Drop + 's>(
        &self,
        scope: &'s Scope<'s, &'e ()>,
        resolver: &Q,
        clock: &C,
        task: Task<ProcOut<'r, P, R>, B>,
    ) -> Result<PlacedTask, Task<ProcOut<'r, P, R>, B>>
        ensures { IfOk result (λ placed. placed_proc placed ≡ out_proc task.entry.half) }
    {
        let placed = self.shelf.board.put(self.rt, task)?;
        let site = Site {
            rt: self.rt,
            alloc: self.alloc,
            room: self.room,
            shelf: self.shelf,
        };
        let looker = resolver.another();
        let theirs = clock.another();
        let started = scope.spawn(move || site.keep(looker, theirs));
        if started.is_ok() {
            return Ok(placed);
        }
        match self.shelf.board.take_back(self.rt, placed) {
            Ok(back) => Err(back),
            Err(placed) => Ok(placed),
        }
    }
}

// The keepers of a scope: with what each is started, the parts of the book that are left for them, how many halves they were given,
// and how often one could not be had.
#[derive(Drop)]
struct HelperKeepers<'s, 'e, 'r, R: Wait, H: HelperTypes, D: DeskCalls, B: Ledgers> {
    scope: &'s Scope<'s, &'e ()>,
    site: Site<'s, 'r, R, <H::S as Spawner>::ChildOut, D, B>,
    resolver: H::Q,
    clock: H::C,
    parts: KeeperParts<B>,
    counts: KeeperCounts,
}

impl<
    's,
    'e,
    'r: 's,
    R: Threads + Wait + Sync + 's + 'r,
    H: HelperTypes + Send + 's,
    D: DeskCalls + Send + 's,
    B: Ledgers + Send + Sync + 's,
> HelperKeepers<'s, 'e, 'r, R, H, D, B> {
    // Starts a keeper for a half, which has its part of the book for good. Where none can be had, a half is handed back, this one or
    // another one, unless a keeper that began before took it up.
    fn start(
        &mut self,
        half: ProcOut<'r, <H::S as Spawner>::ChildOut, R>,
    ) -> Result<(), ProcOut<'r, <H::S as Spawner>::ChildOut, R>>
        ensures { CountsKeeper (keepers_of self.old.counts self.old.parts.spare)
            (keepers_of self.new.counts self.new.parts.spare) result }
    {
        let HelperKeepers {
            scope,
            site,
            resolver,
            clock,
            parts,
            counts,
        } = self;
        let KeeperParts { refused, spare } = parts;
        if *spare <= 1 {
            counts.refuse();
            return Err(half);
        }
        let part = refused.split_off(1, 0);
        match site.begin(*scope, &*resolver, &*clock, Task::new(half, part)) {
            Ok(placed) => {
                *spare -= 1;
                counts.give(placed);
                Ok(())
            }
            Err(back) => {
                let Task {
                    half,
                    refused: part,
                } = back;
                refused.merge(part);
                counts.refuse();
                Err(half)
            }
        }
    }

    // Starts a keeper for each half that the pump holds, up to one for which none can be had: the pump holds on to that. Another half
    // may come back than the one that was handed out; where there is no memory to hold on to either kind, none is handed out.
    fn hand_out<K: HelperCalls>(&mut self, pump: &mut ServePump<'r, H::S, K, R>) -> HandEnd
        ensures { HandsOut pump.old (keepers_of self.old.counts self.old.parts.spare) result
            pump.new (keepers_of self.new.counts self.new.parts.spare) }
    {
        if pump.reserve().is_err() {
            return HandEnd::WantOfMemory;
        }
        while let Some(half) = pump.next_half() {
            if let Err(back) = self.start(half) {
                pump.put_back(back);
                return HandEnd::Refused;
            }
        }
        HandEnd::All
    }

    // Hands out the halves that the pump holds, and then has it make a turn, which may end a process that has waited.
    fn round<K: HelperCalls, T: Clock>(
        &mut self,
        pump: &mut ServePump<'r, H::S, K, R>,
        clock: &mut T,
    ) -> PumpRound
        ensures round { IsRound (pump_tells K.programs K.configs H.S.ChildOut.faults
            (in_tells H.S.ChildIn.contents H.S.ChildIn.faults H.S.ChildIn.closed))
            (record {
              before = pump.old;
              now = pump.new;
              keepers_before = keepers_of self.old.counts self.old.parts.spare;
              keepers_now = keepers_of self.new.counts self.new.parts.spare;
              moments_before = T.moments clock.old;
              moments_now = T.moments clock.new;
            }) result }
        ensures later { T.faults clock.old ≤ T.faults clock.new }
    {
        let handed = self.hand_out(pump);
        let now = clock.now();
        pump.turn_and_end(handed.is_refusal(), now)
    }
}

// Makes rounds until no more is to be done. How often an act may have become due is read before each: what changes later wakes the
// pump. While a process waits for its keeper's thread it is tried again after each pause.
fn turns<
    's,
    'e,
    'r: 's,
    R: Threads + Wait + Sync + 's + 'r,
    H: HelperTypes + Send + 's,
    D: DeskCalls + Send + 's,
    B: Ledgers + Send + Sync + 's,
>(
    pump: &mut ServePump<'r, H::S, LockDesk<'s, R, D, B>, R>,
    keepers: &mut HelperKeepers<'s, 'e, 'r, R, H, D, B>,
    clock: &mut H::C,
) {
    let rt = keepers.site.rt;
    let room = keepers.site.room;
    for _ in rt.forever() {
        let seen = changes(rt, room);
        if let Some(proc) = keepers.site.shelf.board.ended(rt) {
            pump.ended(proc);
            continue;
        }
        match keepers.round(pump, clock) {
            PumpRound::Worked => {}
            PumpRound::Held => {
                if pump.desk.is_done() {
                    return;
                }
                clock.pause();
            }
            PumpRound::Idle => {
                if wait_due(rt, room, seen) {
                    return;
                }
            }
            PumpRound::WantOfMemory => clock.pause(),
            PumpRound::Ended => return,
        }
    }
}

// Makes rounds with a pump over these tools and parts, and lets go of all of them.
fn run<
    's,
    'e,
    'r: 's,
    R: Threads + Wait + Sync + 's + 'r,
    H: HelperTypes + Send + 's,
    D: DeskCalls + Send + 's,
    B: Ledgers + Send + Sync + 's,
>(
    scope: &'s Scope<'s, &'e ()>,
    site: Site<'s, 'r, R, <H::S as Spawner>::ChildOut, D, B>,
    tools: PumpTools<H>,
    parts: PumpParts<B>,
) {
    let PumpTools {
        spawner,
        resolver,
        mut clock,
    } = tools;
    let PumpParts { own, keepers } = parts;
    let desk = LockDesk::new(site.rt, site.room, own);
    let mut pump = ServePump::new(site.shelf.rt, site.alloc, spawner, desk);
    let mut keepers: HelperKeepers<R, H, D, B> = HelperKeepers {
        scope,
        site,
        resolver,
        clock: clock.another(),
        parts: keepers,
        counts: KeeperCounts::new(),
    };
    turns::<R, H, D, B>(&mut pump, &mut keepers, &mut clock);
}

/// Performs the acts of the desk behind its lock until no more is to be done or the desk has stopped, and returns once
/// every keeper has. Each keeper has a resolver of its own for look-ups of names. Of the parts of the book of refusals all of
/// the keepers' but one are handed out: a keeper that was started has its part for good, so with `spare` parts at most
/// `spare - 1` keepers are ever started; after that no keeper is to be had. A keeper that cannot be had is tried again for as
/// long as a process may owe an answer; then its process is ended as if it had died.
pub fn pump_all<
    'x,
    'r: 'x,
    R: Threads + Wait + Sync,
    H: HelperTypes + Send,
    D: DeskCalls + Send,
    B: Ledgers + Send + Sync,
>(
    rt: &'x R,
    alloc: Global,
    room: &'x Room<D, B>,
    shelf: &'x Shelf<'r, <H::S as Spawner>::ChildOut, R, B>,
    tools: PumpTools<H>,
    parts: PumpParts<B>,
) {
    thread::scope(
        thread::scope_env(),
        rt,
        move |scope| -> ()
            requires { IsSend H.row × IsSend D.row × IsSend B.row
                × IsSend H.S.row × IsSend H.S.ChildOut.row × IsSend H.S.ChildIn.row
                × IsSend H.C.row × IsSend H.Q.row }
        {
            let site = Site {
                rt,
                alloc,
                room,
                shelf,
            };
            run::<R, H, D, B>(scope, site, tools, parts)
        },
    );
}
