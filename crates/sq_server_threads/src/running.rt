//! The threads of a server, begun and joined.
ghost use Rattle.std.specs.Prelude.{◌≡◌, ◌+◌, ◌<◌, ◌≤◌, ◌^◌, ℕ, min, true};
ghost use Rattle.std.specs.Option.{ForSome, option_map};
ghost use Rattle.std.specs.Thread.{IsSend};
ghost use Rattle.sq_outside.specs.Causes.{count_limit};
ghost use Rattle.sq_shared.specs.Books.{asks_in};
ghost use Rattle.sq_pools.specs.Granting.{granted_together};
ghost use Rattle.sq_machine.specs.Readings.{current};

use sq_base::Texts;
use sq_calls::DeskCalls;
use sq_control::{ListenerMonitor, Panel, PanelEnd};
use sq_helper_threads::{KeeperParts, PumpParts, PumpTools, Shelf, pump_all};
use sq_outside::{Another, Clock, Listener, Spawner, Stopper};
use sq_pools::{Bank, Pools, TagPools};
use sq_rewrite::{RewriterRoom, RewriterShelf, rewrite_all};
use sq_shared::{
    Asks, Door, Grants, HelperTypes, Ledgers, Makes, NetTypes, Refusals, Room, WorkerTypes,
    has_failed, set_done,
};
use sq_workers::{SessionRooms, Shares, Sums, WorkerTools, work_all};
use std::alloc::Global;
use std::sync::ledger::Share;
use std::sync::{Mutex, Wait};
use std::thread::{Threads, join};

/// What the threads of a server work with.
#[derive(Drop)]
pub struct ThreadTools<N: NetTypes> {
    pub dialer: N::D,
    pub spawner: N::S,
    pub resolver: N::Q,
    pub clock: N::C,
}

/// The parts of an opened net.
#[derive(Drop)]
pub struct Tools<N: NetTypes> {
    pub listener: N::L,
    pub stopper: N::T,
    pub threads: ThreadTools<N>,
}

/// The whole of each book's shares, before anything is counted.
#[derive(Drop)]
pub struct Wholes<B: Ledgers> {
    pub asked: Share<Asks<B>>,
    pub made: Share<Makes<B>>,
    pub refused: Share<Refusals<B>>,
    pub grants: Share<Grants<B>>,
}

/// What is handed back when all threads have returned.
#[derive(Drop)]
pub struct ServerRun<D, L, K> {
    pub desk: D,
    pub pools: Pools,
    pub tags: TagPools,
    pub listener: L,
    pub failed: bool,
    pub panel: K,
    pub end: PanelEnd,
    pub requests: u64,
    pub granted: u64,
}

/// Into how many parts the book of refusals is cut: for the pump, for the panel, for each worker, and for each keeper that
/// will ever be started.
pub const REFUSALS: u64 = 0x8000_0000_0000_0000;

/// A rewriter behind its lock, and the words of its program.
#[derive(Drop)]
pub struct RewriterStart {
    pub room: RewriterRoom,
    pub words: Texts,
}

/// The desk behind its lock and the pools for theirs, with the whole of each book's shares.
#[derive(Drop)]
pub struct OpenedBooks<D: DeskCalls, B: Ledgers> {
    pub room: Room<D, B>,
    pub bank: Bank<Grants<B>>,
    pub wholes: Wholes<B>,
}

// What the threads share, behind locks.
#[derive(Drop)]
struct ServerLocks<'a, 'r, R: Wait, N: NetTypes, D: DeskCalls, B: Ledgers> {
    door: &'a Mutex<Door<N::L>>,
    room: &'a Room<D, B>,
    bank: &'a Mutex<Bank<Grants<B>>>,
    rewriter: Option<&'a RewriterRoom>,
    shelf: &'a Shelf<'r, <N::S as Spawner>::ChildOut, R, B>,
    rewriter_shelf: &'a RewriterShelf<<N::S as Spawner>::ChildOut>,
}

// What the panel looks at. What is proved of a closure grows with the types that it captures, so it has these alone.
#[derive(Drop)]
struct PanelLocks<'a, L: Listener, D: DeskCalls, B: Ledgers> {
    door: &'a Mutex<Door<L>>,
    room: &'a Room<D, B>,
    bank: &'a Mutex<Bank<Grants<B>>>,
}

// The panel, and what stops the listener when its run has ended.
#[derive(Drop)]
struct Steering<K, T> {
    panel: K,
    stopper: T,
}

// What the threads of helper processes share: the desk, the rewriter, if there is one, and where keepers take up halves.
#[derive(Drop)]
struct HelperLocks<'a, 'r, R: Wait, P, D: DeskCalls, B: Ledgers> {
    room: &'a Room<D, B>,
    rewriter: Option<&'a RewriterRoom>,
    shelf: &'a Shelf<'r, P, R, B>,
    rewriter_shelf: &'a RewriterShelf<P>,
}

// The pump of the rewriter, if there is one, whose program has these words.
fn rewrite<R: Threads + Wait + Sync, H: HelperTypes>(
    rt: &R,
    alloc: Global,
    rewriter: Option<&RewriterRoom>,
    shelf: &RewriterShelf<<H::S as Spawner>::ChildOut>,
    words: Option<Texts>,
    spawner: H::S,
    clock: H::C,
) {
    if let (Some(room), Some(words)) = (rewriter, words) {
        rewrite_all(rt, alloc, room, shelf, spawner, clock, words);
    }
}

// The pump of helper processes beside that of the rewriter.
fn pump_both<
    R: Threads + Wait + Sync,
    H: HelperTypes + Send,
    D: DeskCalls + Send,
    B: Ledgers + Send + Sync,
>(
    rt: &R,
    alloc: Global,
    locks: &HelperLocks<'_, '_, R, <H::S as Spawner>::ChildOut, D, B>,
    words: Option<Texts>,
    tools: PumpTools<H>,
    parts: PumpParts<B>,
) {
    let spawner = tools.spawner.another();
    let clock = tools.clock.another();
    let room = locks.room;
    let shelf = locks.shelf;
    let rewriter = locks.rewriter;
    let rewriter_shelf = locks.rewriter_shelf;
    join(
        rt,
        move || -> ()
            requires { IsSend H.S.row × IsSend H.S.ChildOut.row × IsSend H.S.ChildIn.row
                × IsSend H.C.row × IsSend H.Q.row }
        { rewrite::<R, H>(rt, alloc, rewriter, rewriter_shelf, words, spawner, clock) },
        move || -> ()
            requires { IsSend H.S.row × IsSend H.S.ChildOut.row × IsSend H.S.ChildIn.row
                × IsSend H.C.row × IsSend H.Q.row }
        { pump_all::<R, H, D, B>(rt, alloc, room, shelf, tools, parts) },
    );
}

// No more is to be done.
fn end_all<R: Wait, D: DeskCalls, B: Ledgers>(
    rt: &R,
    room: &Room<D, B>,
    rewriter: Option<&RewriterRoom>,
) {
    set_done(rt, room);
    if let Some(rewriter) = rewriter {
        rewriter.set_done(rt);
    }
}

// The workers, who open their connections as the numbers from 1 on, one each. Once these have returned, no more is to be done.
fn work_to_end<
    R: Threads + Wait + Sync,
    W: WorkerTypes + Send,
    D: DeskCalls + Send,
    B: Ledgers + Send + Sync,
>(
    rt: &R,
    alloc: Global,
    door: &Mutex<Door<W::L>>,
    rooms: &SessionRooms<'_, D, B>,
    tools: WorkerTools<W>,
    workers: u32,
    shares: Shares<B>,
) -> Sums<B>
    requires some { (0 < workers) × (workers ≤ 2 ^ 31) }
    requires asked { (shares.asked.parts ≡ workers + workers) × (shares.asked.amount ≡ 0) }
    requires refused { shares.refused.parts ≡ workers + workers }
    requires grants { (shares.granted.parts ≡ workers + workers) × (shares.granted.amount ≡ 0) }
    ensures numbers { (result.first ≡ 1) × (result.count ≡ workers) }
    ensures asked { result.asked.parts ≡ workers + workers }
    ensures grants { result.grants.parts ≡ workers + workers }
{
    let sums = work_all::<R, W, D, B>(rt, alloc, door, rooms, tools, 1, workers, shares);
    end_all(rt, rooms.room, rooms.rewriter);
    sums
}

// The pumps beside the workers.
fn pump_beside<
    R: Threads + Wait + Sync,
    N: NetTypes + Send,
    D: DeskCalls + Send,
    B: Ledgers + Send + Sync,
>(
    rt: &R,
    alloc: Global,
    locks: &ServerLocks<'_, '_, R, N, D, B>,
    words: Option<Texts>,
    tools: ThreadTools<N>,
    workers: u32,
    shares: Shares<B>,
    parts: PumpParts<B>,
) -> Sums<B>
    requires some { (0 < workers) × (workers ≤ 2 ^ 31) }
    requires asked { (shares.asked.parts ≡ workers + workers) × (shares.asked.amount ≡ 0) }
    requires refused { shares.refused.parts ≡ workers + workers }
    requires grants { (shares.granted.parts ≡ workers + workers) × (shares.granted.amount ≡ 0) }
    ensures numbers { (result.first ≡ 1) × (result.count ≡ workers) }
    ensures asked { result.asked.parts ≡ workers + workers }
    ensures grants { result.grants.parts ≡ workers + workers }
{
    let ThreadTools {
        dialer,
        spawner,
        resolver,
        clock,
    } = tools;
    let pumping: PumpTools<(N::S, N::Q, N::C)> = PumpTools {
        spawner,
        resolver,
        clock: clock.another(),
    };
    let working: WorkerTools<(N::L, N::D, N::C)> = WorkerTools { dialer, clock };
    let rooms = SessionRooms {
        room: locks.room,
        bank: locks.bank,
        rewriter: locks.rewriter,
    };
    let helpers = &HelperLocks {
        room: locks.room,
        rewriter: locks.rewriter,
        shelf: locks.shelf,
        rewriter_shelf: locks.rewriter_shelf,
    };
    let door = locks.door;
    let rooms = &rooms;
    let (_, sums) = join(
        rt,
        move || -> ()
            requires { IsSend N.S.row × IsSend N.S.ChildOut.row × IsSend N.S.ChildIn.row
                × IsSend N.C.row × IsSend N.Q.row }
        { pump_both(rt, alloc, helpers, words, pumping, parts) },
        move || -> Sums<B>
            requires { IsSend N.L.row × IsSend N.L.In.row × IsSend N.L.Outgo.row
                × IsSend N.D.row × IsSend N.D.In.row × IsSend N.D.Outgo.row × IsSend N.C.row
                × (0 < workers) × (workers ≤ 2 ^ 31)
                × (shares.asked.parts ≡ workers + workers) × (shares.asked.amount ≡ 0)
                × (shares.refused.parts ≡ workers + workers)
                × (shares.granted.parts ≡ workers + workers) × (shares.granted.amount ≡ 0) }
            ensures { (result.first ≡ 1) × (result.count ≡ workers)
                × (result.asked.parts ≡ workers + workers)
                × (result.grants.parts ≡ workers + workers) }
        { work_to_end(rt, alloc, door, rooms, working, workers, shares) },
    );
    sums
}

impl<L: Listener + Drop, D: DeskCalls, B: Ledgers> PanelLocks<'_, L, D, B> {
    // Runs the panel, and stops the listener when its run has ended.
    fn run_panel<R: Wait, K: Panel, T: Stopper + Drop, C: Clock + Drop>(
        self,
        rt: &R,
        steering: Steering<K, T>,
        clock: C,
        made: Share<Makes<B>>,
        refused: Share<Refusals<B>>,
    ) -> (K, PanelEnd, Share<Makes<B>>)
        requires counting { D.is_counting ≡ true }
        requires made { made.parts ≡ B.makes.parts }
        requires some { 0 < made.parts }
        requires none { made.amount ≡ 0 }
        requires refused { 0 < refused.parts }
        ensures gives { K.gives steering.panel result.0 result.1 result.2.amount }
        ensures whole { result.2.parts ≡ B.makes.parts }
    {
        let Steering { panel, stopper } = steering;
        let door = self.door;
        let monitor = ListenerMonitor {
            failed: &|| has_failed(door),
            clock,
        };
        let back = panel.run(rt, self.room, self.bank, monitor, made, refused);
        stopper.stop();
        back
    }
}

impl<
    R: Threads + Wait + Sync,
    N: NetTypes + Send,
    D: DeskCalls + Send,
    B: Ledgers + Send + Sync,
> ServerLocks<'_, '_, R, N, D, B> {
    // The threads beside the panel, which runs in this one. When its run has ended the listener is stopped.
    fn beside<K: Panel + Drop>(
        &self,
        rt: &R,
        alloc: Global,
        words: Option<Texts>,
        tools: ThreadTools<N>,
        workers: u32,
        steering: Steering<K, N::T>,
        wholes: Wholes<B>,
    ) -> (Sums<B>, (K, PanelEnd, Share<Makes<B>>))
        requires counting { D.is_counting ≡ true }
        requires some { (0 < workers) × (workers ≤ 2 ^ 31) }
        requires asked { (wholes.asked.parts ≡ workers + workers) × (wholes.asked.amount ≡ 0) }
        requires made { (wholes.made.parts ≡ B.makes.parts) × (0 < wholes.made.parts)
            × (wholes.made.amount ≡ 0) }
        requires refused { wholes.refused.parts ≡ REFUSALS }
        requires grants { (wholes.grants.parts ≡ workers + workers) × (wholes.grants.amount ≡ 0) }
        ensures numbers { (result.0.first ≡ 1) × (result.0.count ≡ workers) }
        ensures asked { result.0.asked.parts ≡ workers + workers }
        ensures grants { result.0.grants.parts ≡ workers + workers }
        ensures panel { K.gives steering.panel result.1.0 result.1.1 result.1.2.amount }
        ensures made { result.1.2.parts ≡ B.makes.parts }
    {
        let Wholes {
            asked,
            made,
            mut refused,
            grants,
        } = wholes;
        let parts = u64::from(workers) + u64::from(workers);
        let spare = REFUSALS - parts - 2;
        let theirs = refused.split_off(parts, 0);
        let own = refused.split_off(1, 0);
        let panels = refused.split_off(1, 0);
        let shares = Shares {
            asked,
            refused: theirs,
            granted: grants,
        };
        let pumps = PumpParts {
            own,
            keepers: KeeperParts { refused, spare },
        };
        let panel_clock = tools.clock.another();
        let locks = self;
        let panel_locks = PanelLocks {
            door: self.door,
            room: self.room,
            bank: self.bank,
        };
        join(
            rt,
            move || -> Sums<B>
                requires { IsSend N.L.row × IsSend N.L.In.row × IsSend N.L.Outgo.row
                    × IsSend N.T.row × IsSend N.D.row × IsSend N.D.In.row × IsSend N.D.Outgo.row
                    × IsSend N.S.row × IsSend N.S.ChildOut.row × IsSend N.S.ChildIn.row
                    × IsSend N.C.row × IsSend N.Q.row
                    × (0 < workers) × (workers ≤ 2 ^ 31)
                    × (shares.asked.parts ≡ workers + workers) × (shares.asked.amount ≡ 0)
                    × (shares.refused.parts ≡ workers + workers)
                    × (shares.granted.parts ≡ workers + workers) × (shares.granted.amount ≡ 0) }
                ensures { (result.first ≡ 1) × (result.count ≡ workers)
                    × (result.asked.parts ≡ workers + workers)
                    × (result.grants.parts ≡ workers + workers) }
            { pump_beside::<R, N, D, B>(rt, alloc, locks, words, tools, workers, shares, pumps) },
            move || -> (K, PanelEnd, Share<Makes<B>>)
                requires { (D.is_counting ≡ true) × (made.parts ≡ B.makes.parts)
                    × (0 < made.parts) × (made.amount ≡ 0) × (0 < panels.parts) }
                ensures { K.gives steering.panel result.0 result.1 result.2.amount
                    × (result.2.parts ≡ B.makes.parts) }
            { panel_locks.run_panel::<R, K, N::T, N::C>(rt, steering, panel_clock, made, panels) },
        )
    }
}

// A rewriter's lock, and the words of its program.
fn parted(rewriter: Option<RewriterStart>) -> (Option<RewriterRoom>, Option<Texts>)
    ensures room { result.0 ≡ option_map (λ r. r.room) rewriter }
    ensures words { result.1 ≡ option_map (λ r. r.words) rewriter }
{
    match rewriter {
        Some(RewriterStart { room, words }) => (Some(room), Some(words)),
        None => (None, None),
    }
}

impl<D: DeskCalls + Send + Drop, B: Ledgers + Send + Sync> OpenedBooks<D, B> {
    /// Runs a server over a desk, a rewriter, if there is one, and pools that are in their locks, until the panel's run has
    /// ended and all threads have returned.
    #[tactic(auto, using(crate::proofs::EndLaws::asks_summed, crate::proofs::EndLaws::grants_summed))]
    pub fn run<R: Threads + Wait + Sync, N: NetTypes + Send, K: Panel + Drop>(
        self,
        rt: &R,
        alloc: Global,
        rewriter: Option<RewriterStart>,
        tools: Tools<N>,
        workers: u32,
        panel: K,
    ) -> ServerRun<D, N::L, K>
        requires counting { D.is_counting ≡ true }
        requires some { (0 < workers) × (workers ≤ 2 ^ 31) }
        requires asked { (self.wholes.asked.parts ≡ workers + workers)
            × (B.asks.parts ≡ workers + workers)
            × (self.wholes.asked.amount ≡ 0) }
        requires made { (self.wholes.made.parts ≡ B.makes.parts) × (0 < B.makes.parts)
            × (self.wholes.made.amount ≡ 0) }
        requires refused { self.wholes.refused.parts ≡ REFUSALS }
        requires grants { (self.wholes.grants.parts ≡ workers + workers)
            × (B.grants.parts ≡ workers + workers)
            × (self.wholes.grants.amount ≡ 0) }
        ensures asks { ForSome (D.told result.desk)
            (λ h. result.requests ≡ min (asks_in h) count_limit) }
        ensures grants { result.granted
            ≡ min (granted_together result.pools result.tags) count_limit }
        ensures panel { (n : ℕ) × K.gives panel result.panel result.end n
            × ForSome (D.told result.desk) (λ h. n + 1 ≡ current h) }
        ensures failed { result.failed ≡ true → 0 < N.L.faults result.listener }
    {
        let OpenedBooks { room, bank, wholes } = self;
        let Tools {
            listener,
            stopper,
            threads,
        } = tools;
        let bank = Mutex::new(bank);
        let door = Mutex::new(Door::new(listener));
        let shelf: Shelf<'_, <N::S as Spawner>::ChildOut, R, B> = Shelf::new(rt, alloc);
        let rewriter_shelf: RewriterShelf<<N::S as Spawner>::ChildOut> = RewriterShelf::new(alloc);
        let (rewriter, words) = parted(rewriter);
        let locks: ServerLocks<'_, '_, R, N, D, B> = ServerLocks {
            door: &door,
            room: &room,
            bank: &bank,
            rewriter: rewriter.as_ref(),
            shelf: &shelf,
            rewriter_shelf: &rewriter_shelf,
        };
        let steering = Steering { panel, stopper };
        let (sums, (panel, end, made)) = locks.beside::<K>(
            rt, alloc, words, threads, workers, steering, wholes,
        );
        let Sums {
            first: _,
            count: _,
            requests,
            granted,
            asked,
            grants,
        } = sums;
        let desk = room.into_hall().end(asked, made);
        let (pools, tags) = bank.into_inner().end(grants);
        let (listener, failed) = door.into_inner().into_listener();
        ServerRun {
            desk,
            pools,
            tags,
            listener,
            failed,
            panel,
            end,
            requests,
            granted,
        }
    }
}
