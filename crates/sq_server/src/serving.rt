//! `serve`: a server from its beginning to its end.
ghost use Rattle.std.specs.Prelude.{◌≡◌, ◌+◌, ◌<◌, ◌≤◌, ◌^◌, ℕ, [], is_some, min, true, false, IfOk, IfErr, IfSome};
ghost use Rattle.std.specs.Option.{ForSome};
ghost use Rattle.sq_outside.specs.Causes.{Rose, count_limit};
ghost use Rattle.sq_shared.specs.Books.{asks_in};
ghost use Rattle.sq_pools.specs.Granting.{granted_together};
ghost use Rattle.sq_machine.specs.Readings.{current};
ghost use Rattle.sq_desk.specs.Calling.{IsUnbegun};
ghost use Rattle.sq_calls.specs.Legality.{IsLegal};

use crate::beginning::{Blanks, DeskAndPools, Sleeping, begin, open_books, sleeping_of};
use crate::starting::{Served, Start, Unserved};
use crate::threads::has_threads;
use crate::watched::{Before, Watched};
use sq_base::WantOfMemory;
use sq_calls::DeskFault;
use sq_control::Panel;
use sq_desk::{Desk, DeskStart};
use sq_journal::Journal;
use sq_outside::{Clock, Net, Parts};
use sq_rules::Config;
use sq_server_threads::{REFUSALS, ServerRun, ThreadTools, Tools};
use sq_shared::{Ledgers, NetTypes};
use std::alloc::Global;
use std::marker::Brand;
use std::sync::Wait;
use std::sync::ledger::Blank;
use std::thread::Threads;

// The journal of a desk, and whether a note of it failed.
fn journal_of<J: Journal, B: Before + DeskStart>(desk: Desk<Watched<J, B>, B>) -> (J, bool)
    ensures legal { IfSome (J.history result.0) (IsLegal B.first) }
    ensures history { J.history result.0 ≡ desk.notes.history }
    ensures later { B.faults ≤ J.faults result.0 }
    ensures cause { result.1 ≡ true → Rose B.faults (J.faults result.0) }
    ensures quiet { result.1 ≡ false → J.faults result.0 ≡ B.faults }
{
    desk.facts();
    desk.finish().finish()
}

// How many pumps there are: one, and one for the rewriter, if there is one.
fn pump_count(config: &Config) -> u32
    ensures few { result ≤ 2 }
    ensures both { is_some config.now.rewriter ≡ true → result ≡ 2 }
    ensures alone { is_some config.now.rewriter ≡ false → result ≡ 1 }
{
    if config.rewriter().is_some() { 2 } else { 1 }
}

// What a server starts with: the parts of its net, what its machine begins with, and its journal.
#[derive(Drop)]
struct ServerStart<N: NetTypes, J> {
    tools: Tools<N>,
    start: Start,
    journal: J,
}

impl<N: NetTypes + Send, J: Journal + Send + Drop> ServerStart<N, J> {
    // Makes the desk, the rewriter and the pools, and runs the server.
    fn serve_with<
        R: Threads + Wait + Sync,
        K: Panel + Drop,
        B: Ledgers + Before + DeskStart + Send + Sync,
    >(
        self,
        rt: &R,
        alloc: Global,
        workers: u32,
        panel: K,
        blanks: Blanks,
    ) -> Result<Served<N::L, J, K>, Unserved<N::L, J, K>>
        requires begun { B.faults ≡ J.faults self.journal }
        requires first { B.first
            ≡ record { config = self.start.setup; offset = self.start.offset } }
        requires empty { IfSome (J.history self.journal) (λ h. h ≡ []) }
        requires some { (0 < workers) × (workers ≤ 2 ^ 31) }
        requires asks { (blanks.asks.name ≡ B.asks.name) × (blanks.asks.parts ≡ B.asks.parts)
            × (B.asks.parts ≡ workers + workers) }
        requires makes { (blanks.makes.name ≡ B.makes.name) × (blanks.makes.parts ≡ B.makes.parts)
            × (B.makes.parts ≡ 1) }
        requires refusals { (blanks.refusals.name ≡ B.refusals.name)
            × (blanks.refusals.parts ≡ B.refusals.parts)
            × (B.refusals.parts ≡ REFUSALS) }
        requires grants { (blanks.grants.name ≡ B.grants.name)
            × (blanks.grants.parts ≡ B.grants.parts)
            × (B.grants.parts ≡ workers + workers) }
        ensures legal { IfOk result
            (λ s. IfSome (J.history s.journal)
            (IsLegal (record { config = self.start.setup; offset = self.start.offset }))) }
        ensures asks { IfOk result
            (λ s. ForSome (J.history s.journal) (λ h. s.requests ≡ min (asks_in h) count_limit)) }
        ensures grants { IfOk result
            (λ s. s.granted ≡ min (granted_together s.pools s.tags) count_limit) }
        ensures panel { IfOk result
            (λ s. (n : ℕ) × K.gives panel s.panel s.end n
            × ForSome (J.history s.journal) (λ h. n + 1 ≡ current h)) }
        ensures stopped { IfOk result
            (λ s. s.stopped ≡ true → Rose (J.faults self.journal) (J.faults s.journal)) }
        ensures quiet { IfOk result
            (λ s. s.stopped ≡ false → J.faults s.journal ≡ J.faults self.journal) }
        ensures failed { IfOk result (λ s. s.failed ≡ true → 0 < N.L.faults s.listener) }
        ensures later { IfOk result (λ s. J.faults self.journal ≤ J.faults s.journal) }
        ensures unserved { IfErr result
            (λ u. IsUnbegun u.fault (J.faults self.journal) (J.faults u.journal)) }
        ensures unwritten { IfErr result (λ u. J.history u.journal ≡ J.history self.journal) }
        ensures unrun { IfErr result (λ u. (u.panel ≡ panel) × (u.listener ≡ self.tools.listener)) }
    {
        let ServerStart {
            mut tools,
            start,
            journal,
        } = self;
        let sleeping = match sleeping_of(alloc, start.setup.config(), workers) {
            Ok(sleeping) => sleeping,
            Err(WantOfMemory) => {
                return Err(Unserved {
                    fault: DeskFault::WantOfMemory,
                    listener: tools.listener,
                    journal,
                    panel,
                });
            }
        };
        let now = tools.threads.clock.now();
        let machine = match begin::<J, B>(alloc, start, journal, now) {
            Ok(machine) => machine,
            Err((fault, journal)) => {
                return Err(Unserved {
                    fault,
                    listener: tools.listener,
                    journal,
                    panel,
                });
            }
        };
        let DeskAndPools { desk, pools, tags } = machine;
        let Sleeping { places, rewriter } = sleeping;
        let opened = open_books::<Desk<Watched<J, B>, B>, B>(
            alloc, desk, pools, tags, places, blanks,
        );
        let ServerRun {
            desk,
            pools,
            tags,
            listener,
            failed,
            panel,
            end,
            requests,
            granted,
        } = opened.run::<R, N, K>(rt, alloc, rewriter, tools, workers, panel);
        let (journal, stopped) = journal_of(desk);
        Ok(Served {
            listener,
            journal,
            panel,
            end,
            pools,
            tags,
            stopped,
            failed,
            requests,
            granted,
        })
    }
}

/// Makes the desk of a configuration over a journal without an entry, and serves the links that come to the parts of an
/// opened net with so many workers, until the run of the panel has ended. The rewriter is that of this configuration for the
/// whole run. Then the listener is stopped; the open sessions go on to their end, every process is stopped, and all threads
/// return. Where no desk is made all is handed back.
pub fn serve<R: Threads + Wait + Sync, N: Net, J: Journal + Send + Drop, K: Panel + Drop>(
    rt: &R,
    alloc: Global,
    start: Start,
    parts: Parts<N>,
    journal: J,
    workers: u32,
    panel: K,
) -> Result<Served<N::L, J, K>, Unserved<N::L, J, K>>
    requires empty { IfSome (J.history journal) (λ h. h ≡ []) }
    requires some { (0 < workers) × (workers ≤ 2 ^ 31) }
    // A journal that tells has the offset of its beginning, and is legal over the configuration of that and those of its
    // reconfigurations, each of which its source states.
    ensures legal { IfOk result
        (λ s. IfSome (J.history s.journal)
        (IsLegal (record { config = start.setup; offset = start.offset }))) }
    // Its requests are the sum of those of all sessions, and what the pools of both kinds granted is the sum of what sessions
    // were.
    ensures asks { IfOk result
        (λ s. ForSome (J.history s.journal) (λ h. s.requests ≡ min (asks_in h) count_limit)) }
    ensures grants { IfOk result
        (λ s. s.granted ≡ min (granted_together s.pools s.tags) count_limit) }
    // The panel ran, and the reconfigurations that it made are the journal's.
    ensures panel { IfOk result
        (λ s. (n : ℕ) × K.gives panel s.panel s.end n
        × ForSome (J.history s.journal) (λ h. n + 1 ≡ current h)) }
    ensures stopped { IfOk result
        (λ s. s.stopped ≡ true → Rose (J.faults journal) (J.faults s.journal)) }
    ensures quiet { IfOk result
        (λ s. s.stopped ≡ false → J.faults s.journal ≡ J.faults journal) }
    ensures failed { IfOk result (λ s. s.failed ≡ true → 0 < N.L.faults s.listener) }
    ensures later { IfOk result (λ s. J.faults journal ≤ J.faults s.journal) }
    // Why no desk was made.
    ensures unserved { IfErr result
        (λ u. IsUnbegun u.fault (J.faults journal) (J.faults u.journal)) }
    ensures unwritten { IfErr result (λ u. J.history u.journal ≡ J.history journal) }
    ensures unrun { IfErr result (λ u. (u.panel ≡ panel) × (u.listener ≡ parts.listener)) }
{
    // Those of the workers and of the pumps, beside the panel's, which is this one.
    if !has_threads(rt, alloc, workers + pump_count(start.setup.config())) {
        return Err(Unserved {
            fault: DeskFault::WantOfMemory,
            listener: parts.listener,
            journal,
            panel,
        });
    }
    let Parts {
        listener,
        stopper,
        dialer,
        spawner,
        clock,
        resolver,
    } = parts;
    let tools: Tools<(N::L, N::T, N::D, N::S, N::C, N::Q)> = Tools {
        listener,
        stopper,
        threads: ThreadTools {
            dialer,
            spawner,
            resolver,
            clock,
        },
    };
    let both = u64::from(workers) + u64::from(workers);
    let blanks = Blanks {
        asks: Blank::new(both),
        makes: Blank::new(1),
        refusals: Blank::new(REFUSALS),
        grants: Blank::new(both),
    };
    let begun = ServerStart {
        tools,
        start,
        journal,
    };
    begun.serve_with::<R, K, Brand>(rt, alloc, workers, panel, blanks)
}
