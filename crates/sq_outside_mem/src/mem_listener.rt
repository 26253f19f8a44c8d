//! `MemListener`: a listener in memory, and what stops it.
ghost use Rattle.std.specs.Prelude.{◌≡◌, ◌<◌, [], true, false, map, Some, ◌⊎◌};
ghost use Rattle.sq_outside.specs.Calls.{next_call, counted};
ghost use Rattle.sq_outside_mem.specs.Memory.{source_left, source_faults, sink_bytes, sink_faults};

use crate::mem_out::{MemOut, MemPair};
use crate::mem_source::MemSource;
use sq_base::Addr;
use sq_outside::{Accepted, Calls, Listener, Stopper};
use std::alloc::Global;
use std::collections::VecDeque;
use std::sync::atomic::{AtomicBool, Ordering};

/// A client's link that is to come, with the address and the port from which it comes.
#[derive(Drop)]
pub struct MemLink<'a> {
    pub addr: Addr,
    pub port: u16,
    pub pair: MemPair<'a>,
}

/// Asks a listener in memory to stop, by a word that both share with a test.
#[derive(Drop)]
pub struct MemStopper<'a> {
    pub(crate) asked: &'a AtomicBool,
}

impl<'a> MemStopper<'a> {
    /// What asks by this word.
    pub fn new(asked: &'a AtomicBool) -> MemStopper<'a> {
        MemStopper { asked }
    }
}

impl<'a> Stopper for MemStopper<'a> {
    fn stop(&self) {
        self.asked.store(true, Ordering::SeqCst);
    }
}

/// A listener in memory. It answers its links in order, and then that it stopped; it never waits.
#[derive(Drop)]
pub struct MemListener<'a> {
    pub(crate) links: VecDeque<MemLink<'a>>,
    pub(crate) word: &'a AtomicBool,
    pub(crate) asked: bool,
    pub(crate) calls: Calls,
}

impl<'a> MemListener<'a> {
    ghost use Rattle.sq_outside_mem.specs.MemoryServer.{told_link, listener_coming, listener_asked, listener_fails, listener_calls, listener_faults};

    /// A listener to which these links come, of which the listed calls are to fail.
    pub fn new(links: Vec<MemLink<'a>>, word: &'a AtomicBool, fails: Vec<u64>) -> MemListener<'a>
        ensures coming { listener_coming result ≡ map told_link links.entry.items }
        ensures asked { listener_asked result ≡ false }
        ensures fails { listener_fails result ≡ fails.items }
        ensures calls { listener_calls result ≡ 0 }
        ensures faults { listener_faults result ≡ 0 }
    {
        MemListener {
            links: VecDeque::from_vec(links),
            word,
            asked: false,
            calls: Calls::new(fails),
        }
    }
}

impl<'a> Listener for MemListener<'a> {
    ghost use Rattle.sq_outside.specs.Dials.{LinkComes, IsOpen};
    ghost use Rattle.sq_outside.specs.World.{IfLink, IfNoLink, IfStopped, has_failed, AcceptHasCause};
    ghost use Rattle.sq_outside_mem.specs.MemoryLinks.{out_sink, out_closed};
    ghost use Rattle.sq_outside_mem.specs.MemoryServer.{listener_coming, listener_asked, listener_fails, listener_fails_next, listener_calls, listener_faults};

    type In = MemSource;

    type Outgo = MemOut<'a>;

    ghost coming = { λ l. Some (listener_coming l) };

    ghost faults = { listener_faults };

    ghost capped = { λ l. l.calls.capped };

    fn next(&mut self, _alloc: Global) -> Accepted<MemSource, MemOut<'a>>
        ensures link { IfLink result
            (λ from to addr port. LinkComes (Some (listener_coming self.old))
            (Some (listener_coming self.new)) addr port
            (Some (source_left from)) (Some (sink_bytes (out_sink to)))) }
        ensures none { IfNoLink result
            (Some (listener_coming self.new) ≡ Some (listener_coming self.old)) }
        ensures open { IfLink result (λ from to addr port. IsOpen (Some (out_closed to))) }
        ensures fresh { IfLink result
            (λ from to addr port. (source_faults from ≡ 0) × (sink_faults (out_sink to) ≡ 0)) }
        ensures cause { AcceptHasCause (listener_faults self.old) (listener_faults self.new)
            result }
        // It stops where it was asked to, or no link is left.
        ensures stopped { IfStopped result
            ((listener_asked self.new ≡ true) ⊎ (listener_coming self.old ≡ [])) }
        // It does not forget that it was asked, and then no link comes.
        ensures asked { listener_asked self.old ≡ true → listener_asked self.new ≡ true }
        ensures ends { IfLink result (λ from to addr port. listener_asked self.new ≡ false) }
        // A call fails where it is listed, and only there; each failure is counted.
        ensures fails { has_failed result ≡ listener_fails_next self.old }
        ensures counts { listener_faults self.new
            ≡ counted (listener_fails_next self.old) (listener_faults self.old) }
        ensures calls { listener_calls self.new ≡ next_call (listener_calls self.old) }
        ensures list { listener_fails self.new ≡ listener_fails self.old }
    {
        if self.calls.next().is_err() {
            return Accepted::Failed;
        }
        if self.word.load(Ordering::SeqCst) {
            self.asked = true;
        }
        if self.asked {
            return Accepted::Stopped;
        }
        match self.links.pop_front() {
            None => Accepted::Stopped,
            Some(link) => {
                let MemLink { addr, port, pair } = link;
                let MemPair { from, to } = pair;
                Accepted::Link {
                    from,
                    to,
                    addr,
                    port,
                }
            }
        }
    }
}
