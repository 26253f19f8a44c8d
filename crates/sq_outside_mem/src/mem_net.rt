//! `MemNet`: a net in memory.
ghost use Rattle.std.specs.Prelude.{◌≡◌, [], map, None, Some, IfOk, IfSome, OnErr, is_err};
ghost use Rattle.sq_outside.specs.Calls.{next_call, counted};
ghost use Rattle.sq_outside.specs.Causes.{HasCause, TakesBack};

use crate::mem_clock::{MemClock, MemResolver};
use crate::mem_dialer::MemDialer;
use crate::mem_listener::{MemLink, MemListener, MemStopper};
use crate::mem_spawner::MemSpawner;
use sq_outside::{Calls, Failed, Net, Parts};
use std::alloc::Global;
use std::sync::atomic::AtomicBool;

/// The parts of a net in memory, before it was opened.
#[derive(Drop)]
pub struct MemParts<'a> {
    pub(crate) listener: MemListener<'a>,
    pub(crate) dialer: MemDialer<'a>,
    pub(crate) spawner: MemSpawner<'a>,
    pub(crate) clock: MemClock,
    pub(crate) resolver: MemResolver<'a>,
    ghost fresh: { listener.calls.faults ≡ 0 },
}

impl<'a> MemParts<'a> {
    ghost use Rattle.sq_outside_mem.specs.MemoryServer.{told_link, listener_coming, listener_fails};
    ghost use Rattle.sq_outside_mem.specs.MemoryNet.{parts_listener, parts_dialer, parts_spawner, parts_clock, parts_resolver};

    /// The parts of a net to which these links come; the listed calls of its listener are to fail. Its stopper
    /// asks by the word.
    pub fn new(
        links: Vec<MemLink<'a>>,
        word: &'a AtomicBool,
        fails: Vec<u64>,
        dialer: MemDialer<'a>,
        spawner: MemSpawner<'a>,
        clock: MemClock,
        resolver: MemResolver<'a>,
    ) -> MemParts<'a>
        ensures coming { listener_coming (parts_listener result) ≡ map told_link links.entry.items }
        ensures fails { listener_fails (parts_listener result) ≡ fails.items }
        ensures dialer { parts_dialer result ≡ dialer.entry }
        ensures spawner { parts_spawner result ≡ spawner.entry }
        ensures clock { parts_clock result ≡ clock }
        ensures resolver { parts_resolver result ≡ resolver.entry }
    {
        MemParts {
            listener: MemListener::new(links, word, fails),
            dialer,
            spawner,
            clock,
            resolver,
        }
    }
}

/// A net in memory. It can be opened once, and keeps the port.
#[derive(Drop)]
pub struct MemNet<'a> {
    pub(crate) unopened: Option<MemParts<'a>>,
    pub(crate) port: Option<u16>,
    pub(crate) calls: Calls,
}

impl<'a> MemNet<'a> {
    ghost use Rattle.sq_outside_mem.specs.MemoryNet.{net_unopened, net_port, net_fails, net_calls, net_faults};

    /// A net of these parts, of which the listed openings are to fail.
    pub fn new(parts: MemParts<'a>, fails: Vec<u64>) -> MemNet<'a>
        ensures unopened { net_unopened result ≡ Some parts.entry }
        ensures port { net_port result ≡ None }
        ensures fails { net_fails result ≡ fails.items }
        ensures calls { net_calls result ≡ 0 }
        ensures faults { net_faults result ≡ 0 }
    {
        MemNet {
            unopened: Some(parts),
            port: None,
            calls: Calls::new(fails),
        }
    }

    /// The port at which it was opened.
    pub fn port(&self) -> Option<u16>
        ensures { result ≡ net_port self.now }
    {
        self.port
    }

    /// The count of faults.
    pub fn faults(&self) -> u64
        ensures { result ≡ net_faults self.now }
    {
        self.calls.faults()
    }
}

impl<'a> Net for MemNet<'a> {
    ghost use Rattle.sq_outside_mem.specs.MemoryServer.{listener_faults};
    ghost use Rattle.sq_outside_mem.specs.MemoryNet.{net_unopened, net_port, net_fails, net_fails_next, net_calls, net_faults, parts_listener, parts_dialer, parts_spawner, parts_clock, parts_resolver};

    type L = MemListener<'a>;

    type T = MemStopper<'a>;

    type D = MemDialer<'a>;

    type S = MemSpawner<'a>;

    type C = MemClock;

    type Q = MemResolver<'a>;

    ghost faults = { net_faults };

    ghost capped = { λ n. n.calls.capped };

    fn parts(
        &mut self,
        _alloc: Global,
        port: u16,
        _workers: u32,
    ) -> Result<Parts<MemNet<'a>>, Failed>
        ensures fresh { IfOk result (λ p. listener_faults p.listener ≡ 0) }
        ensures cause { HasCause (net_faults self.old) (net_faults self.new) result }
        // It hands out its parts, and keeps the port.
        ensures listener { IfOk result
            (λ p. IfSome (net_unopened self.old) (λ q. p.listener ≡ parts_listener q)) }
        ensures dialer { IfOk result
            (λ p. IfSome (net_unopened self.old) (λ q. p.dialer ≡ parts_dialer q)) }
        ensures spawner { IfOk result
            (λ p. IfSome (net_unopened self.old) (λ q. p.spawner ≡ parts_spawner q)) }
        ensures clock { IfOk result
            (λ p. IfSome (net_unopened self.old) (λ q. p.clock ≡ parts_clock q)) }
        ensures resolver { IfOk result
            (λ p. IfSome (net_unopened self.old) (λ q. p.resolver ≡ parts_resolver q)) }
        ensures opened { IfOk result
            (λ _. (net_unopened self.new ≡ None) × (net_port self.new ≡ Some port)) }
        ensures kept { OnErr result (net_unopened self.new ≡ net_unopened self.old) }
        // An opening fails where it is listed, or the parts were handed out, and only there; each failure is counted.
        ensures fails { is_err result ≡ net_fails_next self.old }
        ensures counts { net_faults self.new
            ≡ counted (net_fails_next self.old) (net_faults self.old) }
        ensures calls { net_calls self.new ≡ next_call (net_calls self.old) }
        ensures list { net_fails self.new ≡ net_fails self.old }
    {
        self.calls.next()?;
        match self.unopened.take() {
            None => {
                self.calls.raise();
                Err(Failed)
            }
            Some(parts) => {
                let MemParts {
                    listener,
                    dialer,
                    spawner,
                    clock,
                    resolver,
                } = parts;
                let stopper = MemStopper::new(listener.word);
                self.port = Some(port);
                Ok(Parts {
                    listener,
                    stopper,
                    dialer,
                    spawner,
                    clock,
                    resolver,
                })
            }
        }
    }

    fn give_back(&mut self, listener: MemListener<'a>)
        ensures cause { TakesBack (net_faults self.old) (net_faults self.new)
            (listener_faults listener.entry) }
        ensures calls { net_calls self.new ≡ net_calls self.old }
        ensures port { net_port self.new ≡ net_port self.old }
        ensures list { net_fails self.new ≡ net_fails self.old }
    {
        if listener.calls.faults > 0 {
            self.calls.raise();
        }
    }
}
