//! What reaches origins by TCP, and what finds the addresses of hosts: the trusted edge. It relies on the
//! system's look-up of names and on `connect`.
ghost use Rattle.std.specs.Prelude.{◌≡◌, ◌≤◌, ◌-◌, ◌^◌, None, IfOk};

use crate::again::raise;
use crate::dialling::connect;
use crate::hosts::has_one_spelling;
use crate::house::{House, now};
use crate::link_stream::{LinkShared, LinkStream, copy_of};
use crate::look_ups::{LookUps, Wanting, find};
use crate::seats::ClientSlot;
use crate::tcp::{RealIn, RealOut};
use crate::times::LinkTimes;
use sq_addr::read_addr;
use sq_base::{Addrs, Text};
use sq_outside::{Another, DialFault, DialSeen, Dialer, Failed, LinkUse, LookFault, Resolver};
use std::alloc::Global;
use std::fs::File;
use std::net::{Net, TcpStream};
use std::rt::Files;
use std::sync::{Arc, Wait};
use std::thread::{self, Threads};
use std::time::Clock;

/// A dialer by the system's names and sockets. It reaches a host in its one spelling alone, and gives up where that takes too
/// long, the look-up of its name counted, or where its client has reset its link. Where the resolver beside it has looked a name up
/// for a rule, it dials no other address than those that were found then. For a tunnel it sees first whether a thread can be had,
/// and dials nobody where none is given. It is used by one thread: what it dials is for the client whose link this thread has
/// accepted last.
pub struct RealDialer<R> {
    rt: R,
    links: Option<Arc<LinkShared>>,
    seat: Option<Arc<ClientSlot>>,
    look_ups: Option<Arc<LookUps>>,
    // What became of its last dial.
    last: DialSeen,
    faults: u64,
    ghost capped: { faults ≤ 2 ^ 63 - 1 },
}

// Written out, so that what it takes of the stack is no part of a worker's frame.
impl<R: Drop> Drop for RealDialer<R> {
    #[inline(never)]
    fn drop(self) {
        let RealDialer {
            rt: _,
            links: _,
            seat: _,
            look_ups: _,
            last: _,
            faults: _,
        } = self;
    }
}

impl<R> RealDialer<R> {
    /// A dialer of this runtime with these limits of time, beside no listener, and the count 0. Without memory it reaches nobody.
    pub fn new(alloc: Global, rt: R, times: LinkTimes) -> RealDialer<R> {
        let links = LinkShared { times, house: None };
        RealDialer {
            rt,
            links: Arc::new(alloc, links).ok(),
            seat: None,
            look_ups: None,
            last: DialSeen::nothing(),
            faults: 0,
        }
    }

    /// One beside a listener, with what that one's links share.
    pub(crate) fn beside(rt: R, links: Arc<LinkShared>) -> RealDialer<R> {
        RealDialer {
            rt,
            links: Some(links),
            seat: None,
            look_ups: None,
            last: DialSeen::nothing(),
            faults: 0,
        }
    }
}

impl<R: Copy> Another for RealDialer<R> {
    fn another(&self) -> RealDialer<R> {
        RealDialer {
            rt: self.rt,
            links: copy_of(&self.links),
            seat: None,
            look_ups: copy_of(&self.look_ups),
            last: DialSeen::nothing(),
            faults: 0,
        }
    }
}

impl<R> RealDialer<R> {
    // The house of the listener that it is beside.
    fn house(&self) -> Option<Arc<House>> {
        copy_of(&self.links.as_ref()?.house)
    }

    // The slot of the worker that calls.
    fn slot(&mut self, alloc: Global) -> Option<Arc<ClientSlot>>
        ensures kept { self.new.faults ≡ self.old.faults }
    {
        if self.seat.is_none() {
            self.seat = self.house()?.seat(alloc);
        }
        copy_of(&self.seat)
    }
}

// The link of the client of this slot.
fn client_of(slot: &Option<Arc<ClientSlot>>) -> Option<Arc<LinkStream>> {
    slot.as_ref()?.client()
}

impl<R: Copy> RealDialer<R> {
    // The names that this dialer shares, or else its own.
    fn look_ups(&mut self, alloc: Global) -> Option<Arc<LookUps>>
        ensures kept { self.new.faults ≡ self.old.faults }
    {
        if self.look_ups.is_none() {
            self.look_ups = Arc::new(alloc, LookUps::new(alloc)).ok();
        }
        copy_of(&self.look_ups)
    }

    /// A resolver beside it: what that finds for a rule is what this dials.
    pub(crate) fn resolver(&mut self, alloc: Global) -> Option<RealResolver<R>>
        ensures kept { self.new.faults ≡ self.old.faults }
    {
        Some(RealResolver {
            rt: self.rt,
            house: self.house(),
            look_ups: Some(self.look_ups(alloc)?),
            faults: 0,
        })
    }
}

impl<
    R: Net<Stream = TcpStream> + Clock + Files<File = File> + Threads + Wait + Copy + Drop,
> RealDialer<R> {
    ghost use Rattle.sq_system.specs.Adapters.{in_faults, out_faults};

    // A socket of one of the host's addresses, if one is reached in time.
    #[inline(never)]
    fn connect(
        &mut self,
        alloc: Global,
        host: &str,
        port: u16,
        client: &Option<Arc<LinkStream>>,
        links: &LinkShared,
    ) -> Result<TcpStream, DialFault>
        ensures kept { self.new.faults ≡ self.old.faults }
    {
        let begun = now(&self.rt);
        let Some(look_ups) = self.look_ups(alloc) else {
            return Err(DialFault::OutOfMemory);
        };
        let wanting = Wanting::Dial(client, &links.house);
        let address = read_addr(host.as_bytes()).ok();
        let found = match address {
            Some(addr) => look_ups
                .literal(alloc, host, addr)
                .ok_or(DialFault::OutOfMemory)?,
            None => find(&self.rt, alloc, &look_ups, host, &wanting)?,
        };
        let mut addr = None;
        let stream = connect(
            &self.rt,
            alloc,
            &found,
            port,
            &links.times,
            begun,
            &wanting,
            &mut addr,
        );
        self.last.addr = addr;
        if stream.is_err() && address.is_some() {
            look_ups.keep_literal(alloc, host, found);
        }
        stream
    }

    // Both halves of a link to that host and port, if it is reached.
    fn reach(
        &mut self,
        alloc: Global,
        host: &Text,
        port: u16,
    ) -> Result<(RealIn<R>, RealOut<R>), DialFault>
        ensures fresh { IfOk result (λ h. (in_faults h.0 ≡ 0) × (out_faults h.1 ≡ 0)) }
        ensures kept { self.new.faults ≡ self.old.faults }
    {
        let Ok(host) = str::from_utf8(host.as_bytes()) else {
            return Err(DialFault::NameNotFound);
        };
        if !has_one_spelling(host) {
            return Err(DialFault::NameNotFound);
        }
        let Some(links) = copy_of(&self.links) else {
            return Err(DialFault::OutOfMemory);
        };
        let slot = self.slot(alloc);
        let client = client_of(&slot);
        // The doorkeeper may end a dial as it ends a link that waits.
        if let Some(client) = &client {
            client.enter();
        }
        let stream = self.connect(alloc, host, port, &client, &links);
        if let Some(client) = &client {
            client.leave();
        }
        match RealIn::dialled(alloc, self.rt, stream?, links, slot) {
            Some(halves) => Ok(halves),
            None => Err(DialFault::OutOfMemory),
        }
    }
}

// Whether a thread can be had beside the one that calls. It has ended when this returns.
fn has_thread<R: Threads>(rt: &R) -> bool {
    match thread::spawn(rt, || {}) {
        Ok(thread) => {
            thread.join(rt);
            true
        }
        Err(_) => false,
    }
}

impl<
    R: Net<Stream = TcpStream> + Clock + Files<File = File> + Threads + Wait + Copy + Drop,
> RealDialer<R> {
    ghost use Rattle.sq_system.specs.Adapters.{in_faults, out_faults};

    // The same, if there is what this use of the link needs beside.
    #[inline(never)]
    fn reach_for(
        &mut self,
        alloc: Global,
        host: &Text,
        port: u16,
        link_use: LinkUse,
    ) -> Result<(RealIn<R>, RealOut<R>), DialFault>
        ensures fresh { IfOk result (λ h. (in_faults h.0 ≡ 0) × (out_faults h.1 ≡ 0)) }
        ensures kept { self.new.faults ≡ self.old.faults }
    {
        match link_use {
            LinkUse::Tunnel if !has_thread(&self.rt) => Err(DialFault::NoThread),
            _ => self.reach(alloc, host, port),
        }
    }
}

impl<
    R: Net<Stream = TcpStream> + Clock + Files<File = File> + Threads + Wait + Copy + Send + Drop,
> Dialer for RealDialer<R> {
    type In = RealIn<R>;

    type Outgo = RealOut<R>;

    ghost dialled = { λ _. None };

    ghost calls = { λ _. None };

    ghost faults = { λ s. s.faults };

    ghost capped = { λ s. s.capped };

    fn dial(
        &mut self,
        alloc: Global,
        host: &Text,
        port: u16,
        link_use: LinkUse,
    ) -> Result<(RealIn<R>, RealOut<R>), Failed> {
        self.last = DialSeen::nothing();
        match self.reach_for(alloc, host, port, link_use) {
            Ok(halves) => Ok(halves),
            Err(fault) => {
                self.last.fault = Some(fault);
                raise(&mut self.faults);
                Err(Failed)
            }
        }
    }

    fn seen(&self) -> DialSeen {
        self.last
    }

    fn give_back(&mut self, from: RealIn<R>, to: RealOut<R>) {
        from.end_dial();
        from.tell_client();
        let line = from.line();
        self.last.read = line.read_count();
        self.last.written = line.written_count();
        self.last.timed_out = line.is_timed_out();
        if from.has_failed() || to.has_failed() {
            raise(&mut self.faults);
        }
    }
}

/// A resolver by the system's names. Where its server is stopped it looks nothing up any more.
#[derive(Drop)]
pub struct RealResolver<R> {
    rt: R,
    house: Option<Arc<House>>,
    look_ups: Option<Arc<LookUps>>,
    faults: u64,
    ghost capped: { faults ≤ 2 ^ 63 - 1 },
}

impl<R> RealResolver<R> {
    /// A resolver of this runtime, beside no dialer, with the count 0.
    pub fn new(rt: R) -> RealResolver<R> {
        RealResolver {
            rt,
            house: None,
            look_ups: None,
            faults: 0,
        }
    }
}

impl<R: Copy> Another for RealResolver<R> {
    fn another(&self) -> RealResolver<R> {
        RealResolver {
            rt: self.rt,
            house: copy_of(&self.house),
            look_ups: copy_of(&self.look_ups),
            faults: 0,
        }
    }
}

impl<R: Clock + Files<File = File> + Threads + Wait> RealResolver<R> {
    // The addresses of a host.
    fn addrs(&mut self, alloc: Global, host: &Text) -> Option<Addrs>
        ensures kept { self.new.faults ≡ self.old.faults }
    {
        let host = str::from_utf8(host.as_bytes()).ok()?;
        if self.look_ups.is_none() {
            self.look_ups = Arc::new(alloc, LookUps::new(alloc)).ok();
        }
        let look_ups = self.look_ups.as_ref()?;
        let found = find(&self.rt, alloc, look_ups, host, &Wanting::Rule(&self.house)).ok()?;
        found.addrs(alloc)
    }
}

impl<R: Net + Clock + Files<File = File> + Threads + Wait> Resolver for RealResolver<R> {
    ghost names = { λ _. None };

    ghost faults = { λ s. s.faults };

    ghost capped = { λ s. s.capped };

    fn look(&mut self, alloc: Global, host: &Text) -> Result<Addrs, LookFault> {
        match self.addrs(alloc, host) {
            Some(addrs) => Ok(addrs),
            None => {
                raise(&mut self.faults);
                Err(LookFault::Failed)
            }
        }
    }
}
