//! The connecting to one of several addresses: the trusted edge. It relies on sockets that connect while others do, and on the
//! system telling of each when it is connected or has failed.

use crate::doorkeeper::millis;
use crate::house::now;
use crate::look_ups::{FoundAddrs, Known, Wanting};
use crate::names::{Goal, tried_so};
use crate::times::LinkTimes;
use mio::net::TcpStream as Trying;
use mio::{Events, Interest, Poll, Token};
use sq_base::Addr;
use sq_outside::DialFault;
use std::alloc::Global;
use std::net::{IpAddr, Ipv4Addr, Ipv6Addr, Net, SocketAddr, TcpStream};
use std::time::{Clock, Duration};
use std::{io, mem};

/// After how many milliseconds the next address is tried, where those before it say nothing (RFC 8305 section 5).
const NEXT: u64 = 250;

/// How often who dials looks around.
const TICK: u64 = 250;

/// Behind how many milliseconds a dial to an address that failed of late gives way to a client that waits for a worker.
const GIVES_WAY: u64 = 2_000;

// A socket that connects.
#[derive(Drop)]
struct Attempt {
    place: usize,
    begun: u64,
    late: bool,
    stream: Trying,
}

fn socket_addr(addr: Addr, port: u16) -> SocketAddr {
    let ip = if addr.v6 {
        IpAddr::V6(Ipv6Addr::from_bits(addr.number))
    } else {
        IpAddr::V4(Ipv4Addr::from_bits(addr.number as u32))
    };
    SocketAddr::new(ip, port)
}

// What a socket has come to.
#[derive(Drop)]
enum Came {
    Connected,
    Failed(DialFault),
    Nothing,
}

// Why an address was not reached, by Linux's numbers: it is refused or reset; it takes too long; there is no way to its host or its
// net, or none is permitted.
fn fault_of(error: &io::Error) -> DialFault {
    match error.raw_os_error() {
        Some(104 | 111) => DialFault::Refused,
        Some(110) => DialFault::TimedOut,
        Some(1 | 13 | 99..=101 | 113) => DialFault::Unreachable,
        Some(12 | 105) => DialFault::OutOfMemory,
        _ => DialFault::Other,
    }
}

// A socket that is connected has a peer and no error, so that mostly one question to the system is enough.
fn state_of(stream: &Trying) -> Came {
    if stream.peer_addr().is_ok() {
        return Came::Connected;
    }
    match stream.take_error() {
        Ok(None) => Came::Nothing,
        Ok(Some(error)) => Came::Failed(fault_of(&error)),
        Err(error) => Came::Failed(fault_of(&error)),
    }
}

// The order in which the addresses are tried.
#[inline(never)]
fn order(alloc: Global, found: &FoundAddrs, now: u64) -> Option<Vec<Goal>> {
    let mut goals = Vec::new(alloc);
    for (place, known) in found.known.iter().enumerate() {
        goals
            .push(Goal {
                place,
                v6: known.addr.v6,
                late: known.is_late(now),
            })
            .ok()?;
    }
    Some(tried_so(alloc, goals.as_slice()).ok()?.into_vec())
}

// What a dial waits with for its sockets.
#[derive(Drop)]
struct Waiter {
    poll: Poll,
    events: Events<Global>,
}

impl Waiter {
    fn new<R: Net>(rt: &R, alloc: Global) -> Result<Waiter, DialFault> {
        let poll = match Poll::new(rt) {
            Ok(poll) => poll,
            Err(error) => return Err(fault_of(&error)),
        };
        match Events::with_capacity(alloc, 32) {
            Ok(events) => Ok(Waiter { poll, events }),
            Err(_) => Err(DialFault::OutOfMemory),
        }
    }

    // Waits until a socket says something, for so many milliseconds at most.
    fn wait(&mut self, time: u64) {
        let _ = self
            .poll
            .poll(&mut self.events, Some(Duration::from_millis(time)));
    }
}

// The sockets of one dial.
#[derive(Drop)]
struct Race<'a> {
    known: &'a [Known],
    port: u16,
    times: &'a LinkTimes,
    // There is none where the first socket is connected at once.
    waiter: Option<Waiter>,
    attempts: Vec<Attempt>,
    // The place of the address that was reached, or of the one that was tried last, and why the last one that failed did.
    place: Option<usize>,
    fault: DialFault,
}

impl<'a> Race<'a> {
    fn mark(&self, place: usize, now: u64) {
        if let Some(known) = self.known.get(place) {
            known.fail(now);
        }
    }

    // An address was not reached.
    fn miss(&mut self, place: usize, now: u64, fault: DialFault) {
        self.mark(place, now);
        self.fault = fault;
    }

    // The address that was reached, or that was tried last.
    fn addr(&self) -> Option<Addr> {
        Some(self.known.get(self.place?)?.addr)
    }

    // Begins with one address more. Answers the socket if it is connected at once.
    #[inline(never)]
    fn begin<R: Net>(&mut self, rt: &R, alloc: Global, goal: Goal, now: u64) -> Option<Trying> {
        let place = goal.place;
        let known = self.known.get(place)?;
        self.place = Some(place);
        let mut stream = match Trying::connect(rt, socket_addr(known.addr, self.port)) {
            Ok(stream) => stream,
            Err(error) => {
                self.miss(place, now, fault_of(&error));
                return None;
            }
        };
        match state_of(&stream) {
            Came::Connected => return Some(stream),
            Came::Failed(fault) => {
                self.miss(place, now, fault);
                return None;
            }
            Came::Nothing => {}
        }
        if self.waiter.is_none() {
            match Waiter::new(rt, alloc) {
                Ok(waiter) => self.waiter = Some(waiter),
                Err(fault) => {
                    self.fault = fault;
                    return None;
                }
            }
        }
        let waiter = self.waiter.as_ref()?;
        waiter
            .poll
            .registry()
            .register(&mut stream, Token(place), Interest::WRITABLE)
            .ok()?;
        self.attempts
            .push(Attempt {
                place,
                begun: now,
                late: goal.late,
                stream,
            })
            .ok()?;
        None
    }

    // Takes the first socket that is connected, and lets those go that have failed or took too long. The others have lost then.
    #[inline(never)]
    fn look(&mut self, alloc: Global, now: u64) -> Option<Trying> {
        let longest = millis(self.times.address);
        let attempts = mem::replace(&mut self.attempts, Vec::new(alloc));
        let mut won = None;
        for attempt in attempts {
            if won.is_some() {
                self.mark(attempt.place, now);
                continue;
            }
            match state_of(&attempt.stream) {
                Came::Connected => {
                    self.place = Some(attempt.place);
                    won = Some(attempt.stream);
                }
                Came::Nothing if now.saturating_sub(attempt.begun) < longest => {
                    let place = attempt.place;
                    if self.attempts.push(attempt).is_err() {
                        self.miss(place, now, DialFault::OutOfMemory);
                    }
                }
                Came::Nothing => self.miss(attempt.place, now, DialFault::TimedOut),
                Came::Failed(fault) => self.miss(attempt.place, now, fault),
            }
        }
        if won.is_some() {
            self.lose(now);
        }
        won
    }

    // All that are under way have lost.
    fn lose(&self, now: u64) {
        for attempt in &self.attempts {
            self.mark(attempt.place, now);
        }
    }

    fn is_late(&self) -> bool {
        self.attempts.iter().any(|attempt| attempt.late)
    }
}

/// A socket of the address that answers first. An address is tried 250 ms behind the one before it, or at once where none is under
/// way. A fault where all fail, where it is too late for a host, or where nobody wants it any more. `addr` is the address that was
/// reached, or that was tried last.
#[inline(never)]
pub(crate) fn connect<R: Net + Clock>(
    rt: &R,
    alloc: Global,
    found: &FoundAddrs,
    port: u16,
    times: &LinkTimes,
    begun: u64,
    wanting: &Wanting<'_>,
    addr: &mut Option<Addr>,
) -> Result<TcpStream, DialFault> {
    let Some(order) = order(alloc, found, now(rt)) else {
        return Err(DialFault::OutOfMemory);
    };
    let mut race = Race {
        known: found.known.as_slice(),
        port,
        times,
        waiter: None,
        attempts: Vec::new(alloc),
        place: None,
        fault: DialFault::Other,
    };
    let stream = run(rt, alloc, &mut race, order.as_slice(), begun, wanting);
    *addr = race.addr();
    settled(stream?)
}

// Runs a race to its end.
fn run<R: Net + Clock>(
    rt: &R,
    alloc: Global,
    race: &mut Race<'_>,
    order: &[Goal],
    begun: u64,
    wanting: &Wanting<'_>,
) -> Result<Trying, DialFault> {
    let mut at = 0;
    let mut last = 0;
    for _ in 0..u32::MAX {
        let time = now(rt);
        if let Some(stream) = race.look(alloc, time) {
            return Ok(stream);
        }
        let spent = time.saturating_sub(begun);
        if spent >= millis(race.times.host) {
            race.lose(time);
            return Err(DialFault::TimedOut);
        }
        // Before anything was tried the system is not asked whether the client is still there.
        if wanting.has_ended() || (at > 0 && wanting.is_over()) {
            return Err(wanting.fault());
        }
        if spent >= GIVES_WAY && race.is_late() && wanting.is_crowded() {
            return Err(DialFault::GaveWay);
        }
        if race.attempts.is_empty() || time.saturating_sub(last) >= NEXT {
            match order.get(at) {
                Some(goal) => {
                    at = at.saturating_add(1);
                    last = time;
                    if let Some(stream) = race.begin(rt, alloc, *goal, time) {
                        race.lose(time);
                        return Ok(stream);
                    }
                    if race.attempts.is_empty() {
                        continue;
                    }
                }
                None if race.attempts.is_empty() => return Err(race.fault),
                None => {}
            }
        }
        if let Some(waiter) = &mut race.waiter {
            waiter.wait(TICK);
        }
    }
    Err(DialFault::Other)
}

// The socket, whose calls wait from now on.
fn settled(stream: Trying) -> Result<TcpStream, DialFault> {
    let stream = TcpStream::from(stream);
    match stream.set_nonblocking(false) {
        Ok(()) => Ok(stream),
        Err(_) => Err(DialFault::Other),
    }
}
