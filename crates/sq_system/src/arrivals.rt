//! The accept queue: clients that came and have no worker yet.
//!
//! A client of the queue gets a worker once it has said something, and before that no link gives way to it. So clients that say
//! nothing keep nobody from a worker.
//!
//! A worker that waits for a client holds the lock of the queue, and works on it; the doorkeeper does so while no worker waits.

use crate::ready::{self, PollFor};
use libc::types::pollfd;
use std::alloc::Global;
use std::net::{SocketAddr, TcpListener, TcpStream};
use std::time::Duration;

/// How many clients the queue holds. More wait in the system's own queue.
pub(crate) const MOST: usize = 1024;

/// A client's link that came, and from where.
#[derive(Drop)]
pub(crate) struct Arrival {
    pub(crate) stream: TcpStream,
    pub(crate) peer: SocketAddr,
}

// What is known of a client that waits.
#[derive(Clone, Copy, PartialEq, Eq)]
enum ArrivalState {
    Silent,
    Speaks,
    // It has said something, and closed its way out: mostly it has given up. It is served when nobody else waits, and no link gives way
    // to it.
    Leaves,
    Gone,
}

#[derive(Drop)]
struct WaitingClient {
    arrival: Arrival,
    // When it came, and later when it was first seen to say something.
    since: u64,
    state: ArrivalState,
}

impl WaitingClient {
    // What is asked of it: while it is silent, whether something came, and then whether it leaves.
    fn entry(&self) -> pollfd {
        let asked = match self.state {
            ArrivalState::Silent => PollFor::Read,
            ArrivalState::Speaks => PollFor::Leaves,
            _ => PollFor::End,
        };
        ready::entry(&self.arrival.stream, asked)
    }

    // What the system reported of it at this time.
    fn see(&mut self, now: u64, entry: &pollfd) {
        if ready::is_over(entry) {
            self.state = ArrivalState::Gone;
        } else if ready::is_reported(entry) {
            self.hear(now, ready::leaves(entry));
        }
    }

    fn hear(&mut self, now: u64, leaves: bool) {
        match self.state {
            ArrivalState::Silent => {
                self.state = self.first_word();
                self.since = now;
            }
            ArrivalState::Speaks if leaves => self.state = ArrivalState::Leaves,
            _ => {}
        }
    }

    // What came of one that was silent, which does not block: its first byte, or its end.
    fn first_word(&self) -> ArrivalState {
        let mut byte = [0u8; 1];
        match self.arrival.stream.peek(&mut byte) {
            Ok(1) => ArrivalState::Speaks,
            _ => ArrivalState::Gone,
        }
    }

    // Asks the system alone of this one.
    fn look(&mut self, now: u64) {
        let mut one = [self.entry()];
        ready::wait(&mut one, Some(Duration::ZERO));
        self.see(now, &one[0]);
    }
}

/// Clients that wait, the oldest first.
#[derive(Drop)]
pub(crate) struct Arrivals {
    waiting: Vec<WaitingClient>,
    entries: Vec<pollfd>,
}

impl Arrivals {
    pub(crate) fn new(alloc: Global) -> Arrivals {
        Arrivals {
            waiting: Vec::new(alloc),
            entries: Vec::new(alloc),
        }
    }

    pub(crate) fn is_empty(&self) -> bool {
        self.waiting.is_empty()
    }

    /// Drops all.
    pub(crate) fn clear(&mut self) {
        self.waiting.clear();
    }

    /// Whether one more has room, for which the oldest that says nothing is dropped.
    pub(crate) fn has_room(&mut self) -> bool {
        if self.waiting.len() < MOST {
            return true;
        }
        match self
            .waiting
            .iter()
            .position(|one| one.state == ArrivalState::Silent)
        {
            Some(place) if place < self.waiting.len() => {
                drop(self.waiting.remove(place));
                true
            }
            _ => false,
        }
    }

    /// A client that came at this time. Where there is no memory it is dropped.
    pub(crate) fn put(&mut self, now: u64, arrival: Arrival) {
        let _ = self.waiting.push(WaitingClient {
            arrival,
            since: now,
            state: ArrivalState::Silent,
        });
    }

    /// Waits until one of these says something, for so long at the most.
    pub(crate) fn wait_for_words(&mut self, most: Duration) {
        self.entries.clear();
        for one in self.waiting.iter() {
            let _ = self.entries.push(one.entry());
        }
        ready::wait(self.entries.as_mut_slice(), Some(most));
    }

    /// Entries of the listener's socket and of all clients, for `poll`. The first is the listener's.
    pub(crate) fn list(&self, listener: &TcpListener, entries: &mut Vec<pollfd>) {
        entries.clear();
        let _ = entries.push(ready::entry(listener, PollFor::Read));
        for one in self.waiting.iter() {
            let _ = entries.push(one.entry());
        }
    }

    /// Looks who has said something, and drops those that are gone, and those that say nothing, or have left, since before this time.
    pub(crate) fn look(&mut self, now: u64, before: u64) {
        if self.waiting.is_empty() {
            return;
        }
        self.entries.clear();
        for one in self.waiting.iter() {
            if self.entries.push(one.entry()).is_err() {
                return;
            }
        }
        ready::wait(self.entries.as_mut_slice(), Some(Duration::ZERO));
        for (one, entry) in self.waiting.iter_mut().zip(self.entries.iter()) {
            one.see(now, entry);
            if one.state != ArrivalState::Speaks && one.since < before {
                one.state = ArrivalState::Gone;
            }
        }
        self.waiting.retain(|one| one.state != ArrivalState::Gone);
    }

    // Where the first stands that is in this state.
    fn first(&self, state: ArrivalState) -> Option<usize> {
        self.waiting.iter().position(|one| one.state == state)
    }

    // Takes the first that has said something as far as is known, and is not gone. Those that have left come last.
    fn take_known(&mut self, now: u64) -> Option<Arrival> {
        for _ in 0..MOST {
            let place = match self.first(ArrivalState::Speaks) {
                Some(place) => place,
                None => self.first(ArrivalState::Leaves)?,
            };
            if place >= self.waiting.len() {
                return None;
            }
            let mut one = self.waiting.remove(place);
            one.look(now);
            if one.state != ArrivalState::Gone {
                return Some(one.arrival);
            }
        }
        None
    }

    /// Takes the first that has said something, after a look where none is known.
    pub(crate) fn take_speaking(&mut self, now: u64, before: u64) -> Option<Arrival> {
        if self.waiting.is_empty() {
            return None;
        }
        match self.take_known(now) {
            Some(arrival) => Some(arrival),
            None => {
                self.look(now, before);
                self.take_known(now)
            }
        }
    }

    /// How many have said something at this time at the latest, and have not left.
    pub(crate) fn count_speaking(&self, latest: u64) -> usize {
        let mut count = 0usize;
        for one in self.waiting.iter() {
            if one.state == ArrivalState::Speaks && one.since <= latest {
                count = count.saturating_add(1);
            }
        }
        count
    }

    /// Waits until a client comes or one of these says something, for so long at the most. Whether one has come.
    pub(crate) fn wait(&mut self, listener: &TcpListener, most: Duration) -> bool {
        self.entries.clear();
        let _ = self.entries.push(ready::entry(listener, PollFor::Read));
        for one in self.waiting.iter() {
            let _ = self.entries.push(one.entry());
        }
        ready::wait(self.entries.as_mut_slice(), Some(most));
        self.entries.first().is_some_and(ready::is_reported)
    }
}
