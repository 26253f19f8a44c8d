//! Whose client a worker serves.
//!
//! A worker is known by its thread, which Linux names in `/proc/thread-self`; std has no number of a thread. A dialer reads this once,
//! the listener at each call. Where it can't be read nothing is known of clients: their links then give way to nobody, look around by
//! themselves, and what was dialled for them does not end with them.

use crate::link_stream::{LinkStream, copied, copy_of, has_passed, put};
use crate::times::LinkTimes;
use libc::PATH_MAX;
use std::alloc::Global;
use std::sync::atomic::{AtomicBool, Ordering};
use std::sync::{Arc, Mutex};
use std::thread::yield_now;
use std::time::Duration;

/// How often a lock is tried that others hold for a moment alone.
const TRIES: u32 = 1 << 24;

/// Which links give way first: a client's between two requests or before its first, then those with a head or a line of a chunk that is
/// not whole, then tunnels, and requests with their replies.
#[derive(Clone, Copy)]
enum Rank {
    Between,
    Incomplete,
    Busy,
}

// The place of a link among those that may give way, as a number: less gives way first. It is by its rank, and within a rank by
// the time since which it stands still.
fn turn_of(rank: Rank, since: u64) -> u64 {
    let rank = match rank {
        Rank::Between => 0,
        Rank::Incomplete => 1u64 << 61,
        Rank::Busy => 1u64 << 62,
    };
    since.min((1 << 60) - 1) | rank
}

/// A client's link, and the one that was dialled for it, if there is one. The doorkeeper makes this to look at both, and to end them.
#[derive(Drop)]
pub(crate) struct ServedLinks {
    client: Arc<LinkStream>,
    origin: Option<Arc<LinkStream>>,
}

impl ServedLinks {
    /// Shuts both sockets.
    pub(crate) fn end(&self) {
        self.client.shut();
        if let Some(origin) = &self.origin {
            origin.shut();
        }
    }

    // When bytes passed last on one of them.
    fn last(&self) -> u64 {
        match &self.origin {
            Some(origin) => self.client.last().max(origin.last()),
            None => self.client.last(),
        }
    }

    // Whether a thread waits for one of them, which would end then.
    fn is_waited_for(&self) -> bool {
        match &self.origin {
            Some(origin) => self.client.is_waited_for() || origin.is_waited_for(),
            None => self.client.is_waited_for(),
        }
    }

    /// Whether both have been silent for so long, and a thread waits for one.
    pub(crate) fn is_silent(&self, now: u64, least: Duration) -> bool {
        self.is_waited_for() && has_passed(self.last(), now, least)
    }

    // Since when a head or a line is not whole, the client's or the origin's; 0 where there is none.
    fn piece(&self) -> u64 {
        match &self.origin {
            Some(origin) if self.client.piece() == 0 => origin.piece(),
            _ => self.client.piece(),
        }
    }

    // Whether this is a client's link between two requests, or before its first.
    fn is_between(&self) -> bool {
        self.origin.is_none() && self.client.is_between()
    }

    /// Whether it ends early where the server is stopped, since it is silent. Where links linger only a client's ends so that is between
    /// two requests; one that has sent nothing yet has some seconds for it.
    pub(crate) fn ends_early(&self, now: u64, times: &LinkTimes, lingers: bool) -> bool {
        if !lingers {
            return self.is_silent(now, times.ending);
        }
        let least = if self.client.is_used() {
            times.ending
        } else {
            times.used
        };
        self.is_between() && self.is_silent(now, least)
    }

    fn rank(&self) -> Rank {
        if self.is_between() {
            Rank::Between
        } else {
            Rank::Busy
        }
    }

    // Its turn at this time, if it may give way.
    fn turn(&self, now: u64, times: &LinkTimes) -> Option<u64> {
        if self.client.is_ended() || !self.is_waited_for() {
            return None;
        }
        let piece = self.piece();
        if piece > 0 {
            let is_late = has_passed(piece, now, times.head_wanted);
            return is_late.then_some(turn_of(Rank::Incomplete, piece));
        }
        let least = if self.client.is_used() {
            times.used
        } else {
            times.unused
        };
        let is_silent = self.is_silent(now, least);
        is_silent.then_some(turn_of(self.rank(), self.last()))
    }
}

/// A worker, with the link of the client that it serves, and the one that it has dialled for it.
#[derive(Drop)]
pub(crate) struct ClientSlot {
    thread: u64,
    client: Mutex<Option<Arc<LinkStream>>>,
    origin: Mutex<Option<Arc<LinkStream>>>,
    // Whether its link gave way, and it has not come back to the listener.
    gave_way: AtomicBool,
}

impl ClientSlot {
    /// Has this client's link, or none. Its worker calls this.
    pub(crate) fn put(&self, line: Option<Arc<LinkStream>>) {
        put(&self.client, line);
    }

    /// Has this origin's link, or none. Its worker calls this.
    pub(crate) fn put_origin(&self, line: Option<Arc<LinkStream>>) {
        put(&self.origin, line);
    }

    /// The link of its client.
    pub(crate) fn client(&self) -> Option<Arc<LinkStream>> {
        copied(&self.client)
    }

    /// Both links, if it serves a client. The doorkeeper calls this.
    pub(crate) fn served(&self) -> Option<ServedLinks> {
        Some(ServedLinks {
            client: self.client()?,
            origin: copied(&self.origin),
        })
    }

    /// The turn of its link, if it may give way. The doorkeeper calls this.
    pub(crate) fn turn(&self, now: u64, times: &LinkTimes) -> Option<u64> {
        self.served()?.turn(now, times)
    }

    /// Its worker is back at the listener, and holds the lock of the accept queue.
    pub(crate) fn come_back(&self) {
        self.gave_way.store(false, Ordering::SeqCst);
    }

    /// Whether its link gave way and it has not come back since.
    pub(crate) fn is_awaited(&self) -> bool {
        self.gave_way.load(Ordering::SeqCst)
    }

    /// Marks its link as one that gives way, if this is its turn still. The link is for the doorkeeper to end, which calls this. A link
    /// that came to the worker meanwhile has another turn, and while the lock is held none comes or goes.
    pub(crate) fn give_way(&self, now: u64, times: &LinkTimes, turn: u64) -> Option<ServedLinks> {
        let held = self.client.try_lock()?;
        let served = ServedLinks {
            client: copy_of(&held)?,
            origin: copied(&self.origin),
        };
        if served.turn(now, times) != Some(turn) {
            return None;
        }
        self.gave_way.store(true, Ordering::SeqCst);
        Some(served)
    }
}

/// The slots of all workers, in the order of their threads' numbers. None is ever taken out.
#[derive(Drop)]
pub(crate) struct ClientSlots {
    slots: Mutex<Vec<Arc<ClientSlot>>>,
}

// The number of the thread that calls: the last part of a text such as `812/task/815`. The path is on the heap: std's call of this
// takes 12 KiB of the stack, and that of `os` 8, which each worker would hold for good.
#[inline(never)]
fn thread(alloc: Global) -> Option<u64> {
    let mut path = Vec::new(alloc);
    path.extend_from_slice(b"/proc/thread-self").ok()?;
    path.resize(PATH_MAX, 0).ok()?;
    let path: &[u8; PATH_MAX] = path.as_slice().as_array()?;
    if path[PATH_MAX - 1] != 0 {
        return None;
    }
    let mut text = [0u8; 64];
    let count = usize::try_from(unsafe { libc::readlink(path, &mut text) }).ok()?;
    let path = str::from_utf8(text.get(..count)?).ok()?;
    path.rsplit('/').next()?.parse().ok()
}

// Where the slot of this thread stands, or would stand.
fn place(slots: &[Arc<ClientSlot>], thread: u64) -> usize {
    slots.partition_point(|slot| slot.thread < thread)
}

fn slot_of(
    alloc: Global,
    slots: &mut Vec<Arc<ClientSlot>>,
    thread: u64,
) -> Option<Arc<ClientSlot>> {
    let place = place(slots.as_slice(), thread);
    match slots.get(place) {
        Some(slot) if slot.thread == thread => return Arc::try_clone(slot).ok(),
        _ => {}
    }
    let slot = ClientSlot {
        thread,
        client: Mutex::new(None),
        origin: Mutex::new(None),
        gave_way: AtomicBool::new(false),
    };
    let slot = Arc::new(alloc, slot).ok()?;
    if place <= slots.len() {
        slots.insert(place, Arc::try_clone(&slot).ok()?).ok()?;
    }
    Some(slot)
}

impl ClientSlots {
    /// No worker has come yet.
    pub(crate) fn new(alloc: Global) -> ClientSlots {
        ClientSlots {
            slots: Mutex::new(Vec::new(alloc)),
        }
    }

    /// The slot of the thread that calls, which is made where there is none.
    pub(crate) fn own(&self, alloc: Global) -> Option<Arc<ClientSlot>> {
        let thread = thread(alloc)?;
        for _ in 0..TRIES {
            if let Some(mut slots) = self.slots.try_lock() {
                return slot_of(alloc, &mut slots, thread);
            }
            yield_now();
        }
        None
    }

    /// Copies handles of all slots where some have come since the last copy. The doorkeeper calls this.
    pub(crate) fn copy_into(&self, copies: &mut Vec<Arc<ClientSlot>>) {
        let Some(slots) = self.slots.try_lock() else {
            return;
        };
        if slots.len() == copies.len() {
            return;
        }
        copies.clear();
        for slot in slots.iter() {
            let Ok(slot) = Arc::try_clone(slot) else {
                return;
            };
            if copies.push(slot).is_err() {
                return;
            }
        }
    }
}
