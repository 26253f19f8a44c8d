//! What the adapters of one net know of one another: whether a client waits for a worker, when a link gave way, whether the server is
//! stopped, whose client a worker serves, and what wakes the doorkeeper.

use crate::access_log::AccessLog;
use crate::arrivals::Arrivals;
use crate::seats::{ClientSlot, ClientSlots};
use crate::times::LinkTimes;
use std::alloc::Global;
use std::sync::atomic::{AtomicBool, AtomicU64, Ordering};
use std::sync::{Arc, Mutex, Wait};
use std::thread::Parker;
use std::time::{Clock, Duration};

/// The last number of milliseconds that is told apart.
const LAST: u128 = (1 << 60) - 1;

/// What the adapters of one net share.
#[derive(Drop)]
pub(crate) struct House {
    // The time when a link gave way last, and when the server was stopped; 0 is never.
    crowded: AtomicU64,
    stopped: AtomicU64,
    // When it was seen, after that, that nobody can give orders any more.
    left: AtomicU64,
    // Whether the listener is gone.
    closed: AtomicBool,
    // Whether other servers have the listener's socket, too.
    shared: bool,
    // How many clients that have said something waited for a worker when the doorkeeper looked last.
    wanting: AtomicU64,
    // How many workers there are, where this is known; else 0.
    workers: AtomicU64,
    /// The accept queue. Who holds its lock for long is a worker that waits for a client.
    pub(crate) queue: Mutex<Arrivals>,
    pub(crate) seats: ClientSlots,
    // The access log, if there is one.
    log: Option<Arc<AccessLog>>,
    // Whether the doorkeeper sleeps until a worker has taken a client, and where it sleeps.
    rests: AtomicBool,
    bell: Parker,
}

/// The milliseconds that passed since some time before the program began, plus 1.
pub(crate) fn now(clock: &impl Clock) -> u64 {
    match clock.monotonic() {
        Ok(passed) => passed.as_millis().min(LAST) as u64 + 1,
        Err(_) => 1,
    }
}

// How long ago that time was, if it was.
fn since(clock: &impl Clock, time: u64) -> Option<Duration> {
    if time == 0 {
        return None;
    }
    Some(Duration::from_millis(now(clock).saturating_sub(time)))
}

impl House {
    /// Nothing was done yet, at a listener whose socket other servers have, too, or not.
    pub(crate) fn new(alloc: Global, shared: bool, log: Option<Arc<AccessLog>>) -> House {
        House {
            crowded: AtomicU64::new(0),
            stopped: AtomicU64::new(0),
            left: AtomicU64::new(0),
            closed: AtomicBool::new(false),
            shared,
            wanting: AtomicU64::new(0),
            workers: AtomicU64::new(0),
            queue: Mutex::new(Arrivals::new(alloc)),
            seats: ClientSlots::new(alloc),
            log,
            rests: AtomicBool::new(false),
            bell: Parker::new(),
        }
    }

    /// The access log, if there is one.
    pub(crate) fn log(&self) -> Option<&AccessLog> {
        match &self.log {
            Some(log) => Some(log),
            None => None,
        }
    }

    /// A link gives way.
    pub(crate) fn crowd(&self, clock: &impl Clock) {
        self.crowded.store(now(clock), Ordering::SeqCst);
    }

    /// How long ago a link gave way, if one did.
    pub(crate) fn since_crowd(&self, clock: &impl Clock) -> Option<Duration> {
        since(clock, self.crowded.load(Ordering::SeqCst))
    }

    /// The server is stopped. The doorkeeper then ends what may end.
    pub(crate) fn stop(&self, clock: &impl Clock) {
        self.stopped.store(now(clock), Ordering::SeqCst);
        self.ring();
    }

    pub(crate) fn is_stopped(&self) -> bool {
        self.stopped.load(Ordering::SeqCst) > 0
    }

    // How long ago the server was stopped, if it was.
    fn since_stop(&self, clock: &impl Clock) -> Option<Duration> {
        since(clock, self.stopped.load(Ordering::SeqCst))
    }

    /// Nobody can give orders to the server any more, which is stopped. What goes on for longer than usual then comes to its usual end,
    /// so that it outlives nobody who started the server.
    pub(crate) fn set_left(&self, clock: &impl Clock) {
        self.left.store(now(clock), Ordering::SeqCst);
    }

    /// Whether that is so.
    pub(crate) fn is_left(&self) -> bool {
        self.left.load(Ordering::SeqCst) > 0
    }

    // How long ago that was seen, if it was.
    fn since_left(&self, clock: &impl Clock) -> Option<Duration> {
        since(clock, self.left.load(Ordering::SeqCst))
    }

    /// Whether links are at their end, since the server was stopped too long ago.
    pub(crate) fn ends_links(&self, clock: &impl Clock, times: &LinkTimes) -> bool {
        match self.since_left(clock) {
            Some(passed) if passed >= times.end.saturating_sub(times.longer) => return true,
            _ => {}
        }
        match self.since_stop(clock) {
            Some(passed) => passed >= times.end,
            None => false,
        }
    }

    /// Whether helpers have little time for an answer, and none is started, since the server was stopped.
    pub(crate) fn ends_helpers(&self, clock: &impl Clock, times: &LinkTimes) -> bool {
        match self.since_left(clock) {
            Some(passed) if passed >= times.answer_end => return true,
            _ => {}
        }
        match self.since_stop(clock) {
            Some(passed) => passed.saturating_sub(times.longer) >= times.answer_end,
            None => false,
        }
    }

    /// Whether other servers have the listener's socket, too, so that it is not shut with this one.
    pub(crate) fn is_shared(&self) -> bool {
        self.shared
    }

    /// The listener is gone. The doorkeeper then ends.
    pub(crate) fn close(&self) {
        self.closed.store(true, Ordering::SeqCst);
        self.ring();
    }

    pub(crate) fn is_closed(&self) -> bool {
        self.closed.load(Ordering::SeqCst)
    }

    /// So many workers there are.
    pub(crate) fn set_workers(&self, workers: u32) {
        self.workers.store(u64::from(workers), Ordering::SeqCst);
    }

    /// How many workers there are; 0 where this is not known.
    pub(crate) fn workers(&self) -> u64 {
        self.workers.load(Ordering::SeqCst)
    }

    /// So many clients that have said something wait, and no worker is free. The doorkeeper calls this.
    pub(crate) fn set_wanting(&self, count: usize) {
        self.wanting.store(count as u64, Ordering::SeqCst);
    }

    /// Whether a client that has said something waits for a worker and none is free, as the doorkeeper saw it last.
    pub(crate) fn is_wanted(&self) -> bool {
        self.wanting.load(Ordering::SeqCst) > 0
    }

    /// The slot of the thread that calls, which is made where there is none.
    pub(crate) fn seat(&self, alloc: Global) -> Option<Arc<ClientSlot>> {
        self.seats.own(alloc)
    }

    // Wakes the doorkeeper where it sleeps.
    fn ring(&self) {
        self.bell.unpark();
    }

    /// A worker has a client, and waits no more. At most once a look this wakes the doorkeeper.
    pub(crate) fn leave(&self) {
        if self.rests.swap(false, Ordering::SeqCst) {
            self.ring();
        }
    }

    // Whether a worker waits for a client.
    fn has_waiting_worker(&self) -> bool {
        match self.queue.try_lock() {
            Some(_) => false,
            None => true,
        }
    }

    /// Sleeps while a worker waits for a client: then nobody waits for a worker. The doorkeeper calls this. A worker that leaves before it
    /// is noted that the doorkeeper rests has released the queue's lock, so that this does not sleep.
    pub(crate) fn rest(&self, rt: &impl Wait) {
        self.set_wanting(0);
        self.rests.store(true, Ordering::SeqCst);
        if self.has_waiting_worker() && !self.is_closed() && !self.is_stopped() {
            self.bell.park(rt);
        }
        self.rests.store(false, Ordering::SeqCst);
    }

    /// Sleeps so long, or until the server is stopped or the listener gone. The doorkeeper calls this.
    pub(crate) fn sleep(&self, rt: &(impl Wait + Clock), time: Duration) {
        self.bell.park_timeout(rt, time);
    }
}
