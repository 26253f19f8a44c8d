//! The doorkeeper: the thread beside a listener that sees to it that clients get a worker, and that links end with the server.
//!
//! While a worker waits for a client nobody waits for a worker, and the doorkeeper sleeps. While none does it waits for clients at the
//! listener's socket, takes them into the accept queue, and sees who has said something. Where such a client has been there at two
//! looks it makes one link give way to it: it shuts the sockets of the client and of what was dialled for it, which wakes the threads that
//! wait there. Once the server is stopped it ends the links that are silent, and at last all. Where other servers have the listener's socket,
//! too, clients that it let in before are served yet.
//!
//! All of this runs in this one thread. It takes the lock of the accept queue only where nobody has it, and never holds it while it
//! waits. It touches no link but by `shutdown`, and reads what their threads note of them.

use crate::arrivals::{Arrival, Arrivals, MOST};
use crate::house::{House, now};
use crate::link_stream::put;
use crate::messages::tell_full;
use crate::ready::{self, PollFor};
use crate::seats::ClientSlot;
use crate::times::LinkTimes;
use libc::types::pollfd;
use std::alloc::Global;
use std::fs::File;
use std::net::TcpListener;
use std::sync::atomic::{AtomicBool, Ordering};
use std::sync::{Arc, Mutex, Wait};
use std::thread::Parker;
use std::time::{Clock, Duration};

/// How many milliseconds a worker whose link gave way is expected back. One that takes longer waits for something else.
const AWAITED: u64 = 5000;

/// A worker whose link gave way at this time.
#[derive(Drop)]
struct Victim {
    slot: Arc<ClientSlot>,
    time: u64,
}

/// What the doorkeeper alone has.
#[derive(Drop)]
pub(crate) struct Doorkeeper {
    alloc: Global,
    listener: TcpListener,
    times: LinkTimes,
    // Handles of all workers' slots.
    slots: Vec<Arc<ClientSlot>>,
    // The turns of links that may give way, each with the place of its slot.
    turns: Vec<(u64, usize)>,
    victims: Vec<Victim>,
    entries: Vec<pollfd>,
    // Where it says that all workers are in use, and when it did so last; 0 is never.
    messages: Option<File>,
    told: u64,
}

/// The milliseconds of a time.
pub(crate) fn millis(time: Duration) -> u64 {
    time.as_millis().min(1 << 60) as u64
}

impl Doorkeeper {
    /// The doorkeeper of this socket, which is another handle of the listener's.
    pub(crate) fn new(
        alloc: Global,
        listener: TcpListener,
        times: LinkTimes,
        messages: Option<File>,
    ) -> Doorkeeper {
        Doorkeeper {
            alloc,
            listener,
            times,
            slots: Vec::new(alloc),
            turns: Vec::new(alloc),
            victims: Vec::new(alloc),
            entries: Vec::new(alloc),
            messages,
            told: 0,
        }
    }

    // Takes clients from the system's queue. The accept queue is locked.
    fn let_in(&self, queue: &mut Arrivals, now: u64) {
        for _ in 0..MOST {
            let mut one = [ready::entry(&self.listener, PollFor::Read)];
            ready::wait(&mut one, Some(Duration::ZERO));
            if !ready::is_reported(&one[0]) || !queue.has_room() {
                return;
            }
            match self.listener.accept() {
                Ok((stream, peer)) => queue.put(now, Arrival { stream, peer }),
                Err(_) => return,
            }
        }
    }

    // How many workers are on their way back to the listener, since their links gave way.
    fn awaited(&mut self, now: u64) -> usize {
        self.victims.retain(|one| one.slot.is_awaited() && now.saturating_sub(one.time) < AWAITED);
        self.victims.len()
    }

    // Finds the links that may give way, those first that are to be first.
    fn find_turns(&mut self, house: &House, now: u64) {
        house.seats.copy_into(&mut self.slots);
        self.turns.clear();
        for (place, slot) in self.slots.iter().enumerate() {
            if let Some(turn) = slot.turn(now, &self.times) {
                let _ = self.turns.push((turn, place));
            }
        }
        self.turns.sort_unstable();
    }

    // Ends the link of this slot, if this is its turn still.
    fn end_link(&mut self, place: usize, turn: u64, now: u64) -> Option<()> {
        let slot = Arc::try_clone(self.slots.get(place)?).ok()?;
        slot.give_way(now, &self.times, turn)?.end();
        let _ = self.victims.push(Victim { slot, time: now });
        Some(())
    }

    // Makes so many links give way, as far as there are some that may.
    fn make_room(&mut self, rt: &impl Clock, house: &House, wanted: usize, now: u64) {
        self.find_turns(house, now);
        let mut ended = 0;
        for place in 0..self.turns.len() {
            if ended >= wanted {
                return;
            }
            let Some(&(turn, slot)) = self.turns.get(place) else {
                return;
            };
            if self.end_link(slot, turn, now).is_some() {
                house.crowd(rt);
                ended += 1;
            }
        }
    }

    // Once the server is stopped: whether links go on for longer than usual. They do only while somebody can give orders.
    fn lingers(&self, rt: &impl Clock, house: &House) -> bool {
        if !self.times.linger() || house.is_left() {
            return false;
        }
        if ready::is_input_left() {
            house.set_left(rt);
            return false;
        }
        true
    }

    // Once the server is stopped: ends the links that are silent, and in the end all.
    fn end_links(&mut self, rt: &impl Clock, house: &House) {
        house.seats.copy_into(&mut self.slots);
        let now = now(rt);
        let lingers = self.lingers(rt, house);
        let is_over = house.ends_links(rt, &self.times);
        for slot in self.slots.iter() {
            if let Some(served) = slot.served() {
                if is_over || served.ends_early(now, &self.times, lingers) {
                    served.end();
                }
            }
        }
    }

    // Says that clients wait, where that is due.
    fn tell(&mut self, house: &House, waiting: usize, now: u64) {
        if self.told > 0 && now.saturating_sub(self.told) < millis(self.times.quiet) {
            return;
        }
        let mut workers = house.workers();
        if workers == 0 {
            workers = self.slots.len() as u64;
        }
        self.told = now;
        tell_full(&mut self.messages, self.alloc, workers, waiting);
    }

    // Looks around where no worker waits. The accept queue is locked. Once the server is stopped nobody is let in any more.
    fn look(&mut self, rt: &impl Clock, house: &House, queue: &mut Arrivals) {
        let now = now(rt);
        let mut silent = self.times.used;
        if !house.is_stopped() {
            self.let_in(queue, now);
            silent = self.times.silent;
        }
        queue.look(now, now.saturating_sub(millis(silent)));
        let waiting = queue.count_speaking(now);
        house.set_wanting(waiting);
        if queue.count_speaking(now.saturating_sub(millis(self.times.full))) > 0 {
            self.tell(house, waiting, now);
        }
        let stayed = queue.count_speaking(now.saturating_sub(millis(self.times.look)));
        let wanted = stayed.saturating_sub(self.awaited(now));
        if wanted > 0 {
            self.make_room(rt, house, wanted, now);
        }
        queue.list(&self.listener, &mut self.entries);
    }

    // Looks around, if no worker waits. Whether that was so.
    fn looks(&mut self, rt: &impl Clock, house: &House) -> bool {
        match house.queue.try_lock() {
            Some(mut queue) => {
                self.look(rt, house, &mut queue);
                true
            }
            None => false,
        }
    }

    // Waits until clients come, or those of the queue say something, or it is time to drop some that say nothing. Where some wait
    // already it returns at once, and the next look is due after a moment anyhow.
    fn watch(&mut self, house: &House) {
        let most = if house.is_shared() {
            Some(self.times.round)
        } else if self.entries.len() < 2 {
            None
        } else {
            Some(self.times.crowd)
        };
        if !house.is_wanted() {
            ready::wait(self.entries.as_mut_slice(), most);
        }
    }

    /// Keeps the door until the listener is gone.
    pub(crate) fn keep<R: Clock + Wait>(mut self, rt: &R, house: &House) {
        for _ in 0..u64::MAX {
            if house.is_closed() {
                return;
            }
            if house.is_stopped() {
                self.end_links(rt, house);
                if house.is_shared() {
                    self.looks(rt, house);
                }
            } else if self.looks(rt, house) {
                self.watch(house);
            } else {
                house.rest(rt);
            }
            house.sleep(rt, self.times.look);
        }
    }
}

// A doorkeeper, and what it shares with the listener.
#[derive(Drop)]
struct Shift {
    keeper: Doorkeeper,
    house: Arc<House>,
}

/// Where a thread waits for a listener to be opened, and is its doorkeeper then. A thread of its own is started in `main` alone, so
/// the net is handed this in place of a way to start one.
#[derive(Drop)]
pub struct KeeperPost {
    shift: Mutex<Option<Shift>>,
    ended: AtomicBool,
    bell: Parker,
}

impl KeeperPost {
    /// No listener is open yet.
    pub fn new() -> KeeperPost {
        KeeperPost {
            shift: Mutex::new(None),
            ended: AtomicBool::new(false),
            bell: Parker::new(),
        }
    }

    /// A listener was opened.
    pub(crate) fn give(&self, keeper: Doorkeeper, house: Arc<House>) {
        put(&self.shift, Some(Shift { keeper, house }));
        self.bell.unpark();
    }

    fn take(&self) -> Option<Shift> {
        let mut shift = self.shift.try_lock()?;
        shift.take()
    }

    /// Is the doorkeeper of one listener after another, until `end` is called. A thread of its own calls this.
    pub fn run<R: Clock + Wait>(&self, rt: &R) {
        for _ in 0..u64::MAX {
            if self.ended.load(Ordering::SeqCst) {
                return;
            }
            match self.take() {
                Some(Shift { keeper, house }) => keeper.keep(rt, &house),
                None => self.bell.park(rt),
            }
        }
    }

    /// Lets `run` return once the listener is closed.
    pub fn end(&self) {
        self.ended.store(true, Ordering::SeqCst);
        self.bell.unpark();
    }
}
