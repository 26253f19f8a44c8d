//! One socket, as both halves of its link and the doorkeeper see it, and how long a call may wait for it.
ghost use Rattle.std.specs.Io.{ReadsAtMost, WritesAtMost};

use crate::access_line::LinkState;
use crate::access_log::AccessLog;
use crate::house::{House, now};
use crate::ready::{self, PollFor};
use crate::times::LinkTimes;
use std::io::{self, ErrorKind, Read, Write};
use std::net::{Shutdown, TcpStream};
use std::sync::atomic::{AtomicBool, AtomicU64, Ordering};
use std::sync::{Arc, Mutex};
use std::thread::yield_now;
use std::time::{Clock, Duration};

/// How often a lock is tried that others hold for a moment alone. Its holders call nothing that waits.
const TRIES: u32 = 1 << 24;

/// Puts something under a lock that others hold for a moment alone, by any thread.
pub(crate) fn put<T: Drop>(lock: &Mutex<T>, value: T) {
    for _ in 0..TRIES {
        if let Some(mut held) = lock.try_lock() {
            *held = value;
            return;
        }
        yield_now();
    }
}

/// Another handle of what lies under such a lock, by any thread.
pub(crate) fn copied<T>(lock: &Mutex<Option<Arc<T>>>) -> Option<Arc<T>> {
    for _ in 0..TRIES {
        if let Some(held) = lock.try_lock() {
            return copy_of(&held);
        }
        yield_now();
    }
    None
}

/// Another handle of what adapters share, if there is one.
pub(crate) fn copy_of<T>(shared: &Option<Arc<T>>) -> Option<Arc<T>> {
    Arc::try_clone(shared.as_ref()?).ok()
}

/// A socket, with what decides who gives way. The threads that carry its link write this, and the doorkeeper reads it.
#[derive(Drop)]
pub(crate) struct LinkStream {
    pub(crate) stream: TcpStream,
    // When it was accepted or dialled, and when bytes passed last; 0 is never.
    begun: u64,
    passed: AtomicU64,
    // How many threads wait where the end of the socket wakes them.
    waits: AtomicU64,
    // When the first byte came of a head, or of a chunk's line, that is not whole; 0 where there is none.
    piece: AtomicU64,
    // Whether the first byte of a message is expected.
    between: AtomicBool,
    // Whether the doorkeeper has shut it.
    ended: AtomicBool,
    // What was counted and seen of it, for the access log.
    seen: LinkSeen,
}

// What the threads that carry a link count and see of it. One thread at a time reads, and one writes.
#[derive(Drop)]
struct LinkSeen {
    read: AtomicU64,
    written: AtomicU64,
    // Whether the end of its input was read, and whether a limit of time ended it.
    input_ended: AtomicBool,
    timed_out: AtomicBool,
    // Of a client's: whether the input of what was dialled for it last has ended.
    origin_cut: AtomicBool,
}

impl LinkSeen {
    fn new() -> LinkSeen {
        LinkSeen {
            read: AtomicU64::new(0),
            written: AtomicU64::new(0),
            input_ended: AtomicBool::new(false),
            timed_out: AtomicBool::new(false),
            origin_cut: AtomicBool::new(false),
        }
    }
}

// Adds to a count that one thread alone changes.
fn add(count: &AtomicU64, more: usize) {
    count.store(
        count.load(Ordering::Relaxed).saturating_add(more as u64),
        Ordering::Relaxed,
    );
}

/// Whether so long has passed between these two times.
pub(crate) fn has_passed(since: u64, now: u64, least: Duration) -> bool {
    u128::from(now.saturating_sub(since)) >= least.as_millis()
}

impl LinkStream {
    /// A socket that was accepted or dialled at this time.
    pub(crate) fn new(stream: TcpStream, begun: u64) -> LinkStream {
        LinkStream {
            stream,
            begun,
            passed: AtomicU64::new(0),
            waits: AtomicU64::new(0),
            piece: AtomicU64::new(0),
            between: AtomicBool::new(true),
            ended: AtomicBool::new(false),
            seen: LinkSeen::new(),
        }
    }

    /// A thread begins to wait where the end of this socket wakes it, or where it looks at `is_gone` itself.
    pub(crate) fn enter(&self) {
        self.waits.fetch_add(1, Ordering::SeqCst);
    }

    /// It waits no more.
    pub(crate) fn leave(&self) {
        self.waits.fetch_sub(1, Ordering::SeqCst);
    }

    // Bytes passed, or the end of them.
    fn pass(&self, now: u64) {
        self.passed.store(now, Ordering::SeqCst);
    }

    /// When bytes passed last, or it began.
    pub(crate) fn last(&self) -> u64 {
        self.passed.load(Ordering::SeqCst).max(self.begun)
    }

    /// The first byte of a message is expected, or not.
    pub(crate) fn set_between(&self, between: bool) {
        self.between.store(between, Ordering::SeqCst);
    }

    /// A head or a line is being read, or none is. Where one was, its time goes on.
    pub(crate) fn set_piece(&self, clock: &impl Clock, is_read: bool) {
        if !is_read {
            self.piece.store(0, Ordering::SeqCst);
        } else if self.piece.load(Ordering::SeqCst) == 0 {
            self.piece.store(now(clock), Ordering::SeqCst);
        }
    }

    /// Whether its client has reset it, or the doorkeeper has shut it. A client that only sends nothing more is there.
    pub(crate) fn is_gone(&self) -> bool {
        self.is_ended() || self.stream.peer_addr().is_err()
    }

    /// Whether the doorkeeper has shut it.
    pub(crate) fn is_ended(&self) -> bool {
        self.ended.load(Ordering::SeqCst)
    }

    /// Shuts this socket, once. Each thread that waits for it wakes, and finds that the link has failed. The doorkeeper calls this, and
    /// the calls below.
    pub(crate) fn shut(&self) {
        if !self.ended.swap(true, Ordering::SeqCst) {
            let _ = self.stream.shutdown(Shutdown::Both);
        }
    }

    /// Whether a thread waits where the end of this socket wakes it.
    pub(crate) fn is_waited_for(&self) -> bool {
        self.waits.load(Ordering::SeqCst) > 0
    }

    /// When the first byte came of a head, or of a chunk's line, that is not whole; 0 where there is none.
    pub(crate) fn piece(&self) -> u64 {
        self.piece.load(Ordering::SeqCst)
    }

    /// Whether bytes ever passed.
    pub(crate) fn is_used(&self) -> bool {
        self.passed.load(Ordering::SeqCst) > 0
    }

    /// Whether the first byte of a message is expected.
    pub(crate) fn is_between(&self) -> bool {
        self.between.load(Ordering::SeqCst)
    }
}

// What is counted and seen of a link.
impl LinkStream {
    // So many bytes were read; none at the end of the input.
    fn count_read(&self, count: usize) {
        if count == 0 {
            self.seen.input_ended.store(true, Ordering::Relaxed);
        }
        add(&self.seen.read, count);
    }

    /// How many bytes were read.
    pub(crate) fn read_count(&self) -> u64 {
        self.seen.read.load(Ordering::Relaxed)
    }

    /// How many bytes were written.
    pub(crate) fn written_count(&self) -> u64 {
        self.seen.written.load(Ordering::Relaxed)
    }

    /// Whether the end of its input was read.
    pub(crate) fn has_input_ended(&self) -> bool {
        self.seen.input_ended.load(Ordering::Relaxed)
    }

    /// Whether a limit of time ended it.
    pub(crate) fn is_timed_out(&self) -> bool {
        self.seen.timed_out.load(Ordering::Relaxed)
    }

    /// Of a client's: whether the input of what was dialled for it last has ended.
    pub(crate) fn is_origin_cut(&self) -> bool {
        self.seen.origin_cut.load(Ordering::Relaxed)
    }

    /// The input of what was dialled for this client has ended, or has not.
    pub(crate) fn set_origin_cut(&self, cut: bool) {
        self.seen.origin_cut.store(cut, Ordering::Relaxed);
    }
}

/// Whose a link is.
#[derive(Drop)]
pub(crate) enum Side {
    /// The client's of a worker that is known.
    Client,
    /// The origin's that was dialled for this client.
    Origin(Arc<LinkStream>),
    /// This is not known.
    Unknown,
}

/// What all links of a net share: how long their calls may wait, and the house of their listener, if they are beside one.
#[derive(Drop)]
pub(crate) struct LinkShared {
    pub(crate) times: LinkTimes,
    pub(crate) house: Option<Arc<House>>,
}

impl LinkShared {
    // Whether the server was stopped too long ago for links to go on.
    fn is_over(&self, clock: &impl Clock) -> bool {
        match &self.house {
            Some(house) => house.ends_links(clock, &self.times),
            None => false,
        }
    }
}

/// What a half of a link needs to know to wait for its socket.
pub(crate) struct LinkWatch<R> {
    rt: R,
    pub(crate) line: Arc<LinkStream>,
    pub(crate) side: Side,
    links: Arc<LinkShared>,
}

// Written out, so that what lets a half of a link go proves one call.
impl<R: Drop> Drop for LinkWatch<R> {
    #[inline(never)]
    fn drop(self) {
        let LinkWatch {
            rt: _,
            line: _,
            side: _,
            links: _,
        } = self;
    }
}

/// What a call ends with that has blocked for a tick.
pub(crate) fn is_tick(kind: ErrorKind) -> bool {
    matches!(kind, ErrorKind::WouldBlock | ErrorKind::TimedOut)
}

/// What a call waits for.
#[derive(Clone, Copy, PartialEq, Eq)]
pub(crate) enum Way {
    In,
    Out,
}

/// How a wait ended.
#[derive(Clone, Copy, PartialEq, Eq)]
pub(crate) enum Waited {
    /// The call is to be made again.
    Ready,
    /// Nothing came in time.
    Nothing,
    /// The link has failed.
    Failed,
}

impl Side {
    fn another(&self) -> Side {
        match self {
            Side::Client => Side::Client,
            Side::Origin(client) => match Arc::try_clone(client) {
                Ok(client) => Side::Origin(client),
                Err(_) => Side::Unknown,
            },
            Side::Unknown => Side::Unknown,
        }
    }
}

impl<R: Copy> LinkWatch<R> {
    pub(crate) fn new(
        rt: R,
        line: Arc<LinkStream>,
        side: Side,
        links: Arc<LinkShared>,
    ) -> LinkWatch<R> {
        LinkWatch {
            rt,
            line,
            side,
            links,
        }
    }

    /// The same for the other half.
    pub(crate) fn another(&self) -> Option<LinkWatch<R>> {
        Some(LinkWatch {
            rt: self.rt,
            line: Arc::try_clone(&self.line).ok()?,
            side: self.side.another(),
            links: Arc::try_clone(&self.links).ok()?,
        })
    }
}

impl<R> LinkWatch<R> {
    /// The access log, if there is one.
    pub(crate) fn log(&self) -> Option<&AccessLog> {
        self.links.house.as_ref()?.log()
    }

    /// Reads from the socket.
    pub(crate) fn read(&self, into: &mut [u8]) -> io::Result<usize>
        ensures { ReadsAtMost result into.new }
    {
        let mut stream: &TcpStream = &self.line.stream;
        let read = stream.read(into);
        if let Ok(count) = &read {
            self.line.count_read(*count);
        }
        read
    }

    /// Writes to the socket.
    pub(crate) fn write(&self, bytes: &[u8]) -> io::Result<usize>
        ensures { WritesAtMost result bytes.now }
    {
        let mut stream: &TcpStream = &self.line.stream;
        let written = stream.write(bytes);
        if let Ok(count) = &written {
            add(&self.line.seen.written, *count);
        }
        written
    }
}

// These are called by the thread that reads or writes this half. They touch its socket, what both halves share, and nothing of other
// links.
impl<R: Clock> LinkWatch<R> {
    // How much of this limit is left that began to count then.
    fn left_of(&self, limit: Duration, since: u64) -> Option<Duration> {
        let passed = now(&self.rt).saturating_sub(since);
        let left = limit.checked_sub(Duration::from_millis(passed))?;
        if left.is_zero() { None } else { Some(left) }
    }

    // How long a call may wait yet, if it may.
    fn left(&self, way: Way) -> Option<Duration> {
        let links = &self.links;
        if links.is_over(&self.rt) || self.line.is_ended() {
            return None;
        }
        let left = self.left_in_time(way);
        if left.is_none() {
            self.line.seen.timed_out.store(true, Ordering::Relaxed);
        }
        left
    }

    // How long the limits of time let it wait. What nobody knows to whom it belongs, nobody wakes: it looks around by itself.
    fn left_in_time(&self, way: Way) -> Option<Duration> {
        let links = &self.links;
        let mut left = self.left_of(links.times.silent, self.line.last())?;
        let piece = self.line.piece();
        if way == Way::In && piece > 0 {
            left = left.min(self.left_of(links.times.head, piece)?);
        }
        match (&self.side, &links.house) {
            (Side::Unknown, Some(_)) => Some(left.min(links.times.tick)),
            _ => Some(left),
        }
    }

    // Waits so long at the most. A client that has left ends what was dialled for it.
    fn poll(&self, way: Way, most: Duration) -> Waited {
        let asked = match way {
            Way::In => PollFor::Read,
            Way::Out => PollFor::Write,
        };
        let own = ready::entry(&self.line.stream, asked);
        let (waited, left) = match &self.side {
            Side::Origin(client) => {
                let mut both = [own, ready::entry(&client.stream, PollFor::End)];
                ready::wait(&mut both, Some(most));
                (ready::is_reported(&both[0]), ready::is_over(&both[1]))
            }
            _ => {
                let mut one = [own];
                ready::wait(&mut one, Some(most));
                (ready::is_reported(&one[0]), false)
            }
        };
        match (waited, left) {
            (_, true) => Waited::Failed,
            (true, false) => Waited::Ready,
            (false, false) => Waited::Nothing,
        }
    }

    /// Waits until the call can be made again, to the limits of the link.
    pub(crate) fn wait(&self, way: Way) -> Waited {
        for _ in 0..u64::MAX {
            let Some(left) = self.left(way) else {
                return Waited::Failed;
            };
            match self.poll(way, left) {
                Waited::Nothing => {}
                waited => return waited,
            }
        }
        Waited::Failed
    }

    /// The same, but some seconds at the most.
    pub(crate) fn wait_soon(&self) -> Waited {
        let begun = now(&self.rt);
        for _ in 0..u64::MAX {
            let Some(left) = self.left(Way::In) else {
                return Waited::Failed;
            };
            let Some(most) = self.left_of(self.links.times.soon, begun) else {
                return Waited::Nothing;
            };
            match self.poll(Way::In, left.min(most)) {
                Waited::Nothing => {}
                waited => return waited,
            }
        }
        Waited::Failed
    }

    /// Whether a call may be made. Where less is left for a head than a tick it waits here.
    pub(crate) fn may_begin(&self, way: Way) -> bool {
        if self.links.is_over(&self.rt) || self.line.is_ended() {
            return false;
        }
        if way == Way::Out || self.line.piece() == 0 {
            return true;
        }
        match self.left(way) {
            Some(left) if left < self.links.times.tick => self.wait(way) == Waited::Ready,
            Some(_) => true,
            None => false,
        }
    }

    /// The call has moved bytes, or found the end. Whether that counts: what comes from a socket that the doorkeeper has shut does not.
    pub(crate) fn pass(&self) -> bool {
        self.line.pass(now(&self.rt));
        !self.line.is_ended()
    }

    /// What the reader expects next.
    pub(crate) fn expect(&self, between: bool, piece: bool) {
        self.line.set_between(between);
        self.line.set_piece(&self.rt, piece);
    }
    /// The time, as it is noted of links.
    pub(crate) fn now(&self) -> u64 {
        now(&self.rt)
    }

    // Whether the server is stopped.
    fn is_stopped(&self) -> bool {
        match &self.links.house {
            Some(house) => house.is_stopped(),
            None => false,
        }
    }

    /// How a client's link stands where a turn came to no good end.
    pub(crate) fn state(&self) -> LinkState {
        if self.line.is_ended() {
            return if self.is_stopped() {
                LinkState::Shutdown
            } else {
                LinkState::GaveWay
            };
        }
        if self.links.is_over(&self.rt) {
            LinkState::Shutdown
        } else if self.line.is_timed_out() {
            LinkState::TimedOut
        } else if self.line.is_gone() {
            LinkState::Gone
        } else if self.line.has_input_ended() {
            LinkState::Ended
        } else {
            LinkState::Stands
        }
    }
}
