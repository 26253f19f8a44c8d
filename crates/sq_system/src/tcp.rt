//! The two halves of a TCP link: the trusted edge. Each line relies on std's socket being the system's:
//! that `read` and `write` hand on its bytes, and that `shutdown` ends what the other side reads.
ghost use Rattle.std.specs.Prelude.{◌≡◌, ◌≤◌, ◌-◌, ◌^◌, nat_lt, None, IfSome};

use crate::again::raise;
use crate::house::now;
use crate::link_stream::{LinkShared, LinkStream, LinkWatch, Side, Waited, Way, is_tick};
use crate::seats::ClientSlot;
use crate::times::LinkTimes;
use crate::turn_log::{TurnLog, note};
use sq_outside::{Expected, Failed, Observed, Out, Sink, Source};
use std::alloc::Global;
use std::io::{self, ErrorKind};
use std::net::{Shutdown, TcpStream};
use std::sync::Arc;
use std::time::Clock;

/// The half of a link that is read. Both halves hold one socket, which is closed when both are dropped.
#[derive(Drop)]
pub struct RealIn<R> {
    watch: LinkWatch<R>,
    bond: Bond,
    faults: u64,
    ghost capped: { faults ≤ 2 ^ 63 - 1 },
}

/// The half of a link that is written. To close it shuts the socket's way out, once.
#[derive(Drop)]
pub struct RealOut<R> {
    watch: LinkWatch<R>,
    open: bool,
    turn: TurnLog,
    faults: u64,
    ghost capped: { faults ≤ 2 ^ 63 - 1 },
}

// Where a link is known, which it is no more once this is dropped: in the slot of the worker that serves a client.
enum Bond {
    // As the client's.
    Client(Arc<ClientSlot>),
    // As the origin's that was dialled for it.
    Origin(Arc<ClientSlot>),
    Nowhere,
}

impl Drop for Bond {
    fn drop(self) {
        match self {
            Bond::Client(slot) => slot.put(None),
            Bond::Origin(slot) => slot.put_origin(None),
            Bond::Nowhere => {}
        }
    }
}

/// Sends small pieces at once, and lets a call block for a tick at the most.
pub(crate) fn set(stream: &TcpStream, times: &LinkTimes) -> io::Result<()> {
    stream.set_nodelay(true)?;
    stream.set_read_timeout(Some(times.tick))?;
    stream.set_write_timeout(Some(times.tick))
}

// Whose a link is that was dialled for this client.
fn side_of(client: Option<Arc<LinkStream>>) -> Side {
    match client {
        Some(client) => Side::Origin(client),
        None => Side::Unknown,
    }
}

impl<R: Clock + Copy + Drop> RealIn<R> {
    ghost use Rattle.sq_system.specs.Adapters.{in_faults, out_faults};

    /// Both halves of a link to an origin, over a socket without the delay that gathers small pieces, dialled by the worker in this
    /// slot for its client. None where there is no memory, or the socket takes no setting.
    #[inline(never)]
    pub(crate) fn dialled(
        alloc: Global,
        rt: R,
        stream: TcpStream,
        links: Arc<LinkShared>,
        slot: Option<Arc<ClientSlot>>,
    ) -> Option<(RealIn<R>, RealOut<R>)>
        ensures fresh { IfSome result (λ h. (in_faults h.0 ≡ 0) × (out_faults h.1 ≡ 0)) }
    {
        set(&stream, &links.times).ok()?;
        let line = Arc::new(alloc, LinkStream::new(stream, now(&rt))).ok()?;
        let (side, bond) = match slot {
            Some(slot) => {
                slot.put_origin(Arc::try_clone(&line).ok());
                (side_of(slot.client()), Bond::Origin(slot))
            }
            None => (Side::Unknown, Bond::Nowhere),
        };
        RealIn::halves(LinkWatch::new(rt, line, side, links), bond)
    }

    /// Both halves of a client's link, over a socket that has its settings from the listener's, which takes this slot.
    pub(crate) fn accepted(
        alloc: Global,
        rt: R,
        stream: TcpStream,
        links: Arc<LinkShared>,
        slot: Option<Arc<ClientSlot>>,
    ) -> Option<(RealIn<R>, RealOut<R>)>
        ensures fresh { IfSome result (λ h. (in_faults h.0 ≡ 0) × (out_faults h.1 ≡ 0)) }
    {
        let line = Arc::new(alloc, LinkStream::new(stream, now(&rt))).ok()?;
        let (side, bond) = match slot {
            Some(slot) => {
                slot.put(Arc::try_clone(&line).ok());
                (Side::Client, Bond::Client(slot))
            }
            None => (Side::Unknown, Bond::Nowhere),
        };
        RealIn::halves(LinkWatch::new(rt, line, side, links), bond)
    }

    fn halves(watch: LinkWatch<R>, bond: Bond) -> Option<(RealIn<R>, RealOut<R>)>
        ensures fresh { IfSome result (λ h. (in_faults h.0 ≡ 0) × (out_faults h.1 ≡ 0)) }
    {
        let to = RealOut {
            watch: watch.another()?,
            open: true,
            turn: TurnLog::new(),
            faults: 0,
        };
        let from = RealIn {
            watch,
            bond,
            faults: 0,
        };
        Some((from, to))
    }
}

impl<R> RealIn<R> {
    ghost use Rattle.sq_system.specs.Adapters.{in_faults};

    /// Whether a read has failed.
    pub fn has_failed(&self) -> bool
        ensures { result ≡ nat_lt 0 (in_faults self.now) }
    {
        self.faults > 0
    }

    /// The dial was given back: its client has none any more.
    pub(crate) fn end_dial(&self) {
        if let Bond::Origin(slot) = &self.bond {
            slot.put_origin(None);
        }
    }

    /// Tells the client of this dial, whose log wants it, whether the input from the origin has ended.
    pub(crate) fn tell_client(&self) {
        if let (Side::Origin(client), Some(_)) = (&self.watch.side, self.watch.log()) {
            client.set_origin_cut(self.watch.line.has_input_ended());
        }
    }

    /// The socket of this link.
    pub(crate) fn line(&self) -> &LinkStream {
        &self.watch.line
    }
}

impl<R: Clock> Source for RealIn<R> {
    ghost left = { λ _. None };

    ghost origin = { λ _. None };

    ghost faults = { λ s. s.faults };

    ghost capped = { λ s. s.capped };

    fn read(&mut self, into: &mut [u8]) -> Result<usize, Failed> {
        self.watch.line.enter();
        for _ in 0..u64::MAX {
            if !self.watch.may_begin(Way::In) {
                break;
            }
            match self.watch.read(into) {
                Ok(count) if self.watch.pass() => {
                    self.watch.line.leave();
                    return Ok(count);
                }
                Err(e) if e.kind() == ErrorKind::Interrupted => {}
                Err(e) if is_tick(e.kind()) && self.watch.wait(Way::In) == Waited::Ready => {}
                _ => break,
            }
        }
        self.watch.line.leave();
        raise(&mut self.faults);
        Err(Failed)
    }

    fn read_soon(&mut self, into: &mut [u8]) -> Result<Option<usize>, Failed> {
        self.watch.line.enter();
        for _ in 0..u64::MAX {
            if !self.watch.may_begin(Way::In) {
                break;
            }
            match self.watch.read(into) {
                Ok(count) if self.watch.pass() => {
                    self.watch.line.leave();
                    return Ok(Some(count));
                }
                Err(e) if e.kind() == ErrorKind::Interrupted => {}
                Err(e) if is_tick(e.kind()) => match self.watch.wait_soon() {
                    Waited::Ready => {}
                    Waited::Nothing => {
                        self.watch.line.leave();
                        return Ok(None);
                    }
                    Waited::Failed => break,
                },
                _ => break,
            }
        }
        self.watch.line.leave();
        raise(&mut self.faults);
        Err(Failed)
    }

    fn expect(&mut self, what: Expected) {
        match what {
            Expected::Nothing => self.watch.expect(true, false),
            Expected::Head | Expected::Line => self.watch.expect(false, true),
            Expected::Data => self.watch.expect(false, false),
        }
    }
}

impl<R> RealOut<R> {
    ghost use Rattle.sq_system.specs.Adapters.{out_faults};

    /// Whether a write or the closing has failed.
    pub fn has_failed(&self) -> bool
        ensures { result ≡ nat_lt 0 (out_faults self.now) }
    {
        self.faults > 0
    }
}

impl<R: Clock> Sink for RealOut<R> {
    ghost contents = { λ _. None };

    ghost faults = { λ s. s.faults };

    ghost capped = { λ s. s.capped };

    fn write(&mut self, bytes: &[u8]) -> Result<usize, Failed> {
        self.watch.line.enter();
        for _ in 0..u64::MAX {
            if !self.watch.may_begin(Way::Out) {
                break;
            }
            match self.watch.write(bytes) {
                Ok(count) if (count > 0 || bytes.is_empty()) && self.watch.pass() => {
                    self.watch.line.leave();
                    return Ok(count);
                }
                Err(e) if e.kind() == ErrorKind::Interrupted => {}
                Err(e) if is_tick(e.kind()) && self.watch.wait(Way::Out) == Waited::Ready => {}
                _ => break,
            }
        }
        self.watch.line.leave();
        raise(&mut self.faults);
        Err(Failed)
    }

    fn observe(&self, what: &Observed) {
        if let Some(log) = self.watch.log() {
            note(&self.turn, log, &self.watch, what);
        }
    }
}

impl<R: Clock> Out for RealOut<R> {
    ghost closed = { λ _. None };

    fn close(&mut self) {
        if self.open && self.watch.line.stream.shutdown(Shutdown::Write).is_err() {
            raise(&mut self.faults);
        }
        self.open = false;
    }
}
