//! What accepts TCP links, and what stops it: the trusted edge. It relies on `accept` giving the links that
//! come to the port, on a link from here being one of them, and on Linux: a socket that is accepted has the settings of the
//! listener's, and an `accept` ends when its socket is shut, or when its socket's limit of time is over.
ghost use Rattle.std.specs.Prelude.{◌≡◌, ◌≤◌, ◌-◌, ◌^◌, nat_lt, None, IfOk, IfSome};
ghost use Rattle.sq_outside.specs.World.{IfLink};

use crate::access_log::AccessLog;
use crate::again::raise;
use crate::arrivals::{Arrival, Arrivals};
use crate::children::RealSpawner;
use crate::doorkeeper::{Doorkeeper, KeeperPost};
use crate::house::{House, now};
use crate::link_stream::{LinkShared, copy_of, is_tick};
use crate::ready::{self, PollFor};
use crate::seats::ClientSlot;
use crate::tcp::{RealIn, RealOut, set};
use crate::tcp_client::RealDialer;
use crate::times::LinkTimes;
use sq_base::Addr;
use sq_outside::{Accepted, Listener, Stopper};
use std::alloc::Global;
use std::fs::File;
use std::net::{IpAddr, Ipv4Addr, Ipv6Addr, Net, Shutdown, TcpListener, TcpStream};
use std::os::fd::{AsRawFd, OwnedFd};
use std::sync::{Arc, Wait};
use std::time::{Clock, Duration};
use std::{io, thread};

/// How many milliseconds a listener pauses where no link is there and behind an error that passes.
const PAUSE: u64 = 10;

/// How many clients may wait in the system's queue, beside those of the accept queue, if the system's own limit is not less.
const BACKLOG: i32 = 1024;

/// Errors of `accept` that do not pass, of Linux: no such file, no socket, none that listens, no memory of the program's.
const LASTING: [i32; 4] = [9, 88, 22, 14];

/// An address as the system has it. An IPv4 address that stands in an IPv6 one is that IPv4 address.
pub fn addr_of(ip: IpAddr) -> Addr {
    match ip {
        IpAddr::V4(ip) => v4(ip),
        IpAddr::V6(ip) => match ip.to_ipv4_mapped() {
            Some(ip) => v4(ip),
            None => Addr {
                v6: true,
                number: ip.to_bits(),
            },
        },
    }
}

fn v4(ip: Ipv4Addr) -> Addr {
    Addr {
        v6: false,
        number: ip.to_bits() as u128,
    }
}

/// A listener at a port of this machine. No link comes to it once it is dropped, and its doorkeeper ends then.
#[derive(Drop)]
pub struct RealListener<R> {
    entrance: Entrance<R>,
    faults: u64,
    ghost capped: { faults ≤ 2 ^ 63 - 1 },
}

// The socket of a listener. One worker at a time calls it.
struct Entrance<R> {
    rt: R,
    listener: TcpListener,
    house: Arc<House>,
    links: Arc<LinkShared>,
}

impl<R: Drop> Drop for Entrance<R> {
    fn drop(self) {
        let Entrance {
            rt: _,
            listener,
            house,
            links: _,
        } = self;
        house.close();
        if !house.is_shared() {
            let _ = TcpStream::from(OwnedFd::from(listener)).shutdown(Shutdown::Both);
        }
    }
}

/// A listener, what stops it, and what dials and starts processes beside it.
#[derive(Drop)]
pub struct Listening<R> {
    pub listener: RealListener<R>,
    pub stopper: RealStopper<R>,
    pub dialer: RealDialer<R>,
    pub spawner: RealSpawner<R>,
}

impl<R> RealListener<R> {
    ghost use Rattle.sq_system.specs.Adapters.{accept_faults};

    /// The port at which it listens, which the system chose where it was made for port 0.
    pub fn port(&self) -> Option<u16> {
        Some(self.entrance.listener.local_addr().ok()?.port())
    }

    /// Whether a call has failed.
    pub fn has_failed(&self) -> bool
        ensures { result ≡ nat_lt 0 (accept_faults self.now) }
    {
        self.faults > 0
    }
}

impl<R: Net<Listener = TcpListener, Stream = TcpStream> + Copy + Drop> RealListener<R> {
    ghost use Rattle.sq_system.specs.Adapters.{accept_faults};

    /// A listener at this port, or at a free one for port 0, whose links have these limits of time, what stops it, a dialer for the
    /// workers that take its links, and a spawner of processes that end with it. The error is the system's, out of memory among them.
    pub fn listen(alloc: Global, rt: R, port: u16, times: LinkTimes) -> io::Result<Listening<R>>
        ensures fresh { IfOk result (λ l. accept_faults l.listener ≡ 0) }
    {
        RealListener::listen_logged(alloc, rt, port, times, None)
    }

    /// The same, whose links write to this access log, if there is one.
    pub(crate) fn listen_logged(
        alloc: Global,
        rt: R,
        port: u16,
        times: LinkTimes,
        log: Option<Arc<AccessLog>>,
    ) -> io::Result<Listening<R>>
        ensures fresh { IfOk result (λ l. accept_faults l.listener ≡ 0) }
    {
        let listener = bind(&rt, port)?;
        deepen(&listener);
        let socket = socket_of(&listener, &times)?;
        let keys = HouseKeys::new(alloc, false, times, log)?;
        Ok(RealListener::opened(rt, listener, socket, keys))
    }

    /// The same over a socket that listens already, and that other servers have, too. It is never shut: once the server is stopped
    /// this one leaves those who come to the others, and those that it let in before are served yet.
    pub(crate) fn over(
        alloc: Global,
        rt: R,
        listener: TcpListener,
        times: LinkTimes,
        log: Option<Arc<AccessLog>>,
    ) -> io::Result<Listening<R>>
        ensures fresh { IfOk result (λ l. accept_faults l.listener ≡ 0) }
    {
        let tick = times.round;
        let socket = socket_of(&listener, &LinkTimes { tick, ..times })?;
        let keys = HouseKeys::new(alloc, true, times, log)?;
        Ok(RealListener::opened(rt, listener, socket, keys))
    }
}

impl<R> RealListener<R> {
    /// Hands the listener, which is for so many workers, to the doorkeeper of this post.
    pub(crate) fn keep(
        &self,
        alloc: Global,
        post: &KeeperPost,
        workers: u32,
        messages: Option<File>,
    ) -> io::Result<()> {
        let house = Arc::try_clone(&self.entrance.house)?;
        house.set_workers(workers);
        let listener = self.entrance.listener.try_clone()?;
        post.give(
            Doorkeeper::new(alloc, listener, self.entrance.links.times, messages),
            house,
        );
        Ok(())
    }
}

// Gives the system's queue its depth. std makes it 128 deep, and the last call of `listen` counts. Whether it listens.
pub(crate) fn deepen(listener: &TcpListener) -> bool {
    libc::net::listen(listener.as_raw_fd(), BACKLOG) == 0
}

// Another handle of a listener's socket, which has its settings then.
fn socket_of(listener: &TcpListener, times: &LinkTimes) -> io::Result<TcpStream> {
    let socket = TcpStream::from(OwnedFd::from(listener.try_clone()?));
    set(&socket, times)?;
    Ok(socket)
}

// What a listener and those beside it share, for each of the four.
#[derive(Drop)]
struct HouseKeys {
    entrance: Arc<House>,
    stopper: Arc<House>,
    spawner: Arc<House>,
    accepted: Arc<LinkShared>,
    dialled: Arc<LinkShared>,
}

impl HouseKeys {
    fn new(
        alloc: Global,
        shared: bool,
        times: LinkTimes,
        log: Option<Arc<AccessLog>>,
    ) -> io::Result<HouseKeys> {
        let entrance = Arc::new(alloc, House::new(alloc, shared, log))?;
        let stopper = Arc::try_clone(&entrance)?;
        let spawner = Arc::try_clone(&entrance)?;
        let house = Some(Arc::try_clone(&entrance)?);
        let accepted = Arc::new(alloc, LinkShared { times, house })?;
        let dialled = Arc::try_clone(&accepted)?;
        Ok(HouseKeys {
            entrance,
            stopper,
            spawner,
            accepted,
            dialled,
        })
    }
}

impl<R: Copy> RealListener<R> {
    ghost use Rattle.sq_system.specs.Adapters.{accept_faults};

    // The listener and those beside it, where all is there that they need.
    fn opened(rt: R, listener: TcpListener, socket: TcpStream, keys: HouseKeys) -> Listening<R>
        ensures fresh { accept_faults result.listener ≡ 0 }
    {
        let HouseKeys {
            entrance: house,
            stopper,
            spawner,
            accepted: links,
            dialled,
        } = keys;
        let times = links.times;
        let entrance = Entrance {
            rt,
            listener,
            house,
            links,
        };
        Listening {
            listener: RealListener {
                entrance,
                faults: 0,
            },
            stopper: RealStopper {
                rt,
                socket,
                house: stopper,
            },
            dialer: RealDialer::beside(rt, dialled),
            spawner: RealSpawner::beside(rt, times, spawner),
        }
    }
}

// What a call of the listener's socket came to.
#[derive(Drop)]
enum NextLink {
    Link(Arrival),
    Nothing,
    Failed,
}

fn is_lasting(error: &io::Error) -> bool {
    match error.raw_os_error() {
        Some(number) => LASTING.contains(&number),
        None => false,
    }
}

// All of this is called by the one worker that waits for a client, and holds the lock of the accept queue.
impl<R: Clock> Entrance<R> {
    // The next client of the system's queue. It blocks for a tick, and then until there is one, but where other servers have the socket,
    // too: whom it wakes for may be theirs.
    fn accept(&self) -> NextLink {
        match self.listener.accept() {
            Ok((stream, peer)) => NextLink::Link(Arrival { stream, peer }),
            Err(e) if is_lasting(&e) => NextLink::Failed,
            Err(e) if is_tick(e.kind()) => {
                if !self.house.is_shared() {
                    ready::wait(&mut [ready::entry(&self.listener, PollFor::Read)], None);
                }
                NextLink::Nothing
            }
            Err(_) => {
                thread::sleep(&self.rt, Duration::from_millis(PAUSE));
                NextLink::Nothing
            }
        }
    }

    // Whether a link gave way of late.
    fn is_crowded(&self) -> bool {
        match self.house.since_crowd(&self.rt) {
            Some(passed) => passed < self.links.times.crowd,
            None => false,
        }
    }

    // Waits until a client comes or one says something, which the next call finds.
    fn gather(&self, queue: &mut Arrivals, now: u64) -> NextLink {
        let most = if self.house.is_shared() {
            self.links.times.round
        } else {
            self.links.times.crowd
        };
        if !queue.wait(&self.listener, most) {
            return NextLink::Nothing;
        }
        match self.accept() {
            NextLink::Link(arrival) => {
                if queue.has_room() {
                    queue.put(now, arrival);
                }
                NextLink::Nothing
            }
            found => found,
        }
    }

    // The next client. One of the accept queue has said something; another is taken at once where nobody is in that queue, and no link
    // gave way of late.
    fn find(&self, queue: &mut Arrivals) -> NextLink {
        if queue.is_empty() && !self.is_crowded() {
            return self.accept();
        }
        let now = now(&self.rt);
        let silent = self.links.times.silent.as_millis().min(1 << 60) as u64;
        match queue.take_speaking(now, now.saturating_sub(silent)) {
            Some(arrival) => NextLink::Link(arrival),
            None => self.gather(queue, now),
        }
    }
}

impl<R: Clock> Entrance<R> {
    // Whether clients that came before the server was stopped are served yet.
    fn serves_last(&self) -> bool {
        if !self.house.is_stopped() {
            return true;
        }
        self.house.is_shared() && !self.house.ends_links(&self.rt, &self.links.times)
    }

    // The next of those that came before the server was stopped, once it has said something. Nothing where none is left.
    fn find_last(&self, queue: &mut Arrivals) -> NextLink {
        for _ in 0..u64::MAX {
            if queue.is_empty() || !self.serves_last() {
                break;
            }
            let now = now(&self.rt);
            let silent = self.links.times.used.as_millis().min(1 << 60) as u64;
            if let Some(arrival) = queue.take_speaking(now, now.saturating_sub(silent)) {
                return NextLink::Link(arrival);
            }
            queue.wait_for_words(self.links.times.round);
        }
        queue.clear();
        NextLink::Nothing
    }
}

impl<R: Clock + Wait> Entrance<R> {
    // The same until there is one, the socket fails, or the server is stopped. The worker in this slot is back from its last client.
    fn seek(&self, slot: &Option<Arc<ClientSlot>>) -> NextLink {
        let mut queue = self.house.queue.lock(&self.rt);
        if let Some(slot) = slot {
            slot.come_back();
        }
        for _ in 0..u64::MAX {
            if self.house.is_stopped() {
                return self.find_last(&mut queue);
            }
            match self.find(&mut queue) {
                NextLink::Link(arrival) if self.serves_last() => return NextLink::Link(arrival),
                NextLink::Failed if !self.house.is_stopped() => return NextLink::Failed,
                _ => {}
            }
        }
        NextLink::Nothing
    }
}

impl<R: Clock + Wait + Copy + Drop> Entrance<R> {
    ghost use Rattle.sq_system.specs.Adapters.{in_faults, out_faults};

    // Both halves of a link that came, for the worker in this slot.
    fn halves(
        &self,
        alloc: Global,
        stream: TcpStream,
        slot: &Option<Arc<ClientSlot>>,
    ) -> Option<(RealIn<R>, RealOut<R>)>
        ensures fresh { IfSome result (λ h. (in_faults h.0 ≡ 0) × (out_faults h.1 ≡ 0)) }
    {
        let links = Arc::try_clone(&self.links).ok()?;
        RealIn::accepted(alloc, self.rt, stream, links, copy_of(slot))
    }

    // The link that came, if there is memory for it.
    #[inline(never)]
    fn let_in(
        &self,
        alloc: Global,
        arrival: Arrival,
        slot: &Option<Arc<ClientSlot>>,
    ) -> Option<Accepted<RealIn<R>, RealOut<R>>>
        ensures fresh { IfSome result
            (λ a. IfLink a (λ from to addr port. (in_faults from ≡ 0) × (out_faults to ≡ 0))) }
    {
        let Arrival { stream, peer } = arrival;
        let (from, to) = self.halves(alloc, stream, slot)?;
        Some(Accepted::Link {
            from,
            to,
            addr: addr_of(peer.ip()),
            port: peer.port(),
        })
    }

    // Waits for the next link.
    #[inline(never)]
    fn next(&mut self, alloc: Global) -> Accepted<RealIn<R>, RealOut<R>>
        ensures fresh { IfLink result
            (λ from to addr port. (in_faults from ≡ 0) × (out_faults to ≡ 0)) }
    {
        let slot = self.house.seat(alloc);
        for _ in 0..u64::MAX {
            let found = self.seek(&slot);
            self.house.leave();
            match found {
                NextLink::Link(arrival) => match self.let_in(alloc, arrival, &slot) {
                    Some(accepted) => return accepted,
                    None => thread::sleep(&self.rt, Duration::from_millis(PAUSE)),
                },
                NextLink::Nothing if self.house.is_stopped() => return Accepted::Stopped,
                NextLink::Nothing => {}
                NextLink::Failed => return Accepted::Failed,
            }
        }
        Accepted::Failed
    }
}

impl<R: Clock + Wait + Copy + Send + Drop> Listener for RealListener<R> {
    type In = RealIn<R>;

    type Outgo = RealOut<R>;

    ghost coming = { λ _. None };

    ghost faults = { λ s. s.faults };

    ghost capped = { λ s. s.capped };

    fn next(&mut self, alloc: Global) -> Accepted<RealIn<R>, RealOut<R>> {
        match self.entrance.next(alloc) {
            Accepted::Link {
                from,
                to,
                addr,
                port,
            } => Accepted::Link {
                from,
                to,
                addr,
                port,
            },
            Accepted::Stopped => Accepted::Stopped,
            Accepted::Failed => {
                raise(&mut self.faults);
                Accepted::Failed
            }
        }
    }
}

/// Stops a listener: it says so to all that belongs to the listener, and shuts its socket, so that no link comes to it any more
/// and another listener can have its port. A socket that other servers have, too, is not shut.
#[derive(Drop)]
pub struct RealStopper<R> {
    rt: R,
    // Another handle of the listener's socket.
    socket: TcpStream,
    house: Arc<House>,
}

impl<R: Clock> Stopper for RealStopper<R> {
    fn stop(&self) {
        self.house.stop(&self.rt);
        if !self.house.is_shared() {
            let _ = self.socket.shutdown(Shutdown::Both);
        }
    }
}

// A listener for IPv6 and IPv4, as Linux has it unless it is told otherwise; or for IPv4 alone where the machine
// has no IPv6.
fn bind<R: Net<Listener = TcpListener, Stream = TcpStream>>(
    rt: &R,
    port: u16,
) -> io::Result<TcpListener> {
    match TcpListener::bind(rt, (Ipv6Addr::UNSPECIFIED, port)) {
        Err(e) if e.kind() != io::ErrorKind::AddrInUse => {
            TcpListener::bind(rt, (Ipv4Addr::UNSPECIFIED, port))
        }
        answer => answer,
    }
}
