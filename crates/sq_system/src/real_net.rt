//! The world of a server over the system: sockets, programs, names and the clock. It hands out the trusted
//! adapters, and relies on them alone.
ghost use Rattle.std.specs.Prelude.{◌≡◌, ◌≤◌, ◌-◌, ◌^◌, IfOk};

use crate::access_log::AccessLog;
use crate::again::raise;
use crate::children::RealSpawner;
use crate::doorkeeper::KeeperPost;
use crate::handed::{Linger, handed_socket, is_socket_handed, linger_stated};
use crate::link_stream::copy_of;
use crate::messages::{self, tell_linger, tell_shortage};
use crate::real_clock::RealClock;
use crate::tcp_client::{RealDialer, RealResolver};
use crate::tcp_server::{Listening, RealListener, RealStopper};
use crate::times::LinkTimes;
use sq_outside::{Failed, Net, Parts};
use std::alloc::Global;
use std::fs::File;
use std::net::{self, TcpListener, TcpStream};
use std::process::{ChildStderr, ChildStdin, ChildStdout, OpenProcess, Processes};
use std::rt::{Env, Files};
use std::sync::{Arc, Wait};
use std::thread::Threads;
use std::{io, time};

/// The net of this machine. Where its port cannot be opened it says so on standard error: `aclproxy: port N: REASON`. Where the
/// environment hands a socket to the program, that is the port, and the number only names it.
#[derive(Drop)]
pub struct RealNet<R> {
    rt: R,
    // Where the doorkeeper of its listener is.
    post: Option<Arc<KeeperPost>>,
    // The access log, which is on if the environment names its file.
    log: Option<Arc<AccessLog>>,
    faults: u64,
    ghost capped: { faults ≤ 2 ^ 63 - 1 },
}

impl<R> RealNet<R> {
    /// The net of this runtime, with the count 0. Its links give way to nobody.
    pub fn new(rt: R) -> RealNet<R> {
        RealNet {
            rt,
            post: None,
            log: None,
            faults: 0,
        }
    }

    /// The same with a doorkeeper at this post.
    pub fn with_keeper(rt: R, post: Arc<KeeperPost>) -> RealNet<R> {
        RealNet {
            rt,
            post: Some(post),
            log: None,
            faults: 0,
        }
    }

    /// Its links write to this access log from now on, if the environment names a file for it.
    pub fn set_log(&mut self, log: Arc<AccessLog>) {
        self.log = Some(log);
    }
}

impl<
    R: net::Net<Listener = TcpListener, Stream = TcpStream>
        + Env
        + Files<File = File>
        + time::Clock
        + Copy
        + Drop,
> RealNet<R> {
    ghost use Rattle.sq_system.specs.Adapters.{accept_faults};

    // The limits of a server's links, as far as the environment says otherwise.
    fn times(&self, messages: &mut Option<File>) -> LinkTimes {
        let times = LinkTimes::of_server();
        match linger_stated(&self.rt) {
            Linger::Usual => times,
            Linger::For(end) => times.with_end(end),
            Linger::Faulty => {
                tell_linger(messages);
                times
            }
        }
    }

    // The access log, if the environment names its file.
    fn begun_log(&self) -> Option<Arc<AccessLog>> {
        let log = copy_of(&self.log)?;
        log.begin(&self.rt).then_some(log)
    }

    // A listener over the socket that the environment hands to the program, or else at this port.
    fn listen(&self, alloc: Global, port: u16, times: LinkTimes) -> io::Result<Listening<R>>
        ensures fresh { IfOk result (λ l. accept_faults l.listener ≡ 0) }
    {
        if is_socket_handed(&self.rt) {
            let socket = handed_socket()?;
            return RealListener::over(alloc, self.rt, socket, times, self.begun_log());
        }
        RealListener::listen_logged(alloc, self.rt, port, times, self.begun_log())
    }

    // Opens the listener and what is beside it, and hands it to the doorkeeper.
    fn open(&self, alloc: Global, port: u16, workers: u32) -> io::Result<Listening<R>>
        ensures fresh { IfOk result (λ l. accept_faults l.listener ≡ 0) }
    {
        let mut messages = messages::opened(&self.rt);
        let times = self.times(&mut messages);
        let listening = self.listen(alloc, port, times)?;
        if let Some(post) = &self.post {
            tell_shortage(&self.rt, &mut messages, alloc, workers);
            listening.listener.keep(alloc, post, workers, messages)?;
        }
        Ok(listening)
    }
}

impl<
    R: net::Net<Listener = TcpListener, Stream = TcpStream>
        + Processes
        + Env
        + Files<File = File>
        + Wait
        + time::Clock
        + Threads
        + Eprint
        + Copy
        + Send
        + Drop,
> Net for RealNet<R>
where
    R::Started: OpenProcess<Stdin = ChildStdin, Stdout = ChildStdout, Stderr = ChildStderr> + Send,
{
    type L = RealListener<R>;

    type T = RealStopper<R>;

    type D = RealDialer<R>;

    type S = RealSpawner<R>;

    type C = RealClock<R>;

    type Q = RealResolver<R>;

    ghost faults = { λ s. s.faults };

    ghost capped = { λ s. s.capped };

    // A port that cannot be opened is named on standard error, with the reason.
    fn parts(
        &mut self,
        alloc: Global,
        port: u16,
        workers: u32,
    ) -> Result<Parts<RealNet<R>>, Failed> {
        let mut listening = match self.open(alloc, port, workers) {
            Ok(listening) => listening,
            Err(reason) => {
                let _ = eprintln!(self.rt; "aclproxy: port {port}: {reason}");
                raise(&mut self.faults);
                return Err(Failed);
            }
        };
        let Some(resolver) = listening.dialer.resolver(alloc) else {
            raise(&mut self.faults);
            return Err(Failed);
        };
        Ok(Parts {
            listener: listening.listener,
            stopper: listening.stopper,
            dialer: listening.dialer,
            spawner: listening.spawner,
            clock: RealClock::new(self.rt),
            resolver,
        })
    }

    fn give_back(&mut self, listener: RealListener<R>) {
        if listener.has_failed() {
            raise(&mut self.faults);
        }
    }
}
