//! A helper process, as both halves of it see it.
//!
//! What it reads comes through a pipe that takes no more than it has room for: what it had none for is kept here, and handed on as the
//! process reads on. What it writes comes through a socket, since a read of a socket can be told how long to wait.
//!
//! What it writes while it owes no answer was asked for by nobody. It must not be taken for the answer to the next question: none of it is
//! handed on, the process is asked nothing more, and its output counts as ended. A read and a question see this under one lock.
ghost use Rattle.std.specs.Prelude.{◌≤◌, IfSome, length};
ghost use Rattle.std.specs.Io.{ReadsAtMost};

use crate::again::TRIES;
use crate::owed::{LineNumber, Owed};
use crate::ready::{self, PollFor};
use std::alloc::Global;
use std::io::{self, ErrorKind, Read, Write};
use std::net::Shutdown;
use std::os::unix::net::UnixStream;
use std::process::{Child, ChildStdin, OpenProcess};
use std::sync::{Mutex, Wait};
use std::thread;
use std::time::{Clock, Duration};

/// How often it is looked whether a process that was stopped has ended.
const LOOKS: u32 = 5000;

/// How many milliseconds lie between.
const PAUSE: u64 = 1;

/// A process.
#[derive(Drop)]
pub(crate) struct ChildProcess<P: OpenProcess<Stdin = ChildStdin>> {
    said: UnixStream,
    state: Mutex<ChildState<P>>,
}

// What it reads from does not block. It has none before it was started, and none once it was stopped.
#[derive(Drop)]
struct ChildState<P: OpenProcess<Stdin = ChildStdin>> {
    child: Option<Child<P>>,
    stdin: Option<ChildStdin>,
    stopped: bool,
    // Whether it wrote something that nobody had asked for.
    strayed: bool,
    // What the pipe had no room for so far.
    unwritten: Vec<u8>,
    owed: Owed,
}

// How many bytes the pipe takes at once. None where it takes no more at all.
fn put(stdin: &mut ChildStdin, bytes: &[u8]) -> Option<usize>
    ensures { IfSome result (λ n. n ≤ length bytes.now) }
{
    for _ in 0..TRIES {
        match stdin.write(bytes) {
            Ok(count) => return Some(count),
            Err(e) if e.kind() == ErrorKind::Interrupted => {}
            Err(e) if e.kind() == ErrorKind::WouldBlock => return Some(0),
            Err(_) => return None,
        }
    }
    None
}

// Whether a read of this socket, within so long, would find bytes or the end.
fn is_readable(said: &UnixStream, most: Duration) -> bool {
    let mut one = [ready::entry(said, PollFor::Read)];
    ready::wait(&mut one, Some(most));
    ready::is_reported(&one[0])
}

impl<P: OpenProcess<Stdin = ChildStdin>> ChildState<P> {
    // Hands on what the pipe had no room for before.
    fn hand_on(&mut self) {
        if self.unwritten.is_empty() {
            return;
        }
        if let Some(stdin) = &mut self.stdin {
            if let Some(count) = put(stdin, self.unwritten.as_slice()) {
                drop(self.unwritten.drain(..count));
            }
        }
    }

    // Asks a question, where it has written nothing to this socket that nobody asked for.
    fn ask(&mut self, said: &UnixStream, line: &[u8], time: Duration) -> Option<()> {
        if self.owed.is_empty() && is_readable(said, Duration::ZERO) {
            self.strayed = true;
        }
        if self.strayed {
            return None;
        }
        let stdin = self.stdin.as_mut()?;
        self.owed.ask(LineNumber::of(line), time)?;
        let count = if self.unwritten.is_empty() {
            put(stdin, line)?
        } else {
            0
        };
        self.unwritten.extend_from_slice(&line[count..]).ok()
    }

    // Bytes of answers, behind this front of a line. How many of them were asked for.
    fn hear(&mut self, front: &mut LineNumber, bytes: &[u8]) -> usize
        ensures { result ≤ length bytes.now }
    {
        for (place, &byte) in bytes.iter().enumerate() {
            if self.owed.is_empty() {
                self.strayed = true;
                return place;
            }
            if byte == b'\n' {
                self.owed.answer(*front);
                *front = LineNumber::new();
            } else {
                front.take(byte);
            }
        }
        bytes.len()
    }
}

impl<P: OpenProcess<Stdin = ChildStdin> + Drop> ChildProcess<P> {
    /// One that is to be started. What it writes will come by this socket.
    pub(crate) fn new(alloc: Global, said: UnixStream) -> ChildProcess<P> {
        ChildProcess {
            said,
            state: Mutex::new(ChildState {
                child: None,
                stdin: None,
                stopped: false,
                strayed: false,
                unwritten: Vec::new(alloc),
                owed: Owed::new(alloc),
            }),
        }
    }

    /// It was started, and this is what it reads from.
    pub(crate) fn begin<R: Wait>(&self, rt: &R, child: Child<P>, stdin: Option<ChildStdin>) {
        let mut state = self.state.lock(rt);
        state.child = Some(child);
        state.stdin = stdin;
    }

    /// Waits until a read would find something, for so long at the most. Whether it would.
    pub(crate) fn wait<R: Wait>(&self, rt: &R, most: Duration) -> bool {
        let strayed = self.state.lock(rt).strayed;
        strayed || is_readable(&self.said, most)
    }

    /// Reads what it wrote behind this front of a line, as far as it was asked for: nothing more comes behind that. A read for which `wait`
    /// found something waits for nothing.
    pub(crate) fn read<R: Wait>(
        &self,
        rt: &R,
        front: &mut LineNumber,
        into: &mut [u8],
    ) -> io::Result<usize>
        ensures { ReadsAtMost result into.new }
    {
        let mut state = self.state.lock(rt);
        if state.strayed {
            return Ok(0);
        }
        let mut said: &UnixStream = &self.said;
        let count = said.read(into)?;
        let asked_for = state.hear(front, &into[..count]);
        state.hand_on();
        Ok(asked_for)
    }

    /// Asks a question at this time, and waits for nothing. None where it can't be asked.
    pub(crate) fn ask<R: Wait>(&self, rt: &R, line: &[u8], time: Duration) -> Option<()> {
        self.state.lock(rt).ask(&self.said, line, time)
    }

    /// Whether it goes on: it was not stopped, and owes no answer longer than this.
    pub(crate) fn goes_on<R: Wait>(&self, rt: &R, now: Duration, limit: Duration) -> bool {
        let mut state = self.state.lock(rt);
        state.hand_on();
        let oldest = state.owed.oldest().unwrap_or(now);
        state.stdin.is_some() && now.saturating_sub(oldest) < limit
    }

    /// Stops it, and waits for nothing. None of its bytes come from then on but those that came before. Whether it could be
    /// stopped.
    pub(crate) fn stop<R: Wait>(&self, rt: &R) -> bool {
        let mut state = self.state.lock(rt);
        if state.stopped {
            return true;
        }
        state.stopped = true;
        state.stdin = None;
        let _ = self.said.shutdown(Shutdown::Both);
        match &mut state.child {
            Some(child) => child.kill().is_ok(),
            None => true,
        }
    }

    // Whether it has ended, and nothing of it is left.
    fn has_ended<R: Wait>(&self, rt: &R) -> bool {
        match &mut self.state.lock(rt).child {
            Some(child) => !matches!(child.try_wait(), Ok(None)),
            None => true,
        }
    }

    /// Waits for its end, for some seconds at most.
    pub(crate) fn end<R: Wait + Clock>(&self, rt: &R) {
        for _ in 0..LOOKS {
            if self.has_ended(rt) {
                return;
            }
            thread::sleep(rt, Duration::from_millis(PAUSE));
        }
    }
}
