//! Helper processes: the trusted edge. It relies on the system to start programs, on a pipe and a socket to hand on what
//! they read and write, and on `kill` and `wait` to end and reap them. What a program started in its turn is
//! not ended with it. What a program writes to its standard error goes to the end of the file that the variable
//! `ACLPROXY_HELPER_ERRORS` names, or is dropped, since the program's own may be a journal.
//!
//! A write waits for nothing, whether the process reads or not. A process that owes an answer for too long is stopped by who reads it.
ghost use Rattle.std.specs.Prelude.{◌≡◌, ◌≤◌, ◌-◌, ◌^◌, None};

use crate::again::raise;
use crate::house::House;
use crate::link_stream::{copy_of, is_tick};
use crate::owed::LineNumber;
use crate::process::ChildProcess;
use crate::times::LinkTimes;
use sq_base::Text;
use sq_outside::{Another, Failed, Out, Sink, Source, Spawner};
use std::alloc::Global;
use std::fs::{File, OpenOptions};
use std::io::ErrorKind;
use std::net::Net;
use std::os::fd::OwnedFd;
use std::os::unix::net::UnixStream;
use std::process::{
    Child, ChildStderr, ChildStdin, ChildStdout, Command, OpenProcess, Processes, Stdio,
};
use std::rt::{Env, Files};
use std::sync::{Arc, Wait};
use std::time::{Clock, Duration};

/// The variable that names the file for what programs write to their standard error.
const ERRORS: &str = "ACLPROXY_HELPER_ERRORS";

/// How many bytes the line of a question has at most, with the number of its channel.
const LINE: usize = 8192 + 16;

/// The half of a process that is written to, which hands on whole lines. To close it, or to let it go, stops the process, and does not wait
/// for its end.
pub struct RealChildIn<R: Wait, P: OpenProcess<Stdin = ChildStdin>> {
    rt: R,
    process: Arc<ChildProcess<P>>,
    // The front of a line.
    line: Vec<u8>,
    faults: u64,
    ghost capped: { faults ≤ 2 ^ 63 - 1 },
}

/// The half of a process that is read. Its end comes where the process writes what nobody asked for, too. At its end, and where it is let go,
/// nobody hears the process any more: it is stopped, and waited for, so that nothing of it is left.
pub struct RealChildOut<R: Wait + Clock, P: OpenProcess<Stdin = ChildStdin>> {
    rt: R,
    process: Arc<ChildProcess<P>>,
    times: LinkTimes,
    house: Option<Arc<House>>,
    front: LineNumber,
    // When it was looked last how long answers are owed.
    looked: Duration,
    faults: u64,
    ghost capped: { faults ≤ 2 ^ 63 - 1 },
}

impl<R: Wait + Clock, P: OpenProcess<Stdin = ChildStdin> + Drop> RealChildIn<R, P> {
    // Takes a piece of a line, and asks it where it is whole.
    fn gather(&mut self, bytes: &[u8]) -> Option<()>
        ensures kept { self.new.faults ≡ self.old.faults }
    {
        self.line.extend_from_slice(bytes).ok()?;
        if !bytes.ends_with(b"\n") {
            return Some(());
        }
        let now = self.rt.monotonic().unwrap_or(Duration::MAX);
        let asked = self.process.ask(&self.rt, self.line.as_slice(), now);
        self.line.clear();
        asked
    }
}

impl<R: Wait + Clock, P: OpenProcess<Stdin = ChildStdin> + Drop> Sink for RealChildIn<R, P> {
    ghost contents = { λ _. None };

    ghost faults = { λ s. s.faults };

    ghost capped = { λ s. s.capped };

    fn write(&mut self, bytes: &[u8]) -> Result<usize, Failed> {
        match self.gather(bytes) {
            Some(()) => Ok(bytes.len()),
            None => {
                raise(&mut self.faults);
                Err(Failed)
            }
        }
    }
}

impl<R: Wait + Clock, P: OpenProcess<Stdin = ChildStdin> + Drop> Out for RealChildIn<R, P> {
    ghost closed = { λ _. None };

    fn close(&mut self) {
        if !self.process.stop(&self.rt) {
            raise(&mut self.faults);
        }
    }
}

impl<R: Wait + Drop, P: OpenProcess<Stdin = ChildStdin> + Drop> Drop for RealChildIn<R, P> {
    fn drop(self) {
        let RealChildIn {
            rt,
            process,
            line: _,
            faults: _,
        } = self;
        let _ = process.stop(&rt);
    }
}

impl<R: Wait + Clock, P: OpenProcess<Stdin = ChildStdin> + Drop> RealChildOut<R, P> {
    // How long an answer may be owed.
    fn limit(&self) -> Duration {
        match &self.house {
            Some(house) if house.ends_helpers(&self.rt, &self.times) => self.times.answer_end,
            _ => self.times.answer,
        }
    }

    // Looks around. Whether the process goes on: else it is stopped.
    fn looks(&mut self, now: Duration) -> bool
        ensures kept { self.new.faults ≡ self.old.faults }
    {
        self.looked = now;
        let limit = self.limit();
        let goes_on = self.process.goes_on(&self.rt, now, limit);
        if !goes_on {
            let _ = self.process.stop(&self.rt);
        }
        goes_on
    }

    // It wrote something. It is looked around where a tick has passed.
    fn heard(&mut self)
        ensures kept { self.new.faults ≡ self.old.faults }
    {
        let now = self.rt.monotonic().unwrap_or(Duration::ZERO);
        if now.saturating_sub(self.looked) >= self.times.tick {
            self.looks(now);
        }
    }

    // It wrote nothing for a tick. Whether it goes on.
    fn idles(&mut self) -> bool
        ensures kept { self.new.faults ≡ self.old.faults }
    {
        let now = self.rt.monotonic().unwrap_or(Duration::ZERO);
        self.looks(now)
    }
}

impl<R: Wait + Clock, P: OpenProcess<Stdin = ChildStdin> + Drop> Source for RealChildOut<R, P> {
    ghost left = { λ _. None };

    ghost origin = { λ _. None };

    ghost faults = { λ s. s.faults };

    ghost capped = { λ s. s.capped };

    fn read(&mut self, into: &mut [u8]) -> Result<usize, Failed> {
        for _ in 0..u64::MAX {
            if !self.process.wait(&self.rt, self.times.tick) {
                if !self.idles() {
                    return Ok(0);
                }
                continue;
            }
            match self.process.read(&self.rt, &mut self.front, into) {
                Ok(count) => {
                    self.heard();
                    return Ok(count);
                }
                Err(e) if e.kind() == ErrorKind::Interrupted || is_tick(e.kind()) => {}
                Err(_) => break,
            }
        }
        raise(&mut self.faults);
        Err(Failed)
    }
}

impl<R: Wait + Clock + Drop, P: OpenProcess<Stdin = ChildStdin> + Drop> Drop
    for RealChildOut<R, P> {
    fn drop(self) {
        let RealChildOut {
            rt,
            process,
            times: _,
            house: _,
            front: _,
            looked: _,
            faults: _,
        } = self;
        let _ = process.stop(&rt);
        process.end(&rt);
    }
}

/// What starts programs of the system: the first word is the program, looked for as a shell does.
#[derive(Drop)]
pub struct RealSpawner<R> {
    rt: R,
    times: LinkTimes,
    house: Option<Arc<House>>,
    faults: u64,
    ghost capped: { faults ≤ 2 ^ 63 - 1 },
}

impl<R> RealSpawner<R> {
    /// A spawner of this runtime with these limits of time, beside no listener, and the count 0.
    pub fn new(rt: R, times: LinkTimes) -> RealSpawner<R> {
        RealSpawner {
            rt,
            times,
            house: None,
            faults: 0,
        }
    }

    /// One beside a listener.
    pub(crate) fn beside(rt: R, times: LinkTimes, house: Arc<House>) -> RealSpawner<R> {
        RealSpawner {
            rt,
            times,
            house: Some(house),
            faults: 0,
        }
    }
}

impl<R: Copy> Another for RealSpawner<R> {
    fn another(&self) -> RealSpawner<R> {
        RealSpawner {
            rt: self.rt,
            times: self.times,
            house: copy_of(&self.house),
            faults: 0,
        }
    }
}

// Where a program's standard error goes: to the end of the file that the variable names, or nowhere.
fn errors_of<R: Env + Files<File = File>>(rt: &R) -> Stdio {
    let mut buffer = [0u8; 4096];
    let Ok(count) = rt.var(ERRORS, &mut buffer) else {
        return Stdio::null();
    };
    let Ok(path) = str::from_utf8(&buffer[..count]) else {
        return Stdio::null();
    };
    match OpenOptions::new().append(true).create(true).open(rt, path) {
        Ok(file) => Stdio::from(file),
        Err(_) => Stdio::null(),
    }
}

// Puts a word behind a command. None where it is not UTF-8, or there is no memory.
fn put_word(command: &mut Command, word: &Text) -> Option<()> {
    command.arg(str::from_utf8(word.as_bytes()).ok()?).ok()?;
    Some(())
}

// The words as a command. None where a word is not UTF-8, there is none, or there is no memory.
fn command_of(alloc: Global, words: &[Text]) -> Option<Command> {
    let (program, arguments) = words.split_first()?;
    let mut command = Command::new(alloc, str::from_utf8(program.as_bytes()).ok()?).ok()?;
    for word in arguments {
        put_word(&mut command, word)?;
    }
    Some(command)
}

// The same pipe, whose writes wait for nothing.
fn unblocked(stdin: Option<ChildStdin>) -> Option<ChildStdin> {
    let stream = UnixStream::from(OwnedFd::from(stdin?));
    stream.set_nonblocking(true).ok()?;
    Some(ChildStdin::from(OwnedFd::from(stream)))
}

// Two ends of a socket, of which the first one's reads wait for a tick.
fn socket<R: Net>(rt: &R, times: LinkTimes) -> Option<(UnixStream, UnixStream)> {
    let (said, theirs) = UnixStream::pair(rt).ok()?;
    said.set_read_timeout(Some(times.tick)).ok()?;
    Some((said, theirs))
}

// A process whose output comes over this socket, held by two.
fn held_by_two<S>(
    alloc: Global,
    said: UnixStream,
) -> Option<(Arc<ChildProcess<S>>, Arc<ChildProcess<S>>)>
where
    S: OpenProcess<Stdin = ChildStdin, Stdout = ChildStdout, Stderr = ChildStderr> + Drop,
{
    let process = Arc::new(alloc, ChildProcess::new(alloc, said)).ok()?;
    let other = Arc::try_clone(&process).ok()?;
    Some((process, other))
}

// What these words start, with this end of a socket as its output.
fn spawned<R: Processes + Env + Files<File = File>>(
    alloc: Global,
    rt: &R,
    words: &[Text],
    output: UnixStream,
) -> Option<Child<R::Started>> {
    let mut command = command_of(alloc, words)?;
    command
        .stdin(Stdio::piped())
        .stdout(Stdio::from(OwnedFd::from(output)))
        .stderr(errors_of(rt));
    command.spawn(rt).ok()
}

// The process that these words start. Nothing is wanting once it was started.
fn begin<R: Processes + Net + Env + Files<File = File> + Wait>(
    alloc: Global,
    rt: &R,
    words: &[Text],
    times: LinkTimes,
) -> Option<
    (
        Arc<ChildProcess<R::Started>>,
        Arc<ChildProcess<R::Started>>,
        Vec<u8>,
    ),
>
where
    R::Started: OpenProcess<Stdin = ChildStdin, Stdout = ChildStdout, Stderr = ChildStderr>,
{
    let line = Vec::with_capacity(alloc, LINE).ok()?;
    let (said, theirs) = socket(rt, times)?;
    let (process, other) = held_by_two(alloc, said)?;
    let mut child = spawned(alloc, rt, words, theirs)?;
    let stdin = unblocked(child.stdin.take());
    process.begin(rt, child, stdin);
    Some((process, other, line))
}

impl<R: Clock> RealSpawner<R> {
    // Whether the server was stopped too long ago for more processes.
    fn is_over(&self) -> bool {
        match &self.house {
            Some(house) => house.ends_helpers(&self.rt, &self.times),
            None => false,
        }
    }
}

impl<R: Processes + Net + Env + Files<File = File> + Wait + Clock + Copy + Send + Drop> Spawner
    for RealSpawner<R>
where
    R::Started: OpenProcess<Stdin = ChildStdin, Stdout = ChildStdout, Stderr = ChildStderr> + Send,
{
    type ChildOut = RealChildOut<R, R::Started>;

    type ChildIn = RealChildIn<R, R::Started>;

    ghost starts = { λ _. None };

    ghost faults = { λ s. s.faults };

    ghost capped = { λ s. s.capped };

    fn start(
        &mut self,
        alloc: Global,
        words: &[Text],
    ) -> Result<(RealChildOut<R, R::Started>, RealChildIn<R, R::Started>), Failed> {
        let begun = if self.is_over() {
            None
        } else {
            begin(alloc, &self.rt, words, self.times)
        };
        let Some((process, other, line)) = begun else {
            raise(&mut self.faults);
            return Err(Failed);
        };
        let from = RealChildOut {
            rt: self.rt,
            process,
            times: self.times,
            house: copy_of(&self.house),
            front: LineNumber::new(),
            looked: Duration::ZERO,
            faults: 0,
        };
        let to = RealChildIn {
            rt: self.rt,
            process: other,
            line,
            faults: 0,
        };
        Ok((from, to))
    }
}
