//! The access log: the file or the pipe that the variable `ACLPROXY_ACCESS_LOG` names. This is the trusted edge: it relies on the system
//! to put each piece that is written behind the end of a file, and to take it whole or say at once that it does not.
//!
//! A line is one write. Nobody waits for another: a line that cannot be written is dropped and counted, and how many were dropped is
//! said in the file that `ACLPROXY_MESSAGES` names, at most once a minute and at the end.

use crate::link_stream::{copied, put};
use crate::messages;
use os::FromRawFd;
use sq_base::Text;
use std::alloc::Global;
use std::fs::File;
use std::io::Write;
use std::os::fd::{AsRawFd, OwnedFd};
use std::rt::{Env, Files};
use std::sync::atomic::{AtomicBool, AtomicU64, Ordering};
use std::sync::{Arc, Mutex};
use std::time::Clock;

/// The variable that names the file.
const VARIABLE: &str = "ACLPROXY_ACCESS_LOG";

/// How it is opened. To read it, too, is what keeps the opening of a pipe from waiting for a reader.
const FLAGS: i32 = libc::O_RDWR | libc::O_APPEND | libc::O_CREAT | libc::O_CLOEXEC;

/// Who may read and write a file that is created, as far as the mask of the process lets them.
const MODE: u32 = 0o666;

/// For how many milliseconds a message is not repeated.
const QUIET: u64 = 60_000;

/// An access log, which is off until a server begins.
pub struct AccessLog {
    alloc: Global,
    path: Mutex<Option<Arc<Text>>>,
    file: Mutex<Option<Arc<OwnedFd>>>,
    messages: Mutex<Option<Arc<File>>>,
    // How many milliseconds 1970 is behind the zero of the times that are given.
    ahead: AtomicU64,
    // Whether the last line was written in part.
    torn: AtomicBool,
    // How many lines were dropped since that was said last, and when it was; 0 is never.
    dropped: AtomicU64,
    told: AtomicU64,
}

// Written out, so that what lets a handle of it go proves one call.
impl Drop for AccessLog {
    fn drop(self) {
        let AccessLog {
            alloc: _,
            path: _,
            file: _,
            messages: _,
            ahead: _,
            torn: _,
            dropped: _,
            told: _,
        } = self;
    }
}

impl AccessLog {
    /// A log that is off.
    pub fn new(alloc: Global) -> AccessLog {
        AccessLog {
            alloc,
            path: Mutex::new(None),
            file: Mutex::new(None),
            messages: Mutex::new(None),
            ahead: AtomicU64::new(0),
            torn: AtomicBool::new(false),
            dropped: AtomicU64::new(0),
            told: AtomicU64::new(0),
        }
    }

    // Writes a message for the administrator. Where that is not possible there is none.
    fn say(&self, line: &str) {
        if let Some(file) = copied(&self.messages) {
            let mut file: &File = &file;
            let _ = file.write(line.as_bytes());
        }
    }

    // Opens the file that has the name. Where that fails the file before stays.
    fn open(&self, path: &Text) -> Option<()> {
        let number = os::open_with(path.as_bytes(), FLAGS, MODE);
        if number < 0 {
            return None;
        }
        // A full pipe takes nothing then, in place of waiting. The number is a new one, so nothing else in this program closes it.
        let _ = os::set_nonblocking(number, true);
        let file = unsafe { OwnedFd::from_raw_fd(number) };
        put(&self.file, Some(Arc::new(self.alloc, file).ok()?));
        Some(())
    }

    /// Opens the file anew, if the log is on. Nobody who writes waits for this.
    pub(crate) fn renew(&self) {
        if let Some(path) = copied(&self.path) {
            if self.open(&path).is_none() {
                self.say("access log: the file cannot be opened\n");
            }
        }
    }

    // Where messages go, on which nobody waits.
    fn open_messages<R: Env + Files<File = File>>(&self, rt: &R) -> Option<()> {
        let file = messages::opened(rt)?;
        let _ = os::set_nonblocking(file.as_raw_fd(), true);
        put(&self.messages, Some(Arc::new(self.alloc, file).ok()?));
        Some(())
    }

    // Turns the log on, if the variable names a file.
    fn name<R: Env>(&self, rt: &R) -> Option<()> {
        let mut buffer = [0u8; 4096];
        let count = rt.var(VARIABLE, &mut buffer).ok()?;
        if count == 0 {
            return None;
        }
        let path = Text::from_slice(self.alloc, buffer.get(..count)?).ok()?;
        put(&self.path, Some(Arc::new(self.alloc, path).ok()?));
        Some(())
    }

    /// A server begins. Whether it keeps a log, which is so if the variable names a file.
    pub(crate) fn begin<R: Env + Files<File = File> + Clock>(&self, rt: &R) -> bool {
        if self.name(rt).is_none() {
            return false;
        }
        if let (Ok(since), Ok(passed)) = (rt.since_1970(), rt.monotonic()) {
            let ahead = since.saturating_sub(passed).as_millis().min(1 << 60) as u64;
            self.ahead.store(ahead, Ordering::SeqCst);
        }
        let _ = self.open_messages(rt);
        self.renew();
        true
    }

    pub(crate) fn alloc(&self) -> Global {
        self.alloc
    }

    /// The milliseconds from 1970 to a time of the house's. As in a journal a clock that is set meanwhile changes nothing.
    pub(crate) fn moment(&self, now: u64) -> u64 {
        let ahead = self.ahead.load(Ordering::Relaxed);
        ahead.saturating_add(now).saturating_sub(1)
    }

    /// A line was dropped.
    pub(crate) fn lose(&self) {
        self.dropped.fetch_add(1, Ordering::Relaxed);
    }

    /// Writes a line, which has an LF in front of it that goes out only behind a line that was cut off.
    pub(crate) fn write(&self, line: &[u8]) {
        if !self.is_written(line) {
            self.lose();
        }
    }

    // Whether a line was written whole.
    fn is_written(&self, line: &[u8]) -> bool {
        let Some(file) = copied(&self.file) else {
            return false;
        };
        let torn = self.torn.swap(false, Ordering::Relaxed);
        let Some(bytes) = line.get(if torn { 0 } else { 1 }..) else {
            return false;
        };
        let Ok(count) = usize::try_from(libc::write(file.as_raw_fd(), bytes)) else {
            if torn {
                self.torn.store(true, Ordering::Relaxed);
            }
            return false;
        };
        if count < bytes.len() {
            self.torn.store(torn || count > 0, Ordering::Relaxed);
            return false;
        }
        true
    }

    // Says how many lines were dropped since that was said last.
    fn tell_dropped(&self) {
        let count = self.dropped.swap(0, Ordering::Relaxed);
        if count == 0 {
            return;
        }
        match format!(in self.alloc; "access log: {count} lines were dropped\n") {
            Ok(line) => self.say(line.as_str()),
            Err(_) => {
                self.dropped.fetch_add(count, Ordering::Relaxed);
            }
        }
    }

    /// Says how many lines were dropped, if some were and that is due.
    pub(crate) fn tell(&self, now: u64) {
        if self.dropped.load(Ordering::Relaxed) == 0 {
            return;
        }
        let told = self.told.load(Ordering::Relaxed);
        if told > 0 && now.saturating_sub(told) < QUIET {
            return;
        }
        self.told.store(now, Ordering::Relaxed);
        self.tell_dropped();
    }

    /// The server has ended: says how many lines were dropped, if some were.
    pub fn end(&self) {
        self.tell_dropped();
    }
}
