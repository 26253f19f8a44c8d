//! What the environment hands to the program: a socket that listens, and how long links go on once the server is stopped. This is the
//! trusted edge: it relies on whoever names a socket in the environment to have handed one to which clients come.

use crate::tcp_server::deepen;
use os::FromRawFd;
use std::env::FillError;
use std::io;
use std::net::TcpListener;
use std::rt::Env;
use std::time::Duration;

/// The variable that says how many files were handed.
const FILES: &str = "LISTEN_FDS";

/// The variable that says to which process. A process passes its environment on, so this tells whether this very one is meant.
const PROCESS: &str = "LISTEN_PID";

/// The number of the first file that is handed.
const FIRST: i32 = 3;

/// The variable that says for how many seconds links go on once the server is stopped.
const LINGER: &str = "ACLPROXY_LINGER";

/// The longest time for which links go on, in seconds.
const LONGEST: u64 = 86_400;

/// What a variable says that is a number.
#[derive(Clone, Copy, PartialEq, Eq)]
enum Stated {
    Nothing,
    Number(u64),
    Otherwise,
}

// The number of these bytes, which are decimal digits.
fn number_in(bytes: &[u8]) -> Option<u64> {
    if !bytes.iter().all(u8::is_ascii_digit) {
        return None;
    }
    str::from_utf8(bytes).ok()?.parse().ok()
}

// What this variable says.
fn number_of<R: Env>(rt: &R, name: &str) -> Stated {
    let mut buffer = [0u8; 32];
    match rt.var(name, &mut buffer) {
        Ok(count) => match buffer.get(..count) {
            Some(bytes) => match number_in(bytes) {
                Some(number) => Stated::Number(number),
                None => Stated::Otherwise,
            },
            None => Stated::Otherwise,
        },
        Err(FillError::NotPresent) => Stated::Nothing,
        Err(FillError::TooLong) => Stated::Otherwise,
    }
}

/// Whether a socket was handed to this process.
pub(crate) fn is_socket_handed<R: Env>(rt: &R) -> bool {
    let process = u64::from(libc::getpid().unsigned_abs());
    match number_of(rt, FILES) {
        Stated::Number(count) => count > 0 && number_of(rt, PROCESS) == Stated::Number(process),
        _ => false,
    }
}

/// The socket that was handed. The error is the system's, also where it is none, or none that listens.
pub(crate) fn handed_socket() -> io::Result<TcpListener> {
    // The number is a new one of the same socket, so nothing else in this program closes it; the one that was handed stays open.
    let number = os::duplicate(FIRST);
    if number < 0 {
        return Err(io::Error::from_raw_os_error(os::errno()));
    }
    let listener = unsafe { TcpListener::from_raw_fd(number) };
    listener.local_addr()?;
    listener.set_nonblocking(false)?;
    if !deepen(&listener) {
        return Err(io::Error::from_raw_os_error(os::errno()));
    }
    Ok(listener)
}

/// How long links go on once the server is stopped.
#[derive(Clone, Copy, PartialEq, Eq)]
pub(crate) enum Linger {
    /// As usual, since nobody says.
    Usual,
    /// As long as the variable says.
    For(Duration),
    /// As usual, since what the variable says is no such time.
    Faulty,
}

/// What the variable says.
pub(crate) fn linger_stated<R: Env>(rt: &R) -> Linger {
    match number_of(rt, LINGER) {
        Stated::Nothing => Linger::Usual,
        Stated::Number(seconds) if seconds > 0 && seconds <= LONGEST => {
            Linger::For(Duration::from_secs(seconds))
        }
        _ => Linger::Faulty,
    }
}
