//! Readiness of sockets, by the system's `poll`: the trusted edge. It relies on `poll` to report each socket that can be read or
//! written, that its other side has reset, or that a thread of this program has shut.

use libc::net::{POLLERR, POLLHUP, POLLIN, POLLNVAL, POLLOUT, POLLRDHUP, poll};
use libc::types::pollfd;
use std::os::fd::AsRawFd;
use std::time::Duration;

/// What a socket is asked for.
#[derive(Clone, Copy, PartialEq, Eq)]
pub(crate) enum PollFor {
    /// Whether it can be read.
    Read,
    /// Whether it can be written.
    Write,
    /// Whether its other side has closed its own way out.
    Leaves,
    /// Whether its other side has reset it, or it was shut, alone. `poll` reports this of each socket.
    End,
}

/// An entry of `poll` for this socket.
pub(crate) fn entry(socket: &impl AsRawFd, asked: PollFor) -> pollfd {
    let events = match asked {
        PollFor::Read => POLLIN,
        PollFor::Write => POLLOUT,
        PollFor::Leaves => POLLRDHUP,
        PollFor::End => 0,
    };
    pollfd {
        fd: socket.as_raw_fd(),
        events,
        revents: 0,
    }
}

/// Whether the system reported anything of this entry.
pub(crate) fn is_reported(entry: &pollfd) -> bool {
    entry.revents != 0
}

/// Whether the system reported that the socket of this entry has no other side any more.
pub(crate) fn is_over(entry: &pollfd) -> bool {
    entry.revents & (POLLERR | POLLHUP | POLLNVAL) != 0
}

/// Whether the system reported that the other side has closed its way out.
pub(crate) fn leaves(entry: &pollfd) -> bool {
    entry.revents & POLLRDHUP != 0
}

// Milliseconds for `poll`, rounded up, so that no wait ends before its time.
fn millis(most: Duration) -> i32 {
    let whole = most.as_millis().min(1 << 30) as i32;
    if most.subsec_nanos() % 1_000_000 == 0 {
        whole
    } else {
        whole + 1
    }
}

/// Whether standard input is a pipe whose other end nobody has open any more.
pub(crate) fn is_input_left() -> bool {
    let mut one = [pollfd {
        fd: 0,
        events: 0,
        revents: 0,
    }];
    wait(&mut one, Some(Duration::ZERO));
    one[0].revents & POLLHUP != 0
}

/// Waits until something is to be reported of one of these entries, for so long at the most, or without a limit.
pub(crate) fn wait(entries: &mut [pollfd], most: Option<Duration>) {
    let timeout = match most {
        Some(most) => millis(most),
        None => -1,
    };
    // An error leaves what the entries reported before, which is nothing.
    let _ = poll(entries, timeout);
}
