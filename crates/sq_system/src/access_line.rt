//! A line of the access log: what its code, its cause and its text are, by what a link has seen of a turn.

use crate::line_text::{put_field, put_number, put_padded, put_word};
use crate::turn_log::TurnSeen;
use sq_addr::print_addr;
use sq_base::{Addr, Text, WantOfMemory};
use sq_outside::{DialFault, DialSeen, TurnEnd};
use std::alloc::Global;

/// How the link of the client stands at the end of a turn.
#[derive(Clone, Copy, PartialEq, Eq)]
pub(crate) enum LinkState {
    /// It is there.
    Stands,
    /// The doorkeeper shut it, since other clients wait for a worker.
    GaveWay,
    /// It was shut since the server is stopped.
    Shutdown,
    /// A limit of time ended it.
    TimedOut,
    /// The client has ended its way in.
    Ended,
    /// The client has reset it.
    Gone,
}

/// Why a turn came to no good end.
#[derive(Clone, Copy, PartialEq, Eq)]
pub(crate) enum TurnCause {
    /// A cause that a dial may have, too.
    Dial(DialFault),
    /// The origin's reply is none that can be passed on.
    NotHttp,
    /// The origin ended its reply, or its link, too early.
    CutOff,
    /// For too long each grant found a bucket empty.
    Starved,
}

impl TurnCause {
    // The word in the line.
    fn name(self) -> &'static [u8] {
        match self {
            TurnCause::Dial(fault) => dial_name(fault),
            TurnCause::NotHttp => b"not_http".as_slice(),
            TurnCause::CutOff => b"cut_off".as_slice(),
            TurnCause::Starved => b"starved".as_slice(),
        }
    }

    // What stands behind the code.
    fn suffix(self) -> &'static [u8] {
        match self {
            TurnCause::Dial(DialFault::ClientGone) => b"_ABORTED".as_slice(),
            TurnCause::Dial(DialFault::TimedOut) => b"_TIMEDOUT".as_slice(),
            _ => b"".as_slice(),
        }
    }
}

fn dial_name(fault: DialFault) -> &'static [u8] {
    match fault {
        DialFault::NameNotFound => b"name_not_found".as_slice(),
        DialFault::LookUpFailed => b"lookup_failed".as_slice(),
        DialFault::Refused => b"refused".as_slice(),
        DialFault::TimedOut => b"timed_out".as_slice(),
        DialFault::Unreachable => b"unreachable".as_slice(),
        DialFault::ClientGone => b"client_gone".as_slice(),
        DialFault::NoThread => b"no_thread".as_slice(),
        DialFault::OutOfMemory => b"out_of_memory".as_slice(),
        DialFault::GaveWay => b"gave_way".as_slice(),
        DialFault::Shutdown => b"shutdown".as_slice(),
        DialFault::Other => b"other".as_slice(),
    }
}

// Why the link of the client failed or ended, if that was not the client's doing.
fn forced(link: LinkState) -> Option<TurnCause> {
    match link {
        LinkState::GaveWay => Some(TurnCause::Dial(DialFault::GaveWay)),
        LinkState::Shutdown => Some(TurnCause::Dial(DialFault::Shutdown)),
        LinkState::TimedOut => Some(TurnCause::Dial(DialFault::TimedOut)),
        LinkState::Stands | LinkState::Ended | LinkState::Gone => None,
    }
}

// Why a link to an origin failed, or gave no reply.
fn origin_cause(dial: &DialSeen, link: LinkState, otherwise: TurnCause) -> TurnCause {
    if dial.timed_out {
        return TurnCause::Dial(DialFault::TimedOut);
    }
    match link {
        LinkState::Gone => TurnCause::Dial(DialFault::ClientGone),
        link => match forced(link) {
            Some(cause) => cause,
            None => otherwise,
        },
    }
}

// Why the origin's reply is none that can be passed on.
fn no_reply_cause(seen: &TurnSeen, dial: &DialSeen, link: LinkState) -> TurnCause {
    let otherwise = if dial.read == 0 || seen.is_origin_cut() {
        TurnCause::CutOff
    } else {
        TurnCause::NotHttp
    };
    origin_cause(dial, link, otherwise)
}

/// Why this turn came to no good end, if it did not.
pub(crate) fn cause_of(seen: &TurnSeen, end: TurnEnd, link: LinkState) -> Option<TurnCause> {
    let dial = match seen.dial() {
        Some(dial) => *dial,
        None => DialSeen::nothing(),
    };
    if let Some(fault) = dial.fault {
        return Some(TurnCause::Dial(fault));
    }
    if seen.has_no_reply() {
        return Some(no_reply_cause(seen, &dial, link));
    }
    match end {
        TurnEnd::Stays | TurnEnd::Closes => seen.own_cause(),
        TurnEnd::Cut => match (forced(link), link) {
            (Some(cause), _) => Some(cause),
            (None, LinkState::Stands) => Some(TurnCause::Dial(DialFault::Other)),
            (None, _) => Some(TurnCause::Dial(DialFault::ClientGone)),
        },
        TurnEnd::ClientFault => match forced(link) {
            Some(cause) => Some(cause),
            None => Some(TurnCause::Dial(DialFault::ClientGone)),
        },
        TurnEnd::OriginCut => Some(origin_cause(&dial, LinkState::Stands, TurnCause::CutOff)),
        TurnEnd::OriginFault => Some(origin_cause(&dial, link, TurnCause::CutOff)),
        TurnEnd::Starved => Some(TurnCause::Starved),
        TurnEnd::WantOfMemory => Some(TurnCause::Dial(DialFault::OutOfMemory)),
    }
}

// Squid's word for what became of the request.
fn code_of(seen: &TurnSeen) -> &'static [u8] {
    if seen.is_denied() {
        return b"TCP_DENIED".as_slice();
    }
    match (seen.dial(), seen.is_connect()) {
        (Some(_), true) => b"TCP_TUNNEL".as_slice(),
        (Some(_), false) => b"TCP_MISS".as_slice(),
        (None, _) if seen.is_redirect() => b"TCP_REDIRECT".as_slice(),
        (None, _) => b"NONE".as_slice(),
    }
}

// What stands for the method and the target where no request came, by the status of the reply.
fn missing_request(status: u16) -> &'static [u8] {
    match status {
        400 => b"NONE error:invalid-request".as_slice(),
        431 => b"NONE error:request-too-large".as_slice(),
        _ => b"NONE error:transaction-end-before-headers".as_slice(),
    }
}

/// The numbers of a line that its link counts.
#[derive(Clone, Copy)]
pub(crate) struct LineTimes {
    /// The milliseconds from 1970 to the end of the turn.
    pub(crate) moment: u64,
    /// How many milliseconds it took.
    pub(crate) elapsed: u64,
    /// How many bytes were read from the client, and written to it.
    pub(crate) read: u64,
    pub(crate) written: u64,
}

// When it ended, how long it took, and whose it was.
fn put_beginning(to: &mut Text, seen: &TurnSeen, times: LineTimes) -> Result<(), WantOfMemory> {
    put_number(to, times.moment / 1000)?;
    to.push(b'.')?;
    put_padded(to, times.moment % 1000, 3, b'0')?;
    to.push(b' ')?;
    put_padded(to, times.elapsed, 6, b' ')?;
    to.push(b' ')?;
    to.append(seen.client())?;
    to.push(b' ')
}

// The code, the status, how many bytes went to the client, and the request.
fn put_request(
    to: &mut Text,
    seen: &TurnSeen,
    cause: Option<TurnCause>,
    written: u64,
) -> Result<(), WantOfMemory> {
    to.append(code_of(seen))?;
    if let Some(cause) = cause {
        to.append(cause.suffix())?;
    }
    to.push(b'/')?;
    put_padded(to, u64::from(seen.status()), 3, b'0')?;
    to.push(b' ')?;
    put_number(to, written)?;
    to.push(b' ')?;
    match seen.request() {
        [] => to.append(missing_request(seen.status())),
        request => to.append(request),
    }
}

// Where the request went, and the type of the proxy's own replies.
fn put_way(
    to: &mut Text,
    alloc: Global,
    addr: Option<Addr>,
    is_text: bool,
) -> Result<(), WantOfMemory> {
    match addr {
        Some(addr) => {
            to.append(b" - HIER_DIRECT/")?;
            to.append(print_addr(alloc, addr)?.as_bytes())?;
        }
        None => to.append(b" - HIER_NONE/-")?,
    }
    to.append(if is_text {
        b" text/plain".as_slice()
    } else {
        b" -".as_slice()
    })
}

// The fields of our own but for the counts.
fn put_numbers(
    to: &mut Text,
    seen: &TurnSeen,
    cause: Option<TurnCause>,
) -> Result<(), WantOfMemory> {
    put_field(to, b" conn=", seen.conn())?;
    if let Some(check) = seen.check() {
        put_field(to, b" check=", check)?;
    }
    if let Some(rule) = seen.rule() {
        put_field(to, b" rule=", u64::from(rule))?;
    }
    if !seen.tag().is_empty() {
        to.append(b" tag=")?;
        to.append(seen.tag())?;
    }
    if let Some(cause) = cause {
        to.append(b" cause=")?;
        to.append(cause.name())?;
    }
    Ok(())
}

// How many bytes came from the client, and went to the origin and came from it.
fn put_counts(to: &mut Text, read: u64, dial: Option<&DialSeen>) -> Result<(), WantOfMemory> {
    put_field(to, b" in=", read)?;
    if let Some(dial) = dial {
        put_field(to, b" up=", dial.written)?;
        put_field(to, b" down=", dial.read)?;
    }
    to.push(b'\n')
}

/// The line of a turn, with an LF in front of it, which the file wants where the line before was cut off.
pub(crate) fn line_of(
    alloc: Global,
    seen: &TurnSeen,
    cause: Option<TurnCause>,
    times: LineTimes,
) -> Result<Text, WantOfMemory> {
    let room = seen.request().len().saturating_add(256);
    let mut line = Text::from_vec(Vec::with_capacity(alloc, room)?);
    line.push(b'\n')?;
    put_beginning(&mut line, seen, times)?;
    put_request(&mut line, seen, cause, times.written)?;
    let addr = match seen.dial() {
        Some(dial) => dial.addr,
        None => None,
    };
    put_way(&mut line, alloc, addr, seen.is_text())?;
    put_numbers(&mut line, seen, cause)?;
    put_counts(&mut line, times.read, seen.dial())?;
    Ok(line)
}

/// The method and the target of a request, in words without blanks.
pub(crate) fn request_words(
    to: &mut Text,
    method: &[u8],
    target: &[u8],
) -> Result<(), WantOfMemory> {
    put_word(to, method)?;
    to.push(b' ')?;
    put_word(to, target)
}
