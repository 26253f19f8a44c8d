//! What the link of a client has seen of its turn, for the line of the access log.
//!
//! A link takes memory for this only where there is a log: once as it is served, and for each request's method and target, which stand
//! there as the line has them. The thread that carries the link calls all of this, and its lock is never held by another.

use crate::access_line::{LineTimes, LinkState, TurnCause, cause_of, line_of, request_words};
use crate::access_log::AccessLog;
use crate::line_text::put_word;
use crate::link_stream::{LinkStream, LinkWatch};
use sq_addr::print_addr;
use sq_base::{Addr, Request, Text, WantOfMemory};
use sq_outside::{DialFault, DialSeen, Observed, TurnEnd};
use std::alloc::Global;
use std::sync::Mutex;
use std::time::Clock;

/// What a link has seen of its turn.
#[derive(Drop)]
pub(crate) struct TurnSeen {
    // The address of the client, and the method and target of the request; empty where none came.
    client: Text,
    request: Text,
    // The tag of its check; empty where it has none.
    tag: Text,
    conn: u64,
    check: Option<u64>,
    rule: Option<u32>,
    dial: Option<DialSeen>,
    // When it began, and what the link had read and written then.
    begun: u64,
    read: u64,
    written: u64,
    // The status of the final reply; 0 where there was none.
    status: u16,
    denied: bool,
    connect: bool,
    no_reply: bool,
    // Whether the proxy replied by itself since there was no memory.
    no_memory: bool,
    origin_cut: bool,
    // Whether the memory for its line was wanting.
    lost: bool,
    // Whether a request came on this link in an earlier turn.
    later: bool,
}

impl TurnSeen {
    fn new(alloc: Global, conn: u64, addr: Addr, begun: u64) -> Result<TurnSeen, WantOfMemory> {
        Ok(TurnSeen {
            client: print_addr(alloc, addr)?,
            request: Text::new(alloc),
            tag: Text::new(alloc),
            conn,
            check: None,
            rule: None,
            dial: None,
            begun,
            read: 0,
            written: 0,
            status: 0,
            denied: false,
            connect: false,
            no_reply: false,
            no_memory: false,
            origin_cut: false,
            lost: false,
            later: false,
        })
    }

    // The next turn of the link begins.
    fn begin_next(&mut self, alloc: Global, line: &LinkStream, now: u64) {
        self.later = self.later || self.lost || !self.request.is_empty();
        self.request = Text::new(alloc);
        self.tag = Text::new(alloc);
        self.check = None;
        self.rule = None;
        self.dial = None;
        self.begun = now;
        self.read = line.read_count();
        self.written = line.written_count();
        self.status = 0;
        self.denied = false;
        self.connect = false;
        self.no_reply = false;
        self.no_memory = false;
        self.origin_cut = false;
        self.lost = false;
    }

    // A request came, whose last byte was read at this time.
    fn ask(&mut self, alloc: Global, request: &Request, begun: u64) {
        self.begun = begun;
        self.connect = request.method.as_bytes() == b"CONNECT".as_slice();
        let mut words = Text::new(alloc);
        let put = request_words(
            &mut words,
            request.method.as_bytes(),
            request.target.as_bytes(),
        );
        self.lost = put.is_err();
        self.request = words;
    }

    // The check has this tag.
    fn tag_with(&mut self, alloc: Global, tag: &Text) {
        let mut word = Text::new(alloc);
        self.lost = self.lost || put_word(&mut word, tag.as_bytes()).is_err();
        self.tag = word;
    }

    // Notes what happens within a turn.
    fn note(&mut self, alloc: Global, line: &LinkStream, what: &Observed) {
        match what {
            Observed::Asked(request) => self.ask(alloc, request, line.last()),
            Observed::Judged {
                check,
                allow,
                rule,
                tag,
            } => {
                self.check = Some(check.0);
                self.denied = !*allow;
                self.rule = *rule;
                if let Some(tag) = tag {
                    self.tag_with(alloc, tag);
                }
            }
            Observed::Replies(status) => self.status = *status,
            Observed::OutOfMemory => self.no_memory = true,
            Observed::NoReply => self.no_reply = true,
            Observed::Dialled(dial) => {
                self.dial = Some(*dial);
                self.origin_cut = line.is_origin_cut();
            }
            _ => {}
        }
    }

    /// The address of the client.
    pub(crate) fn client(&self) -> &[u8] {
        self.client.as_bytes()
    }

    /// The method and the target, as the line has them; nothing where no request came.
    pub(crate) fn request(&self) -> &[u8] {
        self.request.as_bytes()
    }

    /// The tag of its check, as the line has it; nothing where it has none.
    pub(crate) fn tag(&self) -> &[u8] {
        self.tag.as_bytes()
    }

    pub(crate) fn conn(&self) -> u64 {
        self.conn
    }

    pub(crate) fn check(&self) -> Option<u64> {
        self.check
    }

    pub(crate) fn rule(&self) -> Option<u32> {
        self.rule
    }

    /// The dial that was made, or that failed.
    pub(crate) fn dial(&self) -> Option<&DialSeen> {
        self.dial.as_ref()
    }

    pub(crate) fn status(&self) -> u16 {
        self.status
    }

    /// Whether the origin ended its link before its reply was passed on.
    pub(crate) fn is_origin_cut(&self) -> bool {
        self.origin_cut
    }

    pub(crate) fn has_no_reply(&self) -> bool {
        self.no_reply
    }

    pub(crate) fn is_connect(&self) -> bool {
        self.connect
    }

    pub(crate) fn is_denied(&self) -> bool {
        self.denied
    }

    // Whether the reply is the proxy's own.
    fn is_own(&self) -> bool {
        match &self.dial {
            Some(dial) => dial.fault.is_some() || self.no_reply,
            None => true,
        }
    }

    /// Whether the client is sent elsewhere: a reply of the proxy's own, by the rewriter's word.
    pub(crate) fn is_redirect(&self) -> bool {
        self.is_own() && self.check.is_some() && (300..400).contains(&self.status)
    }

    /// Whether the reply is a text of the proxy's own.
    pub(crate) fn is_text(&self) -> bool {
        self.status > 0 && self.is_own() && !self.is_redirect()
    }

    /// Why the proxy replied by itself, where no dial and no rule tells it.
    pub(crate) fn own_cause(&self) -> Option<TurnCause> {
        if self.no_memory {
            Some(TurnCause::Dial(DialFault::OutOfMemory))
        } else if self.status == 500 && self.is_own() {
            Some(TurnCause::Dial(DialFault::Other))
        } else {
            None
        }
    }

    // Whether nothing happened in this turn, of a link on which requests came before.
    fn is_nothing(&self) -> bool {
        self.later && self.request.is_empty() && self.status == 0 && !self.lost
    }
}

/// What a link has seen, if its turns are written down.
pub(crate) struct TurnLog {
    seen: Mutex<Option<Box<TurnSeen>>>,
}

// Written out, so that what lets a half of a link go proves one call.
impl Drop for TurnLog {
    fn drop(self) {
        let TurnLog { seen: _ } = self;
    }
}

impl TurnLog {
    /// Nothing was seen yet. It takes no memory.
    pub(crate) fn new() -> TurnLog {
        TurnLog {
            seen: Mutex::new(None),
        }
    }

    // The link is served.
    fn begin(&self, log: &AccessLog, conn: u64, addr: Addr, begun: u64) {
        let alloc = log.alloc();
        let Ok(seen) = TurnSeen::new(alloc, conn, addr, begun) else {
            return;
        };
        let Ok(boxed) = Box::new(alloc, seen) else {
            return;
        };
        if let Some(mut held) = self.seen.try_lock() {
            *held = Some(boxed);
        }
    }
}

// Writes the line of a turn, which has ended now.
fn write_line<R: Clock>(
    log: &AccessLog,
    watch: &LinkWatch<R>,
    seen: &TurnSeen,
    end: TurnEnd,
    now: u64,
) {
    let line = &watch.line;
    let times = LineTimes {
        moment: log.moment(now),
        elapsed: now.saturating_sub(seen.begun),
        read: line.read_count().saturating_sub(seen.read),
        written: line.written_count().saturating_sub(seen.written),
    };
    let ends_well = matches!(end, TurnEnd::Stays | TurnEnd::Closes) && !seen.no_reply;
    let link = if ends_well {
        LinkState::Stands
    } else {
        watch.state()
    };
    let cause = cause_of(seen, end, link);
    match line_of(log.alloc(), seen, cause, times) {
        Ok(text) if !seen.lost => log.write(text.as_bytes()),
        _ => log.lose(),
    }
}

// A turn has ended.
fn end_turn<R: Clock>(turn: &TurnLog, log: &AccessLog, watch: &LinkWatch<R>, end: TurnEnd) {
    let now = watch.now();
    match turn.seen.try_lock() {
        Some(mut held) => match &mut *held {
            Some(seen) => {
                if !seen.is_nothing() {
                    write_line(log, watch, seen, end, now);
                }
                seen.begin_next(log.alloc(), &watch.line, now);
            }
            None => log.lose(),
        },
        None => log.lose(),
    }
    log.tell(now);
}

/// Notes what a link is told, and writes the line where a turn has ended. Its locals are no part of the stack on which a link waits.
#[inline(never)]
pub(crate) fn note<R: Clock>(
    turn: &TurnLog,
    log: &AccessLog,
    watch: &LinkWatch<R>,
    what: &Observed,
) {
    match what {
        Observed::Served {
            conn,
            addr,
            port: _,
        } => turn.begin(log, conn.0, *addr, watch.line.last()),
        Observed::Ended(end) => end_turn(turn, log, watch, *end),
        what => {
            if let Some(mut held) = turn.seen.try_lock() {
                if let Some(seen) = &mut *held {
                    seen.note(log.alloc(), &watch.line, what);
                }
            }
        }
    }
}
