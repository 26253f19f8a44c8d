//! `session`: one connection of a client.
ghost use Rattle.std.specs.Prelude.{◌≡◌, ◌-◌, ◌≤◌, ◌⊎◌, false};
ghost use Rattle.sq_outside.specs.Causes.{Rose};
ghost use Rattle.sq_outside.specs.Dials.{IsClosed};
ghost use Rattle.sq_message.specs.OwnReplies.{error_text};
ghost use Rattle.sq_forward.specs.Halves.{to_come};
ghost use Rattle.sq_turns.specs.Told.{ServesTold, SessionTold};
ghost use Rattle.sq_turns.specs.Sessions.{TellsWhole, SessionHasCause, dry_after_session, session_seen};
ghost use Rattle.sq_turns.specs.Steps.{front_seen};
ghost use Rattle.sq_turns.specs.Verdicts.{refusal_of};

use crate::turning::{tell_ended, turn};
use sq_base::Addr;
use sq_forward::{Duplex, Ends, Meter};
use sq_message::Own;
use sq_outside::{Dialer, Out, Sink};
use sq_turns::{Carried, End, Front, Opened, say};
use std::alloc::Global;
use std::sync::Wait;
use std::thread::Threads;

/// How a session ended, and what it asked for and was granted.
#[derive(Clone, Copy, Debug, PartialEq, Eq)]
pub struct SessionEnd {
    /// Why it ended.
    pub why: End,
    /// How many requests were asked about.
    pub requests: u64,
    /// How many bytes were granted on seats.
    pub granted: u64,
}

/// Serves the connection of a client at this address and port, from its first byte to its last, and closes it. It
/// may wait as long as a source gives bytes, and as a helper owes an answer.
pub fn session<R: Threads + Wait + Sync, C: Ends, F: Front, D: Dialer>(
    rt: &R,
    alloc: Global,
    client: &mut Duplex<C>,
    addr: Addr,
    port: u16,
    front: &mut F,
    dialer: &mut D,
) -> SessionEnd
    requires dry { F.Meter.dry front.old ≡ 0 }
    requires unseated { F.Meter.seated front.old ≡ false }
    // The front is opened for this address and port, asked about each request that came, and closed where it was opened.
    // What was written is what the turns of the input give, with the front's answers and the origins' bytes.
    ensures told { SessionTold addr port (to_come C.In.left client.old.from)
        (front_seen (F.stands front.old) (F.stands front.new))
        (session_seen (C.Outgo.Sink.contents client.old.to) (C.Outgo.Sink.contents client.new.to)
        (F.Meter.granted front.old)
        (F.Meter.granted front.new) (D.dialled dialer.old)) (D.dialled dialer.new)
        (Rose (D.faults dialer.old) (D.faults dialer.new)) result.why }
    ensures number { F.number front.new ≡ F.number front.old }
    ensures requests { result.requests ≡ F.asked front.new - F.asked front.old }
    ensures granted { result.granted ≡ F.Meter.granted front.new - F.Meter.granted front.old }
    ensures cause { SessionHasCause
        (Rose (C.In.faults client.old.from.source) (C.In.faults client.new.from.source)
        ⊎ Rose (C.Outgo.Sink.faults client.old.to) (C.Outgo.Sink.faults client.new.to))
        (Rose (D.faults dialer.old) (D.faults dialer.new)) result.why }
    // Starved exactly where the front is that dry.
    ensures dry { F.Meter.dry front.new ≡ dry_after_session result.why }
    ensures unseated { F.Meter.seated front.new ≡ false }
    ensures closed { IsClosed (C.Outgo.closed client.new.to) }
    ensures client_later { C.In.faults client.old.from.source ≤ C.In.faults client.new.from.source }
    ensures to_later { C.Outgo.Sink.faults client.old.to ≤ C.Outgo.Sink.faults client.new.to }
    ensures dialer_later { D.faults dialer.old ≤ D.faults dialer.new }
{
    let before = front.counted();
    let why = open(rt, alloc, client, addr, port, front, dialer);
    client.to.close();
    let after = front.counted();
    SessionEnd {
        why,
        requests: after.asked - before.asked,
        granted: after.granted.saturating_sub(before.granted),
    }
}

// Opens the connection, serves it and closes it; or says why it is not opened.
fn open<R: Threads + Wait + Sync, C: Ends, F: Front, D: Dialer>(
    rt: &R,
    alloc: Global,
    client: &mut Duplex<C>,
    addr: Addr,
    port: u16,
    front: &mut F,
    dialer: &mut D,
) -> End
    requires dry { F.Meter.dry front.old ≡ 0 }
    requires unseated { F.Meter.seated front.old ≡ false }
    ensures told { SessionTold addr port (to_come C.In.left client.old.from)
        (front_seen (F.stands front.old) (F.stands front.new))
        (session_seen (C.Outgo.Sink.contents client.old.to) (C.Outgo.Sink.contents client.new.to)
        (F.Meter.granted front.old)
        (F.Meter.granted front.new) (D.dialled dialer.old)) (D.dialled dialer.new)
        (Rose (D.faults dialer.old) (D.faults dialer.new)) result }
    ensures cause { SessionHasCause
        (Rose (C.In.faults client.old.from.source) (C.In.faults client.new.from.source)
        ⊎ Rose (C.Outgo.Sink.faults client.old.to) (C.Outgo.Sink.faults client.new.to))
        (Rose (D.faults dialer.old) (D.faults dialer.new)) result }
    ensures dry { F.Meter.dry front.new ≡ dry_after_session result }
    ensures unseated { F.Meter.seated front.new ≡ false }
    ensures number { F.number front.new ≡ F.number front.old }
    ensures asked { F.asked front.old ≤ F.asked front.new }
    ensures client_later { C.In.faults client.old.from.source ≤ C.In.faults client.new.from.source }
    ensures to_later { C.Outgo.Sink.faults client.old.to ≤ C.Outgo.Sink.faults client.new.to }
    ensures dialer_later { D.faults dialer.old ≤ D.faults dialer.new }
{
    match refusal_of(front.open(alloc, addr, port)) {
        None => {
            let why = serve(rt, alloc, client, addr, front, dialer);
            let _closed = front.close();
            why
        }
        Some(own) => refuse(alloc, &mut client.to, own),
    }
}

// The reply to a connection that is not opened.
fn refusal_of(opened: Opened) -> Option<Own>
    ensures { result ≡ refusal_of opened }
{
    match opened {
        Opened::In => None,
        Opened::Full => Some(Own::TooManyConns),
        Opened::Refused(_) => Some(Own::Inner),
        Opened::JournalFault => Some(Own::Stopped),
        Opened::WantOfMemory => Some(Own::NoMemory),
    }
}

// Says why the connection is not opened.
#[inline(never)]
fn refuse<O: Sink>(alloc: Global, to: &mut O, own: Own) -> End
    ensures tells { TellsWhole (error_text own false) (O.contents to.old) (O.contents to.new)
        result }
    ensures cause { SessionHasCause (Rose (O.faults to.old) (O.faults to.new)) ⊥ result }
    ensures later { O.faults to.old ≤ O.faults to.new }
    ensures dry { dry_after_session result ≡ 0 }
{
    let carried = say(alloc, to, own, false);
    tell_ended(to, carried);
    match carried {
        Carried::Stays => End::Finished,
        Carried::Closes => End::Finished,
        Carried::Over(end) => end,
    }
}

// Takes one turn after the other.
fn serve<R: Threads + Wait + Sync, C: Ends, F: Front, D: Dialer>(
    rt: &R,
    alloc: Global,
    client: &mut Duplex<C>,
    addr: Addr,
    front: &mut F,
    dialer: &mut D,
) -> End
    requires dry { F.Meter.dry front.old ≡ 0 }
    requires unseated { F.Meter.seated front.old ≡ false }
    ensures told { ServesTold addr (to_come C.In.left client.old.from)
        (front_seen (F.stands front.old) (F.stands front.new))
        (session_seen (C.Outgo.Sink.contents client.old.to) (C.Outgo.Sink.contents client.new.to)
        (F.Meter.granted front.old)
        (F.Meter.granted front.new) (D.dialled dialer.old)) (D.dialled dialer.new)
        (Rose (D.faults dialer.old) (D.faults dialer.new)) result }
    ensures cause { SessionHasCause
        (Rose (C.In.faults client.old.from.source) (C.In.faults client.new.from.source)
        ⊎ Rose (C.Outgo.Sink.faults client.old.to) (C.Outgo.Sink.faults client.new.to))
        (Rose (D.faults dialer.old) (D.faults dialer.new)) result }
    ensures dry { F.Meter.dry front.new ≡ dry_after_session result }
    ensures unseated { F.Meter.seated front.new ≡ false }
    ensures number { F.number front.new ≡ F.number front.old }
    ensures asked { F.asked front.old ≤ F.asked front.new }
    ensures client_later { C.In.faults client.old.from.source ≤ C.In.faults client.new.from.source }
    ensures to_later { C.Outgo.Sink.faults client.old.to ≤ C.Outgo.Sink.faults client.new.to }
    ensures dialer_later { D.faults dialer.old ≤ D.faults dialer.new }
{
    for _ in rt.forever() {
        let carried = turn(rt, alloc, client, addr, front, dialer);
        tell_ended(&client.to, carried);
        match carried {
            Carried::Stays => {}
            Carried::Closes => return End::Finished,
            Carried::Over(end) => return end,
        }
    }
    unreachable!()
}
