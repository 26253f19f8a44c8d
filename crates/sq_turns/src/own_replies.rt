//! Replies of the proxy's own, and what decides which.
ghost use Rattle.std.specs.Prelude.{◌≡◌, ◌≤◌, ◌⊎◌, true, false};
ghost use Rattle.sq_outside.specs.Causes.{Rose};
ghost use Rattle.sq_message.specs.OwnReplies.{error_text, denial, redirect_text};
ghost use Rattle.sq_message.specs.Wishes.{has_body};
ghost use Rattle.sq_rewrite.specs.Rewritings.{is_redirect_code};
ghost use Rattle.sq_turns.specs.Steps.{EndHasCause, dry_after};
ghost use Rattle.sq_turns.specs.Written.{WritesReply};
ghost use Rattle.sq_turns.specs.Turns.{is_head, is_connect, is_served, denied_closes, stays_unless, body_own};
ghost use Rattle.sq_turns.specs.declared.ends.Carried.TheVariants.{Stays, Closes};

use crate::ends::{Carried, End};
use sq_base::{BodyPlan, Request};
use sq_message::{BadBody, Own, denial, error_text, redirect_text, status_of, wants_close};
use sq_outside::{Failed, Observed, Sink, write_all};
use sq_rules::Outcome;
use std::alloc::Global;

// The status of a denial.
const FORBIDDEN: u16 = 403;

// Tells a link that there was no memory, where its own reply is sent for that.
fn tell_why<O: Sink>(to: &O, own: Own) {
    if let Own::NoMemory = own {
        to.observe(&Observed::OutOfMemory);
    }
}

/// Sends an own reply, behind which the connection closes.
#[inline(never)]
pub fn say<O: Sink>(alloc: Global, to: &mut O, own: Own, no_body: bool) -> Carried
    ensures tells { WritesReply (error_text own no_body) Closes (O.contents to.old)
        (O.contents to.new) result }
    ensures cause { EndHasCause (Rose (O.faults to.old) (O.faults to.new)) ⊥ result }
    ensures later { O.faults to.old ≤ O.faults to.new }
    ensures dry { dry_after result ≡ 0 }
{
    tell_why(to, own);
    let Ok(text) = error_text(alloc, own, no_body) else {
        return Carried::Over(End::WantOfMemory);
    };
    write_reply(
        to,
        status_of(own).as_u16(),
        text.as_bytes(),
        Carried::Closes,
    )
}

/// Sends a denial.
#[inline(never)]
pub fn deny<O: Sink>(
    alloc: Global,
    to: &mut O,
    outcome: &Outcome,
    no_body: bool,
    closes: bool,
) -> Carried
    requires denied { outcome.now.allow ≡ false }
    ensures tells { WritesReply (denial outcome.now no_body closes) (stays_unless closes)
        (O.contents to.old) (O.contents to.new) result }
    ensures cause { EndHasCause (Rose (O.faults to.old) (O.faults to.new)) ⊥ result }
    ensures later { O.faults to.old ≤ O.faults to.new }
    ensures dry { dry_after result ≡ 0 }
{
    let Ok(text) = denial(alloc, outcome, no_body, closes) else {
        return Carried::Over(End::WantOfMemory);
    };
    if closes {
        write_reply(to, FORBIDDEN, text.as_bytes(), Carried::Closes)
    } else {
        write_reply(to, FORBIDDEN, text.as_bytes(), Carried::Stays)
    }
}

/// Sends the client to this URL with this status, behind which the connection closes.
pub(crate) fn send_elsewhere<O: Sink>(alloc: Global, to: &mut O, status: u16, url: &[u8]) -> Carried
    requires code { is_redirect_code status ≡ true }
    ensures tells { WritesReply (redirect_text status url.now) Closes (O.contents to.old)
        (O.contents to.new) result }
    ensures cause { EndHasCause (Rose (O.faults to.old) (O.faults to.new)) ⊥ result }
    ensures later { O.faults to.old ≤ O.faults to.new }
    ensures dry { dry_after result ≡ 0 }
{
    let Ok(text) = redirect_text(alloc, status, url) else {
        return Carried::Over(End::WantOfMemory);
    };
    write_reply(to, status, text.as_bytes(), Carried::Closes)
}

// Writes the text of a reply with this status, and ends so.
fn write_reply<O: Sink>(to: &mut O, status: u16, text: &[u8], then: Carried) -> Carried
    requires plain { (then ≡ Stays) ⊎ (then ≡ Closes) }
    ensures tells { WritesReply text.now then (O.contents to.old) (O.contents to.new) result }
    ensures cause { EndHasCause (Rose (O.faults to.old) (O.faults to.new)) ⊥ result }
    ensures later { O.faults to.old ≤ O.faults to.new }
    ensures dry { dry_after result ≡ 0 }
{
    to.observe(&Observed::Replies(status));
    match write_all(to, text) {
        Ok(()) => then,
        Err(Failed) => Carried::Over(End::ClientFault),
    }
}

/// Whether its answer has no body.
pub fn is_head(request: &Request) -> bool
    ensures { result ≡ is_head request.now }
{
    request.method.as_bytes() == b"HEAD".as_slice()
}

/// Whether it asks for a tunnel.
pub(crate) fn is_connect(request: &Request) -> bool
    ensures { result ≡ is_connect request.now }
{
    request.method.as_bytes() == b"CONNECT".as_slice()
}

/// Whether it can be forwarded.
pub(crate) fn is_served(request: &Request) -> bool
    ensures { result ≡ is_served request.now }
{
    is_connect(request) || request.scheme.as_bytes() == b"http".as_slice()
}

/// Whether its denial closes the connection.
pub fn denied_closes(request: &Request, plan: BodyPlan) -> bool
    ensures { result ≡ denied_closes request.now plan }
{
    has_body(plan) || wants_close(request)
}

fn has_body(plan: BodyPlan) -> bool
    ensures { result ≡ has_body plan }
{
    match plan {
        BodyPlan::None => false,
        BodyPlan::Length(length) => length > 0,
        BodyPlan::Chunked | BodyPlan::ToClose => true,
    }
}

/// The reply to a body that is refused.
pub(crate) fn body_own(bad: BadBody) -> Own
    ensures { result ≡ body_own bad }
{
    match bad {
        BadBody::BothLengths | BadBody::BadLength => Own::BadRequest,
        BadBody::BadCoding => Own::NotImplemented,
    }
}
