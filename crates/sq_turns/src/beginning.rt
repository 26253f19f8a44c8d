//! What a client's input begins with.
ghost use Rattle.std.specs.Prelude.{◌≡◌, ◌≤◌, ◌+◌, length, max, count_by};
ghost use Rattle.sq_message.specs.ReplyHeads.{most_bytes};
ghost use Rattle.sq_outside.specs.Causes.{Rose};
ghost use Rattle.sq_forward.specs.Halves.{to_come, read_limit};
ghost use Rattle.sq_turns.specs.Told.{BeginsTold};
ghost use Rattle.sq_turns.specs.Begins.{is_blank, ended_as, is_host, fits_hosts};
ghost use Rattle.sq_turns.specs.Verdicts.{heard_of};

use crate::ends::{Carried, End};
use http_header::HOST;
use sq_base::{Field, Request};
use sq_forward::{Half, HeadFound, find_head};
use sq_message::Own;
use sq_outside::Source;
use sq_request::{BadRequest, read_request};
use std::alloc::Global;
use std::sync::Wait;

/// What an input begins with.
#[derive(Drop)]
pub enum Begun {
    /// A request.
    Asks(Request),
    /// Nothing, or empty lines alone.
    Nothing,
    /// A head that the end cuts off.
    Cut,
    /// A head with too many bytes or fields.
    TooLarge,
    /// A head that is refused.
    Bad,
    /// The link failed.
    Failed,
    /// There was no memory.
    WantOfMemory,
}

/// What becomes of what an input begins with.
#[derive(Drop)]
pub enum Heard {
    /// The request is answered.
    Asks(Request),
    /// The client gets this reply.
    Refused(Own),
    /// The turn ends so, and the client gets nothing.
    Silent(Carried),
}

/// What becomes of what an input begins with.
#[inline(never)]
pub fn heard_of(begun: Begun) -> Heard
    ensures { result ≡ heard_of begun }
{
    match begun {
        Begun::Asks(request) => Heard::Asks(request),
        Begun::Nothing => Heard::Silent(Carried::Closes),
        Begun::Cut => Heard::Silent(Carried::Over(End::Cut)),
        Begun::TooLarge => Heard::Refused(Own::HeadTooLarge),
        Begun::Bad => Heard::Refused(Own::BadRequest),
        Begun::Failed => Heard::Silent(Carried::Over(End::ClientFault)),
        Begun::WantOfMemory => Heard::Refused(Own::NoMemory),
    }
}

/// Reads the head of the next request. What follows it stays.
#[inline(never)]
pub fn next_request<R: Wait, S: Source>(rt: &R, alloc: Global, client: &mut Half<S>) -> Begun
    ensures begins { BeginsTold (to_come S.left client.old) (to_come S.left client.new) result }
    ensures cause { result ≡ Begun.Failed
        → Rose (S.faults client.old.source) (S.faults client.new.source) }
    ensures later { S.faults client.old.source ≤ S.faults client.new.source }
    ensures dialled { S.origin client.new.source ≡ S.origin client.old.source }
    ensures few { length client.new.ahead
        ≤ max (length client.old.ahead) (most_bytes + read_limit) }
{
    let len = match find_head(rt, client, false) {
        HeadFound::Whole(len) => len,
        HeadFound::TooLarge => return Begun::TooLarge,
        HeadFound::Ended => return ended(client.ahead.as_bytes()),
        HeadFound::Failed => return Begun::Failed,
        HeadFound::WantOfMemory => return Begun::WantOfMemory,
    };
    let (head, _) = client.ahead.as_bytes().split_at(len);
    let request = match read_request(alloc, head) {
        Ok(request) => request,
        Err(BadRequest::BadHead) => return Begun::Bad,
        Err(BadRequest::TooManyFields) => return Begun::TooLarge,
        Err(BadRequest::BadTarget) => return Begun::Bad,
        Err(BadRequest::WantOfMemory) => return Begun::WantOfMemory,
    };
    client.drop_front(len);
    Begun::Asks(request)
}

// What an input is that ends before a head does.
fn ended(ahead: &[u8]) -> Begun
    ensures { result ≡ ended_as (is_blank ahead.now) }
{
    if is_blank(ahead) {
        Begun::Nothing
    } else {
        Begun::Cut
    }
}

// Whether the bytes are empty lines alone.
fn is_blank(bytes: &[u8]) -> bool
    ensures { result ≡ is_blank bytes.now }
{
    let mut after_cr = false;
    for byte in bytes {
        if *byte == b'\n' {
            after_cr = false;
        } else if *byte == b'\r' && !after_cr {
            after_cr = true;
        } else {
            return false;
        }
    }
    !after_cr
}

/// Whether the request has one Host field, or none in version 1.0. It takes no memory.
pub(crate) fn fits_hosts(request: &Request) -> bool
    ensures { result ≡ fits_hosts request.now }
{
    let hosts = host_count(request.fields.as_slice());
    hosts == 1 || (hosts == 0 && request.minor == 0)
}

fn host_count(fields: &[Field]) -> usize
    ensures { result ≡ count_by is_host fields.now }
{
    fields.iter().filter(|field| is_host(field)).count()
}

fn is_host(field: &Field) -> bool
    ensures { result ≡ is_host field.now }
{
    field.name.as_bytes().eq_ignore_ascii_case(HOST.as_bytes())
}
