//! The replies of the proxy's own.
ghost use Rattle.std.specs.Prelude.{◌≡◌, ◌++◌, false, IfOk, OnOk};
ghost use Rattle.http.specs.StatusCode.{IsStatusCode};
ghost use Rattle.sq_message.specs.OwnReplies.{own_words, own_body, own_reply, error_text, denial, redirect_text};
ghost use Rattle.sq_message.specs.Statuses.{status_words, own_code};

use crate::lines::{put_closing, put_number};
use crate::outcomes::outcome_text;
use http::StatusCode;
use sq_base::{Text, WantOfMemory};
use sq_rules::Outcome;
use std::alloc::Global;

/// A reply of the proxy's own, other than a denial.
#[derive(Clone, Copy, Debug)]
pub enum Own {
    /// 400: the head, its target, its Host fields or the length of its body are refused.
    BadRequest,
    /// 431: the head is too large.
    HeadTooLarge,
    /// 500: the proxy's parts do not agree, or no number is left for a seat.
    Inner,
    /// 500: the journal could not be written.
    Stopped,
    /// 500: there was no memory.
    NoMemory,
    /// 501: the scheme or the transfer coding is not known.
    NotImplemented,
    /// 502: the origin can't be reached, or its reply is refused.
    BadGateway,
    /// 503: too many connections are open.
    TooManyConns,
}

/// The reply to a request that is denied: 403 with the outcome. The answer to HEAD has no body.
#[tactic(auto, unfolding(crate::specs::OwnReplies::denial))]
pub fn denial(
    alloc: Global,
    outcome: &Outcome,
    no_body: bool,
    closes: bool,
) -> Result<Text, WantOfMemory>
    requires { outcome.now.allow ≡ false }
    ensures text { IfOk result (λ t. t ≡ denial outcome.now no_body closes) }
{
    let line = outcome_text(alloc, outcome)?;
    own_reply(
        alloc,
        StatusCode::FORBIDDEN,
        line.as_bytes(),
        no_body,
        closes,
    )
}

/// A reply of the proxy's own, behind which the connection closes. The answer to HEAD has no body.
#[tactic(auto, unfolding(crate::specs::OwnReplies::error_text))]
pub fn error_text(alloc: Global, own: Own, no_body: bool) -> Result<Text, WantOfMemory>
    ensures text { IfOk result (λ t. t ≡ error_text own no_body) }
{
    own_reply(alloc, status_of(own), words_of(own), no_body, true)
}

/// The reply that sends a client to this URL, behind which the connection closes. It has no body.
#[tactic(auto, unfolding(crate::specs::OwnReplies::redirect_text))]
pub fn redirect_text(alloc: Global, status: u16, url: &[u8]) -> Result<Text, WantOfMemory>
    requires { IsStatusCode status }
    ensures text { IfOk result (λ t. t ≡ redirect_text status url.now) }
{
    let Ok(status) = StatusCode::from_u16(status) else {
        unreachable!()
    };
    let mut text = Text::from_slice(alloc, b"HTTP/1.1 ")?;
    put_status(&mut text, status)?;
    text.append(b"\r\nLocation: ")?;
    text.append(url)?;
    text.append(b"\r\nContent-Length: 0\r\n")?;
    put_closing(&mut text, true)?;
    text.append(b"\r\n")?;
    Ok(text)
}

/// The status of such a reply.
pub fn status_of(own: Own) -> StatusCode
    ensures { result ≡ own_code own }
{
    match own {
        Own::BadRequest => StatusCode::BAD_REQUEST,
        Own::HeadTooLarge => StatusCode::REQUEST_HEADER_FIELDS_TOO_LARGE,
        Own::Inner | Own::Stopped | Own::NoMemory => StatusCode::INTERNAL_SERVER_ERROR,
        Own::NotImplemented => StatusCode::NOT_IMPLEMENTED,
        Own::BadGateway => StatusCode::BAD_GATEWAY,
        Own::TooManyConns => StatusCode::SERVICE_UNAVAILABLE,
    }
}

fn words_of(own: Own) -> &'static [u8]
    ensures { result.now ≡ own_words own }
{
    match own {
        Own::BadRequest => b"bad request".as_slice(),
        Own::HeadTooLarge => b"head too large".as_slice(),
        Own::Inner => b"internal error".as_slice(),
        Own::Stopped => b"journal stopped".as_slice(),
        Own::NoMemory => b"out of memory".as_slice(),
        Own::NotImplemented => b"not implemented".as_slice(),
        Own::BadGateway => b"bad gateway".as_slice(),
        Own::TooManyConns => b"too many connections".as_slice(),
    }
}

// A reply that says these words, in a line.
fn own_reply(
    alloc: Global,
    status: StatusCode,
    words: &[u8],
    no_body: bool,
    closes: bool,
) -> Result<Text, WantOfMemory>
    ensures { IfOk result (λ t. t ≡ own_reply (status_words status) words.now no_body closes) }
{
    let mut text = Text::from_slice(alloc, b"HTTP/1.1 ")?;
    put_status(&mut text, status)?;
    text.append(b"\r\nContent-Type: text/plain\r\nContent-Length: ")?;
    put_number(&mut text, words.len() as u64 + 1)?;
    text.append(b"\r\n")?;
    put_closing(&mut text, closes)?;
    text.append(b"\r\n")?;
    put_body(&mut text, no_body, words)?;
    Ok(text)
}

// Puts a code and its phrase.
fn put_status(to: &mut Text, status: StatusCode) -> Result<(), WantOfMemory>
    ensures { OnOk result (to.new ≡ to.old ++ status_words status) }
{
    to.append(status.as_str().as_bytes())?;
    to.push(b' ')?;
    match status.canonical_reason() {
        Some(reason) => to.append(reason.as_bytes()),
        None => Ok(()),
    }
}

// Puts the line of a body, if there is one.
fn put_body(to: &mut Text, no_body: bool, words: &[u8]) -> Result<(), WantOfMemory>
    ensures { OnOk result (to.new ≡ to.old ++ own_body no_body words.now) }
{
    if no_body {
        return Ok(());
    }
    to.append(words)?;
    to.push(b'\n')
}
