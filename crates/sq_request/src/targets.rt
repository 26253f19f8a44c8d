//! The parts of a request's target.
ghost use Rattle.std.specs.Prelude.{◌≡◌, ◌≤◌, length, drop};
ghost use Rattle.std.specs.List.{list_all, position_or_len, prefix_len};
ghost use Rattle.std.specs.Option.{option_map};
ghost use Rattle.std.specs.Str.{str_to_ascii_lowercase};
ghost use Rattle.sq_base.specs.Addresses.{is_colon};
ghost use Rattle.sq_base.specs.Targets.{is_target_byte, is_scheme_byte, is_scheme, in_authority, with_colon, with_scheme, absolute_form, authority_form, target_of};
ghost use Rattle.sq_request.specs.Parts.{shown_parts};

use crate::hosts::host_in;
use crate::ports::{connect_port, port_after, scheme_port};
use sq_base::Addr;

/// The parts of a target as they are written, the host without brackets.
#[derive(Clone, Copy)]
pub struct TargetParts<'a> {
    pub scheme: &'a [u8],
    pub host: &'a [u8],
    pub literal: Option<Addr>,
    pub port: u16,
    pub path: &'a [u8],
}

/// The parts of a method's target, where it has the form that this method takes.
#[tactic(auto, unfolding(sq_base::specs::Targets::target_of))]
pub fn read_target<'a>(method: &[u8], target: &'a [u8]) -> Option<TargetParts<'a>>
    ensures { option_map shown_parts result ≡ target_of method.now target.now }
{
    if method == b"CONNECT".as_slice() {
        authority_form(target)
    } else {
        absolute_form(target)
    }
}

// Host, `:` and a port.
#[tactic(auto, unfolding(sq_base::specs::Targets::authority_form))]
fn authority_form(text: &[u8]) -> Option<TargetParts<'_>>
    ensures { option_map shown_parts result ≡ authority_form text.now }
{
    if !are_target_bytes(text) {
        return None;
    }
    let Some(host) = host_in(text) else {
        return None;
    };
    let port = connect_port(host.rest)?;
    Some(TargetParts {
        scheme: &[],
        host: host.name,
        literal: host.literal,
        port,
        path: &[],
    })
}

// Scheme, `://`, authority, and then nothing, a path or a query.
#[tactic(auto, unfolding(sq_base::specs::Targets::absolute_form))]
fn absolute_form(text: &[u8]) -> Option<TargetParts<'_>>
    ensures { option_map shown_parts result ≡ absolute_form text.now }
{
    if !are_target_bytes(text) {
        return None;
    }
    let (scheme, rest) = text.split_at(scheme_len(text));
    with_colon(scheme, behind_first(rest))
}

// How many bytes at the front stand before a `:`.
fn scheme_len(text: &[u8]) -> usize
    ensures value { result ≡ position_or_len is_colon text.now }
    ensures bound { result ≤ length text.now }
{
    text.iter().take_while(|&&byte| byte != b':').count()
}

// All but the first byte.
fn behind_first(bytes: &[u8]) -> &[u8]
    ensures { result.now ≡ drop 1 bytes.now }
{
    match bytes {
        [] => bytes,
        [_, rest @ ..] => rest,
    }
}

// What stands before and behind the first `:`.
fn with_colon<'a>(scheme: &'a [u8], after: &'a [u8]) -> Option<TargetParts<'a>>
    ensures { option_map shown_parts result ≡ with_colon scheme.now after.now }
{
    if !is_scheme(scheme) {
        return None;
    }
    let rest = after.strip_prefix(b"//".as_slice())?;
    with_scheme(scheme, rest)
}

// A scheme and what stands behind `://`.
#[tactic(auto, unfolding(sq_base::specs::Targets::with_scheme))]
fn with_scheme<'a>(scheme: &'a [u8], rest: &'a [u8]) -> Option<TargetParts<'a>>
    ensures { option_map shown_parts result
        ≡ with_scheme (str_to_ascii_lowercase scheme.now) rest.now }
{
    let (authority, path) = rest.split_at(authority_len(rest));
    let Some(host) = host_in(authority) else {
        return None;
    };
    let port = port_after(scheme_port(scheme), host.rest)?;
    Some(TargetParts {
        scheme,
        host: host.name,
        literal: host.literal,
        port,
        path,
    })
}

// How many bytes at the front are the authority's.
fn authority_len(text: &[u8]) -> usize
    ensures value { result ≡ prefix_len in_authority text.now }
    ensures bound { result ≤ length text.now }
{
    text.iter()
        .take_while(|&&byte| byte != b'/' && byte != b'?')
        .count()
}

fn is_scheme(text: &[u8]) -> bool
    ensures { result ≡ is_scheme text.now }
{
    match text {
        [] => false,
        [first, rest @ ..] => first.is_ascii_alphabetic() && are_scheme_bytes(rest),
    }
}

fn are_scheme_bytes(bytes: &[u8]) -> bool
    ensures { result ≡ list_all is_scheme_byte bytes.now }
{
    bytes.iter().all(|&byte| is_scheme_byte(byte))
}

fn is_scheme_byte(byte: u8) -> bool
    ensures { result ≡ is_scheme_byte byte }
{
    byte.is_ascii_alphanumeric() || byte == b'+' || byte == b'-' || byte == b'.'
}

// Visible ASCII but `#`, which would begin a fragment.
fn are_target_bytes(bytes: &[u8]) -> bool
    ensures { result ≡ list_all is_target_byte bytes.now }
{
    bytes.iter().all(|&byte| is_target_byte(byte))
}

fn is_target_byte(byte: u8) -> bool
    ensures { result ≡ is_target_byte byte }
{
    byte.is_ascii_graphic() && byte != b'#'
}
