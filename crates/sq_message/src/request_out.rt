//! The head of a request as the origin gets it.
ghost use Rattle.std.specs.Prelude.{◌≡◌, ◌++◌, ◌≤◌, codes, drop, length, IfOk, OnOk};
ghost use Rattle.std.specs.List.{after_first, position_or_len, take_while, prefix_len};
ghost use Rattle.sq_base.specs.Addresses.{is_colon};
ghost use Rattle.sq_base.specs.Targets.{in_authority};
ghost use Rattle.sq_message.specs.FieldNames.{line_of};
ghost use Rattle.sq_message.specs.RequestHeads.{head_out, head_out_where, proxy_lines, request_line, host_line, forwarded_line, authority_of, origin_form, no_path, is_chunked};

use crate::kept::put_kept_fields;
use crate::lines::{put_closing, put_coding, put_tested_via};
use crate::name_test::{EachName, NameTest, goes_out};
use crate::names::Direction;
use sq_addr::print_addr;
use sq_base::{Addr, BodyPlan, Request, Text, WantOfMemory};
use std::alloc::Global;

/// The head of a request as the origin gets it, from the client of this address, where its body goes out by
/// this plan. Lines end with CRLF.
#[tactic(auto, unfolding(crate::specs::RequestHeads::head_out))]
pub fn head_out(
    alloc: Global,
    request: &Request,
    addr: Addr,
    plan: BodyPlan,
) -> Result<Text, WantOfMemory>
    ensures text { IfOk result (λ t. t ≡ head_out request.now addr plan) }
{
    head_out_where(alloc, request, addr, plan, &EachName)
}

/// The head of a request as the origin gets it, without the lines of fields whose names do not pass the
/// test, those of the proxy included: the lines Host, Content-Length, Transfer-Encoding and Connection
/// always stay.
#[tactic(auto, unfolding(crate::specs::RequestHeads::head_out_where))]
pub fn head_out_where<T: NameTest>(
    alloc: Global,
    request: &Request,
    addr: Addr,
    plan: BodyPlan,
    test: &T,
) -> Result<Text, WantOfMemory>
    requires { T.IsReady test.now }
    ensures text { IfOk result (λ t. t ≡ head_out_where (T.passes test.now) request.now addr plan) }
{
    let mut head = Text::new(alloc);
    put_request_line(&mut head, request)?;
    put_host(&mut head, request)?;
    put_kept_fields(
        alloc,
        &mut head,
        test,
        Direction::ToOrigin,
        request.fields.as_slice(),
    )?;
    put_proxy_lines(
        alloc,
        &mut head,
        test,
        request.minor,
        addr,
        is_chunked(plan),
    )?;
    Ok(head)
}

// Puts the lines of the proxy, and the empty line.
#[tactic(auto, unfolding(crate::specs::RequestHeads::proxy_lines))]
fn put_proxy_lines<T: NameTest>(
    alloc: Global,
    to: &mut Text,
    test: &T,
    minor: u8,
    addr: Addr,
    chunked: bool,
) -> Result<(), WantOfMemory>
    requires { T.IsReady test.now }
    ensures { OnOk result (to.new ≡ to.old ++ proxy_lines (T.passes test.now) minor addr chunked) }
{
    put_coding(to, chunked)?;
    put_tested_via(to, test, minor)?;
    put_tested_forwarded(alloc, to, test, addr)?;
    put_closing(to, true)?;
    to.append(b"\r\n")
}

fn is_chunked(plan: BodyPlan) -> bool
    ensures { result ≡ is_chunked plan }
{
    match plan {
        BodyPlan::Chunked => true,
        BodyPlan::None | BodyPlan::Length(_) | BodyPlan::ToClose => false,
    }
}

fn put_request_line(to: &mut Text, request: &Request) -> Result<(), WantOfMemory>
    ensures { OnOk result (to.new ≡ to.old ++ request_line request.now) }
{
    to.append(request.method.as_bytes())?;
    to.push(b' ')?;
    put_origin_form(to, request.method.as_bytes(), request.path.as_bytes())?;
    to.append(b" HTTP/1.1\r\n")
}

// Puts the path and query.
fn put_origin_form(to: &mut Text, method: &[u8], path: &[u8]) -> Result<(), WantOfMemory>
    ensures { OnOk result (to.new ≡ to.old ++ origin_form method.now path.now) }
{
    match path {
        [] => to.append(no_path(method)),
        [b'?', ..] => {
            to.push(b'/')?;
            to.append(path)
        }
        [_, ..] => to.append(path),
    }
}

// What stands for an empty path without a query.
fn no_path(method: &[u8]) -> &'static [u8]
    ensures { result.now ≡ no_path method.now }
{
    if method == b"OPTIONS".as_slice() {
        b"*".as_slice()
    } else {
        b"/".as_slice()
    }
}

fn put_host(to: &mut Text, request: &Request) -> Result<(), WantOfMemory>
    ensures { OnOk result (to.new ≡ to.old ++ host_line request.now) }
{
    to.append(b"Host: ")?;
    to.append(authority_of(request.method.as_bytes(), request.target.as_bytes()))?;
    to.append(b"\r\n")
}

// The authority of the target, as it was sent.
fn authority_of<'a>(method: &[u8], target: &'a [u8]) -> &'a [u8]
    ensures { result.now ≡ authority_of method.now target.now }
{
    if method == b"CONNECT".as_slice() {
        return target;
    }
    front_authority(behind_scheme(target))
}

// What stands behind the first `:` and two more bytes.
fn behind_scheme(target: &[u8]) -> &[u8]
    ensures { result.now ≡ drop 2 (after_first is_colon target.now) }
{
    match &target[colon_place(target)..] {
        [_, _, _, rest @ ..] => rest,
        _ => b"".as_slice(),
    }
}

fn colon_place(bytes: &[u8]) -> usize
    ensures value { result ≡ position_or_len is_colon bytes.now }
    ensures bound { result ≤ length bytes.now }
{
    bytes.iter().take_while(|&&byte| byte != b':').count()
}

// What stands before the path or query.
fn front_authority(bytes: &[u8]) -> &[u8]
    ensures { result.now ≡ take_while in_authority bytes.now }
{
    let len = authority_len(bytes);
    &bytes[..len]
}

fn authority_len(bytes: &[u8]) -> usize
    ensures value { result ≡ prefix_len in_authority bytes.now }
    ensures bound { result ≤ length bytes.now }
{
    bytes
        .iter()
        .take_while(|&&byte| byte != b'/' && byte != b'?')
        .count()
}

// Puts the line of the client's address, where such a line goes out.
fn put_tested_forwarded<T: NameTest>(
    alloc: Global,
    to: &mut Text,
    test: &T,
    addr: Addr,
) -> Result<(), WantOfMemory>
    requires { T.IsReady test.now }
    ensures { OnOk result
        (to.new ≡ to.old ++ line_of (T.passes test.now) (codes "X-Forwarded-For")
        (forwarded_line addr)) }
{
    if goes_out(test, b"X-Forwarded-For") {
        put_forwarded(alloc, to, addr)
    } else {
        Ok(())
    }
}

fn put_forwarded(alloc: Global, to: &mut Text, addr: Addr) -> Result<(), WantOfMemory>
    ensures { OnOk result (to.new ≡ to.old ++ forwarded_line addr) }
{
    let text = print_addr(alloc, addr)?;
    to.append(b"X-Forwarded-For: ")?;
    to.append(text.as_bytes())?;
    to.append(b"\r\n")
}
