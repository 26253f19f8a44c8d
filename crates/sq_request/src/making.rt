//! Requests made of their parts.
ghost use Rattle.std.specs.Prelude.{◌≡◌, ◌≢◌, ◌↔◌, ◌≤◌, ◌++◌, length, map, All, Some, None, IsTrue, IfOk, IfErr, OnOk};
ghost use Rattle.std.specs.List.{flat_map};
ghost use Rattle.httparse.specs.Spans.{header_bytes, IsWithin, IsHeaderWithin};
ghost use Rattle.sq_request.specs.Heads.{most_fields, IsWrittenHead, HasRequest, request_with, head_text, field_line};
ghost use Rattle.sq_request.specs.Refusals.{RefusesParts};
ghost use Rattle.sq_request.specs.Spans.{field_pair, CoversLine};
ghost use Rattle.sq_request.specs.Written.{made_request};

use crate::building::build;
use crate::faults::BadRequest;
use crate::methods::read_method;
use crate::reading::MOST_FIELDS;
use crate::spanning::parse_whole;
use httparse::spans::{EMPTY_HEADER_SPAN, HeaderSpan, RequestSpans};
use sq_base::{Field, Fields, Request, Text, WantOfMemory};
use std::alloc::Global;

/// The request of these parts, judged by the head that is written of them: `METHOD TARGET HTTP/1.MINOR`,
/// one line `name: value` per field and an empty line, each ended by CRLF.
pub fn make_request(
    alloc: Global,
    method: &[u8],
    target: &[u8],
    minor: u8,
    fields: Fields,
) -> Result<Request, BadRequest>
    requires { minor ≤ 1 }
    ensures written { OnOk result (IsWrittenHead method.now target.now minor fields) }
    ensures few { OnOk result (length fields ≤ most_fields) }
    ensures made { IfOk result (λ r. made_request method.now target.now minor fields ≡ Some r) }
    ensures shown { IfOk result (λ r. request_with method.now target.now minor fields ≡ Some r) }
    ensures read { IfOk result (HasRequest (head_text method.now target.now minor fields)) }
    ensures refused { IfErr result (RefusesParts method.now target.now minor fields) }
    ensures unmade { IfErr result (λ e. e ≢ BadRequest.WantOfMemory
        → made_request method.now target.now minor fields ≡ None) }
{
    if !is_written(alloc, method, target, minor, fields.as_slice())? {
        return Err(BadRequest::BadHead);
    }
    if fields.len() > MOST_FIELDS {
        return Err(BadRequest::TooManyFields);
    }
    build(alloc, method, target, minor, fields)
}

// Whether the head of these parts is in the grammar, and reads as these parts.
fn is_written(
    alloc: Global,
    method: &[u8],
    target: &[u8],
    minor: u8,
    fields: &[Field],
) -> Result<bool, WantOfMemory>
    requires { minor ≤ 1 }
    ensures { IfOk result (λ b. IsTrue b ↔ IsWrittenHead method.now target.now minor fields.now) }
{
    if read_method(alloc, method)?.is_none() {
        return Ok(false);
    }
    let head = write_head(alloc, method, target, minor, fields)?;
    let head = head.as_bytes();
    let Ok(mut room) = vec![in alloc; EMPTY_HEADER_SPAN; fields.len()] else {
        return Err(WantOfMemory);
    };
    let room = room.as_mut_slice();
    let Some(spans) = parse_whole(head, room) else {
        return Ok(false);
    };
    if !has_line(head, spans, method, target, minor) {
        return Ok(false);
    }
    Ok(are_covered(head, &room[..spans.headers], fields))
}

// Whether the spans cover these parts of a head's first line.
fn has_line(head: &[u8], spans: RequestSpans, method: &[u8], target: &[u8], minor: u8) -> bool
    requires method { IsWithin (length head.now) spans.method }
    requires target { IsWithin (length head.now) spans.path }
    ensures { IsTrue result ↔ CoversLine head.now spans method.now target.now minor }
{
    spans.method.of(head) == method && spans.path.of(head) == target && spans.version == minor
}

// Whether the spans cover the names and values of these fields.
fn are_covered(head: &[u8], spans: &[HeaderSpan], fields: &[Field]) -> bool
    requires { All (IsHeaderWithin (length head.now)) spans.now }
    ensures { IsTrue result ↔ (map (header_bytes head.now) spans.now ≡ map field_pair fields.now) }
{
    if spans.len() != fields.len() {
        return false;
    }
    for (i, span) in spans.iter().enumerate() {
        if !is_covered(head, span, &fields[i]) {
            return false;
        }
    }
    true
}

fn is_covered(head: &[u8], span: &HeaderSpan, field: &Field) -> bool
    requires { IsHeaderWithin (length head.now) span.now }
    ensures { IsTrue result ↔ (header_bytes head.now span.now ≡ field_pair field.now) }
{
    span.name.of(head) == field.name.as_bytes() && span.value.of(head) == field.value.as_bytes()
}

// The head of these parts.
#[tactic(auto, unfolding(crate::specs::Heads::head_text))]
fn write_head(
    alloc: Global,
    method: &[u8],
    target: &[u8],
    minor: u8,
    fields: &[Field],
) -> Result<Text, WantOfMemory>
    requires { minor ≤ 1 }
    ensures { IfOk result (λ t. t ≡ head_text method.now target.now minor fields.now) }
{
    let mut head = Text::from_slice(alloc, method)?;
    head.push(b' ')?;
    head.append(target)?;
    head.append(b" HTTP/1.")?;
    head.push(b'0' + minor)?;
    head.append(b"\r\n")?;
    put_fields(&mut head, fields)?;
    head.append(b"\r\n")?;
    Ok(head)
}

// Puts the line of each field at the end.
fn put_fields(to: &mut Text, fields: &[Field]) -> Result<(), WantOfMemory>
    ensures { OnOk result (to.new ≡ to.old ++ flat_map field_line fields.now) }
{
    for field in fields {
        to.append(field.name.as_bytes())?;
        to.append(b": ")?;
        to.append(field.value.as_bytes())?;
        to.append(b"\r\n")?;
    }
    Ok(())
}
