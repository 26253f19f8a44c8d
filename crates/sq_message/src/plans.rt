//! How the end of a body is found: RFC 9112 section 6.3.
ghost use Rattle.std.specs.Prelude.{◌≡◌, [], ◌==◌, nat_lt, if◌then◌else◌, Some, None};
ghost use Rattle.std.specs.Char.{is_ascii_digit};
ghost use Rattle.std.specs.List.{list_all};
ghost use Rattle.sq_base.specs.Decimals.{read_on, number_limit};
ghost use Rattle.sq_message.specs.BodyPlans.{length_of, by_length, coding_plan, fields_plan, request_plan, reply_plan, is_bodiless};

use crate::faults::BadBody;
use crate::names::is_alike;
use crate::replies::ReplyHead;
use crate::values::{Values, values_of};
use http::StatusCode;
use http_header::{CONTENT_LENGTH, TRANSFER_ENCODING};
use sq_base::{BodyPlan, Field, Request, Text};

// A length has so many digits at most, and is below this.
const MOST_DIGITS: usize = 19;

const LENGTH_LIMIT: u64 = 9_223_372_036_854_775_808;

/// How the end of a request's body is found. A CONNECT request has none. It takes no memory.
#[tactic(auto, unfolding(crate::specs::BodyPlans::request_plan))]
pub fn request_plan(request: &Request) -> Result<BodyPlan, BadBody>
    ensures plan { result ≡ request_plan request.now }
{
    if request.method.as_bytes() == b"CONNECT".as_slice() {
        return Ok(BodyPlan::None);
    }
    fields_plan(BodyPlan::None, request.minor, request.fields.as_slice())
}

/// How the end of a reply's body is found, where it answers a request of this method. It takes no memory.
#[tactic(auto, unfolding(crate::specs::BodyPlans::reply_plan))]
pub fn reply_plan(method: &Text, head: &ReplyHead) -> Result<BodyPlan, BadBody>
    ensures plan { result ≡ reply_plan method.now head.now }
{
    if method.as_bytes() == b"HEAD".as_slice() || is_bodiless(head.status) {
        return Ok(BodyPlan::None);
    }
    fields_plan(BodyPlan::ToClose, head.minor, head.fields.as_slice())
}

// Whether a reply of this status has no body.
fn is_bodiless(status: u16) -> bool
    ensures { result ≡ is_bodiless status }
{
    match StatusCode::from_u16(status) {
        Ok(code) => {
            code.is_informational()
                || code == StatusCode::NO_CONTENT
                || code == StatusCode::NOT_MODIFIED
        }
        Err(_) => false,
    }
}

// The plan by these fields, and where none of them says so, the other one.
fn fields_plan(otherwise: BodyPlan, minor: u8, fields: &[Field]) -> Result<BodyPlan, BadBody>
    ensures { result ≡ fields_plan otherwise minor fields.now }
{
    let coding = values_of(fields, &TRANSFER_ENCODING);
    let length = values_of(fields, &CONTENT_LENGTH);
    match (coding, length) {
        (Values::Absent, Values::Absent) => Ok(otherwise),
        (Values::Absent, Values::One(value)) => length_plan(value),
        (Values::Absent, Values::Many) => Err(BadBody::BadLength),
        (Values::One(value), Values::Absent) => coding_plan(minor, value),
        (Values::Many, Values::Absent) => Err(coding_fault(minor)),
        (_, _) => Err(BadBody::BothLengths),
    }
}

// The plan of a body with one coding.
fn coding_plan(minor: u8, value: &[u8]) -> Result<BodyPlan, BadBody>
    ensures { result ≡ coding_plan minor value.now [] }
{
    if minor > 0 && is_alike(value, b"chunked") {
        return Ok(BodyPlan::Chunked);
    }
    Err(coding_fault(minor))
}

// Why a coding is refused: HTTP/1.0 knows none.
fn coding_fault(minor: u8) -> BadBody
    ensures { result ≡ (if minor == 0 then BadBody.BadLength else BadBody.BadCoding) }
{
    if minor == 0 {
        BadBody::BadLength
    } else {
        BadBody::BadCoding
    }
}

// The plan of a body with one length.
fn length_plan(value: &[u8]) -> Result<BodyPlan, BadBody>
    ensures { result ≡ by_length (length_of value.now) }
{
    match length_of(value) {
        None => Err(BadBody::BadLength),
        Some(length) => Ok(BodyPlan::Length(length)),
    }
}

// The number of 1 to 19 digits, at most 2^63 - 1.
#[tactic(auto, unfolding(crate::specs::BodyPlans::length_of))]
fn length_of(value: &[u8]) -> Option<u64>
    ensures { result ≡ length_of value.now }
{
    if 1 <= value.len() && value.len() <= MOST_DIGITS && are_digits(value) {
        digits_value(value)
    } else {
        None
    }
}

fn are_digits(value: &[u8]) -> bool
    ensures { result ≡ list_all is_ascii_digit value.now }
{
    value.iter().all(|byte| byte.is_ascii_digit())
}

// The value of digits, where it is below the limit.
fn digits_value(digits: &[u8]) -> Option<u64>
    ensures { result ≡ (if nat_lt (read_on 0 digits.now) number_limit then Some
        (read_on 0 digits.now) else None) }
{
    let mut number: u64 = 0;
    for &byte in digits {
        let next = number as u128 * 10 + byte.saturating_sub(b'0') as u128;
        if next >= LENGTH_LIMIT as u128 {
            return None;
        }
        number = next as u64;
    }
    Some(number)
}
