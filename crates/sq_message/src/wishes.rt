//! What a request says of its connection and of its body.
ghost use Rattle.std.specs.Prelude.{◌≡◌};
ghost use Rattle.std.specs.List.{list_any};
ghost use Rattle.sq_message.specs.FieldNames.{elements, is_one_of};
ghost use Rattle.sq_message.specs.Wishes.{wants_close, wants_continue, lists_close, expects_continue, has_body};

use crate::elements::Elements;
use crate::names::is_alike;
use http_header::{CONNECTION, EXPECT};
use sq_base::{BodyPlan, Field, Request};

/// Whether the connection closes behind the reply to this request. It takes no memory.
#[tactic(auto, unfolding(crate::specs::Wishes::wants_close))]
pub fn wants_close(request: &Request) -> bool
    ensures { result ≡ wants_close request.now }
{
    request.minor == 0 || any_lists_close(request.fields.as_slice())
}

fn any_lists_close(fields: &[Field]) -> bool
    ensures { result ≡ list_any lists_close fields.now }
{
    fields.iter().any(|field| lists_close(field))
}

fn lists_close(field: &Field) -> bool
    ensures { result ≡ lists_close field.now }
{
    is_alike(field.name.as_bytes(), CONNECTION.as_bytes())
        && has_element(field.value.as_bytes(), b"close")
}

fn has_element(value: &[u8], name: &[u8]) -> bool
    ensures { result ≡ is_one_of (elements value.now) name.now }
{
    for element in Elements::new(value) {
        if is_alike(element, name) {
            return true;
        }
    }
    false
}

/// Whether the client waits until it hears that this body may come. It takes no memory.
#[tactic(auto, unfolding(crate::specs::Wishes::wants_continue))]
pub fn wants_continue(request: &Request, plan: BodyPlan) -> bool
    ensures { result ≡ wants_continue request.now plan }
{
    request.minor != 0 && has_body(plan) && any_expects_continue(request.fields.as_slice())
}

fn any_expects_continue(fields: &[Field]) -> bool
    ensures { result ≡ list_any expects_continue fields.now }
{
    fields.iter().any(|field| expects_continue(field))
}

fn has_body(plan: BodyPlan) -> bool
    ensures { result ≡ has_body plan }
{
    match plan {
        BodyPlan::None => false,
        BodyPlan::Length(length) => length > 0,
        BodyPlan::Chunked | BodyPlan::ToClose => true,
    }
}

fn expects_continue(field: &Field) -> bool
    ensures { result ≡ expects_continue field.now }
{
    is_alike(field.name.as_bytes(), EXPECT.as_bytes())
        && is_alike(field.value.as_bytes(), b"100-continue")
}
