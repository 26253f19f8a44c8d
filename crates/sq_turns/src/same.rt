//! Whether two requests are the same.
ghost use Rattle.std.specs.Prelude.{◌≡◌, true};
ghost use Rattle.std.specs.Bool.{Decides};

use sq_base::{Field, Fields, Request, Text};

/// Whether both are one request. The parts of a target follow from its method and target.
pub(crate) fn same_request(one: &Request, other: &Request) -> bool
    ensures { Decides result (one.now ≡ other.now) }
{
    if !same_text(&one.method, &other.method) {
        return false;
    }
    if !same_text(&one.target, &other.target) {
        return false;
    }
    if one.minor != other.minor {
        return false;
    }
    same_fields(&one.fields, &other.fields)
}

/// Whether both are one text.
pub(crate) fn same_text(one: &Text, other: &Text) -> bool
    ensures { Decides result (one.now ≡ other.now) }
{
    one.as_bytes() == other.as_bytes()
}

/// Whether both are one list of fields.
pub(crate) fn same_fields(one: &Fields, other: &Fields) -> bool
    ensures { Decides result (one.now ≡ other.now) }
{
    same_list(one.as_slice(), other.as_slice())
}

fn same_list(one: &[Field], other: &[Field]) -> bool
    ensures { Decides result (one.now ≡ other.now) }
{
    if one.len() != other.len() {
        return false;
    }
    for i in 0..one.len() {
        if !same_field(&one[i], &other[i]) {
            return false;
        }
    }
    true
}

fn same_field(one: &Field, other: &Field) -> bool
    ensures { Decides result (one.now ≡ other.now) }
{
    if !same_text(&one.name, &other.name) {
        return false;
    }
    same_text(&one.value, &other.value)
}
