//! The values of the fields of one name.
ghost use Rattle.std.specs.Prelude.{◌≡◌, ◌<◌, length, position, IfSome};
ghost use Rattle.std.specs.Str.{str_eq_ignore_ascii_case};
ghost use Rattle.sq_rules.specs.Keys.{field_values};
ghost use Rattle.sq_message.specs.Values.{AreValues};

use crate::names::is_alike;
use http_header::HeaderName;
use sq_base::Field;

/// The values of the fields of a name.
#[derive(Clone, Copy)]
pub(crate) enum Values<'a> {
    Absent,
    One(&'a [u8]),
    Many,
}

/// The values of the fields of this name, without case.
pub(crate) fn values_of<'a>(fields: &'a [Field], name: &HeaderName) -> Values<'a>
    ensures { AreValues result (field_values name.now fields.now) }
{
    let name = name.as_bytes();
    let Some(place) = place_of(fields, name) else {
        return Values::Absent;
    };
    if place_of(&fields[place + 1..], name).is_some() {
        return Values::Many;
    }
    Values::One(fields[place].value.as_bytes())
}

// The place of the first field of this name.
fn place_of(fields: &[Field], name: &[u8]) -> Option<usize>
    ensures first { result ≡ position (λ f. str_eq_ignore_ascii_case f.name name.now) fields.now }
    ensures inside { IfSome result (λ i. i < length fields.now) }
{
    fields
        .iter()
        .position(|field| is_alike(field.name.as_bytes(), name))
}
