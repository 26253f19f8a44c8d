//! The fields that are passed on.
ghost use Rattle.std.specs.Prelude.{◌≡◌, ◌++◌, map, OnOk};
ghost use Rattle.std.specs.List.{filter, flat_map};
ghost use Rattle.sq_request.specs.Heads.{field_line};
ghost use Rattle.sq_message.specs.FieldNames.{is_kept, is_listed, is_sent, kept_lines};

use crate::elements::connection_options;
use crate::listing::telling;
use crate::name_test::{NameTest, goes_out};
use crate::names::{Direction, is_dropped, is_named, is_one_of};
use http_header::CONTENT_LENGTH;
use sq_base::{Field, Text, WantOfMemory};
use std::alloc::Global;

/// Puts the lines of the fields that are passed on that way, where names are tested. Of many options that
/// Connection lists each is looked up once, so a head takes a time that grows as its length.
pub(crate) fn put_kept_fields<T: NameTest>(
    alloc: Global,
    to: &mut Text,
    test: &T,
    way: Direction,
    fields: &[Field],
) -> Result<(), WantOfMemory>
    requires { T.IsReady test.now }
    ensures { OnOk result (to.new ≡ to.old ++ kept_lines (T.passes test.now) way fields.now) }
{
    let options = telling(alloc, fields, connection_options(alloc, fields)?)?;
    put_unlisted(to, test, way, fields, options.as_slice())
}

// Puts the lines of the fields that are passed on where Connection lists these.
fn put_unlisted<T: NameTest>(
    to: &mut Text,
    test: &T,
    way: Direction,
    fields: &[Field],
    options: &[&[u8]],
) -> Result<(), WantOfMemory>
    requires { T.IsReady test.now }
    ensures { OnOk result
        (to.new ≡ to.old ++ flat_map field_line
        (filter (is_sent (T.passes test.now) way (map (λ o. o.now) options.now)) fields.now)) }
{
    for field in fields {
        if is_sent(test, way, options, field) {
            put_field(to, field)?;
        }
    }
    Ok(())
}

fn is_sent<T: NameTest>(test: &T, way: Direction, options: &[&[u8]], field: &Field) -> bool
    requires { T.IsReady test.now }
    ensures { result ≡ is_sent (T.passes test.now) way (map (λ o. o.now) options.now) field.now }
{
    is_kept(way, options, field) && goes_out(test, field.name.as_bytes())
}

fn is_kept(way: Direction, options: &[&[u8]], field: &Field) -> bool
    ensures { result ≡ is_kept way (map (λ o. o.now) options.now) field.now }
{
    let name = field.name.as_bytes();
    !(is_dropped(way, name) || is_listed(options, name))
}

fn is_listed(options: &[&[u8]], name: &[u8]) -> bool
    ensures { result ≡ is_listed (map (λ o. o.now) options.now) name.now }
{
    is_one_of(options, name) && !is_named(&CONTENT_LENGTH, name)
}

fn put_field(to: &mut Text, field: &Field) -> Result<(), WantOfMemory>
    ensures { OnOk result (to.new ≡ to.old ++ field_line field.now) }
{
    to.append(field.name.as_bytes())?;
    to.append(b": ")?;
    to.append(field.value.as_bytes())?;
    to.append(b"\r\n")
}
