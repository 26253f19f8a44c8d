//! The values of header fields, and an acl's arguments, as they stand in a key.
ghost use Rattle.std.specs.Prelude.{◌≡◌, ◌++◌, [], codes, if◌then◌else◌, OnOk};
ghost use Rattle.std.specs.Str.{str_eq_ignore_ascii_case};
ghost use Rattle.sq_rules.specs.Keys.{arguments_text, key_escaped, field_values, values_text};

use crate::escapes::put_escaped;
use sq_base::{Field, Text, WantOfMemory};

// Whether both are one name, without case.
fn is_alike(one: &[u8], other: &[u8]) -> bool
    ensures { result ≡ str_eq_ignore_ascii_case one.now other.now }
{
    one.eq_ignore_ascii_case(other)
}

// Puts a value; behind another one, after `, `.
fn put_value(to: &mut Text, behind: bool, value: &[u8]) -> Result<(), WantOfMemory>
    ensures { OnOk result
        (to.new ≡ to.old ++ ((if behind then codes ",%20" else []) ++ key_escaped value.now)) }
{
    if behind {
        to.append(b",%20")?;
    }
    put_escaped(to, value)
}

/// Puts the values of the fields of a name, without case, with `, ` between them; or `-` where no field
/// has it.
pub fn put_fields(to: &mut Text, name: &Text, fields: &[Field]) -> Result<(), WantOfMemory>
    ensures { OnOk result (to.new ≡ to.old ++ values_text (field_values name.now fields.now)) }
{
    let mut found = false;
    for field in fields {
        if is_alike(field.name.as_bytes(), name.as_bytes()) {
            put_value(to, found, field.value.as_bytes())?;
            found = true;
        }
    }
    if found { Ok(()) } else { to.append(b"-") }
}

/// Puts the arguments of an acl with a space between them, or `-` where there are none.
pub fn put_arguments(to: &mut Text, arguments: &[Text]) -> Result<(), WantOfMemory>
    ensures { OnOk result (to.new ≡ to.old ++ arguments_text arguments.now) }
{
    let Some((first, rest)) = arguments.split_first() else {
        return to.append(b"-");
    };
    put_escaped(to, first.as_bytes())?;
    for argument in rest {
        to.push(b' ')?;
        put_escaped(to, argument.as_bytes())?;
    }
    Ok(())
}
