//! Texts as they stand in a key.
ghost use Rattle.std.specs.Prelude.{◌≡◌, ◌++◌, OnOk};
ghost use Rattle.sq_rules.specs.Keys.{key_escaped, or_dash};

use percent_encoding::{AsciiSet, CONTROLS, ascii_set, percent_encode};
use sq_base::{Text, WantOfMemory};

/// The bytes that are escaped in a key, beside those past ASCII: control bytes, space, `"`, `%`, `<`, `>`
/// and `\`.
pub const KEY_ESCAPES: AsciiSet = ascii_set!(
    CONTROLS
        .add(b' ')
        .add(b'"')
        .add(b'%')
        .add(b'<')
        .add(b'>')
        .add(b'\\')
);

/// Puts the escaped bytes at the end, piece by piece.
pub fn put_escaped(to: &mut Text, bytes: &[u8]) -> Result<(), WantOfMemory>
    ensures { OnOk result (to.new ≡ to.old ++ key_escaped bytes.now) }
{
    for piece in percent_encode(bytes, KEY_ESCAPES) {
        to.append(piece.as_bytes())?;
    }
    Ok(())
}

/// Puts the escaped bytes at the end, or `-` where there are none.
pub fn put_or_dash(to: &mut Text, bytes: &[u8]) -> Result<(), WantOfMemory>
    ensures { OnOk result (to.new ≡ to.old ++ or_dash bytes.now) }
{
    if bytes.is_empty() {
        return to.append(b"-");
    }
    put_escaped(to, bytes)
}
