//! Texts as they stand in a key.
ghost use Rattle.std.specs.Prelude.{◌≡◌, IfOk, bytes_eq};
ghost use Rattle.percent_encoding.specs.Percent.{percent_decode as decoded};
ghost use Rattle.sq_rules.specs.Keys.{key_escaped};

use percent_encoding::{AsciiSet, CONTROLS, ascii_set, percent_decode, percent_encode};
use sq_base::{Text, WantOfMemory};
use std::alloc::Global;

// The bytes that are escaped in a key, beside those past ASCII.
const KEY_ESCAPES: AsciiSet = ascii_set!(
    CONTROLS
        .add(b' ')
        .add(b'"')
        .add(b'%')
        .add(b'<')
        .add(b'>')
        .add(b'\\')
);

/// The bytes with each escape replaced by its byte.
pub(crate) fn unescaped(alloc: Global, word: &[u8]) -> Result<Text, WantOfMemory>
    ensures { IfOk result (λ t. t ≡ decoded word.now) }
{
    let mut bytes = Vec::new(alloc);
    percent_decode(word).append_to(&mut bytes)?;
    Ok(Text::from_vec(bytes))
}

/// Whether the word is these bytes as they stand in a key.
pub(crate) fn is_escape_of(word: &[u8], bytes: &[u8]) -> bool
    ensures { result ≡ bytes_eq word.now (key_escaped bytes.now) }
{
    let mut rest = word;
    for piece in percent_encode(bytes, KEY_ESCAPES) {
        match rest.strip_prefix(piece.as_bytes()) {
            None => return false,
            Some(left) => rest = left,
        }
    }
    rest.is_empty()
}
