//! Texts as one escaped word.
ghost use Rattle.std.specs.Prelude.{◌≡◌, ◌++◌, OnOk};
ghost use Rattle.sq_base.specs.Escapes.{escaped, text_word};

use percent_encoding::{AsciiSet, CONTROLS, ascii_set, percent_encode};
use sq_base::{Text, WantOfMemory};

// The bytes that are escaped, beside those past ASCII: control bytes, space, `%` and `>`.
const ESCAPES: AsciiSet = ascii_set!(CONTROLS.add(b' ').add(b'%').add(b'>'));

/// Puts the word of a text.
#[tactic(auto, unfolding(sq_base::specs::Escapes::text_word))]
pub(crate) fn put_text(to: &mut Text, bytes: &[u8]) -> Result<(), WantOfMemory>
    ensures { OnOk result (to.new ≡ to.old ++ text_word bytes.now) }
{
    if bytes.is_empty() {
        return to.append(b"-");
    }
    if bytes == b"-".as_slice() {
        return to.append(b"%2D");
    }
    put_escaped(to, bytes)
}

fn put_escaped(to: &mut Text, bytes: &[u8]) -> Result<(), WantOfMemory>
    ensures { OnOk result (to.new ≡ to.old ++ escaped bytes.now) }
{
    for piece in percent_encode(bytes, ESCAPES) {
        to.append(piece.as_bytes())?;
    }
    Ok(())
}
