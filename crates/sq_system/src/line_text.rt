//! The pieces of a line of the access log: words without blanks, and numbers.

use itoa::Buffer;
use percent_encoding::{AsciiSet, CONTROLS, ascii_set, percent_encode};
use sq_base::{Text, WantOfMemory};

/// The bytes that are escaped as `%XX`, beside those past ASCII: control bytes, blanks and quotes. An escape that stands there stays.
const ESCAPES: AsciiSet = ascii_set!(CONTROLS.add(b' ').add(b'"').add(b'\''));

/// Appends the bytes, escaped, or `-` where there are none.
pub(crate) fn put_word(to: &mut Text, bytes: &[u8]) -> Result<(), WantOfMemory> {
    if bytes.is_empty() {
        return to.append(b"-");
    }
    for piece in percent_encode(bytes, ESCAPES) {
        to.append(piece.as_bytes())?;
    }
    Ok(())
}

/// Appends a number.
pub(crate) fn put_number(to: &mut Text, number: u64) -> Result<(), WantOfMemory> {
    to.append(Buffer::new().format(number).as_bytes())
}

/// Appends a number of at least so many places, with this byte in front of it. There are six places at most.
pub(crate) fn put_padded(
    to: &mut Text,
    number: u64,
    places: usize,
    byte: u8,
) -> Result<(), WantOfMemory> {
    let mut buffer = Buffer::new();
    let digits = buffer.format(number).as_bytes();
    for place in 0..6usize {
        if place < places && digits.len() < places - place {
            to.push(byte)?;
        }
    }
    to.append(digits)
}

/// Appends a field: its name with `=`, and a number.
pub(crate) fn put_field(to: &mut Text, name: &[u8], number: u64) -> Result<(), WantOfMemory> {
    to.append(name)?;
    put_number(to, number)
}
