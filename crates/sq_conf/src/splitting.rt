//! A text cut into the lines of its file.
ghost use Rattle.std.specs.Prelude.{◌≡◌, IfOk};
ghost use Rattle.sq_base.specs.Lines.{ends_in, without_cr, file_lines};

use sq_base::{Listed, Text, Texts, WantOfMemory};
use std::alloc::Global;

/// The lines as they stand in the file.
pub fn file_lines(alloc: Global, text: &[u8]) -> Result<Texts, WantOfMemory>
    ensures lines { IfOk result (λ ls. ls ≡ file_lines text.now) }
{
    let mut lines = Listed::new(alloc);
    let mut line = Text::new(alloc);
    for &byte in text {
        if byte == b'\n' {
            lines.push(without_cr(line))?;
            line = Text::new(alloc);
        } else {
            line.push(byte)?;
        }
    }
    lines.push(line)?;
    Ok(lines)
}

fn without_cr(line: Text) -> Text
    ensures { result ≡ without_cr line }
{
    let mut bytes = line.into_vec();
    if ends_in(bytes.as_slice(), b'\r') {
        bytes.pop();
    }
    Text::from_vec(bytes)
}

/// Whether the last byte is this one.
pub fn ends_in(line: &[u8], wanted: u8) -> bool
    ensures { result ≡ ends_in wanted line.now }
{
    match line.last() {
        Some(&byte) => byte == wanted,
        None => false,
    }
}
