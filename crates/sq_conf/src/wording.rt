//! The words of a line.
ghost use Rattle.std.specs.Prelude.{◌≡◌, ◌&&◌, ◌==◌, length, IfOk};
ghost use Rattle.sq_base.specs.Lines.{is_blank, is_comment, words_of};

use sq_base::{Listed, Text, Texts, WantOfMemory};
use std::alloc::Global;

fn is_blank(byte: u8) -> bool
    ensures { result ≡ is_blank byte }
{
    byte == b' ' || byte == b'\t'
}

// Whether the byte begins a comment: `#` where no word is under way.
fn begins_comment(word: &Text, byte: u8) -> bool
    ensures { result ≡ (byte == 35 && length word.now == 0) }
{
    byte == b'#' && word.is_empty()
}

/// Whether the first word begins a comment.
pub fn is_comment(line: &[u8]) -> bool
    ensures { result ≡ is_comment line.now }
{
    for &byte in line {
        if !is_blank(byte) {
            return byte == b'#';
        }
    }
    false
}

/// The words up to a comment.
pub fn words_of(alloc: Global, line: &[u8]) -> Result<Texts, WantOfMemory>
    ensures { IfOk result (λ ws. ws ≡ words_of line.now) }
{
    let mut words = Listed::new(alloc);
    let mut word = Text::new(alloc);
    for &byte in line {
        if is_blank(byte) {
            if !word.is_empty() {
                words.push(word)?;
                word = Text::new(alloc);
            }
        } else if begins_comment(&word, byte) {
            return Ok(words);
        } else {
            word.push(byte)?;
        }
    }
    if !word.is_empty() {
        words.push(word)?;
    }
    Ok(words)
}
