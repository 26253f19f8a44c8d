//! A text as lines of words.
ghost use Rattle.std.specs.Prelude.{◌≡◌, ◌<◌, ◌^◌, length, true, None, IfOk, IfErr};
ghost use Rattle.std.specs.List.{list_all};
ghost use Rattle.std.specs.Str.{is_utf8};
ghost use Rattle.sq_base.specs.Lines.{fault_of, lexed_to, lexed_lines, lexed};
ghost use Rattle.sq_conf.specs.LexFaults.{IsFaultOf};
ghost use Rattle.sq_conf.specs.Words.{is_bare_line};

use crate::joining::{Joined, join};
use crate::lex_faults::LexFault;
use crate::splitting::file_lines;
use crate::wording::words_of;
use sq_base::{Lexed, Line, LineFault, Lines, Listed, WantOfMemory};
use std::alloc::Global;

const LINE_LIMIT: usize = 65536;

/// The lines with their words, or the first faulty line. No word holds a blank.
pub fn words(alloc: Global, text: &[u8]) -> Result<Lines, LexFault>
    requires { length text.now < 2 ^ 30 }
    ensures ok { IfOk result (λ lines. lexed text.now ≡ lexed_to lines None) }
    ensures bare { IfOk result (λ lines. list_all is_bare_line lines ≡ true) }
    ensures err { IfErr result (λ e. IsFaultOf e (lexed text.now).fault) }
{
    let lexed = lex(alloc, text)?;
    match lexed.fault {
        Some(fault) => Err(LexFault::from(fault)),
        None => Ok(lexed.lines),
    }
}

/// The lines before the first faulty one, and its fault. No word holds a blank.
pub fn lex(alloc: Global, text: &[u8]) -> Result<Lexed, WantOfMemory>
    requires { length text.now < 2 ^ 30 }
    ensures ok { IfOk result (λ l. l ≡ lexed text.now) }
    ensures bare { IfOk result (λ l. list_all is_bare_line l.lines ≡ true) }
{
    let lines = file_lines(alloc, text)?;
    let joined = join(alloc, lines.as_slice())?;
    lex_joined(alloc, joined.as_slice())
}

fn lex_joined(alloc: Global, joined: &[Joined]) -> Result<Lexed, WantOfMemory>
    ensures { IfOk result (λ l. l ≡ lexed_lines joined.now) }
{
    let mut lines = Listed::new(alloc);
    for line in joined {
        let fault = fault_of(line);
        if fault.is_some() {
            return Ok(Lexed { lines, fault });
        }
        let words = words_of(alloc, line.text.as_bytes())?;
        if !words.is_empty() {
            lines.push(Line {
                number: line.number,
                words,
            })?;
        }
    }
    Ok(Lexed { lines, fault: None })
}

fn fault_of(line: &Joined) -> Option<LineFault>
    ensures { result ≡ fault_of line.now }
{
    if line.text.len() > LINE_LIMIT {
        Some(LineFault::LineTooLong(line.number))
    } else if is_utf8(line.text.as_bytes()) {
        None
    } else {
        Some(LineFault::NotUtf8(line.number))
    }
}

fn is_utf8(bytes: &[u8]) -> bool
    ensures { result ≡ is_utf8 bytes.now }
{
    match std::str::from_utf8(bytes) {
        Ok(_) => true,
        Err(_) => false,
    }
}
