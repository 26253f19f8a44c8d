//! A program that keeps what it learns of the texts that it reads.
ghost use Rattle.std.specs.Prelude.{◌≡◌, IfOk};
ghost use Rattle.regex_dfa.specs.Search.{IsForwardFor};
ghost use Rattle.sq_urlmatch.specs.Programs.{program_found};

use regex_dfa::{End, Forward};
use regex_meta::{Program, Searcher};
use sq_base::WantOfMemory;
use std::alloc::Global;

/// A program and the rows of its DFA. A text fills the rows that it passes, and the next text finds
/// them filled.
#[derive(Drop)]
pub struct Matcher {
    pub program: Program,
    rows: Forward,
    ghost fits: { IsForwardFor rows program.dfa },
}

impl Matcher {
    /// The rows may take about `room` bytes, and as much again where a pattern has a word boundary of
    /// Unicode. Where a text needs more, they are emptied.
    pub fn new(alloc: Global, program: Program, room: usize) -> Result<Matcher, WantOfMemory>
        ensures { IfOk result (λ m. m.program ≡ program) }
    {
        let rows = Forward::with_budget(alloc, &program.dfa, false, room)?;
        Ok(Matcher { program, rows })
    }

    /// Whether the program is found in a text.
    pub fn is_match(&mut self, alloc: Global, subject: &[u8]) -> Result<bool, WantOfMemory>
        ensures found { IfOk result (λ b. b ≡ program_found subject.now self.old.program) }
        ensures same { self.new.program ≡ self.old.program }
    {
        is_found(alloc, &self.program, &mut self.rows, subject)
    }
}

// Whether a program is found in a text, by its rows.
fn is_found(
    alloc: Global,
    program: &Program,
    rows: &mut Forward,
    subject: &[u8],
) -> Result<bool, WantOfMemory>
    requires { IsForwardFor rows.old program.now.dfa }
    ensures found { IfOk result (λ b. b ≡ program_found subject.now program.now) }
    ensures fits { IsForwardFor rows.new program.now.dfa }
{
    match rows.find_end(&program.dfa, subject, 0, subject.len(), false, true) {
        End::At(_) => Ok(true),
        End::NoMatch => Ok(false),
        End::Idle(_) | End::GaveUp => is_found_anew(alloc, program, subject),
    }
}

// The same by a search that begins with nothing, and has other ways where rows have no memory or don't
// pay. Its searcher is no part of the stack on which a connection is served.
#[cold]
#[inline(never)]
fn is_found_anew(alloc: Global, program: &Program, subject: &[u8]) -> Result<bool, WantOfMemory>
    ensures { IfOk result (λ b. b ≡ program_found subject.now program.now) }
{
    let mut searcher = Searcher::new(alloc, program)?;
    Ok(searcher.is_match(subject, 0))
}
