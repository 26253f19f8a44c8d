//! Lines of a configuration file, as their words.

use crate::bytes::Texts;
use crate::listed::Listed;

/// The words of a line, with the number of the line's first part.
#[derive(PartialEq, Eq)]
pub struct Line {
    pub number: u32,
    pub words: Texts,
}

impl Drop for Line {
    fn drop(self) {
        let Line {
            number: _,
            words: _,
        } = self;
    }
}

/// A list of lines.
pub type Lines = Listed<Line>;

/// Why a line, which is named by the number of its first part, has no words.
#[derive(Clone, Copy, PartialEq, Eq)]
pub enum LineFault {
    /// It has more bytes than a line may have.
    LineTooLong(u32),
    /// It is not UTF-8.
    NotUtf8(u32),
}

/// The lines before the first faulty one, and its fault.
#[derive(Drop, PartialEq, Eq)]
pub struct Lexed {
    pub lines: Lines,
    pub fault: Option<LineFault>,
}
