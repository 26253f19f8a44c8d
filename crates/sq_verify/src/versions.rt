//! The versions of a journal.
ghost use Rattle.std.specs.Prelude.{◌≡◌, bytes_eq, codes};
ghost use Rattle.sq_verify.specs.JournalLines.{line_limit};

use sq_outside::LINE_LIMIT;

/// The version of a journal: what stands before the text of an entry in its line.
#[derive(Clone, Copy)]
pub enum Version {
    /// Nothing.
    One,
    /// The entry's number and epoch. The journal's first line tells the version.
    Two,
}

/// How many bytes a line of this version has at most, without its LF.
pub fn line_limit(version: Version) -> u64
    ensures { result ≡ line_limit version }
{
    match version {
        Version::One => LINE_LIMIT,
        Version::Two => LINE_LIMIT + 40,
    }
}

/// Whether the line, without its LF, tells version 2.
pub fn is_version_line(line: &[u8]) -> bool
    ensures { result ≡ bytes_eq line.now (codes "journal 2") }
{
    line == b"journal 2".as_slice()
}
