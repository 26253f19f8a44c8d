//! The line before a chunk, read by `httparse`.
ghost use Rattle.sq_message.specs.LineReads.{LineReads};

use httparse::{Status, parse_chunk_size};

/// What bytes say.
#[derive(Clone, Copy)]
pub(crate) enum LineRead {
    /// The first bytes, so many, are a line that writes this size.
    Whole(usize, u64),
    /// No line yet.
    NotYet,
    /// No line, whatever follows.
    Never,
}

/// Reads the line at the front of the bytes.
pub(crate) fn read_line(bytes: &[u8]) -> LineRead
    ensures { LineReads bytes.now result }
{
    match parse_chunk_size(bytes) {
        Ok(Status::Complete((len, size))) => LineRead::Whole(len, size),
        Ok(Status::Partial) => LineRead::NotYet,
        Err(_) => LineRead::Never,
    }
}
