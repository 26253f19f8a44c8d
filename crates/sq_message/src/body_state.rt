//! Where a body stands.
use sq_base::Text;

/// Where trailers stand: at the beginning of a line, behind a CR there, inside a line, behind a CR there.
#[derive(Clone, Copy)]
pub enum Mark {
    Begin,
    BeginCr,
    Inside,
    InsideCr,
}

/// Where a body stands.
#[derive(Drop)]
pub enum BodyState {
    /// So many bytes are to come, and go out as they are. With none to come it is complete.
    Plain(u64),
    /// All bytes go out as they are, up to the close.
    Open,
    /// In the line before a chunk, of which these bytes came.
    Line(Text),
    /// In a chunk: so many of its bytes are to come, and then CR.
    Data(u64),
    /// Behind the CR that follows a chunk.
    Feed,
    /// In the trailers, behind so many of their bytes.
    Trailer(u32, Mark),
    /// Behind the trailers.
    Done,
    /// The bytes are refused.
    Refused,
}
