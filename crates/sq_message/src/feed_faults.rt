//! Why no more of a body was read.
use thiserror::Error;

/// Why no more of a body was read.
#[derive(Clone, Copy, Debug, Error)]
pub enum FeedFault {
    /// The bytes so far are refused: what comes behind them is of no message.
    #[error("the chunks of the body are broken")]
    BadChunk,
    #[error("out of memory")]
    WantOfMemory,
}
