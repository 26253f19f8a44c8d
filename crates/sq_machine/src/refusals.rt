//! Why the machine refuses an event.
use sq_base::{CheckNo, ConnNo, EpochNo, ProcNo};
use thiserror::Error;

/// Why an event is refused. A refused event changes nothing.
#[derive(Clone, Copy, Debug, PartialEq, Eq, Error)]
pub enum Refusal {
    /// The connection is open already.
    #[error("connection {} is open already", .0.0)]
    ConnInUse(ConnNo),
    /// The connection is not open.
    #[error("connection {} is not open", .0.0)]
    UnknownConn(ConnNo),
    /// As many connections are open as may be.
    #[error("no more than {0} connections may be open")]
    TooManyConns(u32),
    /// The connection has this open check.
    #[error("check {} of the connection is open", .0.0)]
    CheckOpen(CheckNo),
    /// The check is not open.
    #[error("check {} is not open", .0.0)]
    UnknownCheck(CheckNo),
    /// No step of the check said that it is done.
    #[error("no step said that check {} is done", .0.0)]
    NotDone(CheckNo),
    /// No start of this epoch and class is open.
    #[error("no start of epoch {} and class {} is open", .0.0, .1)]
    NoStartOpen(EpochNo, u32),
    /// The process does not live.
    #[error("process {} does not live", .0.0)]
    UnknownProc(ProcNo),
    /// As many epochs have an open check as may have.
    #[error("no more than {0} epochs may have an open check")]
    TooManyEpochs(u32),
    /// The number that would be given is the last.
    #[error("{0} is the last number")]
    Spent(u64),
    /// There was no memory.
    #[error("out of memory")]
    WantOfMemory,
}
