//! Limits of the machine.

/// Connections that may be open at a time.
pub const CONN_LIMIT: u32 = 65_536;

/// Epochs that may have an open check.
pub const EPOCH_LIMIT: u32 = 16;

/// The number that is never given: those below it are.
pub const LAST_NUMBER: u64 = 0x7fff_ffff_ffff_ffff;
