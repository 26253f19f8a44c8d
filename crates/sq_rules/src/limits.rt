//! Limits of a configuration, each as the definitions of `Limits` and `Times` have it.

/// Bytes of a configuration's text.
pub const TEXT_LIMIT: usize = 1_048_576;

/// Bytes of a name.
pub const NAME_LIMIT: usize = 255;

/// Acls that a file states, the predefined ones counted.
pub const ACL_LIMIT: usize = 4096;

/// Acls, with those that are made where names of hosts are looked up.
pub const MOST_ACLS: usize = 16_385;

/// How deep groups nest.
pub const NESTING_LIMIT: u32 = 32;

/// Rules.
pub const RULE_LIMIT: usize = 10_000;

/// Rules of `request_header_access` and `reply_header_access` together.
pub const HEADER_LIMIT: usize = 10_000;

/// Classes of helpers that a file states.
pub const CLASS_LIMIT: usize = 64;

/// Classes, with the one that is made where names of hosts are looked up.
pub const MOST_CLASSES: usize = 65;

/// Tokens that a format states.
pub const TOKEN_LIMIT: usize = 32;

/// Seconds for which a verdict of a helper may be fresh.
pub const SECONDS_LIMIT: u32 = 2_147_483_647;

/// The percentage of that time in which a refresh may begin.
pub const GRACE_LIMIT: u32 = 100;

/// Verdicts of a class that may be kept.
pub const CACHE_LIMIT: u32 = 16_777_216;

/// Processes of a class, and channels of a process.
pub const CHILDREN_LIMIT: u32 = 1024;

/// Questions of a class that may wait.
pub const QUEUE_LIMIT: u32 = 1_000_000;

/// Delay pools.
pub const POOL_LIMIT: u64 = 64;

/// Numbers of `delay_parameters`.
pub const DELAY_LIMIT: u64 = 1_000_000_000_000_000;

/// The percentage at which a bucket opens.
pub const INITIAL_LIMIT: u64 = 100;

/// Numbers of `maxconn` are below this.
pub const MAXCONN_LIMIT: u64 = 2_147_483_648;

/// Minutes of a day.
pub const DAY_MINUTES: u32 = 1440;
