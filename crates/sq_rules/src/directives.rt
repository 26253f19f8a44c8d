//! The directives of a configuration, and the options of `external_acl_type`, `url_rewrite_children` and `dst_lookup`, by
//! their names.

/// A directive.
#[derive(Clone, Copy, PartialEq, Eq)]
pub enum Directive {
    Acl,
    HttpAccess,
    ExternalAclType,
    DelayPools,
    DelayClass,
    DelayAccess,
    DelayParameters,
    InitialLevel,
    HttpPort,
    RequestHeaderAccess,
    ReplyHeaderAccess,
    RewriteProgram,
    RewriteChildren,
    DstLookup,
    /// One of those that are read without effect.
    NoEffect,
}

/// An option of `external_acl_type`.
#[derive(Clone, Copy, PartialEq, Eq)]
pub enum ClassOption {
    Ttl,
    NegativeTtl,
    Grace,
    Cache,
    ChildrenMax,
    ChildrenStartup,
    /// It has a number, and no effect.
    ChildrenIdle,
    Concurrency,
    QueueSize,
    /// One of those that are read without effect, as a whole word.
    NoEffect,
}

/// An option of `dst_lookup`.
#[derive(Clone, Copy, PartialEq, Eq)]
pub enum LookupOption {
    ChildrenMax,
    QueueSize,
}
