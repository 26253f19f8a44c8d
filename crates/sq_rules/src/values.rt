//! What terms and rules come to, over the facts of a check and the answers of helpers that it has.
use crate::outcomes::Outcome;
use sq_base::{Cause, Text};

/// The value of a term.
#[derive(Drop, PartialEq, Eq)]
pub enum TermValue {
    /// It matches.
    Hit,
    /// It does not match.
    Miss,
    /// The external acl at this place had a fault in place of an answer.
    Fault { acl: u32, cause: Cause },
    /// The external acl at this place has no answer yet for this key.
    Need { acl: u32, key: Text },
}

/// What rules come to.
#[derive(Drop, PartialEq, Eq)]
pub enum Value {
    /// They decide.
    Verdict(Outcome),
    /// First the external acl at this place has to be answered for this key.
    Need { acl: u32, key: Text },
}
