//! What a check comes to.
use sq_base::{Cause, Text};

/// Why a check was decided as it was.
#[derive(Debug, PartialEq, Eq)]
pub enum Why {
    /// The rule of this number, from 1, matched.
    Rule(u32),
    /// No rule matched: the opposite of the last rule.
    Default,
    /// There is no rule.
    Empty,
    /// The external acl of this name, in the rule of this number, had a fault.
    Fault { rule: u32, acl: Text, cause: Cause },
}

impl Drop for Why {
    fn drop(self) {
        match self {
            Why::Rule(_) => {}
            Why::Default => {}
            Why::Empty => {}
            Why::Fault {
                rule: _,
                acl: _,
                cause: _,
            } => {}
        }
    }
}

/// The outcome of a check: whether the request is allowed, and why.
#[derive(Debug, PartialEq, Eq)]
pub struct Outcome {
    pub allow: bool,
    pub why: Why,
}

impl Drop for Outcome {
    fn drop(self) {
        let Outcome { allow: _, why: _ } = self;
    }
}
