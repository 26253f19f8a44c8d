//! A question that ended without a reply.
use sq_base::{Cause, QuestionNo, Text};
use sq_lookup::Checks;

/// A question that ended without a reply: why, its key, and the checks that waited for it.
#[derive(Drop)]
pub struct Lost {
    pub question: QuestionNo,
    pub cause: Cause,
    pub key: Text,
    pub checks: Checks,
}
