//! What is kept of a helper's answer.
use sq_base::{Moment, QuestionNo, What};

/// A verdict as it is kept under its key: the answer, the question that it answers, and the moment
/// of the reply.
#[derive(Drop, PartialEq, Eq)]
pub struct CachedReply {
    pub what: What,
    pub question: QuestionNo,
    pub date: Moment,
}
