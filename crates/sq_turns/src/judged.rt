//! `JudgedRequest`: a request whose check is over.
use sq_base::{Addr, BodyPlan, Request};
use sq_checks::Record;

/// A request with the record of its check, as it goes on.
#[derive(Clone, Copy)]
pub struct JudgedRequest<'a> {
    /// The record of its check.
    pub judged: &'a Record,
    /// What goes out: the request that was judged, or the one that the rewriter put in its place.
    pub sent: &'a Request,
    /// The address of its client.
    pub addr: Addr,
    /// The plan of its body.
    pub plan: BodyPlan,
}
