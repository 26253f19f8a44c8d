//! `Outgoing`: a request that goes out.
use sq_base::{Addr, BodyPlan, Request};
use sq_rules::{Config, Facts};

/// A request that goes to an origin, and what decides of its heads.
#[derive(Clone, Copy)]
pub struct Outgoing<'a> {
    pub request: &'a Request,
    /// The address of the client that sent it.
    pub addr: Addr,
    /// The plan of its body.
    pub plan: BodyPlan,
    /// What says which fields of heads go on.
    pub config: &'a Config,
    /// The facts of the request's check, by which that is decided.
    pub facts: &'a Facts,
}
