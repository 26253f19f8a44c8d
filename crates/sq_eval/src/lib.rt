//! What rules come to over the facts of a check and the answers of helpers that it has.
//!
//! `evaluate` gives the verdict of a configuration, or the acl and key whose answer is needed first.
//! `pool_of` gives the delay pool of a check, and `decision` what one rule decides that asks no helper. All equal the
//! definitions of the rules: terms from left to right, up to what decides. `value_if` gives the value of a leaf acl by
//! its fact, `what_value` that of an external acl by an answer, and `turned` that of a term with `!`, by the value
//! without it.
#![tactic(auto)]

mod deciding;
mod evaluating;
mod pools;
mod rules;
mod taking;
mod terms;

pub use deciding::decision;
pub use evaluating::evaluate;
pub use pools::pool_of;
pub use sq_rules::Value;
pub use taking::{turned, value_if, what_value};
