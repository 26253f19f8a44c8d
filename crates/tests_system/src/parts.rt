//! Tests of the parts of the machine that no script reaches: how full a farm is, calls of a process, all calls of a
//! rewriter, what its replies make of requests, and what a refusal says.
//!
//! Each test is one table or one run of calls, whose expected values come from Squid's
//! configuration reference (`external_acl_type`, `url_rewrite_program`), from
//! its helper protocol, and from counting by hand. What scripts and journals show of the machine stands in `cases/`.
mod farms;
mod fixtures;
mod processes;
mod refusals;
mod rewriting;
