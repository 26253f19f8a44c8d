//! Tests of what helper programs write: what a keeper hands on of it, over sources that fail and desks without memory, and
//! what a reply says and how it is printed.
//!
//! Each test is one table, whose expected values come from Squid's helper protocol.
mod keepers;
mod replies;
