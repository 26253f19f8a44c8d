//! Tests of sessions over a machine in memory.
//!
//! The expected values come from Squid's configuration reference, directives `external_acl_type`,
//! `http_access` and `delay_parameters`, followed by hand, from what a helper process is told to write, and from the
//! table of what a client gets in `docs/FORMATS.md`. Where a call of a link fails, they are counted from how many
//! bytes a read gives and a write takes.
mod failing;
mod links;
mod observed;
mod overheard;
mod pieces;
mod running;
mod turns;
