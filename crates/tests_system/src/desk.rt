//! The desk: one job that makes each of its calls, over journals in memory of which each note fails in turn; each
//! call of a desk, of delay pools and of a rewriter behind their locks; whose turn it is at a bucket, and who waits how long.
//! Sessions over a machine and links in memory where something fails (`hub`), and replies of the proxy's own that the program
//! does not come to (`own_replies`). Heads, bodies, exchanges and tunnels that do not fail are shown over the program, by
//! `tests/corpus`.
//!
//! The answers expected come from the definitions of the machine's answers, of its next act, of the farms and of the buckets,
//! followed by hand.
mod calls;
mod desks;
mod faults;
mod hub;
mod jobs;
mod locked;
mod locks;
mod own_replies;
mod rewriting;
mod seats;
mod waits;
