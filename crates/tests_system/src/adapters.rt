//! The adapters over the system: a link on this machine's own address, programs, files and streams, the clock, and the look-up of
//! names. What a server makes of them `tests/serve.sh` and `tests/links.py` show.
//!
//! What is expected comes from what the traits of `sq_outside` say, from POSIX (`cat`, `sh`), and from the names that RFC 6761
//! reserves.
mod fixtures;
mod helpers;
mod hosts;
mod limits;
mod links;
mod names;
mod readers;
mod refusals;
