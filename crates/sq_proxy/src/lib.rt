//! The top call: the program's commands, and its server, over files, streams, a net and a journal that are handed in.
//!
//! `proxy` takes any list of words. Those of a command go to `run_command` of `sq_commands`, and what that promises, it promises.
//! Those of a server go to `serve_service` of `sq_server`: of a server each status has its cause, the journal is legal, and what
//! it writes of its end and of other configurations is so. The edits that its clauses refuse are tried over this crate alone.
#![tactic(auto)]

mod proxying;

pub use proxying::proxy;
