//! Acls of type `dst` on names: the questions about hosts that their look-ups ask, and the replies.
//!
//! Where names of hosts are looked up, an acl of type `dst` asks the class `dst lookup` for each host that is no address. No
//! program answers: `answer_lines` reads the questions from a source, as a keeper reads a program's lines, has a resolver find the
//! addresses of the host, and hands a desk one reply for each: `OK` where some address lies in the acl's values, `ERR` where
//! none does, and `BH` where the question is no key of the configuration or the resolver failed. `host_of` and `reply_for` are its
//! parts. `pipe` makes what the questions go through, an `Out` and a `Source` between two threads. `dst_hits` says of a record
//! what a match of such an acl rests on.
#![tactic(auto)]

mod acls;
mod answering;
mod escapes;
mod hits;
mod keys;
mod pipes;
mod replies;
mod ring;

pub use answering::answer_lines;
pub use hits::dst_hits;
pub use keys::host_of;
pub use pipes::{PipeIn, PipeOut, pipe};
pub use replies::reply_for;
