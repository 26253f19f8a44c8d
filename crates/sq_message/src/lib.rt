//! HTTP messages: their heads as a proxy passes them on, the plans of their bodies, bodies in pieces, and the proxy's own
//! replies.
//!
//! `head_out` is the head of a request as the origin gets it, `reply_head_out` that of a reply as the client
//! gets it: fields of one connection alone, those that Connection lists but Content-Length, and of a request
//! those for the proxy (Host, Proxy-Authorization, Expect) are left out, the rest is as it came.
//! `head_out_where` and `reply_head_out_where` leave out the lines besides whose names do not pass a test.
//! `read_reply_head` reads a whole head of a reply. `request_plan` and `reply_plan` say how the end of
//! a body is found, and refuse what two recipients could read differently; they take no memory.
//! `wants_close` and `wants_continue` say what a request wishes of its connection and of its body. `denial`,
//! `redirect_text` and `error_text` are the replies of the proxy's own. Each answer is that of its definition.
//!
//! `BodyCursor` goes on with a body by length, in chunks, or up to the close. It is fed the bytes of a message behind its
//! head, and puts what goes out at the end of a text: the body as it is, its chunks written anew, or their data alone.
//! However the bytes are cut, the outputs joined are the body that the definition gives of the bytes joined, and so are
//! the bytes used. Broken chunks are refused for good, behind what the bytes before them give. The output of one call is
//! at most 32 bytes longer than what it used. Chunk lines are read by `httparse`.
#![tactic(auto)]

mod body_state;
mod chunk_line;
mod cursor;
mod elements;
mod escaping;
mod faults;
mod feed_faults;
mod kept;
mod lines;
mod listing;
mod name_test;
mod names;
mod outcomes;
mod own;
mod plans;
mod replies;
mod reply_out;
mod reply_reading;
mod request_out;
mod size;
mod spanning;
mod taking;
mod values;
mod wishes;

pub use cursor::{BodyCursor, Fed};
pub use faults::{BadBody, ReplyHeadFault};
pub use feed_faults::FeedFault;
pub use name_test::{EachName, NameTest};
pub use own::{Own, denial, error_text, redirect_text, status_of};
pub use plans::{reply_plan, request_plan};
pub use replies::{ReplyHead, Shape};
pub use reply_out::{reply_head_out, reply_head_out_where};
pub use reply_reading::read_reply_head;
pub use request_out::{head_out, head_out_where};
pub use wishes::{wants_close, wants_continue};
