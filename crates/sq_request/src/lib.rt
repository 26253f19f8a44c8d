//! Requests, read from their heads and made of their parts.
//!
//! `head_end` tells where the head at the front of some bytes ends. `read_request` reads a whole head:
//! the answer is the request of the one head of the grammar of `httparse` that these bytes are.
//! `make_request` makes a request of its parts, and judges it by the head that is written of them, which
//! has to read as these very parts. Both refuse for the head first, then for more than 128 fields, then
//! for the target, each exactly where it is so: a head is one request, or is refused in one way. The
//! parts of the target are those of the definitions in `sq_base`, and each request carries that fact with
//! it. `retarget` gives a request another target and keeps all else.
#![tactic(auto)]

mod building;
mod ending;
mod faults;
mod hosts;
mod making;
mod methods;
mod ports;
mod reading;
mod retargeting;
mod spanning;
mod targets;

pub use ending::head_end;
pub use faults::BadRequest;
pub use making::make_request;
pub use reading::read_request;
pub use retargeting::retarget;
pub use spanning::copy_fields;
