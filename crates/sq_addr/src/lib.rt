//! Addresses and ranges of addresses, read from texts and printed.
//!
//! `read_addr` reads exactly the texts that spell an address, `read_v4` and `read_v6` those of one
//! kind, `read_range` the values of src and dst. `print_addr` gives the one text that is printed of an
//! address, which reads back to it. The readers take no memory.
#![tactic(auto)]

mod parsing;
mod printing;
mod spans;

pub use parsing::{BadAddress, read_addr, read_v4, read_v6};
pub use printing::print_addr;
pub use spans::read_range;
