//! Delay pools: the buckets of each epoch, and seats that are granted bytes from them.
//!
//! `Pools` has a generation of buckets for each epoch that is the newest or has a seat in use. `choose` gives a
//! seat in a pool, `grant` takes bytes from the seat's buckets, `leave` gives it up, and `renew` makes the
//! generation of a new epoch. `bucket` and `granted` show the numbers. A grant is reckoned at once, however many
//! seconds have gone, and costs a logarithm in the number of hosts; it and `leave` take no memory. `TagPools` is the same
//! for pools of class 5, with a bucket for each tag, and generations and seats of its own. With `pass` the two give their
//! seats numbers that stand in neither twice, and `HeldSeat` is a seat of the one or of the other.
//!
//! `Bank` is the delay pools of both kinds, as they lie behind their lock, with the book of their grants: what they granted
//! together is what the book counts, or 2^127 where that is less. Its methods say what a call does to the pools and to the
//! share that is handed in. `grant_in_turn` grants a seat some of the bytes that it wants, or makes no call where it is not
//! the seat's turn. The lines that take the lock stand in `bank_holds`: `choose`, `grant_in_turn`, `grant`, `gains_at`, `leave`
//! and `renew`, and `choose_tag`, `grant_tag_in_turn`, `grant_tag`, `tag_gains_at`, `leave_tag` and `renew_tags` for buckets by
//! tags, each a call of the bank in one hold.
#![tactic(auto)]

mod bank;
mod bank_holds;
mod generations;
mod held_seats;
mod pools;
mod seats;
mod tag_pools;
mod turns;

pub use bank::Bank;
pub use bank_holds::{
    choose, choose_tag, gains_at, grant, grant_in_turn, grant_tag, grant_tag_in_turn, leave,
    leave_tag, renew, renew_tags, tag_gains_at,
};
pub use held_seats::HeldSeat;
pub use pools::{ChooseFault, Pools};
pub use seats::Seat;
pub use tag_pools::{TagPools, TagSeat};
