//! What the pump and its keepers share.
use crate::shelf::Shelf;
use sq_calls::DeskCalls;
use sq_shared::{Ledgers, Room};
use std::alloc::Global;
use std::sync::Wait;

/// The runtime, the memory, the desk behind its lock, and the shelf.
#[derive(Drop)]
pub(crate) struct Site<'s, 'r, R: Wait, P, D: DeskCalls, B: Ledgers> {
    pub(crate) rt: &'s R,
    pub(crate) alloc: Global,
    pub(crate) room: &'s Room<D, B>,
    pub(crate) shelf: &'s Shelf<'r, P, R, B>,
}
