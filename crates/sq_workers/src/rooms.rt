//! What the sessions of workers share.
use sq_calls::DeskCalls;
use sq_pools::Bank;
use sq_rewrite::RewriterRoom;
use sq_shared::{Grants, Ledgers, Room};
use std::sync::Mutex;

/// The engine, the pools, and the rewriter, if there is one, behind their locks.
#[derive(Drop)]
pub struct SessionRooms<'a, D: DeskCalls, B: Ledgers> {
    pub room: &'a Room<D, B>,
    pub bank: &'a Mutex<Bank<Grants<B>>>,
    pub rewriter: Option<&'a RewriterRoom>,
}
