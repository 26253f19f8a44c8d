//! The holds of the pools' lock. Nothing is proved here of what lies under it but what its type keeps; each function
//! takes the lock, makes the one call of its name with the arguments that it was handed, and lets go.
ghost use Rattle.std.specs.Prelude.{◌≡◌, ◌+◌, ◌<◌, ◌≤◌, true};
ghost use Rattle.sq_pools.specs.Basins.{has_pool, has_tag_pool};
ghost use Rattle.sq_pools.specs.Turning.{given_of};

use crate::bank::Bank;
use crate::pools::ChooseFault;
use crate::seats::Seat;
use crate::tag_pools::TagSeat;
use sq_base::{Addr, EpochNo, Moment, Text, WantOfMemory};
use sq_rules::Config;
use std::alloc::Global;
use std::sync::ledger::{Ledger, Share};
use std::sync::{Arc, Mutex, Wait};

/// Gives a seat.
pub fn choose<R: Wait, G: Ledger>(
    rt: &R,
    alloc: Global,
    bank: &Mutex<Bank<G>>,
    epoch: EpochNo,
    config: &Arc<Config>,
    pool: u32,
    addr: Addr,
    now: Moment,
) -> Result<Seat, ChooseFault>
    requires { has_pool config.now.value pool addr ≡ true }
{
    bank.lock(rt).choose(alloc, epoch, config, pool, addr, now)
}

/// Gives a seat for a tag.
pub fn choose_tag<R: Wait, G: Ledger>(
    rt: &R,
    alloc: Global,
    bank: &Mutex<Bank<G>>,
    epoch: EpochNo,
    config: &Arc<Config>,
    pool: u32,
    tag: &Text,
    now: Moment,
) -> Result<TagSeat, ChooseFault>
    requires { has_tag_pool config.now.value pool ≡ true }
{
    bank.lock(rt)
        .choose_tag(alloc, epoch, config, pool, tag, now)
}

/// Grants some of the bytes that are wanted, which the share counts, to a seat whose turn it is; else no call of the pools
/// is made.
pub fn grant_in_turn<R: Wait, G: Ledger>(
    rt: &R,
    bank: &Mutex<Bank<G>>,
    seat: &Seat,
    wanted: u64,
    now: Moment,
    share: &mut Share<G>,
) -> Option<u64>
    requires { 0 < share.old.parts }
    ensures within { given_of result ≤ wanted }
    ensures amount { share.new.amount ≡ share.old.amount + given_of result }
    ensures parts { share.new.parts ≡ share.old.parts }
{
    bank.lock(rt).grant_in_turn(seat, wanted, now, share)
}

/// The same to a seat for a tag.
pub fn grant_tag_in_turn<R: Wait, G: Ledger>(
    rt: &R,
    bank: &Mutex<Bank<G>>,
    seat: &TagSeat,
    wanted: u64,
    now: Moment,
    share: &mut Share<G>,
) -> Option<u64>
    requires { 0 < share.old.parts }
    ensures within { given_of result ≤ wanted }
    ensures amount { share.new.amount ≡ share.old.amount + given_of result }
    ensures parts { share.new.parts ≡ share.old.parts }
{
    bank.lock(rt).grant_tag_in_turn(seat, wanted, now, share)
}

/// Grants bytes to a seat, which the share counts, whoever's turn it is.
pub fn grant<R: Wait, G: Ledger>(
    rt: &R,
    bank: &Mutex<Bank<G>>,
    seat: &Seat,
    wanted: u64,
    now: Moment,
    share: &mut Share<G>,
) -> u64
    requires { 0 < share.old.parts }
    ensures within { result ≤ wanted }
    ensures amount { share.new.amount ≡ share.old.amount + result }
    ensures parts { share.new.parts ≡ share.old.parts }
{
    bank.lock(rt).grant(seat, wanted, now, share)
}

/// The same to a seat for a tag.
pub fn grant_tag<R: Wait, G: Ledger>(
    rt: &R,
    bank: &Mutex<Bank<G>>,
    seat: &TagSeat,
    wanted: u64,
    now: Moment,
    share: &mut Share<G>,
) -> u64
    requires { 0 < share.old.parts }
    ensures within { result ≤ wanted }
    ensures amount { share.new.amount ≡ share.old.amount + result }
    ensures parts { share.new.parts ≡ share.old.parts }
{
    bank.lock(rt).grant_tag(seat, wanted, now, share)
}

/// The first moment behind this one at which the buckets of a seat gain, a second behind it at most.
pub fn gains_at<R: Wait, G: Ledger>(
    rt: &R,
    bank: &Mutex<Bank<G>>,
    seat: &Seat,
    now: Moment,
) -> Moment
    ensures later { now ≤ result }
    ensures soon { result ≤ now + 1000 }
{
    bank.lock(rt).gains_at(seat, now)
}

/// The same for the bucket of a seat for a tag.
pub fn tag_gains_at<R: Wait, G: Ledger>(
    rt: &R,
    bank: &Mutex<Bank<G>>,
    seat: &TagSeat,
    now: Moment,
) -> Moment
    ensures later { now ≤ result }
    ensures soon { result ≤ now + 1000 }
{
    bank.lock(rt).tag_gains_at(seat, now)
}

/// Gives a seat up.
pub fn leave<R: Wait, G: Ledger>(rt: &R, bank: &Mutex<Bank<G>>, seat: Seat) {
    bank.lock(rt).leave(seat);
}

/// Gives a seat for a tag up.
pub fn leave_tag<R: Wait, G: Ledger>(rt: &R, bank: &Mutex<Bank<G>>, seat: TagSeat) {
    bank.lock(rt).leave_tag(seat);
}

/// Makes the generation of an epoch of the pools with buckets by addresses.
pub fn renew<R: Wait, G: Ledger>(
    rt: &R,
    alloc: Global,
    bank: &Mutex<Bank<G>>,
    epoch: EpochNo,
    config: &Arc<Config>,
    now: Moment,
) -> Result<(), WantOfMemory> {
    bank.lock(rt).renew(alloc, epoch, config, now)
}

/// The same for the pools with buckets by tags.
pub fn renew_tags<R: Wait, G: Ledger>(
    rt: &R,
    alloc: Global,
    bank: &Mutex<Bank<G>>,
    epoch: EpochNo,
    config: &Arc<Config>,
    now: Moment,
) -> Result<(), WantOfMemory> {
    bank.lock(rt).renew_tags(alloc, epoch, config, now)
}
