//! `LentSeat`: a seat as a grant knows it. Each method is one hold of the pools' lock, of the call of its name for seats of its
//! kind.
ghost use Rattle.std.specs.Prelude.{◌≡◌, ◌+◌, ◌<◌, ◌≤◌};
ghost use Rattle.sq_pools.specs.Turning.{given_of};

use sq_base::Moment;
use sq_pools::{Bank, Seat, TagSeat};
use std::sync::ledger::{Ledger, Share};
use std::sync::{Mutex, Wait};

/// A seat of a host, or one for a tag.
#[derive(Clone, Copy)]
pub(crate) enum LentSeat<'a> {
    ByAddress(&'a Seat),
    ByTag(&'a TagSeat),
}

impl<'a> LentSeat<'a> {
    /// Grants some of the bytes that are wanted, where it is the turn of the seat; else no call of the pools is made.
    pub(crate) fn grant_in_turn<R: Wait, G: Ledger>(
        self,
        rt: &R,
        bank: &Mutex<Bank<G>>,
        wanted: u64,
        now: Moment,
        share: &mut Share<G>,
    ) -> Option<u64>
        requires { 0 < share.old.parts }
        ensures within { given_of result ≤ wanted }
        ensures amount { share.new.amount ≡ share.old.amount + given_of result }
        ensures parts { share.new.parts ≡ share.old.parts }
    {
        match self {
            LentSeat::ByAddress(seat) => {
                sq_pools::grant_in_turn(rt, bank, seat, wanted, now, share)
            }
            LentSeat::ByTag(seat) => {
                sq_pools::grant_tag_in_turn(rt, bank, seat, wanted, now, share)
            }
        }
    }

    /// Grants bytes, whoever's turn it is.
    pub(crate) fn grant<R: Wait, G: Ledger>(
        self,
        rt: &R,
        bank: &Mutex<Bank<G>>,
        wanted: u64,
        now: Moment,
        share: &mut Share<G>,
    ) -> u64
        requires { 0 < share.old.parts }
        ensures within { result ≤ wanted }
        ensures amount { share.new.amount ≡ share.old.amount + result }
        ensures parts { share.new.parts ≡ share.old.parts }
    {
        match self {
            LentSeat::ByAddress(seat) => sq_pools::grant(rt, bank, seat, wanted, now, share),
            LentSeat::ByTag(seat) => sq_pools::grant_tag(rt, bank, seat, wanted, now, share),
        }
    }

    /// The first moment behind this one at which the buckets of the seat gain, a second behind it at most.
    pub(crate) fn gains_at<R: Wait, G: Ledger>(
        self,
        rt: &R,
        bank: &Mutex<Bank<G>>,
        now: Moment,
    ) -> Moment
        ensures later { now ≤ result }
        ensures soon { result ≤ now + 1000 }
    {
        match self {
            LentSeat::ByAddress(seat) => sq_pools::gains_at(rt, bank, seat, now),
            LentSeat::ByTag(seat) => sq_pools::tag_gains_at(rt, bank, seat, now),
        }
    }
}
