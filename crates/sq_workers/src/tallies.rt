//! `Tally`: a hub's share of a book, and what it counts. Where a call adds to the share, its hold is made here, and the count is
//! raised by what it gave: `ask` is one hold of the desk's lock, and each try of a `grant` one of the pools'. Where it is not the
//! turn of the seat, and where a grant gave nothing, another hold asks when the buckets gain.
ghost use Rattle.std.specs.Prelude.{◌≡◌, ◌+◌, ◌<◌, ◌≤◌, min};
ghost use Rattle.sq_outside.specs.Causes.{count_limit};

use crate::hub_waits::rest;
use crate::lent_seats::LentSeat;
use sq_base::{CheckNo, ConnNo, Moment, Request};
use sq_calls::{DeskCalls, DeskFault};
use sq_outside::{Clock, raised, raised_by};
use sq_pools::Bank;
use sq_shared::{Asks, Ledgers, Refusals, Room, holds};
use std::alloc::Global;
use std::sync::ledger::{Ledger, Share};
use std::sync::{Mutex, Wait};

// So many times a seat pauses for its turn, a second at most each. Then it is granted what its buckets have.
const TURN_PAUSES: u32 = 60;

/// A share of one part, and how much it has, up to 2^63 - 1.
pub(crate) struct Tally<L: Ledger> {
    count: u64,
    share: Share<L>,
    ghost part: { share.parts ≡ 1 },
    ghost count_is: { count ≡ min share.amount count_limit },
}

// Written out, so that whoever lets a hub go proves one call.
impl<L: Ledger> Drop for Tally<L> {
    fn drop(self) {
        let Tally { count: _, share: _ } = self;
    }
}

impl<L: Ledger> Tally<L> {
    /// Of a share in which nothing is counted.
    pub(crate) fn new(share: Share<L>) -> Tally<L>
        requires part { share.parts ≡ 1 }
        requires nothing { share.amount ≡ 0 }
        ensures { result.share ≡ share }
    {
        Tally { count: 0, share }
    }

    /// Its share, given back.
    pub(crate) fn finish(self) -> Share<L>
        ensures share { result ≡ self.share }
        ensures part { result.parts ≡ 1 }
    {
        let Tally { count: _, share } = self;
        share
    }

    /// How much it has.
    pub(crate) fn count(&self) -> u64
        ensures { result ≡ min self.now.share.amount count_limit }
    {
        self.count
    }
}

impl<B: Ledgers> Tally<Asks<B>> {
    ghost use Rattle.sq_shared.specs.Books.{SharesMade, SharesRefusal};

    /// A request arrives on a connection.
    pub(crate) fn ask<R: Wait, C: Clock, D: DeskCalls>(
        &mut self,
        rt: &R,
        room: &Room<D, B>,
        alloc: Global,
        conn: ConnNo,
        request: Request,
        clock: &mut C,
        refused: &mut Share<Refusals<B>>,
    ) -> Result<CheckNo, DeskFault>
        requires { 0 < refused.old.parts }
        ensures asked { SharesMade self.old.share.amount self.new.share.amount result }
        ensures refused { SharesRefusal refused.old.amount refused.new.amount result }
        ensures parts { refused.new.parts ≡ refused.old.parts }
    {
        let Tally { count, share } = self;
        let gave = holds::ask(rt, room, alloc, conn, request, clock, share, refused);
        if gave.is_ok() {
            *count = raised(*count);
        }
        gave
    }
}

impl<G: Ledger> Tally<G> {
    ghost use Rattle.sq_pools.specs.Turning.{given_of};
    ghost use Rattle.sq_turns.specs.Hubs.{granted_by};

    // Grants some of the bytes that are wanted to a seat whose turn it is.
    fn grant_in_turn<R: Wait>(
        &mut self,
        rt: &R,
        bank: &Mutex<Bank<G>>,
        seat: LentSeat<'_>,
        wanted: u64,
        now: Moment,
    ) -> Option<u64>
        ensures within { given_of result ≤ wanted }
        ensures granted { self.new.share.amount ≡ self.old.share.amount + given_of result }
    {
        let Tally { count, share } = self;
        let gave = seat.grant_in_turn(rt, bank, wanted, now, share);
        if let Some(given) = gave {
            *count = raised_by(*count, given);
        }
        gave
    }

    // Grants bytes to a seat, whoever's turn it is.
    fn grant_now<R: Wait>(
        &mut self,
        rt: &R,
        bank: &Mutex<Bank<G>>,
        seat: LentSeat<'_>,
        wanted: u64,
        now: Moment,
    ) -> u64
        ensures within { result ≤ wanted }
        ensures granted { self.new.share.amount ≡ self.old.share.amount + result }
    {
        let Tally { count, share } = self;
        let given = seat.grant(rt, bank, wanted, now, share);
        *count = raised_by(*count, given);
        given
    }

    // Waits for the turn of a seat, and grants it bytes then; after so many pauses whoever's turn it is. The moment is that
    // of the call of the pools that was made.
    fn grant_after_turns<R: Wait, C: Clock>(
        &mut self,
        rt: &R,
        bank: &Mutex<Bank<G>>,
        seat: LentSeat<'_>,
        wanted: u64,
        clock: &mut C,
    ) -> (u64, Moment)
        ensures within { result.0 ≤ wanted }
        ensures granted { self.new.share.amount ≡ self.old.share.amount + result.0 }
    {
        for _ in 0..TURN_PAUSES {
            let now = clock.now();
            match self.grant_in_turn(rt, bank, seat, wanted, now) {
                Some(given) => return (given, now),
                None => rest(clock, seat.gains_at(rt, bank, now)),
            }
        }
        let now = clock.now();
        (self.grant_now(rt, bank, seat, wanted, now), now)
    }

    /// Grants bytes to a seat. Where some are wanted it grants none only where a bucket of the seat is empty: then `gains_at`
    /// is when its buckets gain. Where it is not its turn, it pauses, without the lock, until they gain, and asks again.
    #[tactic(auto, using(crate::proofs::HubLaws::hub_granted))]
    pub(crate) fn grant<R: Wait, C: Clock>(
        &mut self,
        rt: &R,
        bank: &Mutex<Bank<G>>,
        seat: LentSeat<'_>,
        wanted: u64,
        clock: &mut C,
        gains_at: &mut Moment,
    ) -> u64
        ensures within { result ≤ wanted }
        ensures granted { min self.new.share.amount count_limit
            ≡ granted_by (min self.old.share.amount count_limit) result }
    {
        if wanted == 0 {
            return 0;
        }
        let (given, now) = self.grant_after_turns(rt, bank, seat, wanted, clock);
        if given == 0 {
            *gains_at = seat.gains_at(rt, bank, now);
        }
        given
    }
}
