//! Workers, one after another in halves.
ghost use Rattle.std.specs.Prelude.{◌≡◌, ◌+◌, ◌-◌, ◌<◌, ◌^◌};
ghost use Rattle.std.specs.Thread.{IsSend, IsSync};

use crate::attending::{ClientLink, attend};
use crate::lock_hub::Shares;
use crate::rooms::SessionRooms;
use crate::sums::{Sums, both};
use sq_base::ConnNo;
use sq_calls::DeskCalls;
use sq_outside::{Accepted, Another, Clock};
use sq_shared::{Asks, Door, Grants, Ledgers, Refusals, WorkerTypes, accept};
use std::alloc::Global;
use std::sync::ledger::Share;
use std::sync::{Mutex, Wait};
use std::thread::{Threads, join};

/// What a worker dials with, and its clock.
#[derive(Drop)]
pub struct WorkerTools<W: WorkerTypes> {
    pub dialer: W::D,
    pub clock: W::C,
}

impl<W: WorkerTypes> WorkerTools<W> {
    // Those of another worker.
    fn another(&self) -> WorkerTools<W> {
        WorkerTools {
            dialer: self.dialer.another(),
            clock: self.clock.another(),
        }
    }
}

// Takes one link after the other and serves it as the connection of the number of its sums, until the listener stops. Where
// a call of the listener failed, it pauses and tries again: the fault stands at the door.
#[inline(never)]
fn work<R: Threads + Wait + Sync, W: WorkerTypes, D: DeskCalls, B: Ledgers>(
    rt: &R,
    alloc: Global,
    door: &Mutex<Door<W::L>>,
    rooms: &SessionRooms<'_, D, B>,
    tools: WorkerTools<W>,
    mut sums: Sums<B>,
    mut refused: Share<Refusals<B>>,
) -> Sums<B>
    requires one { sums.count ≡ 1 }
    requires asked { sums.asked.parts ≡ 2 }
    requires grants { sums.grants.parts ≡ 2 }
    requires refused { refused.parts ≡ 2 }
    ensures numbers { (result.first ≡ sums.first) × (result.count ≡ 1) }
    ensures asked { result.asked.parts ≡ 2 }
    ensures grants { result.grants.parts ≡ 2 }
{
    let WorkerTools {
        mut dialer,
        mut clock,
    } = tools;
    for _ in rt.forever() {
        match accept(rt, alloc, door) {
            Accepted::Link {
                from,
                to,
                addr,
                port,
            } => {
                let link = ClientLink {
                    conn: ConnNo(u64::from(sums.first)),
                    from,
                    to,
                    addr,
                    port,
                };
                let theirs = clock.another();
                let (_end, _to) = attend::<R, W, D, B>(
                    rt,
                    alloc,
                    rooms,
                    link,
                    &mut dialer,
                    theirs,
                    &mut refused,
                    &mut sums,
                );
            }
            Accepted::Failed => clock.pause(),
            Accepted::Stopped => return sums,
        }
    }
    unreachable!()
}

// Nothing was asked yet, and nothing granted, by the worker of this number.
fn nothing<B: Ledgers>(number: u32, asked: Share<Asks<B>>, grants: Share<Grants<B>>) -> Sums<B>
    requires asked { asked.amount ≡ 0 }
    requires grants { grants.amount ≡ 0 }
    ensures numbers { (result.first ≡ number) × (result.count ≡ 1) }
    ensures asked { result.asked ≡ asked }
    ensures grants { result.grants ≡ grants }
{
    Sums {
        first: number,
        count: 1,
        requests: 0,
        granted: 0,
        asked,
        grants,
    }
}

// Runs the worker of this number. A thread that runs one alone has no frame of `work_all` above it.
fn work_one<R: Threads + Wait + Sync, W: WorkerTypes, D: DeskCalls, B: Ledgers>(
    rt: &R,
    alloc: Global,
    door: &Mutex<Door<W::L>>,
    rooms: &SessionRooms<'_, D, B>,
    tools: WorkerTools<W>,
    number: u32,
    shares: Shares<B>,
) -> Sums<B>
    requires asked { (shares.asked.parts ≡ 2) × (shares.asked.amount ≡ 0) }
    requires refused { shares.refused.parts ≡ 2 }
    requires grants { (shares.granted.parts ≡ 2) × (shares.granted.amount ≡ 0) }
    ensures numbers { (result.first ≡ number) × (result.count ≡ 1) }
    ensures asked { result.asked.parts ≡ 2 }
    ensures grants { result.grants.parts ≡ 2 }
{
    let Shares {
        asked,
        refused,
        granted,
    } = shares;
    let sums = nothing(number, asked, granted);
    work::<R, W, D, B>(rt, alloc, door, rooms, tools, sums, refused)
}

// So many parts of shares in which nothing is counted, and the rest.
#[inline(never)]
fn split<B: Ledgers>(shares: Shares<B>, parts: u64) -> (Shares<B>, Shares<B>)
    requires asked { (parts < shares.asked.parts) × (shares.asked.amount ≡ 0) }
    requires refused { parts < shares.refused.parts }
    requires granted { (parts < shares.granted.parts) × (shares.granted.amount ≡ 0) }
    ensures asked { (result.0.asked.parts ≡ parts) × (result.0.asked.amount ≡ 0) }
    ensures refused { result.0.refused.parts ≡ parts }
    ensures granted { (result.0.granted.parts ≡ parts) × (result.0.granted.amount ≡ 0) }
    ensures asked_rest { (result.1.asked.parts ≡ shares.asked.parts - parts)
        × (result.1.asked.amount ≡ 0) }
    ensures refused_rest { result.1.refused.parts ≡ shares.refused.parts - parts }
    ensures granted_rest { (result.1.granted.parts ≡ shares.granted.parts - parts)
        × (result.1.granted.amount ≡ 0) }
{
    let Shares {
        mut asked,
        mut refused,
        mut granted,
    } = shares;
    let theirs = Shares {
        asked: asked.split_off(parts, 0),
        refused: refused.split_off(parts, 0),
        granted: granted.split_off(parts, 0),
    };
    (
        theirs,
        Shares {
            asked,
            refused,
            granted,
        },
    )
}

// So many workers begin one after the other.
const FEW: u32 = 16;

// How many of so many workers begin in a thread of their own: half of them, so that all begin soon; of a few all but one, so that
// nearly each thread has the frames of one step alone.
fn low_of(count: u32) -> u32
    requires { 1 < count }
    ensures { (0 < result) × (result < count) }
{
    if count > FEW { count / 2 } else { count - 1 }
}

/// Runs `count` workers beside one another, the first of which opens its connections as number `first` and each later one
/// as the next number, until the listener stops and each has served its last link. Each worker takes two parts of each
/// share: one stays with it, one goes with its sessions. What comes back are the sums over all sessions.
pub fn work_all<
    R: Threads + Wait + Sync,
    W: WorkerTypes + Send,
    D: DeskCalls + Send,
    B: Ledgers + Send + Sync,
>(
    rt: &R,
    alloc: Global,
    door: &Mutex<Door<W::L>>,
    rooms: &SessionRooms<'_, D, B>,
    tools: WorkerTools<W>,
    first: u32,
    count: u32,
    shares: Shares<B>,
) -> Sums<B>
    requires some { 0 < count }
    requires last { first + count < 2 ^ 32 }
    requires asked { (shares.asked.parts ≡ count + count) × (shares.asked.amount ≡ 0) }
    requires refused { shares.refused.parts ≡ count + count }
    requires grants { (shares.granted.parts ≡ count + count) × (shares.granted.amount ≡ 0) }
    // Each worker has a number of its own: the first of them, and so on to the last.
    ensures numbers { (result.first ≡ first) × (result.count ≡ count) }
    ensures asked { result.asked.parts ≡ count + count }
    ensures grants { result.grants.parts ≡ count + count }
{
    if count == 1 {
        return work_one::<R, W, D, B>(rt, alloc, door, rooms, tools, first, shares);
    }
    let low = low_of(count);
    let high = count - low;
    let next = first + low;
    let parts = u64::from(low) + u64::from(low);
    let (shares_low, shares) = split(shares, parts);
    let tools_low = tools.another();
    let (one, other) = join(
        rt,
        move || -> Sums<B>
            requires { IsSync R.row × IsSend W.row × IsSend D.row × IsSend B.row × IsSync B.row
                × IsSend W.L.row × IsSend W.L.In.row × IsSend W.L.Outgo.row
                × IsSend W.D.row × IsSend W.D.In.row × IsSend W.D.Outgo.row × IsSend W.C.row
                × (0 < low) × (first + low < 2 ^ 32)
                × (shares_low.asked.parts ≡ low + low) × (shares_low.asked.amount ≡ 0)
                × (shares_low.refused.parts ≡ low + low)
                × (shares_low.granted.parts ≡ low + low) × (shares_low.granted.amount ≡ 0) }
            ensures { (result.first ≡ first) × (result.count ≡ low)
                × (result.asked.parts ≡ low + low) × (result.grants.parts ≡ low + low) }
        {
            if low == 1 {
                work_one::<R, W, D, B>(rt, alloc, door, rooms, tools_low, first, shares_low)
            } else {
                work_all::<R, W, D, B>(rt, alloc, door, rooms, tools_low, first, low, shares_low)
            }
        },
        move || -> Sums<B>
            requires { IsSync R.row × IsSend W.row × IsSend D.row × IsSend B.row × IsSync B.row
                × IsSend W.L.row × IsSend W.L.In.row × IsSend W.L.Outgo.row
                × IsSend W.D.row × IsSend W.D.In.row × IsSend W.D.Outgo.row × IsSend W.C.row
                × (0 < high) × (next + high < 2 ^ 32)
                × (shares.asked.parts ≡ high + high) × (shares.asked.amount ≡ 0)
                × (shares.refused.parts ≡ high + high)
                × (shares.granted.parts ≡ high + high) × (shares.granted.amount ≡ 0) }
            ensures { (result.first ≡ next) × (result.count ≡ high)
                × (result.asked.parts ≡ high + high) × (result.grants.parts ≡ high + high) }
        {
            if high == 1 {
                work_one::<R, W, D, B>(rt, alloc, door, rooms, tools, next, shares)
            } else {
                work_all::<R, W, D, B>(rt, alloc, door, rooms, tools, next, high, shares)
            }
        },
    );
    both(one, other)
}
