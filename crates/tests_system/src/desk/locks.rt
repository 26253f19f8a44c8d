//! A desk and delay pools behind their locks, with the shares of who calls them.
ghost use Rattle.std.specs.Prelude.{◌≡◌};
ghost use Rattle.std.specs.Option.{ForSome};
ghost use Rattle.sq_shared.specs.Books.{AreCounted};

use sq_base::{EpochNo, Moment};
use sq_calls::DeskCalls;
use sq_pools::{Bank, Pools, TagPools};
use sq_rules::Config;
use sq_shared::{Asks, Grants, Hall, Ledgers, Makes, Refusals, Room, WaitPlaces};
use std::alloc::Global;
use std::process::Abort;
use std::sync::ledger::{Blank, Book, Ledger, Share};
use std::sync::{Arc, Mutex};

/// How many take a share of the refusals: who calls the desk, the control, and a connection.
pub const CALLERS: u64 = 3;

/// A blank for each book.
#[derive(Drop)]
pub struct Blanks {
    pub asks: Blank,
    pub makes: Blank,
    pub refusals: Blank,
    pub grants: Blank,
}

impl Blanks {
    /// Blanks for one connection and one control.
    pub fn new() -> Blanks
        ensures asks { result.asks.parts ≡ 1 }
        ensures makes { result.makes.parts ≡ 1 }
        ensures refusals { result.refusals.parts ≡ CALLERS }
        ensures grants { result.grants.parts ≡ 1 }
    {
        Blanks {
            asks: Blank::new(1),
            makes: Blank::new(1),
            refusals: Blank::new(CALLERS),
            grants: Blank::new(1),
        }
    }
}

/// The whole share of each book.
#[derive(Drop)]
pub struct Wholes<B: Ledgers> {
    pub asked: Share<Asks<B>>,
    pub made: Share<Makes<B>>,
    pub refused: Share<Refusals<B>>,
    pub granted: Share<Grants<B>>,
}

// Puts a desk that counted nothing yet behind its lock, with these places to sleep.
#[tactic(auto, using(crate::proofs::BeginLaws::counted_none, crate::proofs::BeginLaws::made_none, crate::proofs::BeginLaws::refused_none))]
fn room_of<D: DeskCalls, B: Ledgers>(
    alloc: Global,
    desk: D,
    asks: Book<Asks<B>>,
    makes: Book<Makes<B>>,
    refusals: Book<Refusals<B>>,
    places: WaitPlaces,
) -> Room<D, B>
    requires totals { (asks.total ≡ 0) × (makes.total ≡ 0) × (refusals.total ≡ 0) }
    requires entries { AreCounted 0 0 (D.told desk) }
    requires made { ForSome (D.made desk) (λ m. m ≡ 0) }
    requires refused { D.refused desk ≡ 0 }
{
    Room::new(Hall::new(alloc, desk, asks, makes, refusals), places)
}

/// Pools of both kinds, whose first epoch begins at 0 s.
pub fn pools_of(rt: &impl Abort, alloc: Global, config: &Arc<Config>) -> (Pools, TagPools)
    ensures { (result.0.granted ≡ 0) × (result.1.granted ≡ 0) }
{
    let pools = Pools::new(alloc, EpochNo(1), config, Moment(0)).expect(rt, "memory");
    let tags = TagPools::new(alloc, EpochNo(1), config, Moment(0)).expect(rt, "memory");
    (pools, tags)
}

// Puts pools that granted nothing yet behind their lock.
#[tactic(auto, using(crate::proofs::BeginLaws::granted_none))]
fn bank_of<G: Ledger>(pools: (Pools, TagPools), grants: Book<G>) -> Mutex<Bank<G>>
    requires { (grants.total ≡ 0) × (pools.0.granted ≡ 0) × (pools.1.granted ≡ 0) }
{
    let (pools, tags) = pools;
    Mutex::new(Bank::new(pools, tags, grants))
}

/// Puts a desk and pools that counted nothing yet behind their locks, that of the desk with these places to sleep.
pub fn lock<D: DeskCalls, B: Ledgers>(
    alloc: Global,
    desk: D,
    pools: (Pools, TagPools),
    places: WaitPlaces,
    blanks: Blanks,
) -> (Room<D, B>, Mutex<Bank<Grants<B>>>, Wholes<B>)
    requires asks { (blanks.asks.name ≡ B.asks.name) × (blanks.asks.parts ≡ B.asks.parts) }
    requires makes { (blanks.makes.name ≡ B.makes.name) × (blanks.makes.parts ≡ B.makes.parts) }
    requires refusals { (blanks.refusals.name ≡ B.refusals.name)
        × (blanks.refusals.parts ≡ B.refusals.parts) }
    requires grants { (blanks.grants.name ≡ B.grants.name)
        × (blanks.grants.parts ≡ B.grants.parts) }
    requires entries { AreCounted 0 0 (D.told desk) }
    requires made { ForSome (D.made desk) (λ m. m ≡ 0) }
    requires refused { D.refused desk ≡ 0 }
    requires granted { (pools.0.granted ≡ 0) × (pools.1.granted ≡ 0) }
    ensures asked { (result.2.asked.parts ≡ B.asks.parts) × (result.2.asked.amount ≡ 0) }
    ensures made { (result.2.made.parts ≡ B.makes.parts) × (result.2.made.amount ≡ 0) }
    ensures refused { result.2.refused.parts ≡ B.refusals.parts }
    ensures granted { (result.2.granted.parts ≡ B.grants.parts) × (result.2.granted.amount ≡ 0) }
{
    let Blanks {
        asks,
        makes,
        refusals,
        grants,
    } = blanks;
    let (asks, asked) = asks.open::<Asks<B>>();
    let (makes, made) = makes.open::<Makes<B>>();
    let (refusals, refused) = refusals.open::<Refusals<B>>();
    let (grants, granted) = grants.open::<Grants<B>>();
    let wholes = Wholes {
        asked,
        made,
        refused,
        granted,
    };
    (
        room_of(alloc, desk, asks, makes, refusals, places),
        bank_of(pools, grants),
        wholes,
    )
}
