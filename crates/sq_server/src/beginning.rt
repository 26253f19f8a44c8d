//! The desk, the rewriter, the pools and the books, as a server begins with them.
ghost use Rattle.std.specs.Prelude.{◌≡◌, [], IfOk, IfErr, IfSome, Some, min};
ghost use Rattle.std.specs.Option.{option_map};
ghost use Rattle.sq_desk.specs.Calling.{IsUnbegun};
ghost use Rattle.sq_outside.specs.Causes.{count_limit};
ghost use Rattle.sq_desk.specs.Calling.{HasBegun as HasBegunDesk};
ghost use Rattle.sq_pools.specs.Basins.{HasBegun, HasBegunTags};
ghost use Rattle.sq_pools.specs.Granting.{granted_together};
ghost use Rattle.sq_server.specs.Beginning.{HasCountedNone};

use crate::starting::Start;
use crate::watched::{Before, Watched};
use sq_base::{Copying, EpochNo, Moment, WantOfMemory};
use sq_calls::{DeskCalls, DeskFault};
use sq_desk::{Desk, DeskStart};
use sq_journal::Journal;
use sq_pools::{Bank, Pools, TagPools};
use sq_rewrite::{Rewriter, RewriterRoom};
use sq_rules::Config;
use sq_server_threads::{OpenedBooks, RewriterStart, Wholes};
use sq_shared::{Asks, Grants, Hall, Ledgers, Makes, Refusals, Room, WaitPlaces};
use std::alloc::Global;
use std::sync::ledger::Blank;

/// A blank for each book.
#[derive(Drop)]
pub(crate) struct Blanks {
    pub asks: Blank,
    pub makes: Blank,
    pub refusals: Blank,
    pub grants: Blank,
}

/// The machine with its journal, and the pools of both kinds.
#[derive(Drop)]
pub(crate) struct DeskAndPools<J: Journal, B: Before + DeskStart> {
    pub desk: Desk<Watched<J, B>, B>,
    pub pools: Pools,
    pub tags: TagPools,
}

// The rewriter of a configuration behind its lock, if it states one, with a place to sleep for each of so many workers.
fn rewriter_of(
    alloc: Global,
    config: &Config,
    workers: u32,
) -> Result<Option<RewriterStart>, WantOfMemory>
    ensures { IfOk result
        (λ o. option_map (λ r. r.words) o ≡ option_map (λ c. c.words) config.now.rewriter) }
{
    let Some(class) = config.rewriter() else {
        return Ok(None);
    };
    let words = class.words.copy(alloc)?;
    let room = RewriterRoom::new(alloc, Rewriter::new(alloc, class), workers)?;
    Ok(Some(RewriterStart { room, words }))
}

/// Where the sessions of so many workers sleep: at the desk's lock, and at that of the rewriter of a configuration, if it states one.
#[derive(Drop)]
pub(crate) struct Sleeping {
    pub places: WaitPlaces,
    pub rewriter: Option<RewriterStart>,
}

/// Makes a place for each of so many workers at the desk's lock, and at that of the rewriter of a configuration, if it states one.
pub(crate) fn sleeping_of(
    alloc: Global,
    config: &Config,
    workers: u32,
) -> Result<Sleeping, WantOfMemory>
    ensures { IfOk result
        (λ s. option_map (λ r. r.words) s.rewriter
        ≡ option_map (λ c. c.words) config.now.rewriter) }
{
    let places = WaitPlaces::new(alloc, workers)?;
    let rewriter = rewriter_of(alloc, config, workers)?;
    Ok(Sleeping { places, rewriter })
}

/// Makes the desk over this journal, and the pools of both kinds of its first epoch. Where none is made the journal is handed back.
#[tactic(auto, using(crate::proofs::BeginLaws::has_counted))]
pub(crate) fn begin<J: Journal, B: Before + DeskStart>(
    alloc: Global,
    start: Start,
    journal: J,
    now: Moment,
) -> Result<DeskAndPools<J, B>, (DeskFault, J)>
    requires first { B.first ≡ record { config = start.setup; offset = start.offset } }
    requires before { B.faults ≡ J.faults journal }
    requires empty { IfSome (J.history journal) (λ h. h ≡ []) }
    // The desk begins at this moment, over the journal.
    ensures desk { IfOk result
        (λ m. HasBegunDesk start.setup start.offset now (J.history journal) m.desk) }
    // The pools of both kinds begin at this moment, with the generation of the first epoch.
    ensures pools { IfOk result
        (λ m. HasBegun m.pools 1 start.setup now × HasBegunTags m.tags 1 start.setup now) }
    ensures begun { IfOk result
        (λ m. HasCountedNone m.desk.notes.history (Some m.desk.notes.made)
        (min m.desk.notes.refusals count_limit) (granted_together m.pools m.tags)) }
    ensures unbegun { IfErr result (λ e. IsUnbegun e.0 (J.faults journal) (J.faults e.1)) }
    ensures history { IfErr result (λ e. J.history e.1 ≡ J.history journal) }
{
    let Start {
        setup,
        offset,
        seed,
    } = start;
    let pools = match Pools::new(alloc, EpochNo(1), setup.config(), now) {
        Ok(pools) => pools,
        Err(WantOfMemory) => return Err((DeskFault::WantOfMemory, journal)),
    };
    let tags = match TagPools::new(alloc, EpochNo(1), setup.config(), now) {
        Ok(tags) => tags,
        Err(WantOfMemory) => return Err((DeskFault::WantOfMemory, journal)),
    };
    let watched = Watched::<J, B>::new(journal);
    match Desk::new(alloc, setup, offset, watched, now, seed) {
        Ok(desk) => Ok(DeskAndPools { desk, pools, tags }),
        Err((fault, watched)) => {
            let (journal, _) = watched.finish();
            Err((fault, journal))
        }
    }
}

/// Opens the books of a desk and of pools that counted nothing yet. The desk is put behind its lock, with these places to sleep.
#[tactic(auto, using(crate::proofs::BeginLaws::counted_none, crate::proofs::BeginLaws::made_none, crate::proofs::BeginLaws::refused_none, crate::proofs::BeginLaws::granted_none))]
pub(crate) fn open_books<D: DeskCalls, B: Ledgers>(
    alloc: Global,
    desk: D,
    pools: Pools,
    tags: TagPools,
    places: WaitPlaces,
    blanks: Blanks,
) -> OpenedBooks<D, B>
    requires asks { (blanks.asks.name ≡ B.asks.name) × (blanks.asks.parts ≡ B.asks.parts) }
    requires makes { (blanks.makes.name ≡ B.makes.name) × (blanks.makes.parts ≡ B.makes.parts) }
    requires refusals { (blanks.refusals.name ≡ B.refusals.name)
        × (blanks.refusals.parts ≡ B.refusals.parts) }
    requires grants { (blanks.grants.name ≡ B.grants.name)
        × (blanks.grants.parts ≡ B.grants.parts) }
    requires begun { HasCountedNone (D.told desk) (D.made desk) (D.refused desk)
        (granted_together pools tags) }
    ensures asked { (result.wholes.asked.parts ≡ B.asks.parts) × (result.wholes.asked.amount ≡ 0) }
    ensures made { (result.wholes.made.parts ≡ B.makes.parts) × (result.wholes.made.amount ≡ 0) }
    ensures refused { result.wholes.refused.parts ≡ B.refusals.parts }
    ensures grants { (result.wholes.grants.parts ≡ B.grants.parts)
        × (result.wholes.grants.amount ≡ 0) }
{
    let Blanks {
        asks,
        makes,
        refusals,
        grants,
    } = blanks;
    let (asks, asked) = asks.open::<Asks<B>>();
    let (makes, made) = makes.open::<Makes<B>>();
    let (refusals, refused) = refusals.open::<Refusals<B>>();
    let (grants, granted) = grants.open::<Grants<B>>();
    let wholes = Wholes {
        asked,
        made,
        refused,
        grants: granted,
    };
    OpenedBooks {
        room: Room::new(Hall::new(alloc, desk, asks, makes, refusals), places),
        bank: Bank::new(pools, tags, grants),
        wholes,
    }
}
