//! `Desk`: the machine, and the journal of what it did.
ghost use Rattle.std.specs.Prelude.{◌≡◌, ◌≤◌, suc, [], false, IfOk, IfErr, IfSome};
ghost use Rattle.sq_calls.specs.Legality.{Beginning, IsLegal};
ghost use Rattle.sq_desk.specs.Calling.{HasBegun, IsUnbegun};
ghost use Rattle.sq_desk.specs.Desks.{HasSpare, IsReplay, no_beginning};
ghost use Rattle.sq_engine.specs.EngineViews.{state_of};

use sq_base::{EpochNo, Moment, WantOfMemory};
use sq_cache::HashSeed;
use sq_calls::DeskFault;
use sq_engine::Engine;
use sq_journal::Journal;
use sq_machine::{Entry, Event, Offset, Told};
use sq_notes::Notes;
use sq_notes::reconfiguring::good;
use sq_outside::COUNT_LIMIT;
use sq_urlmatch::Setup;
use std::alloc::Global;
use std::marker::{Brand, Model, PhantomData};

/// With what a desk begins: its configuration, and the offset of local time.
pub trait DeskStart {
    ghost first: { Beginning };
}

impl DeskStart for Brand {
    ghost first = { no_beginning };
}

/// The machine and its journal. A contract sees both, whether a note failed, how many calls were refused, and how many
/// reconfigurations were noted. Its type says with what it began.
#[derive(Drop)]
pub struct Desk<J: Journal, F: DeskStart> {
    pub(crate) engine: Engine,
    pub(crate) notes: Notes<J>,
    begun: PhantomData<F>,
}

impl<J: Journal, F: DeskStart> Model for Desk<J, F> {
    ghost use Rattle.sq_notes.specs.Calling.{DeskView};
    ghost use Rattle.sq_desk.specs.Desks.{IsDesk};

    ghost Value = { DeskView };

    ghost view = { λ d. record { engine = d.engine; notes = d.notes } };

    ghost invariant = { λ d. IsDesk F.first (record { engine = d.engine; notes = d.notes }) };
}

impl<J: Journal, F: DeskStart> Desk<J, F> {
    /// The machine that begins at this moment with epoch 1, over a journal without an entry, whose first entry it notes.
    /// The seed is for the hashes of keys. Where it does not begin, the journal is handed back.
    pub fn new(
        alloc: Global,
        setup: Setup,
        offset: Offset,
        journal: J,
        now: Moment,
        seed: HashSeed,
    ) -> Result<Desk<J, F>, (DeskFault, J)>
        requires first { F.first ≡ record { config = setup; offset = offset } }
        requires empty { IfSome (J.history journal) (λ h. h ≡ []) }
        ensures begun { IfOk result (λ d. HasBegun setup offset now (J.history journal) d) }
        ensures later { IfOk result (λ d. J.faults journal ≤ d.notes.faults) }
        ensures history { IfErr result (λ e. J.history e.1 ≡ J.history journal) }
        ensures cause { IfErr result (λ e. IsUnbegun e.0 (J.faults journal) (J.faults e.1)) }
    {
        // For the proof: what holds of the configuration.
        good(&setup);
        let engine = match Engine::new(alloc, setup, offset, now, seed) {
            Ok(engine) => engine,
            Err(WantOfMemory) => return Err((DeskFault::WantOfMemory, journal)),
        };
        let mut notes = Notes::new(journal);
        match notes.ready(0, 1) {
            Ok(()) => {}
            Err(fault) => return Err((fault, notes.into_journal())),
        }
        let entry = Entry {
            moment: now,
            event: Event::Begin { offset },
            answer: Told::Epoch(EpochNo(1)),
        };
        match notes.note(entry) {
            Ok(()) => Ok(Desk {
                engine,
                notes,
                begun: PhantomData,
            }),
            Err(fault) => Err((fault, notes.into_journal())),
        }
    }

    /// The machine, lent for its readers.
    pub fn engine(&self) -> &Engine
        ensures { result.now ≡ self.now.engine }
    {
        &self.engine
    }

    /// How many calls were refused or could not be noted, with the lines that were bad or stray; 2^63 - 1 stands for
    /// more, too.
    pub fn refusals(&self) -> u64
        ensures value { result ≡ self.now.notes.refusals }
        ensures bound { result ≤ COUNT_LIMIT }
    {
        self.notes.refusals()
    }

    /// What holds of it: it changes nothing, and its contract says it to a proof.
    pub fn facts(&self)
        ensures legal { IfSome self.now.notes.history (IsLegal F.first) }
        ensures replay { self.now.notes.stopped ≡ false
            → IfSome self.now.notes.history (IsReplay F.first (state_of self.now.engine)) }
        ensures places { self.now.notes.stopped ≡ false
            → HasSpare self.now.notes.spare (state_of self.now.engine) }
        ensures made { self.now.notes.stopped ≡ false
            → self.now.engine.epochs.current ≡ suc self.now.notes.made }
    {
        let _refusals = self.notes.refusals();
    }

    /// The journal, handed back.
    pub fn finish(self) -> J
        ensures history { J.history result ≡ self.notes.history }
        ensures spare { J.spare result ≡ self.notes.spare }
        ensures faults { J.faults result ≡ self.notes.faults }
    {
        self.notes.into_journal()
    }
}
