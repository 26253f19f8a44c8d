//! Another configuration.
ghost use Rattle.std.specs.Prelude.{◌≡◌, ◌+◌, max, IfOk};
ghost use Rattle.sq_rules.specs.Configurations.{IsConfiguration};
ghost use Rattle.sq_notes.specs.Calling.{Leaves, Rereads, desk_of, load_of};

use crate::notes::Notes;
use sq_base::{Copying, EpochNo, Moment, Text, WantOfMemory};
use sq_calls::DeskFault;
use sq_engine::Engine;
use sq_journal::Journal;
use sq_machine::{Entry, Event, Told, later};
use sq_urlmatch::Setup;
use std::alloc::Global;

// A copy of the source of a configuration.
fn source_of(alloc: Global, setup: &Setup) -> Result<Text, WantOfMemory>
    ensures { IfOk result (λ t. t ≡ setup.now.source) }
{
    setup.config().source().copy(alloc)
}

/// Another configuration is current.
pub fn reconfigure<J: Journal>(
    engine: &mut Engine,
    notes: &mut Notes<J>,
    alloc: Global,
    setup: Setup,
    now: Moment,
) -> Result<EpochNo, DeskFault>
    ensures rereads { Rereads (max now engine.old.latest) setup (desk_of engine.old notes.old)
        result (desk_of engine.new notes.new) }
    ensures leaves { Leaves (load_of engine.old + 1) notes.old result notes.new }
{
    let moment = later(now, engine.latest());
    match notes.ready(engine.load(), 1) {
        Ok(()) => {}
        Err(fault) => return Err(fault),
    }
    let text = match source_of(alloc, &setup) {
        Ok(text) => text,
        Err(WantOfMemory) => return Err(DeskFault::WantOfMemory),
    };
    let epoch = match engine.reconfigure(alloc, setup, now) {
        Ok(epoch) => epoch,
        Err(refusal) => return Err(notes.refuse(refusal)),
    };
    let entry = Entry {
        moment,
        event: Event::Reconfigure { text },
        answer: Told::Epoch(epoch),
    };
    match notes.note(entry) {
        Ok(()) => {}
        Err(fault) => return Err(fault),
    }
    notes.reread(epoch);
    Ok(epoch)
}

/// What holds of every configuration.
pub fn good(setup: &Setup)
    ensures { IsConfiguration setup.now }
{
    setup.config().facts();
}
