//! What plays the events of a journal.
ghost use Rattle.std.specs.Prelude.{◌≡◌, false, true, List, Some, max, IfOk, IfSome};
ghost use Rattle.sq_machine.specs.declared.entries.Event.TheVariants as event;
ghost use Rattle.sq_rules.specs.Configurations.{Configuration, IsConfiguration};
ghost use Rattle.sq_machine.specs.Entries.{is_event, is_row};
ghost use Rattle.sq_machine.specs.Events.{begins_epoch};
ghost use Rattle.sq_machine.specs.Epochs.{config_of};
ghost use Rattle.sq_model.specs.Given.{EachOf};
ghost use Rattle.sq_replay.specs.Making.{IsActing, IsMaking, IsReconfiguring};
ghost use Rattle.sq_replay.specs.RunText.{first_history};
ghost use Rattle.sq_replay.specs.Runs.{Is, ScriptView};

use sq_base::{Moment, WantOfMemory};
use sq_machine::{Event, Offset, Told};
use sq_replay::Stop;
use sq_urlmatch::Setup;
use std::alloc::Global;

/// What plays the events of a journal: it answers as the machine's definition has it.
pub trait Player: Drop {
    /// The machine that it is.
    ghost machine: { Self → ScriptView };

    /// Begins at this moment with epoch 1, at this offset of local time.
    fn begin(alloc: Global, setup: Setup, offset: Offset, now: Moment) -> Result<Self, WantOfMemory>
        ensures { IfOk result
            (λ m. (configs : List Configuration) → EachOf IsConfiguration configs
            → config_of configs 1 ≡ Some setup
            → Is (machine m) configs (first_history now offset)) };

    /// The greatest moment of all events so far.
    fn latest(&self) -> Moment
        ensures { result ≡ (machine self.now).latest };

    /// Makes an event at the greatest moment so far, or says why not. After want of memory it is not to be used any more.
    fn make(&mut self, alloc: Global, event: &Event, now: Moment) -> Result<Told, Stop>
        requires event { is_event event.now ≡ true }
        requires plain { begins_epoch event.now ≡ false }
        ensures making { IsMaking (machine self.old) (machine self.new) now event.now result }
        ensures row { IfOk result (λ told. is_row event.now told ≡ true) };

    /// Another configuration is current from here on. After want of memory it is not to be used any more.
    fn reconfigure(&mut self, alloc: Global, setup: Setup, now: Moment) -> Result<Told, Stop>
        ensures making { IsReconfiguring (machine self.old) (machine self.new) now setup result }
        ensures row { IfOk result (λ told. is_row (event.Reconfigure setup.source) told ≡ true) };

    /// Makes the act that is due at this moment, or at the greatest so far where that is later; None where none is
    /// due. After want of memory it is not to be used any more.
    fn act_at(&mut self, alloc: Global, now: Moment) -> Result<Option<Told>, WantOfMemory>
        ensures acting { IsActing (machine self.old) (machine self.new)
            (max now (machine self.old).latest) result }
        ensures row { IfOk result (λ told. IfSome told (λ t. is_row event.Act t ≡ true)) };
}
