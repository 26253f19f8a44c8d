//! The machine plays a journal's events.
use crate::players::Player;
use sq_base::{Moment, WantOfMemory};
use sq_machine::{Event, Offset, Told};
use sq_replay::{ScriptMachine, Stop};
use sq_urlmatch::Setup;
use std::alloc::Global;

impl Player for ScriptMachine {
    ghost use Rattle.sq_replay.specs.MachineViews.{machine_of};

    ghost machine = { machine_of };

    fn begin(
        alloc: Global,
        setup: Setup,
        offset: Offset,
        now: Moment,
    ) -> Result<ScriptMachine, WantOfMemory> {
        ScriptMachine::begin(alloc, setup, offset, now)
    }

    fn latest(&self) -> Moment {
        ScriptMachine::latest(self)
    }

    fn make(&mut self, alloc: Global, event: &Event, now: Moment) -> Result<Told, Stop> {
        ScriptMachine::make(self, alloc, event, now)
    }

    fn reconfigure(&mut self, alloc: Global, setup: Setup, now: Moment) -> Result<Told, Stop> {
        ScriptMachine::reconfigure(self, alloc, setup, now)
    }

    fn act_at(&mut self, alloc: Global, now: Moment) -> Result<Option<Told>, WantOfMemory> {
        ScriptMachine::act_at(self, alloc, now)
    }
}
