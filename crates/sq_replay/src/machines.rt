//! The machine that a script runs: the engine with its delay pools.
ghost use Rattle.std.specs.Prelude.{◌≡◌, ◌<◌, List, true, max, IfNone, IfOk, IfSome, OnOk, Some};
ghost use Rattle.sq_rules.specs.Configurations.{Configuration, IsConfiguration};
ghost use Rattle.sq_machine.specs.Entries.{is_row};
ghost use Rattle.sq_machine.specs.Epochs.{config_of};
ghost use Rattle.sq_machine.specs.declared.entries.Event.TheVariants as event;
ghost use Rattle.sq_model.specs.Given.{EachOf};
ghost use Rattle.sq_engine.specs.EngineViews.{state_of};
ghost use Rattle.sq_replay.specs.Dues.{dues_in};
ghost use Rattle.sq_replay.specs.MachineViews.{machine_of};
ghost use Rattle.sq_replay.specs.Making.{IsActing, IsReconfiguring};
ghost use Rattle.sq_replay.specs.RunText.{first_history};
ghost use Rattle.sq_replay.specs.Runs.{Is};

use crate::riders::Riders;
use crate::seats::SeatedPools;
use crate::stops::{Stop, stop_by};
use sq_base::{EpochNo, Moment, WantOfMemory};
use sq_cache::HashSeed;
use sq_engine::Engine;
use sq_machine::{Offset, Told, later};
use sq_urlmatch::Setup;
use std::alloc::Global;
use std::marker::Model;
use std::sync::Arc;

/// The engine and its delay pools, at the greatest moment of all events so far, with the record last taken on each
/// connection, where it allows. A contract sees these parts, and by `machine_of` the machine that stands for a history.
pub struct ScriptMachine {
    pub(crate) engine: Engine,
    pub(crate) pools: SeatedPools,
    pub(crate) latest: Moment,
    pub(crate) riders: Riders,
}

// Written out, so that the drops of its parts are proved here alone, and not in each crate that lets a machine go.
impl Drop for ScriptMachine {
    fn drop(self) {
        let ScriptMachine {
            engine: _,
            pools: _,
            latest: _,
            riders: _,
        } = self;
    }
}

impl Model for ScriptMachine {
    ghost use Rattle.sq_replay.specs.MachineViews.{MachineView};

    ghost Value = { MachineView };

    ghost view = { λ m. record {
      engine = m.engine;
      pools = m.pools;
      latest = m.latest;
      riders = m.riders;
    } };
}

impl ScriptMachine {
    /// The machine that begins at this moment with epoch 1, at this offset of local time. Hashes have the same seed
    /// in each run.
    pub fn begin(
        alloc: Global,
        setup: Setup,
        offset: Offset,
        now: Moment,
    ) -> Result<ScriptMachine, WantOfMemory>
        ensures begun { IfOk result
            (λ m. (configs : List Configuration) → EachOf IsConfiguration configs
            → config_of configs 1 ≡ Some setup
            → Is (machine_of m) configs (first_history now offset)) }
        ensures latest { IfOk result (λ m. m.latest ≡ now) }
    {
        let pools = SeatedPools::new(alloc, EpochNo(1), setup.config(), now)?;
        let engine = Engine::new(alloc, setup, offset, now, HashSeed::fixed())?;
        Ok(ScriptMachine {
            engine,
            pools,
            latest: now,
            riders: Riders::new(alloc),
        })
    }

    /// The greatest moment of all events so far.
    pub fn latest(&self) -> Moment
        ensures { result ≡ self.now.latest }
    {
        self.latest
    }

    /// Another configuration is current from here on. Where memory is wanting, the machine is not to be used any
    /// more: its pools may lack the epoch that the engine has begun.
    pub fn reconfigure(&mut self, alloc: Global, setup: Setup, now: Moment) -> Result<Told, Stop>
        ensures making { IsReconfiguring (machine_of self.old) (machine_of self.new) now setup
            result }
        ensures row { IfOk result (λ told. is_row (event.Reconfigure setup.source) told ≡ true) }
        ensures latest { OnOk result (self.new.latest ≡ max now self.old.latest) }
    {
        // For the proof: what holds of the pools.
        self.pools.facts();
        let moment = later(now, self.latest);
        let config = match Arc::try_clone(setup.config()) {
            Ok(config) => config,
            Err(_) => return Err(Stop::WantOfMemory),
        };
        let epoch = match self.engine.reconfigure(alloc, setup, moment) {
            Ok(epoch) => epoch,
            Err(refusal) => return Err(stop_by(refusal)),
        };
        match self.pools.renew(alloc, epoch, &config, moment) {
            Ok(()) => {}
            Err(WantOfMemory) => return Err(Stop::WantOfMemory),
        }
        self.latest = moment;
        Ok(Told::Epoch(epoch))
    }

    /// Makes the act that is due at the greatest moment so far, and tells it; None where none is due. Each act leaves
    /// fewer to be due. Where memory is wanting, the machine is not to be used any more.
    pub fn act(&mut self, alloc: Global) -> Result<Option<Told>, WantOfMemory>
        ensures acting { IsActing (machine_of self.old) (machine_of self.new) self.old.latest
            result }
        ensures lowers { IfOk result
            (λ told. IfSome told (λ _. dues_in (state_of self.new.engine)
            < dues_in (state_of self.old.engine))) }
        ensures row { IfOk result (λ told. IfSome told (λ t. is_row event.Act t ≡ true)) }
        ensures latest { OnOk result (self.new.latest ≡ self.old.latest) }
        ensures same { IfOk result (λ told. IfNone told (self.new ≡ self.old)) }
    {
        self.act_at(alloc, self.latest)
    }

    /// The same at this moment, or at the greatest so far where that is later.
    pub fn act_at(&mut self, alloc: Global, now: Moment) -> Result<Option<Told>, WantOfMemory>
        ensures acting { IsActing (machine_of self.old) (machine_of self.new)
            (max now self.old.latest) result }
        ensures lowers { IfOk result
            (λ told. IfSome told (λ _. dues_in (state_of self.new.engine)
            < dues_in (state_of self.old.engine))) }
        ensures row { IfOk result (λ told. IfSome told (λ t. is_row event.Act t ≡ true)) }
        ensures latest { IfOk result
            (λ told. IfSome told (λ _. self.new.latest ≡ max now self.old.latest)) }
        ensures same { IfOk result (λ told. IfNone told (self.new ≡ self.old)) }
    {
        // For the proof: what holds of the pools.
        self.pools.facts();
        let moment = later(now, self.latest);
        let Some(act) = self.engine.act(moment) else {
            return Ok(None);
        };
        let told = self.engine.act_told(alloc, act)?;
        self.latest = moment;
        Ok(Some(told))
    }
}
