//! `Engine`: the parts of the machine.
ghost use Rattle.std.specs.Prelude.{◌<◌, IfOk};
ghost use Rattle.sq_model.specs.Changes.{first_state};
ghost use Rattle.sq_model.specs.States.{IsSame};
ghost use Rattle.sq_engine.specs.EngineViews.{state_of};
ghost use Rattle.sq_engine.specs.Promised.{IsBegun};

use crate::current::Current;
use sq_base::{Moment, WantOfMemory};
use sq_cache::HashSeed;
use sq_checks::{Conns, OpenChecks};
use sq_epochs::Epochs;
use sq_machine::Offset;
use sq_urlmatch::Setup;
use std::alloc::Global;
use std::marker::Model;
use std::sync::Arc;

/// The machine. A contract sees its parts, and by `state_of` the machine's state.
pub struct Engine {
    pub(crate) conns: Conns,
    pub(crate) checks: OpenChecks,
    pub(crate) asks: u64,
    pub(crate) puts: u64,
    pub(crate) epochs: Epochs,
    // Of the current epoch.
    pub(crate) setup: Current,
    pub(crate) offset: Offset,
    pub(crate) latest: Moment,
    pub(crate) seed: HashSeed,
}

// Written out, so that the drops of its parts are proved here alone, and not in each crate that lets a machine go.
impl Drop for Engine {
    fn drop(self) {
        let Engine {
            conns: _,
            checks: _,
            asks: _,
            puts: _,
            epochs: _,
            setup: _,
            offset: _,
            latest: _,
            seed: _,
        } = self;
    }
}

impl Model for Engine {
    ghost use Rattle.sq_engine.specs.Engines.{IsEngine};
    ghost use Rattle.sq_engine.specs.EngineViews.{EngineView};

    ghost Value = { EngineView };

    ghost view = { λ g. record {
      conns = g.conns;
      checks = g.checks;
      asks = g.asks;
      puts = g.puts;
      epochs = g.epochs;
      setup = g.setup;
      offset = g.offset;
      latest = g.latest;
    } };

    ghost invariant = { λ g. IsEngine
        (record {
          conns = g.conns;
          checks = g.checks;
          asks = g.asks;
          puts = g.puts;
          epochs = g.epochs;
          setup = g.setup;
          offset = g.offset;
          latest = g.latest;
        }) };
}

impl Engine {
    /// The machine that begins at this moment with epoch 1, at this offset of local time. The seed is for the hashes
    /// of keys.
    pub fn new(
        alloc: Global,
        setup: Setup,
        offset: Offset,
        now: Moment,
        seed: HashSeed,
    ) -> Result<Engine, WantOfMemory>
        ensures same { IfOk result (λ g. IsSame (state_of g) (first_state setup offset now)) }
        ensures promised { IfOk result (λ g. IsBegun setup offset now (state_of g)) }
    {
        let config = Arc::try_clone(setup.config())?;
        let setup = Current::make(alloc, setup)?;
        let epochs = Epochs::new(alloc, config, seed)?;
        Ok(Engine {
            conns: Conns::new(alloc),
            checks: OpenChecks::new(alloc),
            asks: 0,
            puts: 0,
            epochs,
            setup,
            offset,
            latest: now,
            seed,
        })
    }
}
