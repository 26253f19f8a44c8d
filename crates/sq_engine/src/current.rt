//! What is made once of the configuration that is current.
ghost use Rattle.std.specs.Prelude.{◌≡◌, IfOk};
ghost use Rattle.sq_checks.specs.OpenChecks.{begun_parts};
ghost use Rattle.sq_rules.specs.Facts.{facts_of};

use sq_base::{ConnNo, EpochNo, WantOfMemory};
use sq_checks::{OpenCheck, Slots};
use sq_rules::{Facts, Sight};
use sq_urlmatch::{Setup, read_facts};
use std::alloc::Global;
use std::marker::Model;
use std::sync::Arc;

/// The configuration of the current epoch, with what is made of it once: its patterns and lists, and the slots of its
/// external acls. A contract sees the configuration.
pub(crate) struct Current {
    setup: Setup,
    slots: Arc<Slots>,
}

// Written out, so that the drops of its parts are proved here alone.
impl Drop for Current {
    fn drop(self) {
        let Current { setup: _, slots: _ } = self;
    }
}

impl Model for Current {
    ghost use Rattle.std.specs.Prelude.{◌≡◌};
    ghost use Rattle.std.specs.Arc.{arc_value};
    ghost use Rattle.sq_rules.specs.Configurations.{Configuration};

    ghost Value = { Configuration };

    ghost view = { λ c. c.setup };

    ghost invariant = { λ c. arc_value c.slots ≡ c.setup };
}

impl Current {
    /// What is made of the configuration of this setup.
    pub(crate) fn make(alloc: Global, setup: Setup) -> Result<Current, WantOfMemory>
        ensures { IfOk result (λ c. c ≡ setup) }
    {
        let slots = Slots::new(alloc, setup.config())?;
        match Arc::new(alloc, slots) {
            Ok(slots) => Ok(Current { setup, slots }),
            Err(_) => Err(WantOfMemory),
        }
    }

    /// Whether each leaf acl of this configuration holds of what a check sees, or want of memory.
    pub(crate) fn facts(&mut self, alloc: Global, sight: &Sight) -> Result<Facts, WantOfMemory>
        ensures ok { IfOk result (λ f. f ≡ facts_of self.old.acls sight.now) }
        ensures same { self.new ≡ self.old }
    {
        read_facts(alloc, &mut self.setup, sight)
    }

    /// The check that begins on a connection, in the epoch of this configuration, of what it sees, with the facts of that.
    pub(crate) fn begun(
        &self,
        alloc: Global,
        conn: ConnNo,
        epoch: EpochNo,
        sight: Sight,
        facts: Facts,
    ) -> Result<OpenCheck, WantOfMemory>
        requires { facts ≡ facts_of self.now.acls sight }
        ensures { IfOk result (λ c. c ≡ begun_parts conn epoch self.now sight) }
    {
        OpenCheck::new(alloc, conn, epoch, &self.slots, sight, facts)
    }
}
