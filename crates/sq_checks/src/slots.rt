//! The external acls of a configuration by their slots.
ghost use Rattle.std.specs.Prelude.{◌≡◌, ◌≤◌, length, IfOk};
ghost use Rattle.std.specs.Arc.{arc_value};
ghost use Rattle.sq_rules.specs.Limits.{most_acls};
ghost use Rattle.sq_checks.specs.OpenGroups.{depth_of};
ghost use Rattle.sq_checks.specs.Slots.{externals_on, is_external, slots_of};

use crate::depths::depth_of;
use sq_base::WantOfMemory;
use sq_rules::{Acl, Body, Config};
use std::alloc::Global;
use std::marker::Model;
use std::sync::Arc;

/// A configuration, and the slot of each of its external acls in a table of given values: how many of them stand
/// before it; and how deep its groups nest. It is made once for a configuration, and all checks over it share it.
pub struct Slots {
    config: Arc<Config>,
    slots: Vec<u32>,
    count: u32,
    depth: u32,
}

// Written out, so that the drops of its parts are proved here alone.
impl Drop for Slots {
    fn drop(self) {
        let Slots {
            config: _,
            slots: _,
            count: _,
            depth: _,
        } = self;
    }
}

impl Model for Slots {
    ghost use Rattle.std.specs.Prelude.{◌≡◌};
    ghost use Rattle.std.specs.Arc.{arc_value};
    ghost use Rattle.sq_rules.specs.Configurations.{Configuration};
    ghost use Rattle.sq_checks.specs.OpenGroups.{depth_of};
    ghost use Rattle.sq_checks.specs.Slots.{externals_on, slots_of};

    ghost Value = { Configuration };

    ghost view = { λ s. arc_value s.config };

    ghost invariant = { λ s. (s.slots.items ≡ slots_of (arc_value s.config).acls)
        × (s.count ≡ externals_on 0 (arc_value s.config).acls)
        × (s.depth ≡ depth_of (arc_value s.config).acls) };
}

// Whether an acl asks a helper.
fn is_external(body: &Body) -> bool
    ensures { result ≡ is_external body.now }
{
    matches!(
        body,
        Body::External {
            class: _,
            arguments: _,
        }
    )
}

// The slot of each acl, and how many slots there are.
fn slots_of(alloc: Global, acls: &[Acl]) -> Result<(Vec<u32>, u32), WantOfMemory>
    requires { length acls.now ≤ most_acls }
    ensures { IfOk result (λ r. (r.0.items ≡ slots_of acls.now) × (r.1 ≡ externals_on 0 acls.now)) }
{
    let mut slots = Vec::with_capacity(alloc, acls.len())?;
    let mut count = 0;
    for acl in acls {
        slots.push(count)?;
        if is_external(&acl.body) {
            count += 1;
        }
    }
    Ok((slots, count))
}

impl Slots {
    /// The slots of a configuration.
    pub fn new(alloc: Global, config: &Arc<Config>) -> Result<Slots, WantOfMemory>
        ensures { IfOk result (λ s. s ≡ arc_value config.now) }
    {
        let config = Arc::try_clone(config)?;
        let (slots, count) = slots_of(alloc, config.acls())?;
        config.facts();
        let depth = depth_of(alloc, config.acls())?;
        Ok(Slots {
            config,
            slots,
            count,
            depth,
        })
    }

    /// The configuration.
    pub fn config(&self) -> &Arc<Config>
        ensures { arc_value result.now ≡ self.now }
    {
        &self.config
    }

    /// How many external acls it has.
    pub fn count(&self) -> u32
        ensures { result ≡ externals_on 0 self.now.acls }
    {
        self.count
    }

    /// How deep its groups nest: 0 where it has none.
    pub fn depth(&self) -> u32
        ensures { result ≡ depth_of self.now.acls }
    {
        self.depth
    }

    /// The slot of each acl; that of one that is not external says nothing.
    pub fn as_slice(&self) -> &[u32]
        ensures { result.now ≡ slots_of self.now.acls }
    {
        self.slots.as_slice()
    }
}
