//! What can be read of open checks.
ghost use Rattle.std.specs.Prelude.{◌≡◌};
ghost use Rattle.std.specs.Option.{option_map};
ghost use Rattle.sq_model.specs.CheckRows.{held_at};
ghost use Rattle.sq_engine.specs.EngineViews.{state_of};
ghost use Rattle.sq_engine.specs.Engines.{IsEngine};

use crate::engines::Engine;
use sq_base::{CheckNo, ConnNo};

impl Engine {
    /// The connection of an open check. It takes no memory.
    pub fn conn_of(&self, check: CheckNo) -> Option<ConnNo>
        ensures { result ≡ option_map (λ h. h.asked.conn)
            (held_at check (state_of self.now).checks) }
    {
        match self.checks.get(check) {
            Some(open) => Some(open.conn()),
            None => None,
        }
    }

    /// What holds of it: it changes nothing, and its contract says it to a proof.
    pub fn facts(&self)
        ensures { IsEngine self.now }
    {
        let _asks = self.asks;
    }
}
