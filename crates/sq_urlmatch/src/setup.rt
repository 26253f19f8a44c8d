//! A configuration with its compiled patterns and its sorted and hashed lists.
ghost use Rattle.std.specs.Prelude.{◌≡◌, ◌≢◌, Some, None, IfOk, IfErr};
ghost use Rattle.std.specs.Arc.{arc_value};
ghost use Rattle.sq_urlmatch.specs.Members.{in_some_domain, in_some_range};
ghost use Rattle.sq_rules.specs.Patterns.{some_found};
ghost use Rattle.sq_urlmatch.specs.Found.{fault_from, finds_at};
ghost use Rattle.sq_urlmatch.specs.Values.{domains_at, in_some_ports, ports_at, ranges_at};

use crate::patterns::Patterns;
use crate::sets::{ValueSets, sets_of_each};
use sq_base::{Addr, Text, WantOfMemory};
use sq_rules::Config;
use std::alloc::Global;
use std::marker::Model;
use std::sync::Arc;
use thiserror::Error;

/// Why a configuration was not set up.
#[derive(Clone, Copy, Debug, Error)]
pub enum SetupFault {
    /// Of the acl at this place, the pattern at this place is none; both count from 0.
    #[error("of acl {0}, pattern {1} is none, both counted from 0")]
    BadPattern(u32, u32),
    /// There was no memory, or a pattern takes over 10 MiB compiled.
    #[error("out of memory")]
    WantOfMemory,
}

impl From<WantOfMemory> for SetupFault {
    ghost use Rattle.std.specs.Prelude.{◌≡◌};
    ghost use Rattle.sq_urlmatch.specs.declared.setup.SetupFault.TheVariants as fault;

    ghost from_gives = { λ _ e. e ≡ fault.WantOfMemory };

    fn from(_error: WantOfMemory) -> SetupFault {
        SetupFault::WantOfMemory
    }
}

/// A configuration, which threads may share, its compiled patterns, which serve one match at a time, and
/// its lists of addresses, sorted, and of domains, hashed. A contract sees the configuration.
pub struct Setup {
    pub config: Arc<Config>,
    pub patterns: Patterns,
    sets: Vec<ValueSets>,
}

// Written out, so that the drops of its parts are proved here alone, and not in each crate that lets a setup go.
impl Drop for Setup {
    fn drop(self) {
        let Setup {
            config: _,
            patterns: _,
            sets: _,
        } = self;
    }
}

impl Model for Setup {
    ghost use Rattle.std.specs.Arc.{arc_value};
    ghost use Rattle.sq_rules.specs.Configurations.{Configuration};
    ghost use Rattle.sq_urlmatch.specs.Values.{in_some_ports, ports_at, IsSetUp};

    ghost Value = { Configuration };

    ghost view = { λ s. arc_value s.config };

    ghost invariant = { λ s. IsSetUp (arc_value s.config).acls s.patterns s.sets.items };
}

impl Setup {
    /// Reads all patterns of a configuration, compiles them and sorts its lists; or names the first pattern
    /// that is none, or wants memory.
    pub fn make(alloc: Global, config: Config) -> Result<Setup, SetupFault>
        ensures ok { IfOk result (λ s. s ≡ config) }
        ensures good { IfOk result (λ _. fault_from 0 config.acls ≡ None) }
        ensures bad { IfErr result
            (λ e. e ≢ SetupFault.WantOfMemory → fault_from 0 config.acls ≡ Some e) }
    {
        let patterns = Patterns::of(alloc, config.acls())?;
        let sets = sets_of_each(alloc, config.acls())?;
        match Arc::new(alloc, config) {
            Ok(config) => Ok(Setup {
                config,
                patterns,
                sets,
            }),
            Err(_) => Err(SetupFault::WantOfMemory),
        }
    }

    /// The configuration, which threads may share.
    pub fn config(&self) -> &Arc<Config>
        ensures { arc_value result.now ≡ self.now }
    {
        &self.config
    }

    /// Whether some pattern of the acl at a place is found in a text; an acl of another type has none.
    /// What the match learns is kept for the next. It may want memory.
    pub fn is_match(
        &mut self,
        alloc: Global,
        acl: u32,
        subject: &[u8],
    ) -> Result<bool, WantOfMemory>
        ensures found { IfOk result (λ b. b ≡ some_found (finds_at self.old.acls acl) subject.now) }
        ensures same { self.new ≡ self.old }
    {
        self.patterns.is_match(alloc, acl, subject)
    }

    /// Whether some range of the acl at a place holds the address; only `src` and `dst` have ranges. It
    /// takes no memory.
    pub fn has_address(&self, acl: u32, addr: Addr) -> bool
        ensures { result ≡ in_some_range (ranges_at self.now.acls acl) addr }
    {
        match self.sets.get(acl as usize) {
            None => false,
            Some(sets) => sets.addresses.has(addr),
        }
    }

    /// Whether some domain of the acl at a place holds the host, which is in lower case; only `dstdomain`
    /// has domains. It takes no memory.
    pub fn has_host(&self, acl: u32, host: &Text) -> bool
        ensures { result ≡ in_some_domain (domains_at self.now.acls acl) host.now }
    {
        match self.sets.get(acl as usize) {
            None => false,
            Some(sets) => sets.domains.has(host),
        }
    }
    /// Whether some range of the acl at a place holds the port; only `port` has ranges of ports. It takes no
    /// memory.
    pub fn has_port(&self, acl: u32, port: u16) -> bool
        ensures { result ≡ in_some_ports (ports_at self.now.acls acl) port }
    {
        match self.sets.get(acl as usize) {
            None => false,
            Some(sets) => sets.ports.has(port as u128),
        }
    }
}
