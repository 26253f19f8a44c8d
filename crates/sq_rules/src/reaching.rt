//! Whether rules ask a helper.
ghost use Rattle.std.specs.Prelude.{◌≡◌, not, IfOk};
ghost use Rattle.std.specs.List.{list_all};
ghost use Rattle.sq_rules.specs.Configurations.{asks_nobody, slow_ones, some_slow};

use crate::configs::{Acl, Config, Rule};
use crate::nesting::{is_slow, some_slow};
use sq_base::{Listed, WantOfMemory};
use std::alloc::Global;

// Which acls ask a helper, or reach one that does.
fn slow_ones(alloc: Global, acls: &[Acl]) -> Result<Listed<bool>, WantOfMemory>
    ensures { IfOk result (λ slow. slow ≡ slow_ones acls.now) }
{
    let mut slow = Listed::new(alloc);
    for acl in acls {
        let asks = is_slow(slow.as_slice(), &acl.body);
        slow.push(asks)?;
    }
    Ok(slow)
}

// Whether no term of any rule names such an acl.
fn are_fast(slow: &[bool], rules: &[Rule]) -> bool
    ensures { result ≡ list_all (λ r. not (some_slow slow.now r.terms)) rules.now }
{
    for rule in rules {
        if some_slow(slow, rule.terms.as_slice()) {
            return false;
        }
    }
    true
}

/// Whether no term of the rules asks a helper, or names a group that reaches one. It takes memory for a
/// truth value of each acl.
pub fn asks_nobody(alloc: Global, config: &Config) -> Result<bool, WantOfMemory>
    ensures { IfOk result (λ b. b ≡ asks_nobody config.now) }
{
    let slow = slow_ones(alloc, config.acls())?;
    Ok(are_fast(slow.as_slice(), config.rules()))
}
