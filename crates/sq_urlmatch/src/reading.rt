//! The facts of a check.
ghost use Rattle.std.specs.Prelude.{◌≡◌, true, IfOk};
ghost use Rattle.std.specs.List.{list_any};
ghost use Rattle.percent_encoding.specs.Percent.{percent_decode};
ghost use Rattle.sq_rules.specs.Facts.{facts_of};
ghost use Rattle.sq_urlmatch.specs.Patterns.{acl_has_patterns};

use crate::leaves::fact_at;
use crate::setup::Setup;
use crate::subject::subject_of;
use sq_base::WantOfMemory;
use sq_rules::{Facts, Sight};
use std::alloc::Global;

/// Whether each leaf acl holds of what a check sees, or want of memory. It takes memory for the facts, for
/// a target with escapes where some acl has patterns, and for what patterns learn of the target, which
/// the setup keeps.
pub fn read_facts(alloc: Global, setup: &mut Setup, sight: &Sight) -> Result<Facts, WantOfMemory>
    ensures facts { IfOk result (λ f. f ≡ facts_of setup.old.acls sight.now) }
    ensures same { setup.new ≡ setup.old }
{
    let subject = subject_of(alloc, setup.config().acls(), &sight.request.target)?;
    facts_over(alloc, setup, sight, &subject)
}

// The facts, where patterns are looked for in this text.
fn facts_over(
    alloc: Global,
    setup: &mut Setup,
    sight: &Sight,
    subject: &[u8],
) -> Result<Facts, WantOfMemory>
    requires { list_any acl_has_patterns setup.old.acls ≡ true
        → subject.now ≡ percent_decode sight.now.request.target }
    ensures facts { IfOk result (λ f. f ≡ facts_of setup.old.acls sight.now) }
    ensures same { setup.new ≡ setup.old }
{
    let count = setup.config().acls().len();
    let mut values = Vec::with_capacity(alloc, count)?;
    for place in 0..count {
        values.push(fact_at(alloc, setup, place, sight, subject)?)?;
    }
    Ok(Facts::from_vec(values))
}
