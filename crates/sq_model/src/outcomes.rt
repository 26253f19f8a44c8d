//! Outcomes, copied: a check's outcome stands in its record and in its entry.
ghost use Rattle.std.specs.Prelude.{◌≡◌, IfOk};

use sq_base::{Copying, WantOfMemory};
use sq_rules::{Outcome, Why};
use std::alloc::Global;

// A copy of why a check was decided as it was.
fn copy_why(alloc: Global, why: &Why) -> Result<Why, WantOfMemory>
    ensures { IfOk result (λ w. w ≡ why.now) }
{
    match why {
        Why::Rule(number) => Ok(Why::Rule(*number)),
        Why::Default => Ok(Why::Default),
        Why::Empty => Ok(Why::Empty),
        Why::Fault { rule, acl, cause } => {
            let acl = acl.copy(alloc)?;
            Ok(Why::Fault {
                rule: *rule,
                acl,
                cause: *cause,
            })
        }
    }
}

/// A copy of an outcome. It takes memory for the acl of a fault alone.
pub fn copy_outcome(alloc: Global, outcome: &Outcome) -> Result<Outcome, WantOfMemory>
    ensures { IfOk result (λ o. o ≡ outcome.now) }
{
    let why = copy_why(alloc, &outcome.why)?;
    Ok(Outcome {
        allow: outcome.allow,
        why,
    })
}
