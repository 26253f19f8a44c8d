//! Outcomes of checks read from words.
ghost use Rattle.sq_journal.specs.Reading.{ReadsFront};
ghost use Rattle.sq_journal.specs.ToldReading.{why_in, why_after, outcome_in};
ghost use Rattle.sq_journal.specs.declared.names.WhyName.TheVariants as name;

use crate::faults::EntryFault;
use crate::names::{WhyName, action, cause, why_name};
use crate::values::{below, text};
use crate::words::EntryWords;
use sq_rules::{Outcome, Why};
use std::alloc::Global;

/// An outcome: whether the request is allowed, and why.
#[tactic(auto, unfolding(crate::specs::ToldReading::outcome_in))]
pub fn outcome(alloc: Global, words: &mut EntryWords) -> Result<Outcome, EntryFault>
    ensures { ReadsFront result words.new (outcome_in words.old) }
{
    let allow = action(words)?;
    let why = why(alloc, words)?;
    Ok(Outcome { allow, why })
}

// Why it was decided so, by the reason's name.
#[tactic(auto, unfolding(crate::specs::ToldReading::why_in))]
fn why(alloc: Global, words: &mut EntryWords) -> Result<Why, EntryFault>
    ensures { ReadsFront result words.new (why_in words.old) }
{
    let name = why_name(words)?;
    why_after(alloc, name, words)
}

// What stands after a reason's name.
#[tactic(auto, unfolding(crate::specs::ToldReading::why_after))]
fn why_after(alloc: Global, name: WhyName, words: &mut EntryWords) -> Result<Why, EntryFault>
    ensures { ReadsFront result words.new (why_after name words.old) }
{
    match name {
        WhyName::Rule => {
            let number = below(words, 4294967296)? as u32;
            Ok(Why::Rule(number))
        }
        WhyName::Default => Ok(Why::Default),
        WhyName::Empty => Ok(Why::Empty),
        WhyName::Fault => fault(alloc, words),
    }
}

// `fault N ACL CAUSE`
#[tactic(auto, unfolding(crate::specs::ToldReading::why_after))]
fn fault(alloc: Global, words: &mut EntryWords) -> Result<Why, EntryFault>
    ensures { ReadsFront result words.new (why_after name.Fault words.old) }
{
    let rule = below(words, 4294967296)? as u32;
    let acl = text(alloc, words)?;
    let cause = cause(words)?;
    Ok(Why::Fault { rule, acl, cause })
}
