//! Values of url_regex.
ghost use Rattle.std.specs.Prelude.{◌≡◌, ◌≢◌, true, false, IfOk, IfErr};
ghost use Rattle.std.specs.List.{list_all};
ghost use Rattle.sq_conf.specs.Forms.{Gives};
ghost use Rattle.sq_rules.specs.AclValues.{find_values};
ghost use Rattle.sq_rules.specs.Patterns.{is_pattern};

use crate::faults::ReadFault;
use sq_base::{Copying, Listed, Text, named};
use sq_rules::{Find, Finds, Kind};
use sq_urlmatch::is_pattern;
use std::alloc::Global;

const CASE_SWITCHES: [(&[u8], bool); 2] = [(b"-i", true), (b"+i", false)];

// The text as a pattern.
fn find(alloc: Global, word: &Text, fold: bool) -> Result<Find, ReadFault>
    ensures value { IfOk result (λ f. f ≡ record { pattern = word.now; fold = fold }) }
    ensures good { IfOk result (λ f. is_pattern f ≡ true) }
    ensures bad { IfErr result
        (λ e. e ≢ ReadFault.Memory
        → (e ≡ ReadFault.Fault Kind.BadPattern)
        × (is_pattern (record { pattern = word.now; fold = fold }) ≡ false)) }
{
    if !is_pattern(alloc, word.as_bytes(), fold)? {
        return Err(ReadFault::Fault(Kind::BadPattern));
    }
    let pattern = word.copy(alloc)?;
    Ok(Find { pattern, fold })
}

/// Patterns, and switches of case.
#[tactic(auto, unfolding(sq_rules::specs::AclValues::find_values, sq_rules::specs::AclValues::find_step))]
pub fn find_values(alloc: Global, words: &[Text]) -> Result<Finds, ReadFault>
    ensures read { Gives (λ v. v) result (find_values words.now) }
    ensures patterns { IfOk result (λ v. list_all is_pattern v ≡ true) }
{
    let mut fold = false;
    let mut finds = Listed::new(alloc);
    for word in words {
        match named(&CASE_SWITCHES, word.as_bytes()) {
            Some(switched) => fold = switched,
            None => finds.push(find(alloc, word, fold)?)?,
        }
    }
    if finds.is_empty() {
        return Err(ReadFault::Fault(Kind::MissingWord));
    }
    Ok(finds)
}
