//! Pairs of `delay_parameters`, and PORT of `http_port`.
ghost use Rattle.std.specs.Prelude.{◌≡◌};
ghost use Rattle.sq_conf.specs.Forms.{Gives};
ghost use Rattle.sq_rules.specs.ConfNumbers.{limit_pair_of, rate_of, port_text, has_host};

use crate::cuts::{before, behind, behind_last, holds};
use crate::faults::ReadFault;
use crate::numbers::digits_of;
use sq_rules::{DELAY_LIMIT, Kind, Limit};

/// `none`, or RESTORE/MAX, where -1 as RESTORE is no limit.
#[tactic(auto, unfolding(sq_rules::specs::ConfNumbers::limit_pair_of))]
pub fn pair_of(word: &[u8]) -> Result<Option<Limit>, ReadFault>
    ensures { Gives (λ p. p) result (limit_pair_of word.now) }
{
    if word == b"none".as_slice() {
        return Ok(None);
    }
    match rate_of(before(word, b'/'), behind(word, b'/')) {
        Some(pair) => Ok(pair),
        None => Err(ReadFault::Fault(Kind::BadNumber)),
    }
}

// What stands before and behind the `/`.
fn rate_of(restore: &[u8], max: &[u8]) -> Option<Option<Limit>>
    ensures { result ≡ rate_of restore.now max.now }
{
    let most = digits_of(max, DELAY_LIMIT);
    if restore == b"-1".as_slice() {
        return if max == b"-1".as_slice() || most.is_some() {
            Some(None)
        } else {
            None
        };
    }
    let restore = digits_of(restore, DELAY_LIMIT)?;
    let max = most?;
    Some(Some(Limit { restore, max }))
}

/// PORT of PORT or HOST:PORT.
#[tactic(auto, unfolding(sq_rules::specs::ConfNumbers::port_text))]
pub fn port_text(word: &[u8]) -> &[u8]
    ensures { result.now ≡ port_text word.now }
{
    behind_last(word, b':')
}

/// Whether a host stands before PORT.
#[tactic(auto, unfolding(sq_rules::specs::ConfNumbers::has_host))]
pub fn has_host(word: &[u8]) -> bool
    ensures { result ≡ has_host word.now }
{
    holds(word, b':')
}
