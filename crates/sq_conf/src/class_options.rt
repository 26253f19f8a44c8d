//! Options of `external_acl_type` and `url_rewrite_children`, by their names.
ghost use Rattle.std.specs.Prelude.{◌≡◌};
ghost use Rattle.sq_base.specs.NameTables.{is_among};
ghost use Rattle.sq_conf.specs.Forms.{Gives};
ghost use Rattle.sq_rules.specs.ClassLines.{is_option, option_of};
ghost use Rattle.sq_rules.specs.RewriteLines.{children_option, option_named};

use crate::cuts::{before, holds};
use crate::faults::ReadFault;
use sq_base::{is_among, named};
use sq_rules::{ClassOption, Kind};

const WHOLE_OPTIONS: [&[u8]; 4] = [b"protocol=3.0", b"quote=url", b"ipv4", b"ipv6"];

const VALUED_OPTIONS: [(&[u8], ClassOption); 9] = [
    (b"ttl", ClassOption::Ttl),
    (b"negative_ttl", ClassOption::NegativeTtl),
    (b"grace", ClassOption::Grace),
    (b"cache", ClassOption::Cache),
    (b"children-max", ClassOption::ChildrenMax),
    (b"children-startup", ClassOption::ChildrenStartup),
    (b"children-idle", ClassOption::ChildrenIdle),
    (b"concurrency", ClassOption::Concurrency),
    (b"queue-size", ClassOption::QueueSize),
];

const BARE_OPTIONS: [&[u8]; 2] = [b"ipv4", b"ipv6"];

/// The option of a word.
#[tactic(auto, unfolding(sq_rules::specs::ClassLines::option_of))]
pub fn option_of(word: &[u8]) -> Result<ClassOption, ReadFault>
    ensures { Gives (λ o. o) result (option_of word.now) }
{
    if is_among(&WHOLE_OPTIONS, word) {
        return Ok(ClassOption::NoEffect);
    }
    match named(&VALUED_OPTIONS, before(word, b'=')) {
        Some(option) => Ok(option),
        None => Err(ReadFault::Fault(Kind::UnknownOption)),
    }
}

const CHILDREN_OPTIONS: [(&[u8], ClassOption); 4] = [
    (b"startup", ClassOption::ChildrenStartup),
    (b"idle", ClassOption::ChildrenIdle),
    (b"concurrency", ClassOption::Concurrency),
    (b"queue-size", ClassOption::QueueSize),
];

// The option of `url_rewrite_children` of a word in which `=` stands.
fn option_named(word: &[u8]) -> Option<ClassOption>
    ensures { result ≡ option_named word.now }
{
    if holds(word, b'=') {
        named(&CHILDREN_OPTIONS, before(word, b'='))
    } else {
        None
    }
}

/// The option of `url_rewrite_children` of a word.
#[tactic(auto, unfolding(sq_rules::specs::RewriteLines::children_option))]
pub fn children_option(word: &[u8]) -> Result<ClassOption, ReadFault>
    ensures { Gives (λ o. o) result (children_option word.now) }
{
    match option_named(word) {
        Some(option) => Ok(option),
        None => Err(ReadFault::Fault(Kind::UnknownOption)),
    }
}

/// Whether the word is an option where no token stands yet.
pub fn is_option(word: &[u8]) -> bool
    ensures { result ≡ is_option word.now }
{
    holds(word, b'=') || is_among(&BARE_OPTIONS, word)
}
