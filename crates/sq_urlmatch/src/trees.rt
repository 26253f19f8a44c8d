//! One pattern, read as a tree.
ghost use Rattle.std.specs.Prelude.{◌≡◌, true, false, IfOk, IfErr};
ghost use Rattle.sq_rules.specs.Patterns.{is_pattern};
ghost use Rattle.sq_urlmatch.specs.Found.{IsFoundAlike};

use regex_syntax::{Config, ErrorKind, Parsed};
use sq_base::WantOfMemory;
use sq_rules::Find;
use std::alloc::Global;

/// Why a pattern was not read.
#[derive(Clone, Copy)]
pub enum TreeFault {
    /// The grammar does not read it, or its parts nest too deep.
    BadPattern,
    WantOfMemory,
}

impl From<WantOfMemory> for TreeFault {
    ghost use Rattle.std.specs.Prelude.{◌≡◌};
    ghost use Rattle.sq_urlmatch.specs.declared.trees.TreeFault.TheVariants as fault;

    ghost from_gives = { λ _ e. e ≡ fault.WantOfMemory };

    fn from(_error: WantOfMemory) -> TreeFault {
        TreeFault::WantOfMemory
    }
}

/// The tree of a pattern.
pub fn tree_of(alloc: Global, pattern: &[u8], fold: bool) -> Result<Parsed, TreeFault>
    ensures alike { IfOk result
        (λ p. IsFoundAlike (record { pattern = pattern.now; fold = fold }) p.hir) }
    ensures good { IfOk result
        (λ _. is_pattern (record { pattern = pattern.now; fold = fold }) ≡ true) }
    ensures bad { IfErr result
        (λ e. e ≡ TreeFault.BadPattern
        → is_pattern (record { pattern = pattern.now; fold = fold }) ≡ false) }
{
    let Ok(text) = str::from_utf8(pattern) else {
        return Err(TreeFault::BadPattern);
    };
    let mut config = Config::default();
    config.utf8 = false;
    config.flags.case_insensitive = fold;
    match regex_syntax::parse(alloc, text, &config) {
        Ok(parsed) => Ok(parsed),
        Err(error) => match error.kind {
            ErrorKind::OutOfMemory => Err(TreeFault::WantOfMemory),
            _ => Err(TreeFault::BadPattern),
        },
    }
}

/// Whether a text is a pattern: it is UTF-8, the grammar reads it, and its parts nest at most 250 deep.
/// `fold` is true where case is off. It is not compiled.
pub fn is_pattern(alloc: Global, pattern: &[u8], fold: bool) -> Result<bool, WantOfMemory>
    ensures { IfOk result (λ b. b ≡ is_pattern (record { pattern = pattern.now; fold = fold })) }
{
    match tree_of(alloc, pattern, fold) {
        Ok(_) => Ok(true),
        Err(TreeFault::BadPattern) => Ok(false),
        Err(TreeFault::WantOfMemory) => Err(WantOfMemory),
    }
}
