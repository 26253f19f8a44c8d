//! Rules that say which fields of heads are passed on, as `request_header_access` and `reply_header_access` state them.
ghost use Rattle.std.specs.Prelude.{◌≡◌, bytes_eq, true, IfOk};
ghost use Rattle.std.specs.Str.{str_to_ascii_lowercase};

use crate::configs::Rule;
use sq_base::{Listed, Text, WantOfMemory};
use std::alloc::Global;

/// A rule for the fields of a name.
pub struct HeaderRule {
    /// Whether it is for fields of replies, or for those of requests.
    pub reply: bool,
    /// The name of the fields in lower case; `all` is for each field that no rule of its own name is for.
    pub name: Text,
    pub rule: Rule,
}

impl Drop for HeaderRule {
    fn drop(self) {
        let HeaderRule {
            reply: _,
            name: _,
            rule: _,
        } = self;
    }
}

/// A list of such rules.
pub type HeaderRules = Listed<HeaderRule>;

/// A name in lower case.
#[tactic(auto, using(crate::proofs::HeaderLaws::lower_again))]
pub fn lowered(alloc: Global, name: &[u8]) -> Result<Text, WantOfMemory>
    ensures text { IfOk result (λ t. t ≡ str_to_ascii_lowercase name.now) }
    ensures lower { IfOk result (λ t. bytes_eq t (str_to_ascii_lowercase t) ≡ true) }
{
    let name = name.to_ascii_lowercase(alloc)?;
    Ok(Text::from_vec(name))
}
