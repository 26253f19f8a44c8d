//! The reply to a question about a host.
ghost use Rattle.std.specs.Prelude.{◌≡◌, IfOk};
ghost use Rattle.std.specs.Option.{option_copied};
ghost use Rattle.sq_dst.specs.LookupAcls.{reply_over, reply_text};

use crate::acls::{key_values, some_within};
use sq_base::{Addrs, Ranges, Text, WantOfMemory};
use sq_rules::Config;
use std::alloc::Global;

// The reply over the values for which is asked, and what was found.
fn reply_over(values: Option<&Ranges>, found: Option<&Addrs>) -> &'static [u8]
    ensures { result.now ≡ reply_over (option_copied values.entry) (option_copied found.entry) }
{
    match (values, found) {
        (Some(values), Some(addrs)) => {
            if some_within(values.as_slice(), addrs.as_slice()) {
                b"OK"
            } else {
                b"ERR"
            }
        }
        _ => b"BH",
    }
}

/// The reply to a question, over the addresses that were found of its host, or over nothing: `OK` exactly where the question is a
/// key of the class by which names are looked up, its acl is `N lookup` of the configuration and some address lies in the values of
/// `N literal`; `ERR` exactly where it is such a key and none does; and else `BH`.
pub fn reply_for(
    alloc: Global,
    config: &Config,
    question: &[u8],
    found: Option<&Addrs>,
) -> Result<Text, WantOfMemory>
    ensures { IfOk result
        (λ t. t ≡ reply_text config.now question.now (option_copied found.entry)) }
{
    let values = key_values(alloc, config, question)?;
    Text::from_slice(alloc, reply_over(values, found))
}
