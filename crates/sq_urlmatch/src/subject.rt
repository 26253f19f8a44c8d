//! The text in which patterns are looked for.
ghost use Rattle.std.specs.Prelude.{◌≡◌, IfOk, true};
ghost use Rattle.std.specs.Cow.{cow_slice_items};
ghost use Rattle.std.specs.List.{list_any};
ghost use Rattle.percent_encoding.specs.Percent.{percent_decode};
ghost use Rattle.sq_urlmatch.specs.Patterns.{acl_has_patterns};

use percent_encoding::percent_decode;
use sq_base::{Text, WantOfMemory};
use sq_rules::{Acl, Body, Leaf};
use std::alloc::Global;
use std::borrow::CowSlice;

/// The target, percent-decoded where some acl has patterns. A target without escapes is not copied.
pub fn subject_of<'a>(
    alloc: Global,
    acls: &[Acl],
    target: &'a Text,
) -> Result<CowSlice<'a, u8, Global>, WantOfMemory>
    ensures { IfOk result
        (λ t. list_any acl_has_patterns acls.now ≡ true
        → cow_slice_items t ≡ percent_decode target.now) }
{
    let bytes = target.as_bytes();
    if some_have_patterns(acls) {
        Ok(percent_decode(bytes).into_cow(alloc)?)
    } else {
        Ok(CowSlice::Borrowed(bytes))
    }
}

fn some_have_patterns(acls: &[Acl]) -> bool
    ensures { result ≡ list_any acl_has_patterns acls.now }
{
    acls.iter().any(has_patterns)
}

fn has_patterns(acl: &Acl) -> bool
    ensures { result ≡ acl_has_patterns acl.now }
{
    match &acl.body {
        Body::Leaf(Leaf::UrlRegex(_)) => true,
        _ => false,
    }
}
