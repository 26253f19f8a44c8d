//! Leaf acls that read the request's method and the scheme of its target.
ghost use Rattle.std.specs.Prelude.{◌≡◌};
ghost use Rattle.std.specs.List.{list_any};
ghost use Rattle.std.specs.Str.{str_eq_ignore_ascii_case};
ghost use Rattle.sq_rules.specs.Leaves.{has_scheme, holds};

use sq_base::{Text, Texts};
use sq_rules::{Leaf, Sight};

/// `method`: the method is some value, with case.
pub fn method_has(values: &Texts, sight: &Sight) -> bool
    ensures { result ≡ holds (Leaf.Method values.now) sight.now }
{
    let method = sight.request.method.as_bytes();
    values
        .as_slice()
        .iter()
        .any(|value| value.as_bytes() == method)
}

/// `proto`: the target's scheme is some value, without case. A CONNECT request has none.
pub fn proto_has(values: &Texts, sight: &Sight) -> bool
    ensures { result ≡ holds (Leaf.Proto values.now) sight.now }
{
    has_scheme(values.as_slice(), sight.request.scheme.as_bytes())
}

// Whether there is a scheme, and it is some name.
#[tactic(auto, using(crate::proofs::SchemeLaws::some_scheme))]
fn has_scheme(names: &[Text], scheme: &[u8]) -> bool
    ensures { result ≡ has_scheme names.now scheme.now }
{
    !scheme.is_empty() && some_alike(names, scheme)
}

// Whether some name is the scheme.
fn some_alike(names: &[Text], scheme: &[u8]) -> bool
    ensures { result ≡ list_any (λ n. str_eq_ignore_ascii_case n scheme.now) names.now }
{
    names.iter().any(|name| is_alike(name.as_bytes(), scheme))
}

// Whether both are one text, without case.
fn is_alike(one: &[u8], other: &[u8]) -> bool
    ensures { result ≡ str_eq_ignore_ascii_case one.now other.now }
{
    one.eq_ignore_ascii_case(other)
}
