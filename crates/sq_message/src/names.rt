//! Names of fields, and which of them are never passed on: RFC 9110 sections 5.1 and 7.6.1.
ghost use Rattle.std.specs.Prelude.{◌≡◌};
ghost use Rattle.std.specs.List.{list_any};
ghost use Rattle.std.specs.Str.{str_eq_ignore_ascii_case};
ghost use Rattle.sq_message.specs.FieldNames.{is_one_of, dropped, of_the_proxy, of_one_connection};

use http_header::{
    CONNECTION, EXPECT, HOST, HeaderName, PROXY_AUTHORIZATION, TE, TRAILER, TRANSFER_ENCODING,
    UPGRADE,
};

/// Which way a head goes.
#[derive(Clone, Copy)]
pub(crate) enum Direction {
    ToOrigin,
    ToClient,
}

/// Whether both are one name, without case.
pub(crate) fn is_alike(one: &[u8], other: &[u8]) -> bool
    ensures { result ≡ str_eq_ignore_ascii_case one.now other.now }
{
    one.eq_ignore_ascii_case(other)
}

/// Whether the second is the name that the first is, without case.
#[inline(always)]
pub(crate) fn is_named(wanted: &HeaderName, name: &[u8]) -> bool
    ensures { result ≡ str_eq_ignore_ascii_case wanted.now name.now }
{
    is_alike(wanted.as_bytes(), name)
}

/// Whether the name is one of these.
pub(crate) fn is_one_of(names: &[&[u8]], name: &[u8]) -> bool
    ensures { result ≡ list_any (λ n. str_eq_ignore_ascii_case n.now name.now) names.now }
{
    names.iter().any(|one| is_alike(one, name))
}

fn is_of_one_connection(name: &[u8]) -> bool
    ensures { result ≡ is_one_of of_one_connection name.now }
{
    is_named(&CONNECTION, name)
        || is_alike(b"proxy-connection", name)
        || is_alike(b"keep-alive", name)
        || is_named(&TE, name)
        || is_named(&TRAILER, name)
        || is_named(&TRANSFER_ENCODING, name)
        || is_named(&UPGRADE, name)
}

fn is_of_the_proxy(name: &[u8]) -> bool
    ensures { result ≡ is_one_of of_the_proxy name.now }
{
    is_named(&HOST, name)
        || is_named(&PROXY_AUTHORIZATION, name)
        || is_named(&EXPECT, name)
        || is_of_one_connection(name)
}

/// Whether the field is never passed on that way.
pub(crate) fn is_dropped(way: Direction, name: &[u8]) -> bool
    ensures { result ≡ is_one_of (dropped way) name.now }
{
    match way {
        Direction::ToOrigin => is_of_the_proxy(name),
        Direction::ToClient => is_of_one_connection(name),
    }
}
