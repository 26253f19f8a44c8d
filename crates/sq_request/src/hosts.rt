//! The host at the front of an authority.
ghost use Rattle.std.specs.Prelude.{◌≡◌, ◌<◌, ◌≤◌, length, position, IfSome};
ghost use Rattle.std.specs.List.{list_all, prefix_len};
ghost use Rattle.std.specs.Option.{option_map};
ghost use Rattle.sq_base.specs.Addresses.{v4, v4_of, v6_of};
ghost use Rattle.sq_base.specs.Targets.{before_port, is_host_byte, is_bracket, bracketed, in_brackets, named_host, host_in};
ghost use Rattle.sq_request.specs.Parts.{shown_host};

use sq_addr::{read_v4, read_v6};
use sq_base::Addr;

/// A host as it is written, without brackets, the address that it spells, and what stands behind it.
#[derive(Clone, Copy)]
pub struct Host<'a> {
    pub name: &'a [u8],
    pub literal: Option<Addr>,
    pub rest: &'a [u8],
}

/// The host at the front of an authority.
#[tactic(auto, unfolding(sq_base::specs::Targets::host_in))]
pub fn host_in(authority: &[u8]) -> Option<Host<'_>>
    ensures { option_map shown_host result ≡ host_in authority.now }
{
    match authority {
        [] => None,
        [b'[', inside @ ..] => in_brackets(inside),
        [_, ..] => {
            let (name, rest) = authority.split_at(name_len(authority));
            named(name, rest)
        }
    }
}

// How many bytes at the front stand before a `:`.
fn name_len(text: &[u8]) -> usize
    ensures value { result ≡ prefix_len before_port text.now }
    ensures bound { result ≤ length text.now }
{
    text.iter().take_while(|&&byte| byte != b':').count()
}

// What stands behind `[`.
fn in_brackets(inside: &[u8]) -> Option<Host<'_>>
    ensures { option_map shown_host result
        ≡ in_brackets inside.now (position is_bracket inside.now) }
{
    let end = bracket_place(inside)?;
    bracketed(&inside[..end], &inside[end + 1..])
}

// The place of the first `]`.
fn bracket_place(text: &[u8]) -> Option<usize>
    ensures first { result ≡ position is_bracket text.now }
    ensures inside { IfSome result (λ i. i < length text.now) }
{
    text.iter().position(|&byte| byte == b']')
}

fn bracketed<'a>(name: &'a [u8], rest: &'a [u8]) -> Option<Host<'a>>
    ensures { option_map shown_host result ≡ bracketed name.now rest.now (v6_of name.now) }
{
    let number = read_v6(name)?;
    let literal = Some(Addr { v6: true, number });
    Some(Host {
        name,
        literal,
        rest,
    })
}

fn named<'a>(name: &'a [u8], rest: &'a [u8]) -> Option<Host<'a>>
    ensures { option_map shown_host result ≡ named_host name.now rest.now }
{
    match name {
        [] => None,
        [_, ..] => {
            if are_host_bytes(name) {
                let literal = literal_v4(name);
                Some(Host {
                    name,
                    literal,
                    rest,
                })
            } else {
                None
            }
        }
    }
}

fn are_host_bytes(bytes: &[u8]) -> bool
    ensures { result ≡ list_all is_host_byte bytes.now }
{
    bytes.iter().all(|&byte| is_host_byte(byte))
}

fn is_host_byte(byte: u8) -> bool
    ensures { result ≡ is_host_byte byte }
{
    byte.is_ascii_alphanumeric() || byte == b'-' || byte == b'.' || byte == b'_'
}

fn literal_v4(name: &[u8]) -> Option<Addr>
    ensures { result ≡ option_map v4 (v4_of name.now) }
{
    let number = read_v4(name)?;
    Some(Addr {
        v6: false,
        number: number as u128,
    })
}
