//! Addresses read from texts.
ghost use Rattle.std.specs.Prelude.{◌≡◌, Some, None, MatchResult, IfOk, OnErr};
ghost use Rattle.sq_base.specs.Addresses.{Address, Spells, v4_of, v6_of, address_of};

use sq_base::Addr;
use std::net::{Ipv4Addr, Ipv6Addr};
use thiserror::Error;

/// The text spells no address, or no range of addresses.
#[derive(Clone, Copy, PartialEq, Eq, Debug, Error)]
#[error("no address")]
pub struct BadAddress;

/// The number of the IPv4 address that the text spells.
pub fn read_v4(text: &[u8]) -> Option<u32>
    ensures { result ≡ v4_of text.now }
{
    match Ipv4Addr::parse_ascii(text) {
        Ok(address) => {
            let [a, b, c, d] = address.octets();
            Some(((a as u32 * 256 + b as u32) * 256 + c as u32) * 256 + d as u32)
        }
        Err(_) => None,
    }
}

/// The number of the IPv6 address that the text spells.
pub fn read_v6(text: &[u8]) -> Option<u128>
    ensures { result ≡ v6_of text.now }
{
    match Ipv6Addr::parse_ascii(text) {
        Ok(address) => {
            let [a, b, c, d, e, f, g, h] = address.segments();
            let high = ((a as u128 * 65536 + b as u128) * 65536 + c as u128) * 65536 + d as u128;
            let low = ((e as u128 * 65536 + f as u128) * 65536 + g as u128) * 65536 + h as u128;
            Some(high * 18446744073709551616 + low)
        }
        Err(_) => None,
    }
}

/// The address that the text spells.
pub fn read_addr(text: &[u8]) -> Result<Addr, BadAddress>
    ensures read { MatchResult result
        (λ a. address_of text.now ≡ Some a)
        (λ _. address_of text.now ≡ None) }
    ensures spelled { IfOk result (λ a. Spells text.now a) }
    ensures unspelled { OnErr result ((a : Address) → ¬ (Spells text.now a)) }
{
    match spelled(text) {
        Some(address) => Ok(address),
        None => Err(BadAddress),
    }
}

#[tactic(auto, unfolding(sq_base::specs::Addresses::address_of))]
fn spelled(text: &[u8]) -> Option<Addr>
    ensures { result ≡ address_of text.now }
{
    if let Some(number) = read_v4(text) {
        return Some(Addr {
            v6: false,
            number: number as u128,
        });
    }
    match read_v6(text) {
        Some(number) => Some(Addr { v6: true, number }),
        None => None,
    }
}
