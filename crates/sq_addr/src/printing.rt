//! Addresses printed as texts.
ghost use Rattle.std.specs.Prelude.{◌≡◌, Some, IfOk};
ghost use Rattle.sq_base.specs.Addresses.{v4_text, v6_text, address_of, address_text};

use sq_base::{Addr, Text, WantOfMemory};
use std::alloc::Global;
use std::net::{Ipv4Addr, Ipv6Addr};

/// The text of the address, which reads back to it.
pub fn print_addr(alloc: Global, addr: Addr) -> Result<Text, WantOfMemory>
    ensures text { IfOk result (λ t. t ≡ address_text addr) }
    ensures reads_back { address_of (address_text addr) ≡ Some addr }
{
    if addr.v6 {
        print_v6(alloc, addr.number)
    } else {
        print_v4(alloc, addr.number as u32)
    }
}

#[tactic(auto, unfolding(sq_base::specs::Addresses::v4_text))]
fn print_v4(alloc: Global, number: u32) -> Result<Text, WantOfMemory>
    ensures { IfOk result (λ t. t ≡ v4_text number) }
{
    let address = Ipv4Addr::new(
        (number / 16777216) as u8,
        (number / 65536 % 256) as u8,
        (number / 256 % 256) as u8,
        (number % 256) as u8,
    );
    let text = format!(in alloc; "{address}")?;
    Ok(Text::from_vec(text.into_bytes()))
}

#[tactic(auto, unfolding(sq_base::specs::Addresses::v6_text))]
fn print_v6(alloc: Global, number: u128) -> Result<Text, WantOfMemory>
    ensures { IfOk result (λ t. t ≡ v6_text number) }
{
    let address = Ipv6Addr::new(
        (number >> 112) as u16,
        ((number >> 96) % 65536) as u16,
        ((number >> 80) % 65536) as u16,
        ((number >> 64) % 65536) as u16,
        ((number >> 48) % 65536) as u16,
        ((number >> 32) % 65536) as u16,
        ((number >> 16) % 65536) as u16,
        (number % 65536) as u16,
    );
    let text = format!(in alloc; "{}", address.hex_groups())?;
    Ok(Text::from_vec(text.into_bytes()))
}
