//! Addresses written without memory, as they are printed: RFC 5952 section 4 for IPv6.
ghost use Rattle.std.specs.Prelude.{◌≡◌, ◌+◌, ◌++◌, ◌<◌, ◌≤◌, codes, decimal, flat_map, length};
ghost use Rattle.std.specs.Char.{digit_char};
ghost use Rattle.std.specs.Net.Text.{groups_text, hex, hex_groups_text, leading_zero_digits, longest_zero_run};
ghost use Rattle.sq_base.specs.Addresses.{address_text, v4_text, v6_text};
ghost use Rattle.sq_journal.specs.Putting.{Puts};

use crate::putting::{put, put_decimal};
use sq_base::Addr;
use sq_outside::{Failed, Sink};

/// Puts the text of an address.
pub fn put_address<O: Sink>(to: &mut O, addr: Addr) -> Result<(), Failed>
    ensures { Puts (O.contents to.old) (O.contents to.new) (O.faults to.old) (O.faults to.new)
        result (address_text addr) }
{
    if addr.v6 {
        put_v6(to, addr.number)
    } else {
        put_v4(to, addr.number as u32)
    }
}

// Puts a number and a dot.
fn put_dotted<O: Sink>(to: &mut O, number: u64) -> Result<(), Failed>
    ensures { Puts (O.contents to.old) (O.contents to.new) (O.faults to.old) (O.faults to.new)
        result (decimal number ++ codes ".") }
{
    match put_decimal(to, number) {
        Ok(()) => {}
        Err(Failed) => return Err(Failed),
    }
    put(to, b".")
}

// Puts four numbers with dots between them.
#[tactic(auto, unfolding(sq_base::specs::Addresses::v4_text))]
fn put_v4<O: Sink>(to: &mut O, number: u32) -> Result<(), Failed>
    ensures { Puts (O.contents to.old) (O.contents to.new) (O.faults to.old) (O.faults to.new)
        result (v4_text number) }
{
    match put_dotted(to, (number / 16777216) as u64) {
        Ok(()) => {}
        Err(Failed) => return Err(Failed),
    }
    match put_dotted(to, (number / 65536 % 256) as u64) {
        Ok(()) => {}
        Err(Failed) => return Err(Failed),
    }
    match put_dotted(to, (number / 256 % 256) as u64) {
        Ok(()) => {}
        Err(Failed) => return Err(Failed),
    }
    put_decimal(to, (number % 256) as u64)
}

// Puts the eight groups of an address.
#[tactic(auto, unfolding(sq_base::specs::Addresses::v6_text))]
fn put_v6<O: Sink>(to: &mut O, number: u128) -> Result<(), Failed>
    ensures { Puts (O.contents to.old) (O.contents to.new) (O.faults to.old) (O.faults to.new)
        result (v6_text number) }
{
    let groups = [
        (number >> 112) as u16,
        ((number >> 96) % 65536) as u16,
        ((number >> 80) % 65536) as u16,
        ((number >> 64) % 65536) as u16,
        ((number >> 48) % 65536) as u16,
        ((number >> 32) % 65536) as u16,
        ((number >> 16) % 65536) as u16,
        (number % 65536) as u16,
    ];
    put_shortened(to, &groups)
}

// Puts groups, with `::` for the longest run of zeros where that has two or more.
#[tactic(auto, unfolding(std::specs::Net::Text::hex_groups_text))]
fn put_shortened<O: Sink>(to: &mut O, groups: &[u16]) -> Result<(), Failed>
    ensures { Puts (O.contents to.old) (O.contents to.new) (O.faults to.old) (O.faults to.new)
        result (hex_groups_text groups.now) }
{
    let (start, len) = longest_zero_run(groups);
    if len <= 1 {
        return put_groups(to, groups);
    }
    let (head, rest) = groups.split_at(start);
    let (_, tail) = rest.split_at(len);
    put_parts(to, head, tail)
}

// Puts groups, `::` and other groups.
fn put_parts<O: Sink>(to: &mut O, head: &[u16], tail: &[u16]) -> Result<(), Failed>
    ensures { Puts (O.contents to.old) (O.contents to.new) (O.faults to.old) (O.faults to.new)
        result (groups_text head.now ++ (codes "::" ++ groups_text tail.now)) }
{
    match put_groups(to, head) {
        Ok(()) => {}
        Err(Failed) => return Err(Failed),
    }
    match put(to, b"::") {
        Ok(()) => {}
        Err(Failed) => return Err(Failed),
    }
    put_groups(to, tail)
}

// The start and the length of the longest run of zeros, the first one of that length.
fn longest_zero_run(groups: &[u16]) -> (usize, usize)
    ensures value { result ≡ longest_zero_run groups.now }
    ensures within { result.0 + result.1 ≤ length groups.now }
{
    let mut start = groups.len();
    let mut len = 0;
    let mut run = 0;
    for i in (0..groups.len()).rev() {
        run = if groups[i] == 0 { run + 1 } else { 0 };
        if run >= len {
            start = i;
            len = run;
        }
    }
    (start, len)
}

// Puts groups with colons between them.
fn put_groups<O: Sink>(to: &mut O, groups: &[u16]) -> Result<(), Failed>
    ensures { Puts (O.contents to.old) (O.contents to.new) (O.faults to.old) (O.faults to.new)
        result (groups_text groups.now) }
{
    if groups.is_empty() {
        return put(to, b"");
    }
    let (_, rest) = groups.split_at(1);
    put_joined(to, groups[0], rest)
}

// Puts a group, and each other one after a colon.
fn put_joined<O: Sink>(to: &mut O, first: u16, rest: &[u16]) -> Result<(), Failed>
    ensures { Puts (O.contents to.old) (O.contents to.new) (O.faults to.old) (O.faults to.new)
        result (hex first ++ flat_map (λ g. codes ":" ++ hex g) rest.now) }
{
    match put_group(to, first) {
        Ok(()) => {}
        Err(Failed) => return Err(Failed),
    }
    put_more_groups(to, rest)
}

// Puts each group after a colon.
fn put_more_groups<O: Sink>(to: &mut O, groups: &[u16]) -> Result<(), Failed>
    ensures { Puts (O.contents to.old) (O.contents to.new) (O.faults to.old) (O.faults to.new)
        result (flat_map (λ g. codes ":" ++ hex g) groups.now) }
{
    for group in groups {
        match put_next_group(to, *group) {
            Ok(()) => {}
            Err(Failed) => return Err(Failed),
        }
    }
    Ok(())
}

// Puts a colon and a group.
fn put_next_group<O: Sink>(to: &mut O, group: u16) -> Result<(), Failed>
    ensures { Puts (O.contents to.old) (O.contents to.new) (O.faults to.old) (O.faults to.new)
        result (codes ":" ++ hex group) }
{
    match put(to, b":") {
        Ok(()) => {}
        Err(Failed) => return Err(Failed),
    }
    put_group(to, group)
}

// Puts a group in lower-case hexadecimal digits, without leading zeros.
#[tactic(auto, unfolding(std::specs::Net::Text::hex))]
fn put_group<O: Sink>(to: &mut O, group: u16) -> Result<(), Failed>
    ensures { Puts (O.contents to.old) (O.contents to.new) (O.faults to.old) (O.faults to.new)
        result (hex group) }
{
    let digits = [
        hex_digit(group / 0x1000),
        hex_digit(group / 0x100 % 16),
        hex_digit(group / 0x10 % 16),
        hex_digit(group % 16),
    ];
    let zeros = leading_zeros(group);
    put(to, &digits[zeros..])
}

fn hex_digit(digit: u16) -> u8
    requires { digit < 16 }
    ensures { result ≡ digit_char digit }
{
    if digit < 10 {
        b'0' + digit as u8
    } else {
        b'a' + (digit - 10) as u8
    }
}

// How many of the four digits are leading zeros, the last digit apart.
fn leading_zeros(group: u16) -> usize
    ensures value { result ≡ leading_zero_digits group }
    ensures within { result < 4 }
{
    match group {
        0x1000.. => 0,
        0x100.. => 1,
        0x10.. => 2,
        _ => 3,
    }
}
