//! What is asked for the name of a host, and in which order its addresses are tried: no call of the system.
ghost use Rattle.std.specs.Prelude.{◌≡◌, ◌++◌, filter, IfOk, OnOk};
ghost use Rattle.sq_system.specs.Names as name;

use crate::hosts::has_one_spelling;
use sq_addr::read_addr;
use sq_base::{Addrs, Listed, Text, WantOfMemory};
use std::alloc::Global;
use std::marker::Model;
use std::mem;

/// What the system is asked for a host: with a dot at its end a name is no other one, whatever resolv.conf has behind `search`. A
/// host that is not in its one spelling is asked for as it stands, so that a rule sees of it what the system takes it for; it is
/// not dialled.
pub fn asked(alloc: Global, host: &str) -> Result<Text, WantOfMemory>
    ensures { IfOk result (λ t. t ≡ name.asked host.now) }
{
    let mut text = Text::from_slice(alloc, host.as_bytes())?;
    if has_one_spelling(host) && read_addr(host.as_bytes()).is_err() {
        text.push(b'.')?;
    }
    Ok(text)
}

// What is read of a hosts file.
#[derive(Drop)]
struct HostsRead {
    comment: bool,
    word: Text,
    first: Text,
    found: Addrs,
}

impl Model for HostsRead {
    ghost use Rattle.sq_system.specs.Names.{HostsRead};

    ghost Value = { HostsRead };

    ghost view = { λ h. record {
      comment = h.comment;
      word = h.word;
      first = h.first;
      found = h.found;
    } };
}

// A blank between words.
fn is_gap(byte: u8) -> bool
    ensures { result ≡ name.is_gap byte }
{
    byte == b' ' || byte == b'\t' || byte == b'\r'
}

impl HostsRead {
    fn new(alloc: Global) -> HostsRead
        ensures { result ≡ name.nothing_read }
    {
        HostsRead {
            comment: false,
            word: Text::new(alloc),
            first: Text::new(alloc),
            found: Listed::new(alloc),
        }
    }

    // A word has ended: it is the first, or the name, or another.
    fn end_word(&mut self, alloc: Global, host: &[u8]) -> Result<(), WantOfMemory>
        ensures { OnOk result (self.new ≡ name.ended host.now self.old) }
    {
        if self.word.is_empty() {
            return Ok(());
        }
        let word = mem::replace(&mut self.word, Text::new(alloc));
        if self.first.is_empty() {
            self.first = word;
            return Ok(());
        }
        if word.as_bytes() == host {
            if let Ok(addr) = read_addr(self.first.as_bytes()) {
                self.found.push(addr)?;
            }
        }
        Ok(())
    }

    fn take(&mut self, alloc: Global, host: &[u8], byte: u8) -> Result<(), WantOfMemory>
        ensures { OnOk result (self.new ≡ name.byte_read host.now self.old byte) }
    {
        if byte == b'\n' {
            self.end_word(alloc, host)?;
            self.comment = false;
            self.first = Text::new(alloc);
        } else if self.comment {} else if byte == b'#' {
            self.end_word(alloc, host)?;
            self.comment = true;
        } else if is_gap(byte) {
            self.end_word(alloc, host)?;
        } else {
            self.word.push(byte.to_ascii_lowercase())?;
        }
        Ok(())
    }
}

/// The addresses that the text of a hosts file has for a name in lower case, in their order.
pub fn hosts_addresses(alloc: Global, host: &[u8], text: &[u8]) -> Result<Addrs, WantOfMemory>
    ensures { IfOk result (λ a. a ≡ name.hosts_addresses host.now text.now) }
{
    let mut read = HostsRead::new(alloc);
    for &byte in text {
        read.take(alloc, host, byte)?;
    }
    read.end_word(alloc, host)?;
    let HostsRead {
        comment: _,
        word: _,
        first: _,
        found,
    } = read;
    Ok(found)
}

/// An address of a host: its place among them, its kind, and whether it failed or lost of late.
#[derive(Clone, Copy)]
pub struct Goal {
    pub place: usize,
    pub v6: bool,
    pub late: bool,
}

// Those of one kind.
fn of_kind(
    alloc: Global,
    v6: bool,
    late: bool,
    goals: &[Goal],
) -> Result<Listed<Goal>, WantOfMemory>
    ensures { IfOk result (λ g. g ≡ filter (name.is_kind v6 late) goals.now) }
{
    let mut kind = Listed::new(alloc);
    for goal in goals {
        if goal.v6 == v6 && goal.late == late {
            kind.push(*goal)?;
        }
    }
    Ok(kind)
}

// Puts one of the first, then one of the second, and so on, behind others.
fn push_in_turns(
    order: &mut Listed<Goal>,
    first: &[Goal],
    second: &[Goal],
) -> Result<(), WantOfMemory>
    ensures { OnOk result (order.new ≡ order.old ++ name.in_turns first.now second.now) }
{
    let mut ones = first;
    let mut others = second;
    while let Some((one, more)) = ones.split_first() {
        order.push(*one)?;
        ones = more;
        if let Some((other, more)) = others.split_first() {
            order.push(*other)?;
            others = more;
        }
    }
    push_all(order, others)
}

fn push_all(order: &mut Listed<Goal>, goals: &[Goal]) -> Result<(), WantOfMemory>
    ensures { OnOk result (order.new ≡ order.old ++ goals.now) }
{
    for goal in goals {
        order.push(*goal)?;
    }
    Ok(())
}

// Those that failed or lost of late, or the others, in their order.
fn push_turns(
    alloc: Global,
    order: &mut Listed<Goal>,
    late: bool,
    goals: &[Goal],
) -> Result<(), WantOfMemory>
    ensures { OnOk result (order.new ≡ order.old ++ name.turns_of late goals.now) }
{
    let first = of_kind(alloc, true, late, goals)?;
    let second = of_kind(alloc, false, late, goals)?;
    push_in_turns(order, first.as_slice(), second.as_slice())
}

/// The order in which addresses are tried: IPv6 first, and then one of each kind; those that failed or lost of late are the last.
pub fn tried_so(alloc: Global, goals: &[Goal]) -> Result<Listed<Goal>, WantOfMemory>
    ensures { IfOk result (λ g. g ≡ name.tried_so goals.now) }
{
    let mut order = Listed::new(alloc);
    push_turns(alloc, &mut order, false, goals)?;
    push_turns(alloc, &mut order, true, goals)?;
    Ok(order)
}
