//! Values of leaf acls.
ghost use Rattle.std.specs.Prelude.{◌≡◌, []};
ghost use Rattle.sq_conf.specs.Forms.{Gives};
ghost use Rattle.sq_rules.specs.AclValues.{is_unquoted, range_value, plain_value, port_number, ports_of, port_value, method_value, maxconn_value, maxconn_values};
ghost use Rattle.sq_rules.specs.Steps.{some_of, over, one_more};

use crate::config_words::{ConfigWords, begins};
use crate::cuts::{before, behind, holds};
use crate::faults::ReadFault;
use httparse::is_token;
use sq_addr::read_range;
use sq_base::{Copying, Listed, PORT_LIMIT, Range, Ranges, Text, Texts, number_of};
use sq_rules::{Kind, MAXCONN_LIMIT, Numbers, PortRange, PortRanges};
use std::alloc::Global;

/// Whether it doesn't begin with `"`.
pub fn is_unquoted(word: &[u8]) -> bool
    ensures { result ≡ is_unquoted word.now }
{
    !begins(word, b'"')
}

fn range_value(word: &[u8]) -> Result<Range, ReadFault>
    ensures { Gives (λ r. r) result (range_value word.now) }
{
    match read_range(word) {
        Ok(range) => Ok(range),
        Err(_) => Err(ReadFault::Fault(Kind::BadValue)),
    }
}

/// Values of src and dst.
pub fn range_values(alloc: Global, words: &[Text]) -> Result<Ranges, ReadFault>
    ensures { Gives (λ v. v) result (some_of range_value words.now) }
{
    if words.is_empty() {
        return Err(ReadFault::Fault(Kind::MissingWord));
    }
    let mut values = Listed::new(alloc);
    for word in words {
        values.push(range_value(word.as_bytes())?)?;
    }
    Ok(values)
}

fn plain_value(alloc: Global, word: &Text) -> Result<Text, ReadFault>
    ensures { Gives (λ t. t) result (plain_value word.now) }
{
    if !is_unquoted(word.as_bytes()) {
        return Err(ReadFault::Fault(Kind::BadValue));
    }
    Ok(word.copy(alloc)?)
}

/// Words that don't begin with `"`.
pub fn plain_words(alloc: Global, words: &[Text]) -> Result<Texts, ReadFault>
    ensures { Gives (λ v. v) result (over (one_more plain_value) [] words.now) }
{
    let mut values = Listed::new(alloc);
    for word in words {
        values.push(plain_value(alloc, word)?)?;
    }
    Ok(values)
}

/// Values of dstdomain and proto.
pub fn plain_values(alloc: Global, words: &[Text]) -> Result<Texts, ReadFault>
    ensures { Gives (λ v. v) result (some_of plain_value words.now) }
{
    if words.is_empty() {
        return Err(ReadFault::Fault(Kind::MissingWord));
    }
    plain_words(alloc, words)
}

fn port_number(word: &[u8]) -> Option<u16>
    ensures { result ≡ port_number word.now }
{
    let port = number_of(word, PORT_LIMIT)?;
    Some(port as u16)
}

#[tactic(auto, unfolding(sq_rules::specs::AclValues::ports_of))]
fn ports_of(word: &[u8]) -> Option<PortRange>
    ensures { result ≡ ports_of word.now }
{
    if holds(word, b'-') {
        let first = port_number(before(word, b'-'))?;
        let last = port_number(behind(word, b'-'))?;
        return if first <= last {
            Some(PortRange { first, last })
        } else {
            None
        };
    }
    let port = port_number(word)?;
    Some(PortRange {
        first: port,
        last: port,
    })
}

fn port_value(word: &[u8]) -> Result<PortRange, ReadFault>
    ensures { Gives (λ r. r) result (port_value word.now) }
{
    match ports_of(word) {
        Some(ports) => Ok(ports),
        None => Err(ReadFault::Fault(Kind::BadValue)),
    }
}

/// Values of port.
pub fn port_values(alloc: Global, words: &[Text]) -> Result<PortRanges, ReadFault>
    ensures { Gives (λ v. v) result (some_of port_value words.now) }
{
    if words.is_empty() {
        return Err(ReadFault::Fault(Kind::MissingWord));
    }
    let mut values = Listed::new(alloc);
    for word in words {
        values.push(port_value(word.as_bytes())?)?;
    }
    Ok(values)
}

fn method_value(alloc: Global, word: &Text) -> Result<Text, ReadFault>
    ensures { Gives (λ t. t) result (method_value word.now) }
{
    if !is_token(word.as_bytes()) {
        return Err(ReadFault::Fault(Kind::BadValue));
    }
    Ok(word.copy(alloc)?)
}

/// Values of method.
pub fn method_values(alloc: Global, words: &[Text]) -> Result<Texts, ReadFault>
    ensures { Gives (λ v. v) result (some_of method_value words.now) }
{
    if words.is_empty() {
        return Err(ReadFault::Fault(Kind::MissingWord));
    }
    let mut values = Listed::new(alloc);
    for word in words {
        values.push(method_value(alloc, word)?)?;
    }
    Ok(values)
}

fn maxconn_value(word: &[u8]) -> Result<u32, ReadFault>
    ensures { Gives (λ n. n) result (maxconn_value word.now) }
{
    match number_of(word, MAXCONN_LIMIT) {
        Some(number) => Ok(number as u32),
        None => Err(ReadFault::Fault(Kind::BadValue)),
    }
}

/// The value of maxconn.
#[tactic(auto, unfolding(sq_rules::specs::AclValues::maxconn_values))]
pub fn maxconn_values(alloc: Global, words: &[Text]) -> Result<Numbers, ReadFault>
    ensures { Gives (λ v. v) result (maxconn_values words.now) }
{
    let mut words = ConfigWords::new(words);
    let word = words.next()?;
    let number = maxconn_value(word.as_bytes())?;
    words.no_more()?;
    let mut values = Listed::new(alloc);
    values.push(number)?;
    Ok(values)
}
