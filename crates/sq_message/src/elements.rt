//! Lists in the values of fields: RFC 9110 section 5.6.1.
ghost use Rattle.std.specs.Prelude.{◌≡◌, ◌++◌, map, reverse, OnOk, IfOk};
ghost use Rattle.std.specs.Iterator.{YieldsFirstRef, item_count};
ghost use Rattle.httparse.specs.Grammar.{skip_ows, trim_ows};
ghost use Rattle.sq_message.specs.FieldNames.{elements, connection_options};
ghost use Rattle.sq_message.specs.Values.{elements_left};

use crate::names::is_alike;
use http_header::CONNECTION;
use httparse::is_space_or_tab;
use sq_base::{Field, WantOfMemory};
use std::alloc::Global;

/// The elements of a list that are still to come, without the white space around them.
#[derive(Drop)]
pub(crate) struct Elements<'a> {
    rest: Option<&'a [u8]>,
}

impl<'a> Elements<'a> {
    pub(crate) fn new(value: &'a [u8]) -> Elements<'a>
        ensures { elements_left result ≡ elements value.now }
    {
        Elements { rest: Some(value) }
    }
}

impl<'a> Iterator for Elements<'a> {
    type Item = &'a [u8];

    ghost next_gives = { YieldsFirstRef elements_left };

    ghost remaining = { item_count elements_left };

    fn next(&mut self) -> Option<&'a [u8]> {
        let rest = self.rest?;
        match rest.iter().position(|&byte| byte == b',') {
            Some(comma) => {
                self.rest = Some(&rest[comma + 1..]);
                Some(trim_ows(&rest[..comma]))
            }
            None => {
                self.rest = None;
                Some(trim_ows(rest))
            }
        }
    }
}

fn trim_ows(bytes: &[u8]) -> &[u8]
    ensures { result.now ≡ trim_ows bytes.now }
{
    trim_end(trim_start(bytes))
}

fn trim_start(mut bytes: &[u8]) -> &[u8]
    ensures { result.now ≡ skip_ows bytes.now }
{
    while let [first, rest @ ..] = bytes
        && is_space_or_tab(*first)
    {
        bytes = rest;
    }
    bytes
}

fn trim_end(mut bytes: &[u8]) -> &[u8]
    ensures { result.now ≡ reverse (skip_ows (reverse bytes.now)) }
{
    while let [rest @ .., last] = bytes
        && is_space_or_tab(*last)
    {
        bytes = rest;
    }
    bytes
}

// Puts the elements of a list at the end.
fn put_elements<'a>(to: &mut Vec<&'a [u8]>, value: &'a [u8]) -> Result<(), WantOfMemory>
    ensures { OnOk result
        (map (λ o. o.now) to.new.items ≡ map (λ o. o.now) to.old.items ++ elements value.now) }
{
    for element in Elements::new(value) {
        to.push(element)?;
    }
    Ok(())
}

/// What the Connection fields list.
pub(crate) fn connection_options(
    alloc: Global,
    fields: &[Field],
) -> Result<Vec<&[u8]>, WantOfMemory>
    ensures { IfOk result (λ os. map (λ o. o.now) os.items ≡ connection_options fields.now) }
{
    let mut options = Vec::new(alloc);
    for field in fields {
        if is_alike(field.name.as_bytes(), CONNECTION.as_bytes()) {
            put_elements(&mut options, field.value.as_bytes())?;
        }
    }
    Ok(options)
}
