//! What stands in a key for each token.
ghost use Rattle.std.specs.Prelude.{◌≡◌, ◌++◌, decimal, map, OnOk};
ghost use Rattle.std.specs.List.{join_with_byte};
ghost use Rattle.sq_base.specs.Addresses.{address_text};
ghost use Rattle.sq_rules.specs.Keys.{token_text};

use crate::escapes::{put_escaped, put_or_dash};
use crate::fields::{put_arguments, put_fields};
use itoa::Buffer;
use sq_addr::print_addr;
use sq_base::{Addr, Text, WantOfMemory};
use sq_rules::{Sight, Token};
use std::alloc::Global;

fn put_addr(alloc: Global, to: &mut Text, addr: Addr) -> Result<(), WantOfMemory>
    ensures { OnOk result (to.new ≡ to.old ++ address_text addr) }
{
    let text = print_addr(alloc, addr)?;
    to.append(text.as_bytes())
}

fn put_port(to: &mut Text, port: u16) -> Result<(), WantOfMemory>
    ensures { OnOk result (to.new ≡ to.old ++ decimal port) }
{
    to.append(Buffer::new().format(port).as_bytes())
}

// Puts what stands for a token, over the acl's name and arguments.
fn put_token(
    alloc: Global,
    to: &mut Text,
    name: &Text,
    arguments: &[Text],
    sight: &Sight,
    token: &Token,
) -> Result<(), WantOfMemory>
    ensures { OnOk result
        (to.new ≡ to.old ++ token_text name.now arguments.now sight.now token.now) }
{
    let request = &sight.request;
    match token {
        Token::ClientAddr => put_addr(alloc, to, sight.addr),
        Token::ClientPort => put_port(to, sight.port),
        Token::Method => put_escaped(to, request.method.as_bytes()),
        Token::Uri => put_escaped(to, request.target.as_bytes()),
        Token::Scheme => put_or_dash(to, request.scheme.as_bytes()),
        Token::Host => put_escaped(to, request.host.as_bytes()),
        Token::Port => put_port(to, request.port),
        Token::Path => put_or_dash(to, request.path.as_bytes()),
        Token::Header(field) => put_fields(to, field, request.fields.as_slice()),
        Token::AclName => put_escaped(to, name.as_bytes()),
        Token::Arguments => put_arguments(to, arguments),
        Token::Percent => to.append(b"%"),
    }
}

/// Puts what stands for each token of a format, with a space between them.
pub fn put_format(
    alloc: Global,
    to: &mut Text,
    name: &Text,
    arguments: &[Text],
    sight: &Sight,
    format: &[Token],
) -> Result<(), WantOfMemory>
    ensures { OnOk result
        (to.new ≡ to.old ++ join_with_byte 32
        (map (token_text name.now arguments.now sight.now) format.now)) }
{
    let Some((first, rest)) = format.split_first() else {
        return Ok(());
    };
    put_token(alloc, to, name, arguments, sight, first)?;
    for token in rest {
        to.push(b' ')?;
        put_token(alloc, to, name, arguments, sight, token)?;
    }
    Ok(())
}
