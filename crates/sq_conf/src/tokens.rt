//! Tokens of `external_acl_type`.
ghost use Rattle.std.specs.Prelude.{◌≡◌, ◌==◌, ◌||◌, Some, None, bytes_eq};
ghost use Rattle.std.specs.List.{starts_with};
ghost use Rattle.sq_base.specs.Lines.{ends_in};
ghost use Rattle.sq_base.specs.NameTables.{beside};
ghost use Rattle.sq_conf.specs.Forms.{Gives};
ghost use Rattle.sq_rules.specs.ClassLines.{field_name, field_token, is_field, token_of, whole_tokens};
ghost use Rattle.sq_rules.specs.Steps.{needed};

use crate::faults::ReadFault;
use httparse::is_token;
use sq_base::Text;
use sq_rules::{Kind, Token};
use std::alloc::Global;

// What stands behind the first three bytes and before the last.
fn field_name(word: &[u8]) -> &[u8]
    ensures { result.now ≡ field_name word.now }
{
    let name = match word.get(3..) {
        Some(name) => name,
        None => b"".as_slice(),
    };
    &name[..name.len().saturating_sub(1)]
}

fn ends_in(word: &[u8], wanted: u8) -> bool
    ensures { result ≡ ends_in wanted word.now }
{
    match word.last() {
        Some(&byte) => byte == wanted,
        None => false,
    }
}

// `%>{Name}`
fn is_field(word: &[u8]) -> bool
    ensures { result ≡ is_field word.now }
{
    word.starts_with(b"%>{") && ends_in(word, b'}') && is_token(field_name(word))
}

// The token for a field of the request.
fn field_token(alloc: Global, word: &[u8]) -> Result<Token, ReadFault>
    ensures { Gives (λ t. t) result (needed Kind.UnknownToken (field_token word.now)) }
{
    if is_field(word) {
        Ok(Token::Header(Text::from_slice(alloc, field_name(word))?))
    } else {
        Err(ReadFault::Fault(Kind::UnknownToken))
    }
}

// The word is one of both.
fn is_either(word: &[u8], short: &[u8], long: &[u8]) -> bool
    ensures { result ≡ (bytes_eq word.now short.now || bytes_eq word.now long.now) }
{
    word == short || word == long
}

// A token that is a whole word.
fn whole_token(word: &[u8]) -> Option<Token>
    ensures { result ≡ beside whole_tokens word.now }
{
    if is_either(word, b"%>a", b"%SRC") {
        return Some(Token::ClientAddr);
    }
    if is_either(word, b"%>p", b"%SRCPORT") {
        return Some(Token::ClientPort);
    }
    if is_either(word, b"%>rm", b"%METHOD") {
        return Some(Token::Method);
    }
    if is_either(word, b"%>ru", b"%URI") {
        return Some(Token::Uri);
    }
    if is_either(word, b"%>rs", b"%PROTO") {
        return Some(Token::Scheme);
    }
    if is_either(word, b"%>rd", b"%DST") {
        return Some(Token::Host);
    }
    if is_either(word, b"%>rP", b"%PORT") {
        return Some(Token::Port);
    }
    if is_either(word, b"%>rp", b"%PATH") {
        return Some(Token::Path);
    }
    if word == b"%ACL".as_slice() {
        return Some(Token::AclName);
    }
    if word == b"%DATA".as_slice() {
        return Some(Token::Arguments);
    }
    if word == b"%%".as_slice() {
        return Some(Token::Percent);
    }
    None
}

/// What a token stands for.
#[tactic(auto, unfolding(sq_rules::specs::ClassLines::token_of))]
pub fn token_of(alloc: Global, word: &[u8]) -> Result<Token, ReadFault>
    ensures { Gives (λ t. t) result (token_of word.now) }
{
    match whole_token(word) {
        Some(token) => Ok(token),
        None => field_token(alloc, word),
    }
}
