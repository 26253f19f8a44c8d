//! Formats of keys, in which the token of an acl's arguments always stands.
ghost use Rattle.std.specs.Prelude.{◌≡◌, ◌≤◌, true, length, IfOk};
ghost use Rattle.std.specs.List.{list_any};
ghost use Rattle.sq_rules.specs.Classes.{has_few_tokens, is_arguments, with_arguments};
ghost use Rattle.sq_rules.specs.Limits.{token_limit};

use crate::classes::{Token, Tokens};
use sq_base::WantOfMemory;

// Whether a token stands for an acl's arguments.
fn is_arguments(token: &Token) -> bool
    ensures { result ≡ is_arguments token.now }
{
    match token {
        Token::Arguments => true,
        _ => false,
    }
}

// Whether some token does.
fn has_arguments(format: &[Token]) -> bool
    ensures { result ≡ list_any is_arguments format.now }
{
    format.iter().any(|token| is_arguments(token))
}

/// A format with `%DATA`, which is added at its end where none was written.
pub fn with_arguments(mut format: Tokens) -> Result<Tokens, WantOfMemory>
    ensures added { IfOk result (λ f. f ≡ with_arguments format) }
    ensures written { IfOk result (λ f. length format ≤ token_limit → has_few_tokens f ≡ true) }
    ensures few { IfOk result (λ f. has_few_tokens format ≡ true → has_few_tokens f ≡ true) }
{
    if !has_arguments(format.as_slice()) {
        format.push(Token::Arguments)?;
    }
    Ok(format)
}
