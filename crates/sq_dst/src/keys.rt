//! What a question about a host asks for.
ghost use Rattle.std.specs.Prelude.{◌≡◌, ◌≢◌, ◌≤◌, List, ℕ, length, position, None, IfOk, IfSome};
ghost use Rattle.std.specs.Option.{option_map};
ghost use Rattle.sq_base.specs.Texts.{AreBytes};
ghost use Rattle.sq_dst.specs.LookupKeys.{before_end, host_asked, is_space, key_at, key_of_words, lookup_key, lookup_text, question_limit};

use crate::escapes::{is_escape_of, unescaped};
use sq_base::{Text, WantOfMemory};
use std::alloc::Global;

/// A line of more bytes is no key.
const QUESTION_LIMIT: usize = 65536;

/// What a key asks for: the addresses of a host, for the acl of a name.
#[derive(Drop)]
pub(crate) struct LookupKey {
    pub(crate) host: Text,
    pub(crate) acl: Text,
}

/// What stands before this end, if a text has it.
pub(crate) fn before_end<'a>(end: &[u8], text: &'a [u8]) -> Option<&'a [u8]>
    ensures { option_map (λ t. t.now) result ≡ before_end end.now text.now }
{
    text.strip_suffix(end)
}

// The place of the first space.
fn space_in(words: &[u8]) -> Option<usize>
    ensures { result ≡ position is_space words.now }
{
    words.iter().position(|&byte| byte == b' ')
}

// What two words ask for.
fn key_of_words(alloc: Global, host: &[u8], acl: &[u8]) -> Result<Option<LookupKey>, WantOfMemory>
    ensures { IfOk result (λ k. k ≡ key_of_words host.now acl.now) }
{
    let key = LookupKey {
        host: unescaped(alloc, host)?,
        acl: unescaped(alloc, acl)?,
    };
    if is_escape_of(host, key.host.as_bytes()) && is_escape_of(acl, key.acl.as_bytes()) {
        Ok(Some(key))
    } else {
        Ok(None)
    }
}

// What two words with a space between them ask for.
fn key_in(alloc: Global, words: &[u8]) -> Result<Option<LookupKey>, WantOfMemory>
    ensures { IfOk result (λ k. k ≡ key_at words.now (position is_space words.now)) }
{
    match space_in(words) {
        None => Ok(None),
        Some(place) => key_of_words(alloc, &words[..place], &words[place + 1..]),
    }
}

/// What a question asks for. None where it is no key.
#[tactic(auto, unfolding(crate::specs::LookupKeys::lookup_key))]
pub(crate) fn read_key(alloc: Global, question: &[u8]) -> Result<Option<LookupKey>, WantOfMemory>
    ensures { IfOk result (λ k. k ≡ lookup_key question.now) }
{
    if question.len() > QUESTION_LIMIT {
        return Ok(None);
    }
    match before_end(b" -", question) {
        None => Ok(None),
        Some(words) => key_in(alloc, words),
    }
}

/// The host for which a question asks. None exactly where the question is no key of the class by which names are looked up: the
/// host and the name of an acl, each as it stands in a key, and `-`, with a space between them, in 65,536 bytes at most.
pub fn host_of(alloc: Global, question: &[u8]) -> Result<Option<Text>, WantOfMemory>
    ensures host { IfOk result (λ h. h ≡ host_asked question.now) }
    ensures key { IfOk result
        (λ h. IfSome h (λ host. (acl : List ℕ) × (question.now ≡ lookup_text host acl))) }
    ensures no_key { IfOk result
        (λ h. h ≡ None → length question.now ≤ question_limit → (host acl : List ℕ)
        → AreBytes host → AreBytes acl → question.now ≢ lookup_text host acl) }
{
    match read_key(alloc, question)? {
        None => Ok(None),
        Some(LookupKey { host, acl: _ }) => Ok(Some(host)),
    }
}
