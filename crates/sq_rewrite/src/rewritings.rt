//! What the reply of a redirector makes of a request.
ghost use Rattle.std.specs.Prelude.{◌≡◌, ◌&&◌, IfOk, bytes_eq, codes};
ghost use Rattle.std.specs.Char.{is_ascii_graphic};
ghost use Rattle.std.specs.List.{find, list_all};
ghost use Rattle.std.specs.Option.{option_copied, option_map};
ghost use Rattle.sq_rewrite.specs.Rewritings.{MayBecome, chosen, code_by, code_named, is_redirect_code, is_url, new_request, plain_only, question_text, redirect_of, rewriting_of, value_of};

use sq_addr::print_addr;
use sq_base::{Addr, Cause, Copying, Pair, Reply, Request, Text, WantOfMemory, Word};
use sq_request::retarget;
use std::alloc::Global;

/// What becomes of a request that a redirector was asked about.
#[derive(Drop)]
pub enum Rewriting {
    /// The request goes on as it is. The cause says why there was no reply, or that it was `BH`.
    Same(Option<Cause>),
    /// This request goes on in its place.
    New(Request),
    /// The client is sent to this URL, with this status.
    Redirect(u16, Text),
}

/// The text of the question about a request of the client with this address.
#[tactic(auto, unfolding(crate::specs::Rewritings::question_text))]
pub fn question_text(alloc: Global, request: &Request, addr: Addr) -> Result<Text, WantOfMemory>
    ensures { IfOk result (λ t. t ≡ question_text request.now addr) }
{
    let client = print_addr(alloc, addr)?;
    let mut text = request.target.copy(alloc)?;
    text.append(b" ")?;
    text.append(client.as_bytes())?;
    text.append(b"/- - ")?;
    text.append(request.method.as_bytes())?;
    Ok(text)
}

// The first pair of this name.
fn find_pair<'a>(pairs: &'a [Pair], name: &[u8]) -> Option<&'a Pair>
    ensures { option_copied result ≡ find (λ p. bytes_eq p.key name.now) pairs.now }
{
    pairs.iter().find(|pair| pair.key.as_bytes() == name)
}

// The value of that pair.
fn value_of<'a>(pairs: &'a [Pair], name: &[u8]) -> Option<&'a [u8]>
    ensures { option_map (λ v. v.now) result ≡ value_of name.now pairs.now }
{
    let pair = find_pair(pairs, name)?;
    Some(pair.value.as_bytes())
}

fn code_named(name: &[u8]) -> Option<u16>
    ensures { result ≡ code_named name.now }
{
    match name {
        b"301" => Some(301),
        b"302" => Some(302),
        b"303" => Some(303),
        b"307" => Some(307),
        b"308" => Some(308),
        _ => None,
    }
}

// The status that the pairs name.
fn code_of(pairs: &[Pair]) -> Option<u16>
    ensures { result ≡ code_by (value_of (codes "status") pairs.now) }
{
    match value_of(pairs, b"status") {
        Some(name) => code_named(name),
        None => Some(302),
    }
}

fn are_visible(text: &[u8]) -> bool
    ensures { result ≡ list_all is_ascii_graphic text.now }
{
    text.iter().all(|byte| byte.is_ascii_graphic())
}

fn is_url(text: &[u8]) -> bool
    ensures { result ≡ is_url text.now }
{
    !text.is_empty() && are_visible(text)
}

fn is_redirect_code(code: u16) -> bool
    ensures { result ≡ is_redirect_code code }
{
    code == 301 || code == 302 || code == 303 || code == 307 || code == 308
}

/// Whether a client may be sent to this URL with this status. It takes no memory.
pub fn is_redirect(code: u16, url: &[u8]) -> bool
    ensures { result ≡ (is_redirect_code code && is_url url.now) }
{
    is_redirect_code(code) && is_url(url)
}

// The status and the URL of a redirect.
#[tactic(auto, unfolding(crate::specs::Rewritings::redirect_of))]
fn redirect_of(pairs: &[Pair]) -> Option<(u16, &[u8])>
    ensures { option_map (λ p. (p.0, p.1.now)) result ≡ redirect_of pairs.now }
{
    let code = code_of(pairs)?;
    let url = value_of(pairs, b"url")?;
    if is_url(url) { Some((code, url)) } else { None }
}

fn plain_only(request: Option<Request>) -> Option<Request>
    ensures { result ≡ plain_only request }
{
    let request = request?;
    if request.scheme.as_bytes() == b"http".as_slice() {
        Some(request)
    } else {
        None
    }
}

// The request of these pairs in place of this one.
#[tactic(auto, unfolding(crate::specs::Rewritings::new_request))]
fn new_request(
    alloc: Global,
    request: &Request,
    pairs: &[Pair],
) -> Result<Option<Request>, WantOfMemory>
    ensures { IfOk result (λ r. r ≡ new_request request.now pairs.now) }
{
    if request.method.as_bytes() == b"CONNECT".as_slice() {
        return Ok(None);
    }
    let Some(target) = value_of(pairs, b"rewrite-url") else {
        return Ok(None);
    };
    let request = retarget(alloc, request, target)?;
    Ok(plain_only(request))
}

// What the pairs of an `OK` make of a request.
fn by_pairs(alloc: Global, request: &Request, pairs: &[Pair]) -> Result<Rewriting, WantOfMemory>
    ensures { IfOk result
        (λ r. r ≡ chosen (redirect_of pairs.now) (new_request request.now pairs.now)) }
{
    if let Some((status, url)) = redirect_of(pairs) {
        let url = Text::from_slice(alloc, url)?;
        return Ok(Rewriting::Redirect(status, url));
    }
    match new_request(alloc, request, pairs)? {
        Some(request) => Ok(Rewriting::New(request)),
        None => Ok(Rewriting::Same(None)),
    }
}

// By the word of the reply.
fn by_word(alloc: Global, reply: &Reply, request: &Request) -> Result<Rewriting, WantOfMemory>
    ensures { IfOk result (λ r. r ≡ rewriting_of reply.now request.now) }
{
    match reply.word {
        Word::Yes => by_pairs(alloc, request, reply.pairs.as_slice()),
        Word::No => Ok(Rewriting::Same(None)),
        Word::Broken => Ok(Rewriting::Same(Some(Cause::Bh))),
    }
}

/// What a reply makes of the request that was asked: a redirect, a new request, or nothing. The first pair of
/// a name counts, and a redirect is before a new request.
pub fn rewriting_of(
    alloc: Global,
    reply: &Reply,
    request: &Request,
) -> Result<Rewriting, WantOfMemory>
    ensures value { IfOk result (λ r. r ≡ rewriting_of reply.now request.now) }
    // A new request has the method, version and fields of the one that was asked, and the scheme http. A redirect has a
    // status of a redirect and a URL.
    ensures fits { IfOk result (λ r. MayBecome request.now r) }
{
    let rewriting = by_word(alloc, reply, request)?;
    Ok(rewriting)
}
