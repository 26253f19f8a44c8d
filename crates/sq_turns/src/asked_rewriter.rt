//! A question to the rewriter, to its end.
ghost use Rattle.std.specs.Prelude.{◌≡◌, ◌≤◌};
ghost use Rattle.std.specs.Bool.{Decides};
ghost use Rattle.sq_base.specs.Requests.{HttpRequest};
ghost use Rattle.sq_turns.specs.Fronts.{Rewrites};
ghost use Rattle.sq_rewrite.specs.Rewritings.{IsInPlaceOf, MayBecome};
ghost use Rattle.sq_turns.specs.Judging.{RewritesFor, TakesAtLast, rewritten_of, unasked_of};
ghost use Rattle.sq_turns.specs.Tellings.{Tells};

use crate::front::Rewritten;
use crate::hub::Hub;
use crate::same::{same_fields, same_text};
use sq_base::{QuestionNo, Request};
use sq_checks::Record;
use sq_rewrite::{RewriteFault, Rewriting, is_redirect};
use std::alloc::Global;
use std::sync::Wait;

/// Puts the question about the request of a record to the rewriter, and waits until it has ended.
#[inline(never)]
pub(crate) fn rewrite<R: Wait, H: Hub>(
    rt: &R,
    alloc: Global,
    hub: &mut H,
    judged: &Record,
) -> Rewritten
    ensures told { Tells (RewritesFor judged.now result) (H.told hub.old) (H.told hub.new) }
    ensures rewrites { Rewrites judged.now.sight.request result }
    ensures asked { H.asked hub.new ≡ H.asked hub.old }
    ensures refused_later { H.refused hub.old ≤ H.refused hub.new }
    ensures granted { H.granted hub.new ≡ H.granted hub.old }
{
    if !hub.rewrites() {
        return Rewritten::Same;
    }
    let question = match hub.put_rewrite(alloc, judged) {
        Ok(question) => question,
        Err(fault) => return unasked(fault),
    };
    match take(rt, hub, question) {
        Ok(rewriting) => checked(rewriting, &judged.sight().request),
        Err(fault) => unasked(fault),
    }
}

// Waits until a question has ended, and takes what it came to.
fn take<R: Wait, H: Hub>(
    rt: &R,
    hub: &mut H,
    question: QuestionNo,
) -> Result<Rewriting, RewriteFault>
    ensures told { Tells (TakesAtLast question result) (H.told hub.old) (H.told hub.new) }
    ensures asked { H.asked hub.new ≡ H.asked hub.old }
    ensures refused_later { H.refused hub.old ≤ H.refused hub.new }
    ensures granted { H.granted hub.new ≡ H.granted hub.old }
{
    for _ in rt.forever() {
        match hub.take_rewrite(question) {
            Ok(Some(rewriting)) => return Ok(rewriting),
            Ok(None) => hub.wait(),
            Err(fault) => return Err(fault),
        }
    }
    unreachable!()
}

// What becomes of a request about which the rewriter has no answer.
fn unasked(fault: RewriteFault) -> Rewritten
    ensures said { result ≡ unasked_of fault }
    ensures rewrites { (r : HttpRequest) → Rewrites r result }
{
    match fault {
        RewriteFault::WantOfMemory => Rewritten::WantOfMemory,
        _ => Rewritten::Same,
    }
}

// What was taken of the question about a request, where that may become of it.
fn checked(rewriting: Rewriting, request: &Request) -> Rewritten
    ensures same { MayBecome request.now rewriting → result ≡ rewritten_of rewriting }
    ensures rewrites { Rewrites request.now result }
{
    match rewriting {
        Rewriting::Same(_) => Rewritten::Same,
        Rewriting::New(new) => {
            if is_in_place(&new, request) {
                Rewritten::New(new)
            } else {
                Rewritten::Same
            }
        }
        Rewriting::Redirect(status, url) => {
            if is_redirect(status, url.as_bytes()) {
                Rewritten::Redirect(status, url)
            } else {
                Rewritten::Same
            }
        }
    }
}

// Whether a request has the method, version and fields of another, and the scheme http.
fn is_in_place(new: &Request, request: &Request) -> bool
    ensures { Decides result (IsInPlaceOf request.now new.now) }
{
    if !same_text(&new.method, &request.method) {
        return false;
    }
    if new.minor != request.minor {
        return false;
    }
    if !same_fields(&new.fields, &request.fields) {
        return false;
    }
    new.scheme.as_bytes() == b"http".as_slice()
}
