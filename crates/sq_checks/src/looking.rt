//! What is next in a list of lines.
ghost use Rattle.std.specs.Prelude.{◌≡◌, ℕ, ◌+◌, ◌<◌, ◌^◌, ◌∷◌, [], map, slice_get};
ghost use Rattle.sq_checks.specs.Groups.{lines_of_body, next_at, term_or_end, FitsNext};

use sq_rules::{Body, Rule, Term, Terms};

/// What is next: a term, or all terms of a line have matched, or no line has.
#[derive(Clone, Copy)]
pub enum Next {
    Term(Term),
    Held,
    Failed,
}

// What is next among the members of any-of, each of which is a line of its own.
fn next_member(terms: &[Term], line: usize, term: usize) -> Next
    ensures next { result ≡ next_at (map (λ t. t ∷ []) terms.now) line term }
    ensures fits { FitsNext result line term }
{
    match terms.get(line) {
        None => Next::Failed,
        Some(member) => {
            if term == 0 {
                Next::Term(*member)
            } else {
                Next::Held
            }
        }
    }
}

// What is next in a line.
fn next_term(terms: &[Term], term: usize) -> Next
    ensures next { result ≡ term_or_end (slice_get terms.now term) }
    ensures fits { (line : ℕ) → line + 1 < 2 ^ 64 → FitsNext result line term }
{
    match terms.get(term) {
        None => Next::Held,
        Some(next) => Next::Term(*next),
    }
}

// What is next in the lines of all-of.
fn next_of_lines(lines: &[Terms], line: usize, term: usize) -> Next
    ensures next { result ≡ next_at lines.now line term }
    ensures fits { FitsNext result line term }
{
    match lines.get(line) {
        None => Next::Failed,
        Some(terms) => next_term(terms.as_slice(), term),
    }
}

/// What is next in the rules.
pub fn next_of_rules(rules: &[Rule], line: usize, term: usize) -> Next
    ensures next { result ≡ next_at (map (λ r. r.terms) rules.now) line term }
    ensures fits { FitsNext result line term }
{
    match rules.get(line) {
        None => Next::Failed,
        Some(rule) => next_term(rule.terms.as_slice(), term),
    }
}

/// What is next in a group. Nothing is, where the acl is no group.
pub fn next_of_body(body: &Body, line: usize, term: usize) -> Next
    ensures next { result ≡ next_at (lines_of_body body.now) line term }
    ensures fits { FitsNext result line term }
{
    match body {
        Body::Leaf(_) => Next::Failed,
        Body::External {
            class: _,
            arguments: _,
        } => Next::Failed,
        Body::AnyOf(terms) => next_member(terms.as_slice(), line, term),
        Body::AllOf(lines) => next_of_lines(lines.as_slice(), line, term),
    }
}
