//! Spans of numbers, sorted and apart.
ghost use Rattle.std.specs.Prelude.{◌≡◌, ◌∷◌, ℕ, ◌<◌, ◌^◌, IfOk};
ghost use Rattle.std.specs.List.Sorted.{IsNonDecreasingBy};
ghost use Rattle.sq_base.specs.Ranges.{in_range};
ghost use Rattle.sq_urlmatch.specs.Members.{in_some_range};
ghost use Rattle.sq_urlmatch.specs.Spans.{in_part, in_spans, AreApart};

use sq_base::{Range, WantOfMemory};
use std::alloc::Global;
use std::marker::Model;

/// Numbers from the first to the last, both included; there are none where the first is above the last.
#[derive(Clone, Copy)]
pub struct Span {
    pub first: u128,
    pub last: u128,
}

/// Spans that are sorted and apart. A contract sees their list.
#[derive(Drop)]
pub struct Spans {
    spans: Vec<Span>,
}

impl Model for Spans {
    ghost use Rattle.std.specs.Prelude.{List};
    ghost use Rattle.sq_urlmatch.specs.Spans.{AreApart};
    ghost use Rattle.sq_urlmatch.specs.declared.spans.Span.{Span};

    ghost Value = { List Span };

    ghost view = { λ s. s.spans.items };

    ghost invariant = { λ s. AreApart s.spans.items };
}

impl Spans {
    /// The addresses of one kind that the ranges hold, by their numbers.
    pub fn of(alloc: Global, ranges: &[Range], v6: bool) -> Result<Spans, WantOfMemory>
        ensures { IfOk result
            (λ s. (n : ℕ) → n < 2 ^ 128
            → in_spans s n ≡ in_some_range ranges.now (record { v6 = v6; number = n })) }
    {
        let spans = parts(alloc, ranges, v6)?;
        Spans::make(alloc, spans)
    }

    /// The numbers of these spans, which may come in any order and share numbers.
    pub fn make(alloc: Global, spans: Vec<Span>) -> Result<Spans, WantOfMemory>
        ensures { IfOk result (λ s. (n : ℕ) → in_spans s n ≡ in_spans spans.items n) }
    {
        let spans = sorted(spans)?;
        let spans = apart(alloc, spans.as_slice())?;
        Ok(Spans { spans })
    }

    /// Whether some span holds the number: the last one that begins up to it decides. It takes no memory.
    pub fn has(&self, number: u128) -> bool
        ensures { result ≡ in_spans self.now number }
    {
        let spans = self.spans.as_slice();
        let begun = spans.partition_point(|span| span.first <= number);
        begun > 0 && number <= spans[begun - 1].last
    }
}

// The addresses of one kind that a range holds, if it has some.
fn part_of(range: &Range, v6: bool) -> Option<Span>
    ensures { (n : ℕ) → n < 2 ^ 128
        → in_part result n ≡ in_range range.now (record { v6 = v6; number = n }) }
{
    let first = match (range.first.v6, v6) {
        (true, false) => return None,
        (false, true) => 0,
        _ => range.first.number,
    };
    let last = match (range.last.v6, v6) {
        (false, true) => return None,
        (true, false) => u128::MAX,
        _ => range.last.number,
    };
    Some(Span { first, last })
}

// The same of each range.
fn parts(alloc: Global, ranges: &[Range], v6: bool) -> Result<Vec<Span>, WantOfMemory>
    ensures { IfOk result
        (λ s. (n : ℕ) → n < 2 ^ 128
        → in_spans s.items n ≡ in_some_range ranges.now (record { v6 = v6; number = n })) }
{
    let mut spans = Vec::new(alloc);
    for range in ranges {
        if let Some(span) = part_of(range, v6) {
            spans.push(span)?;
        }
    }
    Ok(spans)
}

// The spans by their first numbers.
fn sorted(mut spans: Vec<Span>) -> Result<Vec<Span>, WantOfMemory>
    ensures same { IfOk result (λ s. (n : ℕ) → in_spans s.items n ≡ in_spans spans.items n) }
    ensures rising { IfOk result (λ s. IsNonDecreasingBy (λ x. x.first) s.items) }
{
    spans.sort_by_key(|span| span.first)?;
    Ok(spans)
}

// Sorted spans, of which those that share a number are one.
fn apart(alloc: Global, spans: &[Span]) -> Result<Vec<Span>, WantOfMemory>
    requires { IsNonDecreasingBy (λ x. x.first) spans.now }
    ensures same { IfOk result (λ s. (n : ℕ) → in_spans s.items n ≡ in_spans spans.now n) }
    ensures apart { IfOk result (λ s. AreApart s.items) }
{
    match spans {
        [] => Ok(Vec::new(alloc)),
        [first, rest @ ..] => apart_from(alloc, *first, rest),
    }
}

// The same of a first span and more.
fn apart_from(alloc: Global, first: Span, rest: &[Span]) -> Result<Vec<Span>, WantOfMemory>
    requires { IsNonDecreasingBy (λ x. x.first) (first ∷ rest.now) }
    ensures same { IfOk result (λ s. (n : ℕ) → in_spans s.items n ≡ in_spans (first ∷ rest.now) n) }
    ensures apart { IfOk result (λ s. AreApart s.items) }
{
    let mut spans = Vec::new(alloc);
    let mut open = first;
    for span in rest {
        if span.first <= open.last {
            open.last = open.last.max(span.last);
        } else {
            spans.push(open)?;
            open = *span;
        }
    }
    spans.push(open)?;
    Ok(spans)
}
