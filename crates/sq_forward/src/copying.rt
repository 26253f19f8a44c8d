//! Bodies that are copied as their bytes are granted.
ghost use Rattle.std.specs.Io.KnownBytes.{Keeps};
ghost use Rattle.std.specs.Prelude.{◌≡◌, ◌≤◌, ◌+◌, ℕ, [], length, max, IfSome, IfOk, IfErr, OnOk};
ghost use Rattle.sq_outside.specs.Input.{ReadHasCause};
ghost use Rattle.sq_forward.specs.Copying.{Copies, CopiesPiece, PieceFed, PieceUnfed, CopyHasCause, dry_after_copy, dry_after_piece};
ghost use Rattle.sq_forward.specs.Halves.{to_come, large_read_limit, Filled};
ghost use Rattle.sq_forward.specs.Meters.{metered};

use crate::half::Half;
use crate::meter::Meter;
use crate::paying::{Unpaid, pay};
use sq_base::{BodyPlan, Text};
use sq_message::{BodyCursor, Fed, FeedFault};
use sq_outside::{Expected, Sink, Source, Unread};
use std::alloc::Global;
use std::mem;
use std::sync::Wait;

/// How the copying of a body ended.
#[derive(Clone, Copy)]
pub(crate) enum Copied {
    /// The body is complete, and all of it was written.
    Whole,
    /// The input ended in the body, or at its end where it goes up to the close.
    Cut,
    /// The bytes are refused.
    Bad,
    /// The source failed.
    NoSource,
    /// The sink failed.
    NoSink,
    /// For too long each grant found a bucket empty.
    Starved,
    /// There was no memory.
    WantOfMemory,
}

/// Copies a body of this plan from a source to a sink, each byte granted first. What is read ahead is at
/// most a read, or what it was before: of 16,384 bytes on a seat, and of 65,536 without one, which goes out in one piece.
pub(crate) fn copy_body<R: Wait, S: Source, O: Sink, M: Meter>(
    rt: &R,
    alloc: Global,
    from: &mut Half<S>,
    to: &mut O,
    meter: &mut M,
    plan: BodyPlan,
    chunked_out: bool,
) -> Copied
    requires dry { M.dry meter.old ≡ 0 }
    ensures copies { Copies plan chunked_out (to_come S.left from.old) (to_come S.left from.new)
        (metered (M.seated meter.old) (O.contents to.old) (O.contents to.new) (M.granted meter.old)
        (M.granted meter.new)) result }
    ensures cause { CopyHasCause (S.faults from.old.source) (S.faults from.new.source)
        (O.faults to.old) (O.faults to.new) result }
    ensures dry { M.dry meter.new ≡ dry_after_copy result }
    ensures seated { M.seated meter.new ≡ M.seated meter.old }
    ensures besides { M.besides meter.new ≡ M.besides meter.old }
    ensures source_later { S.faults from.old.source ≤ S.faults from.new.source }
    ensures sink_later { O.faults to.old ≤ O.faults to.new }
    ensures origin { S.origin from.new.source ≡ S.origin from.old.source }
    ensures few { length from.new.ahead ≤ max (length from.old.ahead) large_read_limit }
{
    let mut cursor = BodyCursor::new(alloc, plan, chunked_out);
    let mut framed = Text::new(alloc);
    let mut line = 0;
    for _ in rt.forever() {
        match copy_piece(alloc, &mut cursor, &mut line, from, to, meter, &mut framed) {
            None => {}
            Some(copied) => return copied,
        }
    }
    unreachable!()
}

// What is expected next, where that is another than before: data, or a line of which `len` bytes have come. `line` remembers how many of
// one had come so many bytes ago.
fn next_expected(line: &mut usize, len: usize, more: usize) -> Option<Expected> {
    match mem::replace(line, len) {
        0 if len == 0 => None,
        _ if len == 0 => Some(Expected::Data),
        before if before > 0 && before.saturating_add(more) == len => None,
        _ => Some(Expected::Line),
    }
}

// Writes what the bytes ahead give, and reads the next ones. None: the body goes on.
fn copy_piece<S: Source, O: Sink, M: Meter>(
    alloc: Global,
    cursor: &mut BodyCursor,
    line: &mut usize,
    from: &mut Half<S>,
    to: &mut O,
    meter: &mut M,
    framed: &mut Text,
) -> Option<Copied>
    requires dry { M.dry meter.old ≡ 0 }
    ensures copies { CopiesPiece cursor.old.chunked cursor.old.place cursor.new.place
        (to_come S.left from.old) (to_come S.left from.new)
        (metered (M.seated meter.old) (O.contents to.old) (O.contents to.new) (M.granted meter.old)
        (M.granted meter.new)) result }
    ensures chunked { cursor.new.chunked ≡ cursor.old.chunked }
    ensures cause { IfSome result
        (CopyHasCause (S.faults from.old.source) (S.faults from.new.source) (O.faults to.old)
        (O.faults to.new)) }
    ensures dry { M.dry meter.new ≡ dry_after_piece result }
    ensures seated { M.seated meter.new ≡ M.seated meter.old }
    ensures besides { M.besides meter.new ≡ M.besides meter.old }
    ensures source_later { S.faults from.old.source ≤ S.faults from.new.source }
    ensures sink_later { O.faults to.old ≤ O.faults to.new }
    ensures origin { S.origin from.new.source ≡ S.origin from.old.source }
    ensures few { length from.new.ahead ≤ max (length from.old.ahead) large_read_limit }
{
    let next = match write_ahead(alloc, cursor, from.ahead.as_bytes(), to, meter, framed) {
        Ok(fed) => {
            from.drop_front(fed.used);
            if fed.done {
                return Some(Copied::Whole);
            }
            next_expected(line, cursor.line_len(), fed.used)
        }
        Err(copied) => return Some(copied),
    };
    match fill(from, next, meter.is_seated()) {
        Ok(true) => None,
        Ok(false) => Some(Copied::Cut),
        Err(Unread::Failed) => Some(Copied::NoSource),
        Err(Unread::WantOfMemory) => Some(Copied::WantOfMemory),
    }
}

// Reads the next bytes: fewer at a time on a seat, where they wait for grants. The source hears what they are.
fn fill<S: Source>(from: &mut Half<S>, next: Option<Expected>, seated: bool) -> Result<bool, Unread>
    ensures kept { Keeps (to_come S.left from.old) (to_come S.left from.new) }
    ensures filled { IfOk result (Filled from.old.ahead from.new.ahead (S.left from.new.source)) }
    ensures few { length from.new.ahead ≤ length from.old.ahead + large_read_limit }
    ensures origin { S.origin from.new.source ≡ S.origin from.old.source }
    ensures cause { ReadHasCause (S.faults from.old.source) (S.faults from.new.source) result }
{
    if let Some(next) = next {
        from.source.expect(next);
    }
    if seated {
        from.fill()
    } else {
        from.fill_large()
    }
}

// Writes what these bytes give: data from where it stands, and what has lines of chunks in it by way of `framed`.
fn write_ahead<O: Sink, M: Meter>(
    alloc: Global,
    cursor: &mut BodyCursor,
    ahead: &[u8],
    to: &mut O,
    meter: &mut M,
    framed: &mut Text,
) -> Result<Fed, Copied>
    requires dry { M.dry meter.old ≡ 0 }
    ensures fed { IfOk result
        (λ f. PieceFed cursor.old.chunked cursor.old.place cursor.new.place ahead.now f.used f.done
        (metered (M.seated meter.old) (O.contents to.old) (O.contents to.new) (M.granted meter.old)
        (M.granted meter.new))) }
    ensures unfed { IfErr result
        (PieceUnfed cursor.old.chunked cursor.old.place ahead.now
        (metered (M.seated meter.old) (O.contents to.old) (O.contents to.new) (M.granted meter.old)
        (M.granted meter.new))) }
    ensures cause { IfErr result
        (λ copied. (source source_now : ℕ) → CopyHasCause source source_now (O.faults to.old)
        (O.faults to.new) copied) }
    ensures chunked { cursor.new.chunked ≡ cursor.old.chunked }
    ensures dry_ok { OnOk result (M.dry meter.new ≡ 0) }
    ensures dry_err { IfErr result (λ copied. M.dry meter.new ≡ dry_after_copy copied) }
    ensures seated { M.seated meter.new ≡ M.seated meter.old }
    ensures besides { M.besides meter.new ≡ M.besides meter.old }
    ensures later { O.faults to.old ≤ O.faults to.new }
{
    match cursor.take_data(ahead) {
        Some(fed) => {
            let (front, _) = ahead.split_at(fed.used);
            match pay(meter, to, front) {
                Ok(()) => Ok(fed),
                Err(Unpaid::Failed) => Err(Copied::NoSink),
                Err(Unpaid::Starved) => Err(Copied::Starved),
            }
        }
        None => write_framed(alloc, cursor, ahead, to, meter, framed),
    }
}

// Writes what these bytes give by way of `framed`, whose room is used again.
fn write_framed<O: Sink, M: Meter>(
    alloc: Global,
    cursor: &mut BodyCursor,
    ahead: &[u8],
    to: &mut O,
    meter: &mut M,
    framed: &mut Text,
) -> Result<Fed, Copied>
    requires dry { M.dry meter.old ≡ 0 }
    ensures fed { IfOk result
        (λ f. PieceFed cursor.old.chunked cursor.old.place cursor.new.place ahead.now f.used f.done
        (metered (M.seated meter.old) (O.contents to.old) (O.contents to.new) (M.granted meter.old)
        (M.granted meter.new))) }
    ensures unfed { IfErr result
        (PieceUnfed cursor.old.chunked cursor.old.place ahead.now
        (metered (M.seated meter.old) (O.contents to.old) (O.contents to.new) (M.granted meter.old)
        (M.granted meter.new))) }
    ensures cause { IfErr result
        (λ copied. (source source_now : ℕ) → CopyHasCause source source_now (O.faults to.old)
        (O.faults to.new) copied) }
    ensures chunked { cursor.new.chunked ≡ cursor.old.chunked }
    ensures dry_ok { OnOk result (M.dry meter.new ≡ 0) }
    ensures dry_err { IfErr result (λ copied. M.dry meter.new ≡ dry_after_copy copied) }
    ensures seated { M.seated meter.new ≡ M.seated meter.old }
    ensures besides { M.besides meter.new ≡ M.besides meter.old }
    ensures later { O.faults to.old ≤ O.faults to.new }
{
    clear(alloc, framed);
    let fed = cursor.feed(alloc, ahead, framed);
    match pay(meter, to, framed.as_bytes()) {
        Ok(()) => {}
        Err(Unpaid::Failed) => return Err(Copied::NoSink),
        Err(Unpaid::Starved) => return Err(Copied::Starved),
    }
    match fed {
        Ok(fed) => Ok(fed),
        Err(FeedFault::BadChunk) => Err(Copied::Bad),
        Err(FeedFault::WantOfMemory) => Err(Copied::WantOfMemory),
    }
}

// Takes all bytes out of a text, and keeps its room.
fn clear(alloc: Global, text: &mut Text)
    ensures { text.new ≡ [] }
{
    let mut bytes = mem::replace(text, Text::new(alloc)).into_vec();
    bytes.clear();
    *text = Text::from_vec(bytes);
}
