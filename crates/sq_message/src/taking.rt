//! The bytes at the front of what is left of the input.
ghost use Rattle.std.specs.Prelude.{◌≡◌, ◌++◌, ◌<◌, [], min, take, length, true, false, IfOk, OnOk, OnErr};
ghost use Rattle.sq_message.specs.Bodies.{framed, sized, mark_step, trailed, is_whole_body, is_refused};
ghost use Rattle.sq_message.specs.Feeding.{is_sound, is_sound_line, TakesFront};
ghost use Rattle.sq_message.specs.declared.body_state.BodyState.TheVariants.{Line};

use crate::body_state::{BodyState, Mark};
use crate::chunk_line::{LineRead, read_line};
use crate::size::push_size;
use sq_base::{Text, WantOfMemory};
use std::alloc::Global;

/// The most bytes of a chunk line, with its CRLF.
const LINE_LIMIT: usize = 4096;

/// The most bytes of trailers, with the empty line behind them.
const TRAILER_LIMIT: u32 = 65536;

/// The largest size of a chunk: 2^63 - 1.
const CHUNK_LIMIT: u64 = 9223372036854775807;

// Copies bytes to the end, at most so many.
fn copy_some(left: u64, rest: &[u8], out: &mut Text) -> Result<usize, WantOfMemory>
    ensures ok { IfOk result
        (λ n. (n ≡ min left (length rest.now)) × (out.new ≡ out.old ++ take n rest.now)) }
    ensures err { OnErr result (out.new ≡ out.old) }
{
    let count = (rest.len() as u64).min(left) as usize;
    out.append(&rest[..count])?;
    Ok(count)
}

// Puts the text at the end where the output is chunked.
fn push_framed(chunked: bool, text: &[u8], out: &mut Text) -> Result<(), WantOfMemory>
    ensures ok { OnOk result (out.new ≡ out.old ++ framed chunked text.now) }
    ensures err { OnErr result (out.new ≡ out.old) }
{
    if chunked { out.append(text) } else { Ok(()) }
}

// Behind a whole chunk line.
fn begin_chunk(chunked: bool, size: u64, out: &mut Text) -> Result<BodyState, WantOfMemory>
    ensures ok { IfOk result
        (λ p. (p ≡ (sized chunked size).place) × (out.new ≡ out.old ++ (sized chunked size).out)
        × (is_sound p ≡ true)) }
    ensures err { OnErr result (out.new ≡ out.old) }
{
    if size > CHUNK_LIMIT {
        return Ok(BodyState::Refused);
    }
    if size == 0 {
        return Ok(BodyState::Trailer(0, Mark::Begin));
    }
    if chunked {
        push_size(size, out)?;
    }
    Ok(BodyState::Data(size))
}

// At the beginning of a chunk line.
fn take_fresh_line(
    alloc: Global,
    chunked: bool,
    rest: &[u8],
    out: &mut Text,
) -> Result<(BodyState, usize), WantOfMemory>
    requires some { 0 < length rest.now }
    ensures ok { IfOk result (λ r. TakesFront chunked (Line []) rest.now r.0 r.1 out.old out.new) }
    ensures err { OnErr result (out.new ≡ out.old) }
{
    let count = rest.len().min(LINE_LIMIT);
    let (piece, _) = rest.split_at(count);
    match read_line(piece) {
        LineRead::Whole(len, size) => {
            let place = begin_chunk(chunked, size, out)?;
            Ok((place, len))
        }
        LineRead::NotYet => {
            if count < LINE_LIMIT {
                let text = Text::from_slice(alloc, piece)?;
                Ok((BodyState::Line(text), count))
            } else {
                Ok((BodyState::Refused, count))
            }
        }
        LineRead::Never => Ok((BodyState::Refused, count)),
    }
}

// In a chunk line: the bytes of it so far, and those that follow. Bytes are copied only of a line that is cut.
fn take_line(
    alloc: Global,
    chunked: bool,
    text: Text,
    rest: &[u8],
    out: &mut Text,
) -> Result<(BodyState, usize), WantOfMemory>
    requires sound { is_sound_line text ≡ true }
    requires some { 0 < length rest.now }
    ensures ok { IfOk result
        (λ r. TakesFront chunked (Line text) rest.now r.0 r.1 out.old out.new) }
    ensures err { OnErr result (out.new ≡ out.old) }
{
    if text.is_empty() {
        return take_fresh_line(alloc, chunked, rest, out);
    }
    let mut text = text;
    let had = text.len();
    let count = rest.len().min(LINE_LIMIT - had);
    let (piece, _) = rest.split_at(count);
    text.append(piece)?;
    match read_line(text.as_bytes()) {
        LineRead::Whole(len, size) => {
            let place = begin_chunk(chunked, size, out)?;
            Ok((place, len - had))
        }
        LineRead::NotYet => {
            if text.len() < LINE_LIMIT {
                Ok((BodyState::Line(text), count))
            } else {
                Ok((BodyState::Refused, count))
            }
        }
        LineRead::Never => Ok((BodyState::Refused, count)),
    }
}

fn next_mark(mark: Mark, byte: u8) -> Mark
    ensures { result ≡ mark_step mark byte }
{
    match (mark, byte) {
        (Mark::Begin, b'\r') => Mark::BeginCr,
        (Mark::InsideCr, b'\n') => Mark::Begin,
        (_, b'\r') => Mark::InsideCr,
        _ => Mark::Inside,
    }
}

// One byte of the trailers.
fn take_trailer(
    chunked: bool,
    count: u32,
    mark: Mark,
    byte: u8,
    out: &mut Text,
) -> Result<BodyState, WantOfMemory>
    ensures ok { IfOk result
        (λ p. (p ≡ (trailed chunked count mark byte).place)
        × (out.new ≡ out.old ++ (trailed chunked count mark byte).out) × (is_sound p ≡ true)) }
    ensures err { OnErr result (out.new ≡ out.old) }
{
    if mark == Mark::BeginCr && byte == b'\n' {
        push_framed(chunked, b"0\r\n\r\n", out)?;
        return Ok(BodyState::Done);
    }
    if count < TRAILER_LIMIT - 1 {
        Ok(BodyState::Trailer(count + 1, next_mark(mark, byte)))
    } else {
        Ok(BodyState::Refused)
    }
}

/// Takes some bytes at the front, at least one. A call that has no memory leaves the output as it was.
pub(crate) fn advance(
    alloc: Global,
    chunked: bool,
    place: BodyState,
    rest: &[u8],
    out: &mut Text,
) -> Result<(BodyState, usize), WantOfMemory>
    requires sound { is_sound place ≡ true }
    requires some { 0 < length rest.now }
    requires going { is_whole_body place ≡ false }
    requires fine { is_refused place ≡ false }
    ensures ok { IfOk result (λ r. TakesFront chunked place rest.now r.0 r.1 out.old out.new) }
    ensures err { OnErr result (out.new ≡ out.old) }
{
    match place {
        BodyState::Plain(left) => {
            let count = copy_some(left, rest, out)?;
            Ok((BodyState::Plain(left - count as u64), count))
        }
        BodyState::Open => {
            let count = copy_some(u64::MAX, rest, out)?;
            Ok((BodyState::Open, count))
        }
        BodyState::Line(text) => take_line(alloc, chunked, text, rest, out),
        BodyState::Data(left) => {
            if left > 0 {
                let count = copy_some(left, rest, out)?;
                return Ok((BodyState::Data(left - count as u64), count));
            }
            if rest[0] == b'\r' {
                Ok((BodyState::Feed, 1))
            } else {
                Ok((BodyState::Refused, 1))
            }
        }
        BodyState::Feed => {
            if rest[0] != b'\n' {
                return Ok((BodyState::Refused, 1));
            }
            push_framed(chunked, b"\r\n", out)?;
            Ok((BodyState::Line(Text::new(alloc)), 1))
        }
        BodyState::Trailer(count, mark) => {
            let place = take_trailer(chunked, count, mark, rest[0], out)?;
            Ok((place, 1))
        }
        BodyState::Done => Ok((BodyState::Done, 0)),
        BodyState::Refused => Ok((BodyState::Refused, 0)),
    }
}
