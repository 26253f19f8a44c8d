//! `Ahead`: bytes that were read ahead of their use.
ghost use Rattle.std.specs.Prelude.{◌≡◌, ◌+◌, ◌≤◌, ◌<◌, [], length, take, drop, false, true, is_some, IfOk, IfSome, IfNone, OnOk, OnErr};
ghost use Rattle.std.specs.Io.KnownBytes.{Consumes, IsAtEnd, Keeps, prepend_known};
ghost use Rattle.sq_outside.specs.Causes.{HasCause};
ghost use Rattle.sq_outside.specs.Input.{ReadHasCause};
ghost use Rattle.sq_outside.specs.Output.{IsPrefix};
ghost use Rattle.sq_forward.specs.Buffers.{large_read_limit, Filled};

use sq_base::WantOfMemory;
use sq_outside::{Failed, Source, Unread};
use std::alloc::Global;
use std::marker::Model;

/// At most this many bytes of a head are read at a time, and this many on a seat.
pub(crate) const READ: usize = 16_384;

/// At most this many bytes of a body or of a way of a tunnel are read at a time where no seat is held.
pub(crate) const LARGE_READ: usize = 65_536;

/// At most this many bytes are read where nothing says that more will come at once.
const SMALL_READ: usize = 1_024;

/// Bytes that were read ahead of their use, with room behind them for the next read. They stand where they were
/// read, and are moved only where 16,384 would stand before them. A contract sees their list. Their buffer has at most
/// 81,919 bytes more than they are, besides what the vector has in reserve, and about 1,024 while nothing comes.
#[derive(Drop)]
pub struct Ahead {
    // They stand from `start` to `end`.
    bytes: Vec<u8>,
    start: usize,
    end: usize,
    // Whether more will come soon, so that the next read has large room, for some seconds.
    busy: bool,
}

impl Model for Ahead {
    ghost use Rattle.std.specs.Prelude.{List, ℕ, ◌-◌, take, drop};
    ghost use Rattle.sq_forward.specs.Buffers.{IsBuffer};

    ghost Value = { List ℕ };

    ghost view = { λ a. take (a.end - a.start) (drop a.start a.bytes.items) };

    ghost invariant = { λ a. IsBuffer a.bytes.items a.start a.end };
}

// Room for a read of `most` bytes, or of half as many, behind the first `end`.
fn make_room(bytes: &mut Vec<u8>, end: usize, most: usize) -> Result<(), WantOfMemory>
    requires some { 2 ≤ most }
    requires limit { most ≤ large_read_limit }
    requires within { end ≤ length bytes.old.items }
    requires few { length bytes.old.items ≤ end + large_read_limit }
    ensures room { OnOk result (end < length bytes.new.items) }
    ensures few { length bytes.new.items ≤ end + large_read_limit }
    ensures within { end ≤ length bytes.new.items }
    ensures front { take end bytes.new.items ≡ take end bytes.old.items }
{
    if bytes.len() - end < most / 2 {
        bytes.resize(end + most, 0)?;
    }
    Ok(())
}

// Reads some bytes, `limit` at most, to the place behind the first `end`. None: it was to be soon, and nothing came.
fn read_at<S: Source>(
    source: &mut S,
    bytes: &mut Vec<u8>,
    end: usize,
    limit: usize,
    soon: bool,
) -> Result<Option<usize>, Failed>
    requires some { 0 < limit }
    requires room { end < length bytes.old.items }
    ensures len { length bytes.new.items ≡ length bytes.old.items }
    ensures front { take end bytes.new.items ≡ take end bytes.old.items }
    ensures within { IfOk result (λ came. IfSome came
        (λ n. (end + n ≤ length bytes.new.items) × (n ≤ limit))) }
    ensures taken { IfOk result (λ came. IfSome came
        (λ n. Consumes (S.left source.old) (S.left source.new)
        (take n (drop end bytes.new.items)))) }
    ensures over { IfOk result (λ came. IfSome came (λ n. n ≡ 0 → IsAtEnd (S.left source.new))) }
    ensures none { IfOk result
        (λ came. IfNone came (Keeps (S.left source.old) (S.left source.new))) }
    ensures some { soon ≡ false → IfOk result (λ came. is_some came ≡ true) }
    ensures err { OnErr result (Keeps (S.left source.old) (S.left source.new)) }
    ensures origin { S.origin source.new ≡ S.origin source.old }
    ensures cause { HasCause (S.faults source.old) (S.faults source.new) result }
{
    let most = (bytes.len() - end).min(limit);
    let room = &mut bytes[end..end + most];
    if soon {
        return source.read_soon(room);
    }
    match source.read(room) {
        Ok(count) => Ok(Some(count)),
        Err(Failed) => Err(Failed),
    }
}

impl Ahead {
    /// No bytes. It takes no memory.
    pub fn new(alloc: Global) -> Ahead
        ensures { result ≡ [] }
    {
        Ahead {
            bytes: Vec::new(alloc),
            start: 0,
            end: 0,
            busy: false,
        }
    }

    /// Hears whether more will come soon. Where it will not, the room for it is given back. It takes no memory.
    pub(crate) fn await_more(&mut self, soon: bool)
        ensures { self.new ≡ self.old }
    {
        self.busy = soon;
        if !soon && self.bytes.capacity() > self.end.saturating_add(SMALL_READ) {
            self.bytes.truncate(self.end);
            self.bytes.shrink_to_fit();
        }
    }

    /// The bytes, lent.
    pub fn as_bytes(&self) -> &[u8]
        ensures value { result.now ≡ self.now }
    {
        &self.bytes.as_slice()[self.start..self.end]
    }

    /// How many bytes there are.
    pub fn len(&self) -> usize
        ensures { result ≡ length self.now }
    {
        self.end - self.start
    }

    // Reads some bytes of a source, `limit` at most, behind these. None: it was to be soon, and nothing came.
    fn read_once<S: Source>(
        &mut self,
        source: &mut S,
        limit: usize,
        soon: bool,
    ) -> Result<Option<bool>, Unread>
        requires some { 2 ≤ limit }
        requires limit { limit ≤ large_read_limit }
        ensures kept { Keeps (prepend_known self.old (S.left source.old))
            (prepend_known self.new (S.left source.new)) }
        ensures filled { IfOk result (λ came. IfSome came
            (Filled self.old self.new (S.left source.new))) }
        ensures none { IfOk result (λ came. IfNone came (self.new ≡ self.old)) }
        ensures some { soon ≡ false → IfOk result (λ came. is_some came ≡ true) }
        ensures front { IsPrefix self.old self.new }
        ensures few { length self.new ≤ length self.old + limit }
        ensures origin { S.origin source.new ≡ S.origin source.old }
        ensures cause { ReadHasCause (S.faults source.old) (S.faults source.new) result }
    {
        match make_room(&mut self.bytes, self.end, limit) {
            Ok(()) => {}
            Err(WantOfMemory) => return Err(Unread::WantOfMemory),
        }
        match read_at(source, &mut self.bytes, self.end, limit, soon) {
            Ok(Some(0)) => Ok(Some(false)),
            Ok(Some(count)) => {
                self.end += count;
                self.busy = soon || count >= SMALL_READ;
                Ok(Some(true))
            }
            Ok(None) => Ok(None),
            Err(Failed) => Err(Unread::Failed),
        }
    }

    /// Reads some bytes of a source, `limit` at most, behind these. The answer is whether there were any. None is read
    /// where there is no memory for it. Where more will come soon it is read into large room; where nothing comes for some
    /// seconds, and else, into small room.
    pub(crate) fn read<S: Source>(&mut self, source: &mut S, limit: usize) -> Result<bool, Unread>
        requires some { 2 ≤ limit }
        requires limit { limit ≤ large_read_limit }
        ensures kept { Keeps (prepend_known self.old (S.left source.old))
            (prepend_known self.new (S.left source.new)) }
        ensures filled { IfOk result (Filled self.old self.new (S.left source.new)) }
        ensures front { IsPrefix self.old self.new }
        ensures few { length self.new ≤ length self.old + limit }
        ensures origin { S.origin source.new ≡ S.origin source.old }
        ensures cause { ReadHasCause (S.faults source.old) (S.faults source.new) result }
    {
        if self.busy {
            match self.read_once(source, limit, true) {
                Ok(Some(any)) => return Ok(any),
                Ok(None) => self.await_more(false),
                Err(unread) => return Err(unread),
            }
        }
        match self.read_once(source, limit.min(SMALL_READ), false) {
            Ok(Some(any)) => Ok(any),
            Ok(None) => unreachable!(),
            Err(unread) => Err(unread),
        }
    }

    /// Drops the first n of the bytes. It takes no memory.
    pub(crate) fn drop_front(&mut self, n: usize)
        requires { n ≤ length self.old }
        ensures { self.new ≡ drop n self.old }
    {
        self.start += n;
        if self.start == self.end {
            // Mostly all of them go, and none is moved.
            self.bytes.truncate(LARGE_READ);
            self.start = 0;
            self.end = 0;
        } else if self.start >= READ {
            self.bytes.drain(..self.start);
            self.end -= self.start;
            self.start = 0;
        }
    }
}
