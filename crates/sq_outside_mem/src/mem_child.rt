//! `MemChildOut`: the half of a process in memory that is read.
ghost use Rattle.std.specs.Prelude.{◌≡◌, Option, None, false, true, OnErr, is_err};
ghost use Rattle.std.specs.Io.{ReadsAtMost};
ghost use Rattle.std.specs.Io.KnownBytes.{ReadConsumes};
ghost use Rattle.sq_outside.specs.Calls.{counted};
ghost use Rattle.sq_outside.specs.Causes.{HasCause};
ghost use Rattle.sq_outside.specs.Dials.{Origin};
ghost use Rattle.sq_outside_mem.specs.Memory.{source_step, source_fails, source_fails_next, source_faults};

use crate::mem_source::MemSource;
use crate::wire::Wire;
use memchr::memchr;
use sq_outside::{Failed, Source};
use std::thread;

/// For what a process waits: it says each line once as many lines as it then has said were written to the wire, and to the
/// other one, if there is one. It ends where one of them was closed and has no such line, and after so many turns of waiting
/// for one line.
#[derive(Drop)]
pub struct MemWait<'a> {
    pub wire: &'a Wire,
    pub other: Option<&'a Wire>,
    pub turns: u32,
}

/// What a process in memory says. Where it waits for a wire, it tells nothing of its bytes.
#[derive(Drop)]
pub struct MemChildOut<'a> {
    pub(crate) source: MemSource,
    pub(crate) waits: Option<MemWait<'a>>,
    pub(crate) said: usize,
}

impl<'a> MemChildOut<'a> {
    ghost use Rattle.sq_outside_mem.specs.MemoryChildren.{child_source, child_waits};
    ghost use Rattle.std.specs.Prelude.{is_some};

    /// What a process says whose bytes the source has.
    pub fn new(source: MemSource, waits: Option<MemWait<'a>>) -> MemChildOut<'a>
        ensures source { child_source result ≡ source }
        ensures waits { child_waits result ≡ is_some waits.entry }
    {
        MemChildOut {
            source,
            waits,
            said: 0,
        }
    }
}

// What a wire has for who waits for one line more than so many: that line, none yet, or its end.
#[derive(Clone, Copy)]
enum Behind {
    Line,
    Nothing,
    End,
}

// Which of these a wire has now, behind so many lines.
fn comes_behind(wire: &Wire, said: usize) -> Behind {
    // First whether it was closed: what was written before that is seen then.
    let closed = wire.is_closed();
    if wire.lines() > said {
        Behind::Line
    } else if closed {
        Behind::End
    } else {
        Behind::Nothing
    }
}

/// Waits until this many lines and one more were written to the wires, and says whether they were.
fn is_asked(wait: &MemWait<'_>, said: usize) -> bool {
    for _ in 0..wait.turns {
        let first = comes_behind(wait.wire, said);
        let second = match wait.other {
            Some(other) => comes_behind(other, said),
            None => Behind::Line,
        };
        match (first, second) {
            (Behind::Line, Behind::Line) => return true,
            (Behind::End, _) | (_, Behind::End) => return false,
            _ => thread::yield_now(),
        }
    }
    false
}

/// How many bytes there are to the end of the first line, or in all.
fn line_rest(bytes: &[u8]) -> usize {
    match memchr(b'\n', bytes) {
        Some(place) => place.saturating_add(1),
        None => bytes.len(),
    }
}

impl<'a> Source for MemChildOut<'a> {
    ghost use Rattle.sq_outside_mem.specs.MemoryChildren.{child_source, child_waits, child_left};

    ghost left = { child_left };

    ghost origin = { λ _. None };

    ghost faults = { λ s. source_faults (child_source s) };

    ghost capped = { λ s. s.source.calls.capped };

    fn read(&mut self, into: &mut [u8]) -> Result<usize, Failed>
        ensures bound { ReadsAtMost result into.new }
        ensures bytes { ReadConsumes (child_left self.old) (child_left self.new) result into.new }
        ensures origin { ◌≡◌ {A = Option Origin} None None }
        ensures cause { HasCause (source_faults (child_source self.old))
            (source_faults (child_source self.new)) result }
        // A read fails only where its source fails; where it does not wait, exactly there. Each failure is counted.
        ensures fails { child_waits self.old ≡ false
            → is_err result ≡ source_fails_next (child_source self.old) }
        ensures fails_only { OnErr result (source_fails_next (child_source self.old) ≡ true) }
        ensures counts { source_faults (child_source self.new)
            ≡ counted (is_err result) (source_faults (child_source self.old)) }
        ensures list { source_fails (child_source self.new) ≡ source_fails (child_source self.old) }
        ensures step { source_step (child_source self.new) ≡ source_step (child_source self.old) }
        ensures waits { child_waits self.new ≡ child_waits self.old }
    {
        let Some(wait) = &self.waits else {
            return self.source.read(into);
        };
        if !is_asked(wait, self.said) {
            return Ok(0);
        }
        let rest = line_rest(self.source.left());
        let most = rest.min(into.len());
        let count = self.source.read(&mut into[..most])?;
        if count == rest {
            self.said = self.said.saturating_add(1);
        }
        Ok(count)
    }
}
