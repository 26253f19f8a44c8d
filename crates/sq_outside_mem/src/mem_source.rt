//! `MemSource`: a source in memory.
ghost use Rattle.std.specs.Prelude.{◌≡◌, ◌+◌, ◌<◌, ◌≤◌, [], length, take, min, max, vec_len, Option, Some, None, IfOk, is_err};
ghost use Rattle.std.specs.Io.{ReadsAtMost};
ghost use Rattle.std.specs.Io.KnownBytes.{ReadConsumes};
ghost use Rattle.sq_outside.specs.Calls.{next_call, counted};
ghost use Rattle.sq_outside.specs.Causes.{HasCause};
ghost use Rattle.sq_outside.specs.Dials.{Origin};

use sq_outside::{Calls, Failed, Source};

/// Copies bytes to the front of `into`, as many as both have and at most `step`.
fn fill(bytes: &[u8], step: usize, into: &mut [u8]) -> usize
    ensures count { result ≡ min (min (length bytes.now) (length into.old)) step }
    ensures front { take result into.new ≡ take result bytes.now }
{
    let count = bytes.len().min(into.len()).min(step);
    into[..count].copy_from_slice(&bytes[..count]);
    count
}

/// A source of these bytes, which gives at most `step` of them in a call.
#[derive(Drop)]
pub struct MemSource {
    pub(crate) text: Vec<u8>,
    pub(crate) at: usize,
    pub(crate) step: usize,
    pub(crate) calls: Calls,
    ghost in_text: { at ≤ vec_len text },
    ghost steps: { 0 < step },
}

impl MemSource {
    ghost use Rattle.sq_outside_mem.specs.Memory.{source_left, source_text, source_step, source_fails, source_calls, source_faults};

    /// A source of this text, of which the listed reads are to fail. A step of 0 counts as 1.
    pub fn new(text: Vec<u8>, step: usize, fails: Vec<u64>) -> MemSource
        ensures left { source_left result ≡ text.items }
        ensures text { source_text result ≡ text.items }
        ensures step { source_step result ≡ max step 1 }
        ensures fails { source_fails result ≡ fails.items }
        ensures calls { source_calls result ≡ 0 }
        ensures faults { source_faults result ≡ 0 }
        ensures whole { source_left result ≡ source_text result }
    {
        MemSource {
            text,
            at: 0,
            step: step.max(1),
            calls: Calls::new(fails),
        }
    }

    /// The bytes that reads will give from here on.
    pub fn left(&self) -> &[u8]
        ensures { result.now ≡ source_left self.now }
    {
        let (_, left) = self.text.as_slice().split_at(self.at);
        left
    }

    /// All its bytes, from the beginning. It takes no memory.
    pub fn into_text(self) -> Vec<u8>
        ensures { result.items ≡ source_text self }
    {
        self.text
    }
}

impl Source for MemSource {
    ghost use Rattle.sq_outside_mem.specs.Memory.{source_left, source_text, source_gives, source_step, source_fails, source_calls, source_fails_next, source_faults};

    ghost left = { λ s. Some (source_left s) };

    ghost origin = { λ _. None };

    ghost faults = { source_faults };

    ghost capped = { λ s. s.calls.capped };

    fn read(&mut self, into: &mut [u8]) -> Result<usize, Failed>
        ensures bound { ReadsAtMost result into.new }
        ensures bytes { ReadConsumes (Some (source_left self.old)) (Some (source_left self.new))
            result into.new }
        ensures origin { ◌≡◌ {A = Option Origin} None None }
        ensures cause { HasCause (source_faults self.old) (source_faults self.new) result }
        ensures count { IfOk result (λ n. n ≡ source_gives self.old (length into.old)) }
        // A call fails where it is listed, and only there; each failure is counted.
        ensures fails { is_err result ≡ source_fails_next self.old }
        ensures counts { source_faults self.new
            ≡ counted (source_fails_next self.old) (source_faults self.old) }
        ensures calls { source_calls self.new ≡ next_call (source_calls self.old) }
        // With an empty list no call fails.
        ensures quiet { source_fails self.old ≡ []
            → source_faults self.new ≡ source_faults self.old }
        ensures list { source_fails self.new ≡ source_fails self.old }
        ensures step { source_step self.new ≡ source_step self.old }
        // Its whole text stays.
        ensures text { source_text self.new ≡ source_text self.old }
    {
        self.calls.next()?;
        let (_, left) = self.text.as_slice().split_at(self.at);
        let count = fill(left, self.step, into);
        self.at += count;
        Ok(count)
    }
}
