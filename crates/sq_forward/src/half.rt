//! `Half`: a source with the bytes that were read ahead of it.
ghost use Rattle.std.specs.Prelude.{◌≡◌, ◌+◌, ◌≤◌, length, drop, IfOk};
ghost use Rattle.std.specs.Io.KnownBytes.{Keeps};
ghost use Rattle.sq_outside.specs.Input.{ReadHasCause};
ghost use Rattle.sq_outside.specs.Output.{IsPrefix};
ghost use Rattle.sq_forward.specs.Halves.{to_come, read_limit, large_read_limit, Filled};

use crate::ahead::{Ahead, LARGE_READ, READ};
use sq_outside::{Expected, Source, Unread};

/// A source with the bytes that were read ahead of it.
#[derive(Drop)]
pub struct Half<S> {
    pub source: S,
    pub ahead: Ahead,
}

impl<S: Source> Half<S> {
    /// Reads some bytes, 16,384 at most, behind those that are ahead. The answer is whether there were any. None is lost.
    pub fn fill(&mut self) -> Result<bool, Unread>
        ensures kept { Keeps (to_come S.left self.old) (to_come S.left self.new) }
        ensures filled { IfOk result
            (Filled self.old.ahead self.new.ahead (S.left self.new.source)) }
        ensures front { IsPrefix self.old.ahead self.new.ahead }
        ensures few { length self.new.ahead ≤ length self.old.ahead + read_limit }
        ensures origin { S.origin self.new.source ≡ S.origin self.old.source }
        ensures cause { ReadHasCause (S.faults self.old.source) (S.faults self.new.source) result }
    {
        self.ahead.read(&mut self.source, READ)
    }

    /// The same, of the bytes of a head. The source hears for what it is, and whether a first byte of it has come, which
    /// `begun` remembers; the first bytes may be awaited soon.
    pub(crate) fn fill_head(&mut self, begun: &mut bool, soon: bool) -> Result<bool, Unread>
        ensures kept { Keeps (to_come S.left self.old) (to_come S.left self.new) }
        ensures filled { IfOk result
            (Filled self.old.ahead self.new.ahead (S.left self.new.source)) }
        ensures front { IsPrefix self.old.ahead self.new.ahead }
        ensures few { length self.new.ahead ≤ length self.old.ahead + read_limit }
        ensures origin { S.origin self.new.source ≡ S.origin self.old.source }
        ensures cause { ReadHasCause (S.faults self.old.source) (S.faults self.new.source) result }
    {
        if self.ahead.len() == 0 {
            self.ahead.await_more(soon);
            self.source.expect(Expected::Nothing);
        } else if !*begun {
            *begun = true;
            self.source.expect(Expected::Head);
        }
        self.fill()
    }

    /// Reads some bytes as `fill` does, 65,536 at most.
    pub(crate) fn fill_large(&mut self) -> Result<bool, Unread>
        ensures kept { Keeps (to_come S.left self.old) (to_come S.left self.new) }
        ensures filled { IfOk result
            (Filled self.old.ahead self.new.ahead (S.left self.new.source)) }
        ensures front { IsPrefix self.old.ahead self.new.ahead }
        ensures few { length self.new.ahead ≤ length self.old.ahead + large_read_limit }
        ensures origin { S.origin self.new.source ≡ S.origin self.old.source }
        ensures cause { ReadHasCause (S.faults self.old.source) (S.faults self.new.source) result }
    {
        self.ahead.read(&mut self.source, LARGE_READ)
    }

    /// Drops the first n of the bytes that are ahead. It takes no memory.
    pub fn drop_front(&mut self, n: usize)
        requires { n ≤ length self.old.ahead }
        ensures ahead { self.new.ahead ≡ drop n self.old.ahead }
        ensures source { self.new.source ≡ self.old.source }
    {
        self.ahead.drop_front(n);
    }
}
