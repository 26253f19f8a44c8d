//! Heads of messages, as they come.
ghost use Rattle.std.specs.Prelude.{◌≡◌, ◌≤◌, ◌+◌, length, max};
ghost use Rattle.std.specs.Io.KnownBytes.{Keeps};
ghost use Rattle.sq_message.specs.ReplyHeads.{most_bytes};
ghost use Rattle.sq_outside.specs.Causes.{Rose};
ghost use Rattle.sq_forward.specs.Halves.{to_come, read_limit};
ghost use Rattle.sq_forward.specs.Heads.{FindsHead};

use crate::half::Half;
use crate::searching::HeadSearch;
use sq_outside::{Expected, Source, Unread};
use std::sync::Wait;

// A head has so many bytes at most.
const MOST_BYTES: usize = 65_536;

/// What was found at the front of what comes.
#[derive(Clone, Copy)]
pub enum HeadFound {
    /// A whole head of so many bytes stands ahead.
    Whole(usize),
    /// No head ends within the limit.
    TooLarge,
    /// The input ended before a head did. What is ahead is all.
    Ended,
    /// The source failed.
    Failed,
    /// There was no memory.
    WantOfMemory,
}

/// Reads until a head stands ahead, or can't. Nothing is dropped. Each byte is looked at once. The head's first byte
/// is awaited soon, or may take as long as it likes. The source hears that it is waited for, that a head has begun,
/// and that its head is there.
pub fn find_head<R: Wait, S: Source>(rt: &R, from: &mut Half<S>, soon: bool) -> HeadFound
    ensures found { FindsHead from.new.ahead (to_come S.left from.new) result }
    ensures kept { Keeps (to_come S.left from.old) (to_come S.left from.new) }
    ensures cause { result ≡ HeadFound.Failed
        → Rose (S.faults from.old.source) (S.faults from.new.source) }
    ensures later { S.faults from.old.source ≤ S.faults from.new.source }
    ensures origin { S.origin from.new.source ≡ S.origin from.old.source }
    ensures few { length from.new.ahead ≤ max (length from.old.ahead) (most_bytes + read_limit) }
{
    let found = read_head(rt, from, soon);
    from.source.expect(Expected::Data);
    found
}

// Reads until a head stands ahead, or can't.
fn read_head<R: Wait, S: Source>(rt: &R, from: &mut Half<S>, soon: bool) -> HeadFound
    ensures found { FindsHead from.new.ahead (to_come S.left from.new) result }
    ensures kept { Keeps (to_come S.left from.old) (to_come S.left from.new) }
    ensures cause { result ≡ HeadFound.Failed
        → Rose (S.faults from.old.source) (S.faults from.new.source) }
    ensures later { S.faults from.old.source ≤ S.faults from.new.source }
    ensures origin { S.origin from.new.source ≡ S.origin from.old.source }
    ensures few { length from.new.ahead ≤ max (length from.old.ahead) (most_bytes + read_limit) }
{
    let mut search = HeadSearch::new();
    let mut begun = false;
    for _ in rt.forever() {
        match search.look(from.ahead.as_bytes()) {
            Some(len) => {
                if len > MOST_BYTES {
                    return HeadFound::TooLarge;
                }
                return HeadFound::Whole(len);
            }
            None => {}
        }
        if from.ahead.len() >= MOST_BYTES {
            return HeadFound::TooLarge;
        }
        match from.fill_head(&mut begun, soon) {
            Ok(true) => {}
            Ok(false) => return HeadFound::Ended,
            Err(Unread::Failed) => return HeadFound::Failed,
            Err(Unread::WantOfMemory) => return HeadFound::WantOfMemory,
        }
    }
    unreachable!()
}
