//! The next line of a journal.
ghost use Rattle.std.specs.Prelude.{◌≤◌, IfOk};
ghost use Rattle.std.specs.Io.KnownBytes.{prepend_known};
ghost use Rattle.sq_outside.specs.Input.{ReadHasCause};
ghost use Rattle.sq_outside.specs.SourceLines.{FindsWithin, Moves, total_limit};
ghost use Rattle.sq_verify.specs.JournalLines.{line_limit};

use crate::versions::{Version, line_limit};
use sq_outside::{Held, LineFound, Source, Unread, next_line_within};

/// Takes the next line of a journal of this version, without its LF, into `line`, which is cleared first. `place` is how many
/// bytes came before, and moves behind a line that was found.
pub fn journal_line<S: Source>(
    version: Version,
    held: &mut Held,
    journal: &mut S,
    place: &mut u64,
    line: &mut Vec<u8>,
) -> Result<LineFound, Unread>
    requires { place.old ≤ total_limit }
    ensures found { IfOk result
        (λ found. FindsWithin (line_limit version) place.old
        (prepend_known held.old (S.left journal.old))
        (prepend_known held.new (S.left journal.new)) line.new.items found) }
    ensures place { IfOk result (λ found. Moves place.old place.new line.new.items found) }
    ensures cause { ReadHasCause (S.faults journal.old) (S.faults journal.new) result }
{
    next_line_within(held, journal, line_limit(version), place, line)
}
