//! For how long a process may owe an answer.
ghost use Rattle.std.specs.Prelude.{◌≡◌};
ghost use Rattle.sq_keeper.specs.Waiting.{has_waited};

use sq_base::Moment;

// A process may owe an answer for so many milliseconds. The adapter that starts it ends it then, where a keeper reads it.
const ANSWER_TIME: u64 = 60_000;

/// Whether so much time has passed between two moments.
pub fn has_waited(since: Moment, now: Moment) -> bool
    ensures { result ≡ has_waited since now }
{
    now.0.saturating_sub(since.0) >= ANSWER_TIME
}
