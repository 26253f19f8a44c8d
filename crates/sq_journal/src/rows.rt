//! Whether an answer is one that its event may have.
ghost use Rattle.std.specs.Prelude.{◌≡◌};
ghost use Rattle.sq_machine.specs.Entries.{is_row, is_outcome, must_deny};

use sq_machine::{Event, Told};
use sq_rules::{Outcome, Why};

/// Whether the event may have this answer.
pub fn is_row(event: &Event, answer: &Told) -> bool
    ensures { result ≡ is_row event.now answer.now }
{
    match (event, answer) {
        (Event::Begin { offset: _ }, Told::Epoch(epoch)) => epoch.0 == 1,
        (Event::Open { .. }, Told::Fine) => true,
        (Event::Close { .. }, Told::Fine) => true,
        (Event::Ask { .. }, Told::Check(_)) => true,
        (Event::Step { .. }, Told::Took(_)) => true,
        (Event::Step { .. }, Told::Waits(_)) => true,
        (Event::Step { .. }, Told::Done) => true,
        (Event::Take { .. }, Told::Judged { epoch: _, outcome }) => is_outcome(outcome),
        (Event::Started { .. }, Told::Proc(_)) => true,
        (Event::StartFail { .. }, Told::Fine) => true,
        (Event::Line { .. }, Told::Reply { .. }) => true,
        (Event::Line { .. }, Told::Bad) => true,
        (Event::Line { .. }, Told::Stray) => true,
        (Event::Died { .. }, Told::Fine) => true,
        (Event::Act, Told::Start { .. }) => true,
        (Event::Act, Told::Send { .. }) => true,
        (Event::Act, Told::Stop(_)) => true,
        (Event::Reconfigure { .. }, Told::Epoch(_)) => true,
        (Event::Seat { .. }, Told::Seat { .. }) => true,
        (Event::Seat { .. }, Told::NoSeat) => true,
        (Event::Grant { .. }, Told::Granted(bytes)) => *bytes < 9223372036854775808,
        (Event::Leave { .. }, Told::Fine) => true,
        _ => false,
    }
}

// Whether a denial by an empty list or by a fault denies.
fn is_outcome(outcome: &Outcome) -> bool
    ensures { result ≡ is_outcome outcome.now }
{
    !(must_deny(&outcome.why) && outcome.allow)
}

// Whether the reason always denies.
fn must_deny(why: &Why) -> bool
    ensures { result ≡ must_deny why.now }
{
    match why {
        Why::Rule(_) => false,
        Why::Default => false,
        Why::Empty => true,
        Why::Fault { .. } => true,
    }
}
