//! What a check came to, in words.
ghost use Rattle.std.specs.Prelude.{◌≡◌, ◌++◌, ◌∷◌, IfOk, OnOk};
ghost use Rattle.std.specs.List.{flat_map};
ghost use Rattle.sq_base.specs.Bytes.{space};
ghost use Rattle.sq_rules.specs.OutcomeText.{why_words, cause_word, action_word};
ghost use Rattle.sq_message.specs.OwnReplies.{outcome_text};

use crate::escaping::put_text;
use crate::lines::put_number;
use sq_base::{Cause, Text, WantOfMemory};
use sq_rules::{Outcome, Why};
use std::alloc::Global;

/// The words of an outcome, with a space between them.
pub(crate) fn outcome_text(alloc: Global, outcome: &Outcome) -> Result<Text, WantOfMemory>
    ensures { IfOk result (λ t. t ≡ outcome_text outcome.now) }
{
    let mut text = Text::from_slice(alloc, action_word(outcome.allow))?;
    put_why(&mut text, &outcome.why)?;
    Ok(text)
}

fn action_word(allow: bool) -> &'static [u8]
    ensures { result.now ≡ action_word allow }
{
    if allow {
        b"allowed".as_slice()
    } else {
        b"denied".as_slice()
    }
}

// Puts the words that say why, each after a space.
fn put_why(to: &mut Text, why: &Why) -> Result<(), WantOfMemory>
    ensures { OnOk result (to.new ≡ to.old ++ flat_map (λ word. space ∷ word) (why_words why.now)) }
{
    match why {
        Why::Rule(number) => {
            to.append(b" rule ")?;
            put_number(to, *number as u64)
        }
        Why::Default => to.append(b" default"),
        Why::Empty => to.append(b" empty"),
        Why::Fault { rule, acl, cause } => {
            to.append(b" fault ")?;
            put_number(to, *rule as u64)?;
            to.push(b' ')?;
            put_text(to, acl.as_bytes())?;
            to.push(b' ')?;
            to.append(cause_word(*cause))
        }
    }
}

fn cause_word(cause: Cause) -> &'static [u8]
    ensures { result.now ≡ cause_word cause }
{
    match cause {
        Cause::Bh => b"Bh".as_slice(),
        Cause::BadReply => b"BadReply".as_slice(),
        Cause::Stray => b"Stray".as_slice(),
        Cause::Died => b"Died".as_slice(),
        Cause::NoHelper => b"NoHelper".as_slice(),
        Cause::QueueFull => b"QueueFull".as_slice(),
        Cause::KeyTooLong => b"KeyTooLong".as_slice(),
    }
}
