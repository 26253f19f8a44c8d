//! The words of answers, put to a sink without memory.
ghost use Rattle.std.specs.Prelude.{◌≡◌, ◌+◌, ◌∷◌, [], codes, decimal};
ghost use Rattle.sq_base.specs.Escapes.{text_word};
ghost use Rattle.sq_rules.specs.OutcomeText.{cause_word, action_word};
ghost use Rattle.sq_journal.specs.EntryText.{told_words, result_word};
ghost use Rattle.sq_journal.specs.Lines.{after_spaces};
ghost use Rattle.sq_journal.specs.Putting.{Puts};
ghost use Rattle.sq_machine.specs.declared.entries.Told.TheVariants as told;

use crate::printing::{EntryPiece, put_name, put_named, put_number, put_pair, put_pieces};
use sq_base::{Cause, EpochNo, ProcNo, QuestionNo, SeatNo, Text, Word};
use sq_machine::Told;
use sq_outside::{Failed, Sink};
use sq_rules::{Outcome, Why};

/// Puts the words of an answer.
pub fn put_told<O: Sink>(to: &mut O, answer: &Told) -> Result<(), Failed>
    ensures { Puts (O.contents to.old) (O.contents to.new) (O.faults to.old) (O.faults to.new)
        result (after_spaces (told_words answer.now)) }
{
    match answer {
        Told::Epoch(epoch) => put_number(to, b"epoch", epoch.0),
        Told::Fine => put_name(to, b"ok"),
        Told::Check(check) => put_number(to, b"check", check.0),
        Told::Took(class) => put_named(to, b"took", class),
        Told::Waits(question) => put_number(to, b"waits", question.0),
        Told::Done => put_name(to, b"done"),
        Told::Judged { epoch, outcome } => put_judged(to, *epoch, outcome),
        Told::Proc(proc) => put_number(to, b"proc", proc.0),
        Told::Reply { question, word } => put_reply(to, *question, *word),
        Told::Bad => put_name(to, b"bad"),
        Told::Stray => put_name(to, b"stray"),
        Told::Start { epoch, class } => put_pair(to, b"start", epoch.0, class),
        Told::Send {
            proc,
            question,
            channel,
            key,
        } => put_send(to, *proc, *question, *channel, key),
        Told::Stop(proc) => put_number(to, b"stop", proc.0),
        Told::Seat { seat, pool } => put_seat(to, *seat, *pool),
        Told::NoSeat => put_name(to, b"none"),
        Told::Granted(bytes) => put_number(to, b"granted", *bytes),
    }
}

// Puts the words of a `reply`.
fn put_reply<O: Sink>(to: &mut O, question: QuestionNo, word: Word) -> Result<(), Failed>
    ensures { Puts (O.contents to.old) (O.contents to.new) (O.faults to.old) (O.faults to.new)
        result (after_spaces (told_words (told.Reply question word))) }
{
    put_pieces(
        to,
        &[
            EntryPiece::Plain(b"reply"),
            EntryPiece::Number(question.0),
            EntryPiece::Plain(result_word(word)),
        ],
    )
}

// Puts the words of a `send`.
fn put_send<O: Sink>(
    to: &mut O,
    proc: ProcNo,
    question: QuestionNo,
    channel: Option<u32>,
    key: &Text,
) -> Result<(), Failed>
    ensures { Puts (O.contents to.old) (O.contents to.new) (O.faults to.old) (O.faults to.new)
        result (after_spaces (told_words (told.Send proc question channel key.now))) }
{
    put_pieces(
        to,
        &[
            EntryPiece::Plain(b"send"),
            EntryPiece::Number(proc.0),
            EntryPiece::Number(question.0),
            EntryPiece::Channel(channel),
            EntryPiece::Escaped(key.as_bytes()),
        ],
    )
}

// Puts the words of a `seat`, with its pool counted from 1.
fn put_seat<O: Sink>(to: &mut O, seat: SeatNo, pool: u32) -> Result<(), Failed>
    ensures { Puts (O.contents to.old) (O.contents to.new) (O.faults to.old) (O.faults to.new)
        result (after_spaces (told_words (told.Seat seat pool))) }
{
    put_pieces(
        to,
        &[
            EntryPiece::Plain(b"seat"),
            EntryPiece::Number(seat.0),
            EntryPiece::Number(pool as u64 + 1),
        ],
    )
}

// The word of a reply's result.
fn result_word(word: Word) -> &'static [u8]
    ensures { result.now ≡ result_word word }
{
    match word {
        Word::Yes => b"ok".as_slice(),
        Word::No => b"err".as_slice(),
        Word::Broken => b"bh".as_slice(),
    }
}

// Puts the words of an epoch and an outcome.
fn put_judged<O: Sink>(to: &mut O, epoch: EpochNo, outcome: &Outcome) -> Result<(), Failed>
    ensures { Puts (O.contents to.old) (O.contents to.new) (O.faults to.old) (O.faults to.new)
        result (after_spaces (told_words (told.Judged epoch outcome.now))) }
{
    let action = action_word(outcome.allow);
    match &outcome.why {
        Why::Rule(number) => put_ruled(to, epoch, action, *number),
        Why::Default => put_short(to, epoch, action, b"default"),
        Why::Empty => put_short(to, epoch, action, b"empty"),
        Why::Fault { rule, acl, cause } => {
            put_fault(to, epoch, action, *rule, acl, cause_word(*cause))
        }
    }
}

// Puts the words of an epoch, and an action by a reason of one word.
fn put_short<'a, O: Sink>(
    to: &mut O,
    epoch: EpochNo,
    action: &'a [u8],
    why: &'a [u8],
) -> Result<(), Failed>
    ensures { Puts (O.contents to.old) (O.contents to.new) (O.faults to.old) (O.faults to.new)
        result (after_spaces (codes "epoch" ∷ decimal epoch ∷ action.now ∷ why.now ∷ [])) }
{
    put_pieces(
        to,
        &[
            EntryPiece::Plain(b"epoch"),
            EntryPiece::Number(epoch.0),
            EntryPiece::Plain(action),
            EntryPiece::Plain(why),
        ],
    )
}

// Puts the words of an epoch, and an action by a rule.
fn put_ruled<O: Sink>(to: &mut O, epoch: EpochNo, action: &[u8], rule: u32) -> Result<(), Failed>
    ensures { Puts (O.contents to.old) (O.contents to.new) (O.faults to.old) (O.faults to.new)
        result (after_spaces (codes "epoch" ∷ decimal epoch ∷ action.now ∷ codes "rule"
        ∷ decimal rule ∷ [])) }
{
    put_pieces(
        to,
        &[
            EntryPiece::Plain(b"epoch"),
            EntryPiece::Number(epoch.0),
            EntryPiece::Plain(action),
            EntryPiece::Plain(b"rule"),
            EntryPiece::Number(rule as u64),
        ],
    )
}

// Puts the words of an epoch, and an action by a fault.
fn put_fault<'a, O: Sink>(
    to: &mut O,
    epoch: EpochNo,
    action: &'a [u8],
    rule: u32,
    acl: &'a Text,
    cause: &'a [u8],
) -> Result<(), Failed>
    ensures { Puts (O.contents to.old) (O.contents to.new) (O.faults to.old) (O.faults to.new)
        result (after_spaces (codes "epoch" ∷ decimal epoch ∷ action.now ∷ codes "fault"
        ∷ decimal rule ∷ text_word acl.now ∷ cause.now ∷ [])) }
{
    put_pieces(
        to,
        &[
            EntryPiece::Plain(b"epoch"),
            EntryPiece::Number(epoch.0),
            EntryPiece::Plain(action),
            EntryPiece::Plain(b"fault"),
            EntryPiece::Number(rule as u64),
            EntryPiece::Escaped(acl.as_bytes()),
            EntryPiece::Plain(cause),
        ],
    )
}

// The word of what was decided.
fn action_word(allow: bool) -> &'static [u8]
    ensures { result.now ≡ action_word allow }
{
    if allow {
        b"allowed".as_slice()
    } else {
        b"denied".as_slice()
    }
}

// The word of a cause.
fn cause_word(cause: Cause) -> &'static [u8]
    ensures { result.now ≡ cause_word cause }
{
    match cause {
        Cause::Bh => b"Bh".as_slice(),
        Cause::BadReply => b"BadReply".as_slice(),
        Cause::Stray => b"Stray".as_slice(),
        Cause::Died => b"Died".as_slice(),
        Cause::NoHelper => b"NoHelper".as_slice(),
        Cause::QueueFull => b"QueueFull".as_slice(),
        Cause::KeyTooLong => b"KeyTooLong".as_slice(),
    }
}
