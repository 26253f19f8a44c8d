//! The names by which a line's words tell events, answers, reasons and causes.
ghost use Rattle.std.specs.Prelude.{map};
ghost use Rattle.sq_base.specs.NameTables.{beside};
ghost use Rattle.sq_journal.specs.Names.{event_names, told_names, why_names, action_names, cause_names, result_names, arrow_names};
ghost use Rattle.sq_journal.specs.Reading.{ReadsWithoutMemory, word_in};

use crate::faults::EntryFault;
use crate::words::EntryWords;
use sq_base::{Cause, Word, named};

/// An event, by its name alone.
#[derive(Clone, Copy)]
pub enum EventName {
    Begin,
    Open,
    Close,
    Ask,
    Step,
    Take,
    Started,
    StartFail,
    Line,
    Died,
    Act,
    Reconfigure,
    Seat,
    Grant,
    Leave,
}

/// An answer, by its name alone. An epoch may have an outcome after it.
#[derive(Clone, Copy)]
pub enum AnswerName {
    Epoch,
    Fine,
    Check,
    Took,
    Waits,
    Done,
    Proc,
    Reply,
    Bad,
    Stray,
    Start,
    Send,
    Stop,
    Seat,
    NoSeat,
    Granted,
}

/// A reason of an outcome, by its name alone.
#[derive(Clone, Copy)]
pub enum WhyName {
    Rule,
    Default,
    Empty,
    Fault,
}

// What stands beside the next word in a table of names.
#[tactic(auto, unfolding(crate::specs::Reading::word_in))]
fn name_in<A: Copy>(words: &mut EntryWords, table: &[(&[u8], A)]) -> Result<A, EntryFault>
    ensures { ReadsWithoutMemory result words.new
        (word_in (beside (map (λ row. (row.0.now, row.1)) table.now)) words.old) }
{
    match words.next() {
        None => Err(EntryFault::BadEntry),
        Some(word) => match named(table, word) {
            None => Err(EntryFault::BadEntry),
            Some(value) => Ok(value),
        },
    }
}

/// The name of an event.
pub fn event_name(words: &mut EntryWords) -> Result<EventName, EntryFault>
    ensures { ReadsWithoutMemory result words.new (word_in (beside event_names) words.old) }
{
    name_in(
        words,
        &[
            (b"begin", EventName::Begin),
            (b"open", EventName::Open),
            (b"close", EventName::Close),
            (b"ask", EventName::Ask),
            (b"step", EventName::Step),
            (b"take", EventName::Take),
            (b"started", EventName::Started),
            (b"startfail", EventName::StartFail),
            (b"line", EventName::Line),
            (b"died", EventName::Died),
            (b"act", EventName::Act),
            (b"reconfigure", EventName::Reconfigure),
            (b"seat", EventName::Seat),
            (b"grant", EventName::Grant),
            (b"leave", EventName::Leave),
        ],
    )
}

/// The name of an answer.
pub fn told_name(words: &mut EntryWords) -> Result<AnswerName, EntryFault>
    ensures { ReadsWithoutMemory result words.new (word_in (beside told_names) words.old) }
{
    name_in(
        words,
        &[
            (b"epoch", AnswerName::Epoch),
            (b"ok", AnswerName::Fine),
            (b"check", AnswerName::Check),
            (b"took", AnswerName::Took),
            (b"waits", AnswerName::Waits),
            (b"done", AnswerName::Done),
            (b"proc", AnswerName::Proc),
            (b"reply", AnswerName::Reply),
            (b"bad", AnswerName::Bad),
            (b"stray", AnswerName::Stray),
            (b"start", AnswerName::Start),
            (b"send", AnswerName::Send),
            (b"stop", AnswerName::Stop),
            (b"seat", AnswerName::Seat),
            (b"none", AnswerName::NoSeat),
            (b"granted", AnswerName::Granted),
        ],
    )
}

/// The name of a reason.
pub fn why_name(words: &mut EntryWords) -> Result<WhyName, EntryFault>
    ensures { ReadsWithoutMemory result words.new (word_in (beside why_names) words.old) }
{
    name_in(
        words,
        &[
            (b"rule", WhyName::Rule),
            (b"default", WhyName::Default),
            (b"empty", WhyName::Empty),
            (b"fault", WhyName::Fault),
        ],
    )
}

/// What was decided: whether it is allowed.
pub fn action(words: &mut EntryWords) -> Result<bool, EntryFault>
    ensures { ReadsWithoutMemory result words.new (word_in (beside action_names) words.old) }
{
    name_in(words, &[(b"allowed", true), (b"denied", false)])
}

/// A cause of a fault.
pub fn cause(words: &mut EntryWords) -> Result<Cause, EntryFault>
    ensures { ReadsWithoutMemory result words.new (word_in (beside cause_names) words.old) }
{
    name_in(
        words,
        &[
            (b"Bh", Cause::Bh),
            (b"BadReply", Cause::BadReply),
            (b"Stray", Cause::Stray),
            (b"Died", Cause::Died),
            (b"NoHelper", Cause::NoHelper),
            (b"QueueFull", Cause::QueueFull),
            (b"KeyTooLong", Cause::KeyTooLong),
        ],
    )
}

/// The result of a reply.
pub fn result_word(words: &mut EntryWords) -> Result<Word, EntryFault>
    ensures { ReadsWithoutMemory result words.new (word_in (beside result_names) words.old) }
{
    name_in(
        words,
        &[
            (b"ok", Word::Yes),
            (b"err", Word::No),
            (b"bh", Word::Broken),
        ],
    )
}

/// The word between an event and its answer.
pub fn arrow(words: &mut EntryWords) -> Result<(), EntryFault>
    ensures { ReadsWithoutMemory result words.new (word_in (beside arrow_names) words.old) }
{
    name_in(words, &[(b"=>", ())])
}
