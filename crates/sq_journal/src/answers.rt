//! Answers read from words.
ghost use Rattle.sq_journal.specs.Reading.{ReadsFront, ReadsWithoutMemory, word_in};
ghost use Rattle.sq_journal.specs.ToldReading.{told_in, told_after, epoch_told, channel_of, pool_named};
ghost use Rattle.sq_journal.specs.declared.names.AnswerName.TheVariants as name;

use crate::faults::EntryFault;
use crate::names::{AnswerName, result_word, told_name};
use crate::outcomes::outcome;
use crate::values::{number, text};
use crate::words::EntryWords;
use sq_base::{CheckNo, EpochNo, ProcNo, QuestionNo, SeatNo, number_of};
use sq_machine::Told;
use std::alloc::Global;

/// An answer, by its name.
#[tactic(auto, unfolding(crate::specs::ToldReading::told_in))]
pub fn told(alloc: Global, words: &mut EntryWords) -> Result<Told, EntryFault>
    ensures { ReadsFront result words.new (told_in words.old) }
{
    let name = told_name(words)?;
    told_after(alloc, name, words)
}

// What stands after an answer's name.
#[tactic(auto, unfolding(crate::specs::ToldReading::told_after))]
fn told_after(alloc: Global, name: AnswerName, words: &mut EntryWords) -> Result<Told, EntryFault>
    ensures { ReadsFront result words.new (told_after name words.old) }
{
    match name {
        AnswerName::Epoch => epoch(alloc, words),
        AnswerName::Fine => Ok(Told::Fine),
        AnswerName::Check => {
            let check = CheckNo(number(words)?);
            Ok(Told::Check(check))
        }
        AnswerName::Took => took(alloc, words),
        AnswerName::Waits => {
            let question = QuestionNo(number(words)?);
            Ok(Told::Waits(question))
        }
        AnswerName::Done => Ok(Told::Done),
        AnswerName::Proc => {
            let proc = ProcNo(number(words)?);
            Ok(Told::Proc(proc))
        }
        AnswerName::Reply => reply(words),
        AnswerName::Bad => Ok(Told::Bad),
        AnswerName::Stray => Ok(Told::Stray),
        AnswerName::Start => start(alloc, words),
        AnswerName::Send => send(alloc, words),
        AnswerName::Stop => {
            let proc = ProcNo(number(words)?);
            Ok(Told::Stop(proc))
        }
        AnswerName::Seat => seat(words),
        AnswerName::NoSeat => Ok(Told::NoSeat),
        AnswerName::Granted => {
            let bytes = number(words)?;
            Ok(Told::Granted(bytes))
        }
    }
}

// `epoch EPOCH`, or `epoch EPOCH OUTCOME`
#[tactic(auto, unfolding(crate::specs::ToldReading::told_after))]
fn epoch(alloc: Global, words: &mut EntryWords) -> Result<Told, EntryFault>
    ensures { ReadsFront result words.new (told_after name.Epoch words.old) }
{
    let epoch = EpochNo(number(words)?);
    epoch_told(alloc, epoch, words)
}

// An epoch alone, or with the outcome of a check.
fn epoch_told(alloc: Global, epoch: EpochNo, words: &mut EntryWords) -> Result<Told, EntryFault>
    ensures { ReadsFront result words.new (epoch_told epoch words.old) }
{
    match words.peek() {
        None => Ok(Told::Epoch(epoch)),
        Some(_) => {
            let outcome = outcome(alloc, words)?;
            Ok(Told::Judged { epoch, outcome })
        }
    }
}

// `took CLASS`
#[tactic(auto, unfolding(crate::specs::ToldReading::told_after))]
fn took(alloc: Global, words: &mut EntryWords) -> Result<Told, EntryFault>
    ensures { ReadsFront result words.new (told_after name.Took words.old) }
{
    let class = text(alloc, words)?;
    Ok(Told::Took(class))
}

// `reply QUESTION RESULT`
#[tactic(auto, unfolding(crate::specs::ToldReading::told_after))]
fn reply(words: &mut EntryWords) -> Result<Told, EntryFault>
    ensures { ReadsFront result words.new (told_after name.Reply words.old) }
{
    let question = QuestionNo(number(words)?);
    let word = result_word(words)?;
    Ok(Told::Reply { question, word })
}

// `start EPOCH CLASS`
#[tactic(auto, unfolding(crate::specs::ToldReading::told_after))]
fn start(alloc: Global, words: &mut EntryWords) -> Result<Told, EntryFault>
    ensures { ReadsFront result words.new (told_after name.Start words.old) }
{
    let epoch = EpochNo(number(words)?);
    let class = text(alloc, words)?;
    Ok(Told::Start { epoch, class })
}

// `send PROC QUESTION CHANNEL KEY`
#[tactic(auto, unfolding(crate::specs::ToldReading::told_after))]
fn send(alloc: Global, words: &mut EntryWords) -> Result<Told, EntryFault>
    ensures { ReadsFront result words.new (told_after name.Send words.old) }
{
    let proc = ProcNo(number(words)?);
    let question = QuestionNo(number(words)?);
    let channel = channel(words)?;
    let key = text(alloc, words)?;
    Ok(Told::Send {
        proc,
        question,
        channel,
        key,
    })
}

// A channel, or `-`.
#[tactic(auto, unfolding(crate::specs::Reading::word_in, crate::specs::ToldReading::channel_of))]
fn channel(words: &mut EntryWords) -> Result<Option<u32>, EntryFault>
    ensures { ReadsWithoutMemory result words.new (word_in channel_of words.old) }
{
    let Some(word) = words.next() else {
        return Err(EntryFault::BadEntry);
    };
    if word == b"-".as_slice() {
        return Ok(None);
    }
    match number_of(word, 4294967296) {
        None => Err(EntryFault::BadEntry),
        Some(number) => Ok(Some(number as u32)),
    }
}

// `seat SEAT POOL`
#[tactic(auto, unfolding(crate::specs::ToldReading::told_after))]
fn seat(words: &mut EntryWords) -> Result<Told, EntryFault>
    ensures { ReadsFront result words.new (told_after name.Seat words.old) }
{
    let seat = SeatNo(number(words)?);
    let pool = pool(words)?;
    Ok(Told::Seat { seat, pool })
}

// A pool by its number from 1, given by its place.
#[tactic(auto, unfolding(crate::specs::Reading::word_in, crate::specs::ToldReading::pool_named))]
fn pool(words: &mut EntryWords) -> Result<u32, EntryFault>
    ensures { ReadsWithoutMemory result words.new (word_in pool_named words.old) }
{
    match words.next() {
        None => Err(EntryFault::BadEntry),
        Some(word) => match number_of(word, 4294967297) {
            None => Err(EntryFault::BadEntry),
            Some(0) => Err(EntryFault::BadEntry),
            Some(number) => Ok((number - 1) as u32),
        },
    }
}
