//! The line `dst_lookup on|off [option ...]`.
ghost use Rattle.std.specs.Prelude.{◌≡◌};
ghost use Rattle.sq_conf.specs.Forms.{Gives, Makes};
ghost use Rattle.sq_rules.specs.LookupLines.{behind_first, lookup_line, lookup_option, no_sizes, size_step, sizes_of, sizes_read, states_lookup, switch, with_size};

use crate::config_words::ConfigWords;
use crate::cuts::{before, behind, holds};
use crate::faults::ReadFault;
use crate::numbers::number_in;
use sq_base::{Text, named};
use sq_rules::{CHILDREN_LIMIT, Kind, LookupOption, LookupSizes, QUEUE_LIMIT};
use std::marker::Model;

const SWITCHES: [(&[u8], bool); 2] = [(b"on", true), (b"off", false)];

const LOOKUP_OPTIONS: [(&[u8], LookupOption); 2] = [
    (b"children-max", LookupOption::ChildrenMax),
    (b"queue-size", LookupOption::QueueSize),
];

/// Whether the words of a line are those of `dst_lookup`.
pub fn states_lookup(words: &[Text]) -> bool
    ensures { result ≡ states_lookup words.now }
{
    match words {
        [] => false,
        [word, ..] => word.as_bytes() == b"dst_lookup".as_slice(),
    }
}

/// The words behind the first.
pub fn behind_first(words: &[Text]) -> &[Text]
    ensures { result.now ≡ behind_first words.now }
{
    match words {
        [] => words,
        [_, rest @ ..] => rest,
    }
}

// `on` is true, `off` false.
#[tactic(auto, unfolding(sq_rules::specs::LookupLines::switch))]
fn switch(word: &[u8]) -> Result<bool, ReadFault>
    ensures { Gives (λ on. on) result (switch word.now) }
{
    match named(&SWITCHES, word) {
        Some(on) => Ok(on),
        None => Err(ReadFault::Fault(Kind::BadValue)),
    }
}

// The option of a word.
#[tactic(auto, unfolding(sq_rules::specs::LookupLines::lookup_option))]
fn lookup_option(word: &[u8]) -> Result<LookupOption, ReadFault>
    ensures { Gives (λ o. o) result (lookup_option word.now) }
{
    if !holds(word, b'=') {
        return Err(ReadFault::Fault(Kind::BadValue));
    }
    match named(&LOOKUP_OPTIONS, before(word, b'=')) {
        Some(option) => Ok(option),
        None => Err(ReadFault::Fault(Kind::UnknownOption)),
    }
}

// The options that stand so far.
#[derive(Drop)]
struct LookupDraft {
    children_max: Option<u32>,
    queue_size: Option<u32>,
}

impl Model for LookupDraft {
    ghost use Rattle.sq_conf.specs.LookupDrafts.{IsLookupDraft};
    ghost use Rattle.sq_rules.specs.LookupLines.{LookupDraft};

    ghost Value = { LookupDraft };

    ghost view = { λ s. record { children_max = s.children_max; queue_size = s.queue_size } };

    ghost invariant = { λ s. IsLookupDraft
        (record { children_max = s.children_max; queue_size = s.queue_size }) };
}

impl LookupDraft {
    // None.
    fn new() -> LookupDraft
        ensures { result ≡ no_sizes }
    {
        LookupDraft {
            children_max: None,
            queue_size: None,
        }
    }

    // The option with its value.
    #[tactic(auto, unfolding(sq_rules::specs::LookupLines::with_size))]
    fn set_size(&mut self, option: LookupOption, value: &[u8]) -> Result<(), ReadFault>
        ensures { Makes result self.new (with_size option value.now self.old) }
    {
        match option {
            LookupOption::ChildrenMax => {
                if self.children_max.is_some() {
                    return Err(ReadFault::Fault(Kind::BadValue));
                }
                let number = number_in(value, 1, CHILDREN_LIMIT as u64)?;
                self.children_max = Some(number as u32);
            }
            LookupOption::QueueSize => {
                if self.queue_size.is_some() {
                    return Err(ReadFault::Fault(Kind::BadValue));
                }
                let number = number_in(value, 0, QUEUE_LIMIT as u64)?;
                self.queue_size = Some(number as u32);
            }
        }
        Ok(())
    }

    // An option and its value.
    #[tactic(auto, unfolding(sq_rules::specs::LookupLines::size_step))]
    fn take(&mut self, word: &[u8]) -> Result<(), ReadFault>
        ensures { Makes result self.new (size_step self.old word.now) }
    {
        let option = lookup_option(word)?;
        self.set_size(option, behind(word, b'='))
    }

    // The sizes that they state.
    fn finish(self) -> LookupSizes
        ensures { result ≡ sizes_of self }
    {
        let children_max = self.children_max.unwrap_or(8);
        LookupSizes {
            children_max,
            queue_size: self.queue_size.unwrap_or(2 * children_max),
        }
    }
}

// What stands behind `on`.
#[tactic(auto, unfolding(sq_rules::specs::LookupLines::sizes_read))]
fn sizes_read(words: &[Text]) -> Result<Option<LookupSizes>, ReadFault>
    ensures { Gives (λ s. s) result (sizes_read words.now) }
{
    let mut draft = LookupDraft::new();
    for word in words {
        draft.take(word.as_bytes())?;
    }
    Ok(Some(draft.finish()))
}

/// What stands behind `dst_lookup`: the sizes where names are looked up.
#[tactic(auto, unfolding(sq_rules::specs::LookupLines::lookup_line))]
pub fn lookup_line(words: &[Text]) -> Result<Option<LookupSizes>, ReadFault>
    ensures { Gives (λ s. s) result (lookup_line words.now) }
{
    let mut words = ConfigWords::new(words);
    if switch(words.next()?.as_bytes())? {
        return sizes_read(words.rest());
    }
    words.no_more()?;
    Ok(None)
}
