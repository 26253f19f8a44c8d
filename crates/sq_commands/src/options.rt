//! The words of `serve`.
ghost use Rattle.std.specs.Prelude.{◌≡◌, ◌<◌, ◌≤◌, IfSome, MatchOption, None, Some};
ghost use Rattle.sq_commands.specs.Limits.{most_workers};
ghost use Rattle.sq_commands.specs.Serving.{options_from, positive_of, service_of, shown_service, with_option};

use sq_base::{PORT_LIMIT, Text, number_of};
use sq_journal::minutes_of;
use sq_machine::Offset;
use std::marker::Model;

/// The most workers that a server has.
const MOST_WORKERS: u64 = 4_096;

/// How many workers serve connections, from 1 to [`MOST_WORKERS`].
#[derive(Clone, Copy)]
pub struct Workers(pub u32);

impl Model for Workers {
    ghost use Rattle.std.specs.Prelude.{ℕ, ◌<◌, ◌≤◌};
    ghost use Rattle.sq_commands.specs.Limits.{most_workers};

    ghost Value = { ℕ };

    ghost view = { λ w. w.0 };

    ghost invariant = { λ w. (0 < w.0) × (w.0 ≤ most_workers) };

    ghost inverse = { λ n. record { 0 = n } };
}

/// What the options of `serve` state.
#[derive(Clone, Copy)]
pub struct Options {
    /// The port at which the server listens, above 0.
    pub port: Option<u16>,
    /// How many workers serve connections.
    pub workers: Option<Workers>,
    /// By how many minutes local time is ahead of UTC.
    pub offset: Option<Offset>,
}

/// A server by the file of its configuration, with what its options state.
#[derive(Drop)]
pub struct Service<'a> {
    pub conf: &'a Text,
    pub options: Options,
}

// A number from 1 to below the limit.
fn positive_of(word: &[u8], limit: u64) -> Option<u64>
    ensures read { result ≡ positive_of limit word.now }
    ensures bound { IfSome result (λ n. (0 < n) × (n < limit)) }
{
    let number = number_of(word, limit)?;
    if number == 0 {
        return None;
    }
    Some(number)
}

// What is stated with one option more.
fn with_option(word: &Text, value: &Text, options: Options) -> Option<Options>
    ensures { result ≡ with_option word.now value.now options }
{
    let mut options = options;
    let name = word.as_bytes();
    let value = value.as_bytes();
    if name == b"--port".as_slice() {
        if options.port.is_some() {
            return None;
        }
        options.port = Some(positive_of(value, PORT_LIMIT)? as u16);
    } else if name == b"--workers".as_slice() {
        if options.workers.is_some() {
            return None;
        }
        options.workers = Some(Workers(positive_of(value, MOST_WORKERS + 1)? as u32));
    } else if name == b"--utc-offset".as_slice() {
        if options.offset.is_some() {
            return None;
        }
        options.offset = Some(Offset(minutes_of(value)?));
    } else {
        return None;
    }
    Some(options)
}

// What pairs of an option and its value state behind others.
fn options_from(words: &[Text], options: Options) -> Option<Options>
    ensures { result ≡ options_from words.now options }
{
    match words {
        [] => Some(options),
        [word, value, rest @ ..] => match with_option(word, value, options) {
            Some(options) => options_from(rest, options),
            None => None,
        },
        _ => None,
    }
}

/// The server that these words name, the program's name left out.
pub fn read_service(words: &[Text]) -> Option<Service<'_>>
    ensures { MatchOption result (service_of words.now ≡ None)
        (λ s. service_of words.now ≡ Some (shown_service s)) }
{
    match words {
        [word, conf, rest @ ..] => {
            if word.as_bytes() != b"serve".as_slice() {
                return None;
            }
            let none = Options {
                port: None,
                workers: None,
                offset: None,
            };
            let options = options_from(rest, none)?;
            Some(Service { conf, options })
        }
        _ => None,
    }
}
