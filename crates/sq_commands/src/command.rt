//! The words of a command.
ghost use Rattle.std.specs.Prelude.{◌≡◌, Some, None, MatchOption};
ghost use Rattle.sq_commands.specs.Commands.{command_of, pair_command, rehearse_command, shown_command, single_command};

use sq_base::{Text, number_of};

/// Numbers of requests that are rehearsed are below this.
const REHEARSE_LIMIT: u64 = 1_000_001;

/// A command with the names of its files, or its number.
#[derive(Drop)]
pub enum Command<'a> {
    /// `parse CONF`
    Parse { conf: &'a Text },
    /// `replay CONF SCRIPT`
    Replay { conf: &'a Text, script: &'a Text },
    /// `verify CONF JOURNAL`
    Verify { conf: &'a Text, journal: &'a Text },
    /// `migrate JOURNAL`
    Migrate { journal: &'a Text },
    /// `rehearse N`
    Rehearse { count: u32 },
}

/// The command that these words are, the program's name left out.
pub fn read_command(words: &[Text]) -> Option<Command<'_>>
    ensures { MatchOption result (command_of words.now ≡ None)
        (λ c. command_of words.now ≡ Some (shown_command c)) }
{
    match words {
        [word, other] => read_single(word, other),
        [word, conf, file] => read_pair(word, conf, file),
        _ => None,
    }
}

// The command of a word and a name or a number.
fn read_single<'a>(word: &Text, file: &'a Text) -> Option<Command<'a>>
    ensures { MatchOption result (single_command word.now file.now ≡ None)
        (λ c. single_command word.now file.now ≡ Some (shown_command c)) }
{
    if word.as_bytes() == b"parse".as_slice() {
        Some(Command::Parse { conf: file })
    } else if word.as_bytes() == b"migrate".as_slice() {
        Some(Command::Migrate { journal: file })
    } else if word.as_bytes() == b"rehearse".as_slice() {
        read_rehearse(file)
    } else {
        None
    }
}

// A rehearsal of the number of requests that a word spells.
fn read_rehearse<'a>(word: &'a Text) -> Option<Command<'a>>
    ensures { MatchOption result (rehearse_command word.now ≡ None)
        (λ c. rehearse_command word.now ≡ Some (shown_command c)) }
{
    match number_of(word.as_bytes(), REHEARSE_LIMIT) {
        Some(count) => Some(Command::Rehearse {
            count: count as u32,
        }),
        None => None,
    }
}

// The command of a word and two names.
fn read_pair<'a>(word: &Text, conf: &'a Text, file: &'a Text) -> Option<Command<'a>>
    ensures { MatchOption result (pair_command word.now conf.now file.now ≡ None)
        (λ c. pair_command word.now conf.now file.now ≡ Some (shown_command c)) }
{
    if word.as_bytes() == b"replay".as_slice() {
        Some(Command::Replay { conf, script: file })
    } else if word.as_bytes() == b"verify".as_slice() {
        Some(Command::Verify {
            conf,
            journal: file,
        })
    } else {
        None
    }
}
