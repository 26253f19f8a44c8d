//! `ConfigWords`: the words of a line, taken from the left.
ghost use Rattle.std.specs.Prelude.{◌≡◌, true, false, IfOk, IfErr};
ghost use Rattle.sq_conf.specs.Forms.{Takes};
ghost use Rattle.sq_rules.specs.Steps.{word, is_empty, begins};

use crate::faults::ReadFault;
use sq_base::Text;
use sq_rules::Kind;
use std::marker::Model;

/// The words of a line that are left.
#[derive(Drop)]
pub struct ConfigWords<'a> {
    left: &'a [Text],
}

impl<'a> Model for ConfigWords<'a> {
    ghost use Rattle.std.specs.Prelude.{List, ℕ};

    ghost Value = { List (List ℕ) };

    ghost view = { λ w. w.left.now };
}

impl<'a> ConfigWords<'a> {
    /// All words of a line.
    pub fn new(words: &'a [Text]) -> ConfigWords<'a>
        ensures { result ≡ words.now }
    {
        ConfigWords { left: words }
    }

    /// Takes the next word, which is needed.
    pub fn next(&mut self) -> Result<&'a Text, ReadFault>
        ensures { Takes (λ w. w.now) result self.new (word self.old) }
    {
        match self.left {
            [] => Err(ReadFault::Fault(Kind::MissingWord)),
            [word, rest @ ..] => {
                self.left = rest;
                Ok(word)
            }
        }
    }

    /// A fault where a word is left.
    pub fn no_more(&self) -> Result<(), ReadFault>
        ensures ok { IfOk result (λ _. is_empty self.now ≡ true) }
        ensures err { IfErr result
            (λ e. (e ≡ ReadFault.Fault Kind.BadValue) × (is_empty self.now ≡ false)) }
    {
        match self.left {
            [] => Ok(()),
            [_, ..] => Err(ReadFault::Fault(Kind::BadValue)),
        }
    }

    /// The words that are left.
    pub fn rest(&self) -> &'a [Text]
        ensures { result.now ≡ self.now }
    {
        self.left
    }
}

/// Whether a word begins with this byte.
pub fn begins(word: &[u8], byte: u8) -> bool
    ensures { result ≡ begins byte word.now }
{
    match word {
        [] => false,
        [first, ..] => *first == byte,
    }
}
