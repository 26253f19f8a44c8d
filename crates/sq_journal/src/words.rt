//! A cursor over the words of a line.
ghost use Rattle.std.specs.Prelude.{◌≡◌, ◌∷◌, [], ◌==◌, length, MatchOption};
ghost use Rattle.sq_journal.specs.Lines.{spaced_words, words_left};

use memchr::memchr;
use std::marker::Model;

/// The words of a line that are left. A contract sees their list.
#[derive(Drop)]
pub struct EntryWords<'a> {
    rest: Option<&'a [u8]>,
}

impl<'a> Model for EntryWords<'a> {
    ghost use Rattle.std.specs.Prelude.{List, ℕ};
    ghost use Rattle.sq_journal.specs.Lines.{words_left};

    ghost Value = { List (List ℕ) };

    ghost view = { λ w. words_left w.rest };
}

impl<'a> EntryWords<'a> {
    /// The words between the spaces of a line: one more than there are spaces.
    pub fn new(line: &'a [u8]) -> EntryWords<'a>
        ensures { result ≡ spaced_words line.now }
    {
        EntryWords { rest: Some(line) }
    }

    /// The next word.
    pub fn next(&mut self) -> Option<&'a [u8]>
        ensures { MatchOption result (self.old ≡ []) (λ word. self.old ≡ word.now ∷ self.new) }
    {
        match self.rest {
            None => None,
            Some(rest) => {
                let (word, left) = first_word(rest);
                self.rest = left;
                Some(word)
            }
        }
    }

    /// The next word, which stays.
    pub fn peek(&self) -> Option<&'a [u8]>
        ensures { MatchOption result (self.now ≡ [])
            (λ word. (ws : _) × (self.now ≡ word.now ∷ ws)) }
    {
        match self.rest {
            None => None,
            Some(rest) => {
                let (word, _) = first_word(rest);
                Some(word)
            }
        }
    }

    /// What is left of the line.
    pub fn rest(&self) -> Option<&'a [u8]>
        ensures { words_left result ≡ self.now }
    {
        self.rest
    }

    /// Whether no word is left.
    pub fn is_done(&self) -> bool
        ensures { result ≡ (length self.now == 0) }
    {
        match self.rest {
            None => true,
            Some(_) => false,
        }
    }
}

// What stands before the first space, and what stands behind it.
#[tactic(auto, unfolding(crate::specs::Lines::spaced_words))]
fn first_word(text: &[u8]) -> (&[u8], Option<&[u8]>)
    ensures { spaced_words text.now ≡ result.0.now ∷ words_left result.1 }
{
    match memchr(b' ', text) {
        None => (text, None),
        Some(place) => {
            let (word, rest) = text.split_at(place);
            let (_, left) = rest.split_at(1);
            (word, Some(left))
        }
    }
}
