//! The open question of each key.
ghost use Rattle.std.specs.Prelude.{◌≡◌, [], ℕ, List, Some, None, if◌then◌else◌, OnOk, OnErr};
ghost use Rattle.sq_machine.specs.KeptLists.{same_key};
ghost use Rattle.sq_lookup.specs.Index.{question_at, without_key};

use sq_base::{QuestionNo, Text, WantOfMemory};
use std::alloc::Global;
use std::collections::BTreeMap;
use std::marker::Model;

// Questions by key, in a tree: strangers choose the keys, and no choice makes it deep.
#[derive(Drop)]
pub(crate) struct Keys {
    map: BTreeMap<Text, QuestionNo>,
}

impl Model for Keys {
    ghost use Rattle.std.specs.Prelude.{List, ℕ};

    ghost Value = { List (List ℕ × ℕ) };

    ghost view = { λ k. k.map.entries };
}

impl Keys {
    pub(crate) fn new(alloc: Global) -> Keys
        ensures { result ≡ [] }
    {
        Keys {
            map: BTreeMap::new(alloc),
        }
    }

    // The question of a key.
    pub(crate) fn question(&self, key: &Text) -> Option<QuestionNo>
        ensures { result ≡ question_at self.now key.now }
    {
        self.map.get(key).copied()
    }

    // Puts the question of a key that has none.
    pub(crate) fn put(&mut self, key: Text, question: QuestionNo) -> Result<(), WantOfMemory>
        requires { question_at self.old key ≡ None }
        ensures ok { OnOk result
            ((k : List ℕ) → question_at self.new k
            ≡ (if same_key k key then Some question else question_at self.old k)) }
        ensures undo { OnOk result (without_key key self.new ≡ self.old) }
        ensures err { OnErr result (self.new ≡ self.old) }
    {
        let _was = self.map.insert(key, question)?;
        Ok(())
    }

    // Takes a key away.
    pub(crate) fn remove(&mut self, key: &Text)
        ensures list { self.new ≡ without_key key.now self.old }
        ensures question { (k : List ℕ)
            → question_at self.new k
            ≡ (if same_key k key.now then None else question_at self.old k) }
    {
        let _was = self.map.remove(key);
    }
}
