//! Classes of helpers.
ghost use Rattle.std.specs.Prelude.{◌≡◌, ◌++◌, ◌∷◌, ◌<◌, [], true, length, nat_lt, None, IfSome, OnOk, OnErr};
ghost use Rattle.sq_rules.specs.Building.{class_place};
ghost use Rattle.sq_rules.specs.Lookups.{classes_within};

use crate::builder::Builder;
use sq_base::{Text, WantOfMemory};
use sq_rules::{CLASS_LIMIT, Class};
use std::alloc::Global;

impl Builder {
    /// The place of the class with this name.
    pub fn class_place(&self, name: &Text) -> Option<u32>
        ensures value { result ≡ class_place self.now.classes name.now }
        ensures within { IfSome result (λ place. place < length self.now.classes) }
    {
        self.classes.place(name)
    }

    /// Whether one class more may stand.
    pub fn has_room_for_class(&self) -> bool
        ensures { result ≡ nat_lt (length self.now.classes) (classes_within self.now.dst_lookup) }
    {
        let made = if self.dst_lookup { 1 } else { 0 };
        self.classes.len() < CLASS_LIMIT + made
    }

    /// One class more.
    pub fn push_class(&mut self, alloc: Global, class: Class) -> Result<(), WantOfMemory>
        requires free { class_place self.old.classes class.name ≡ None }
        requires room { nat_lt (length self.old.classes) (classes_within self.old.dst_lookup)
            ≡ true }
        ensures ok { OnOk result
            (self.new ≡ record self.old { classes = self.old.classes ++ class ∷ [] }) }
        ensures err { OnErr result (self.new ≡ self.old) }
    {
        self.classes.push(alloc, class)
    }
}
