//! The classes of a configuration under way.
ghost use Rattle.std.specs.Prelude.{◌≡◌, ◌∷◌, ◌++◌, ◌<◌, [], true, length, None, IfSome, OnOk, OnErr};
ghost use Rattle.sq_rules.specs.Building.{class_place};
ghost use Rattle.sq_rules.specs.Configurations.{have_distinct_names};
ghost use Rattle.sq_rules.specs.Limits.{most_classes};

use crate::classes::{Class, Classes};
use crate::names::Names;
use sq_base::{Listed, Text, WantOfMemory};
use std::alloc::Global;
use std::marker::Model;

/// Classes with names of their own, and their places by name. A contract sees the classes.
pub struct ClassTable {
    classes: Vec<Class>,
    places: Names,
}

impl Drop for ClassTable {
    fn drop(self) {
        let ClassTable {
            classes: _,
            places: _,
        } = self;
    }
}

impl Model for ClassTable {
    ghost use Rattle.std.specs.Prelude.{◌≡◌, List, true};
    ghost use Rattle.sq_rules.specs.Classes.{Class};
    ghost use Rattle.sq_rules.specs.Configurations.{have_distinct_names};
    ghost use Rattle.sq_rules.specs.Names.{KnowsPlaces};

    ghost Value = { List Class };

    ghost view = { λ t. t.classes.items };

    ghost invariant = { λ t. KnowsPlaces (λ c. c.name) t.places t.classes.items
        × (have_distinct_names t.classes.items ≡ true) };
}

impl ClassTable {
    /// No class yet.
    pub fn new(alloc: Global) -> ClassTable
        ensures { result ≡ [] }
    {
        ClassTable {
            classes: Vec::new(alloc),
            places: Names::new(alloc),
        }
    }

    /// The place of the class with this name.
    pub fn place(&self, name: &Text) -> Option<u32>
        ensures value { result ≡ class_place self.now name.now }
        ensures within { IfSome result (λ place. place < length self.now) }
    {
        self.places.place(name)
    }

    /// How many classes there are.
    pub fn len(&self) -> usize
        ensures { result ≡ length self.now }
    {
        self.classes.len()
    }

    /// One class more.
    pub fn push(&mut self, alloc: Global, class: Class) -> Result<(), WantOfMemory>
        requires few { length self.old < most_classes }
        requires free { class_place self.old class.name ≡ None }
        ensures ok { OnOk result (self.new ≡ self.old ++ class ∷ []) }
        ensures err { OnErr result (self.new ≡ self.old) }
    {
        self.classes.reserve(1)?;
        let place = self.classes.len() as u32;
        self.places.put(alloc, &class.name, place)?;
        self.classes.push_reserved(class);
        Ok(())
    }

    /// The classes, lent.
    pub fn as_slice(&self) -> &[Class]
        ensures { result.now ≡ self.now }
    {
        self.classes.as_slice()
    }

    /// The classes alone.
    pub fn into_classes(self) -> Classes
        ensures classes { result ≡ self }
        ensures distinct { have_distinct_names result ≡ true }
    {
        let ClassTable { classes, places: _ } = self;
        Listed::from_vec(classes)
    }
}
