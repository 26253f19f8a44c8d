//! Places by name.
ghost use Rattle.std.specs.Prelude.{◌≡◌, [], cond, ℕ, List, None, Some, bytes_eq, OnOk, OnErr};
ghost use Rattle.sq_rules.specs.Names.{place_at};

use sq_base::{Copying, Text, WantOfMemory};
use std::alloc::Global;
use std::collections::BTreeMap;
use std::marker::Model;

/// The places of names. A contract sees each name with its place.
pub struct Names {
    places: BTreeMap<Text, u32>,
}

// Written out, as the drops of the tables are, so that what lets one go proves one call, and not the drop of each part.
impl Drop for Names {
    fn drop(self) {
        let Names { places: _ } = self;
    }
}

impl Model for Names {
    ghost use Rattle.std.specs.Prelude.{List, ℕ};

    ghost Value = { List (List ℕ × ℕ) };

    ghost view = { λ n. n.places.entries };
}

impl Names {
    /// No names yet.
    pub fn new(alloc: Global) -> Names
        ensures { result ≡ [] }
    {
        Names {
            places: BTreeMap::new(alloc),
        }
    }

    /// The place of a name.
    pub fn place(&self, name: &Text) -> Option<u32>
        ensures { result ≡ place_at self.now name.now }
    {
        self.places.get(name).copied()
    }

    /// Puts the place of a name, of which it keeps a copy.
    pub fn put(&mut self, alloc: Global, name: &Text, place: u32) -> Result<(), WantOfMemory>
        ensures ok { OnOk result
            ((q : List ℕ) → place_at self.new q
            ≡ cond (bytes_eq name.now q) (Some place) (place_at self.old q)) }
        ensures err { OnErr result (self.new ≡ self.old) }
    {
        let key = name.copy(alloc)?;
        match self.places.insert(key, place) {
            Ok(_) => {}
            Err(_) => return Err(WantOfMemory),
        }
        Ok(())
    }

    /// Takes the place of a name out. It takes no memory.
    pub fn remove(&mut self, name: &Text)
        ensures { (q : List ℕ) → place_at self.new q
            ≡ cond (bytes_eq name.now q) None (place_at self.old q) }
    {
        let _ = self.places.remove(name);
    }
}
