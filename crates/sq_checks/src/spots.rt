//! The open groups of a place in rules.
ghost use Rattle.std.specs.Prelude.{◌≡◌, ◌<◌, ◌∷◌, [], length, drop, IfOk};
ghost use Rattle.sq_checks.specs.Groups.{first_of};

use sq_base::WantOfMemory;
use std::alloc::Global;
use std::marker::Model;

/// A group that is looked at: its acl, whether `!` stands before the term that named it, and which of its
/// terms is next, by its line and its place in the line.
#[derive(Clone, Copy)]
pub struct GroupSpot {
    pub acl: u32,
    pub negated: bool,
    pub line: usize,
    pub term: usize,
}

/// Room for open groups, and those that are open, the innermost first.
#[derive(Drop)]
pub struct Spots {
    spots: Vec<GroupSpot>,
    free: usize,
}

impl Model for Spots {
    ghost use Rattle.std.specs.Prelude.{drop, length, ◌≤◌};
    ghost use Rattle.sq_checks.specs.OpenGroups.{OpenGroups};

    ghost Value = { OpenGroups };

    ghost view = { λ s. record { room = length s.spots.items; list = drop s.free s.spots.items } };

    ghost invariant = { λ s. s.free ≤ length s.spots.items };
}

impl Spots {
    /// Room for so many groups, of which none is open.
    pub fn new(alloc: Global, room: usize) -> Result<Spots, WantOfMemory>
        ensures { IfOk result (λ s. s ≡ record { room = room; list = [] }) }
    {
        let closed = GroupSpot {
            acl: 0,
            negated: false,
            line: 0,
            term: 0,
        };
        let spots = vec![in alloc; closed; room]?;
        let free = spots.len();
        Ok(Spots { spots, free })
    }

    /// The innermost group, if one is open.
    pub fn first(&self) -> Option<GroupSpot>
        ensures { result ≡ first_of self.now.list }
    {
        if self.free < self.spots.len() {
            Some(self.spots[self.free])
        } else {
            None
        }
    }

    /// A group opens inside of the others. It asks that there is room.
    pub fn open(&mut self, spot: GroupSpot)
        requires { length self.old.list < self.old.room }
        ensures { self.new ≡ record { room = self.old.room; list = spot ∷ self.old.list } }
    {
        self.free -= 1;
        self.spots[self.free] = spot;
    }

    /// Another place in the innermost group. It asks that one is open.
    pub fn set(&mut self, spot: GroupSpot)
        requires { 0 < length self.old.list }
        ensures { self.new ≡ record { room = self.old.room; list = spot ∷ drop 1 self.old.list } }
    {
        self.spots[self.free] = spot;
    }

    /// The innermost group is closed. It asks that one is open.
    #[tactic(auto, using(crate::proofs::DropLaws::drop_one, crate::proofs::DropLaws::more_left))]
    pub fn close(&mut self)
        requires { 0 < length self.old.list }
        ensures { self.new ≡ record { room = self.old.room; list = drop 1 self.old.list } }
    {
        self.free += 1;
    }
}
