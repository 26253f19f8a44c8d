//! The acls of a configuration under way.
ghost use Rattle.std.specs.Prelude.{◌≡◌, ◌≢◌, ◌∷◌, ◌++◌, ◌+◌, ◌<◌, ◌≤◌, [], true, false, not, ◌-◌, cond, if◌then◌else◌, ℕ, List, bytes_eq, length, nat_le, take, Some, None, IfOk, IfErr, IfSome, OnOk, OnErr, slice_index_or};
ghost use Rattle.std.specs.Vec.{vec_capacity, vec_len};
ghost use Rattle.sq_rules.specs.Building.{place_of, with_acl, IsMade};
ghost use Rattle.sq_rules.specs.Changes.{type_at, with_member_at, AreSlowOnes};
ghost use Rattle.sq_rules.specs.Configurations.{are_shallow, are_unique, nesting_of, nestings, slow_ones};
ghost use Rattle.sq_rules.specs.Drafts.{change_body, with_leaf, with_line};
ghost use Rattle.sq_rules.specs.Limits.{most_acls, nesting_limit};
ghost use Rattle.sq_rules.specs.Lookups.{asking_acl, begins_literal, either_acl, has_blank, literal_name, lookup_name, looked_up, named_acl, named_name, unmade_acls, values_acl};
ghost use Rattle.sq_rules.specs.Names.{place_at};

use crate::acl_types::AclType;
use crate::configs::{Acl, Acls, Body, Term};
use crate::leaves::Leaf;
use crate::lookups::{
    asking, either_body, has_blank, is_last_of_four, literal_name, lookup_name, named_body,
    named_name,
};
use crate::member_faults::MemberFault;
use crate::names::Names;
use crate::nesting::{is_slow, nesting_of};
use crate::parts::BuildFault;
use crate::rechecks::{depths_with, renew, slow_with};
use sq_base::{Listed, Ranges, Text, WantOfMemory};
use std::alloc::Global;
use std::marker::Model;

// What an acl of this name adds to the count of those whose names hold no blank.
fn counted(name: &Text) -> usize
    ensures { result ≡ (if has_blank name.now then 0 else 1) }
{
    if has_blank(name.as_bytes()) { 0 } else { 1 }
}

// Makes room for one acl more and puts the place of its name, or nothing of both.
fn make_room(
    alloc: Global,
    name: &Text,
    places: &mut Names,
    acls: &mut Vec<Acl>,
    nestings: &mut Vec<u32>,
    slow: &mut Vec<bool>,
) -> Result<(), WantOfMemory>
    requires { length acls.old.items < most_acls }
    ensures acls { acls.new.items ≡ acls.old.items }
    ensures nestings { nestings.new.items ≡ nestings.old.items }
    ensures slow { slow.new.items ≡ slow.old.items }
    ensures acls_room { OnOk result (vec_len acls.new < vec_capacity acls.new) }
    ensures nestings_room { OnOk result (vec_len nestings.new < vec_capacity nestings.new) }
    ensures slow_room { OnOk result (vec_len slow.new < vec_capacity slow.new) }
    ensures place { OnOk result
        ((q : List ℕ) → place_at places.new q
        ≡ cond (bytes_eq name.now q) (Some (length acls.old.items)) (place_at places.old q)) }
    ensures err { OnErr result (places.new ≡ places.old) }
{
    acls.reserve(1)?;
    nestings.reserve(1)?;
    slow.reserve(1)?;
    places.put(alloc, name, acls.len() as u32)
}

/// Acls with names of their own, and of each its place by name, how deep it nests, and whether it asks
/// a helper or reaches an acl that does. A contract sees the acls.
pub struct AclTable {
    acls: Vec<Acl>,
    places: Names,
    nestings: Vec<u32>,
    slow: Vec<bool>,
    unmade: usize,
}

impl Drop for AclTable {
    fn drop(self) {
        let AclTable {
            acls: _,
            places: _,
            nestings: _,
            slow: _,
            unmade: _,
        } = self;
    }
}

impl Model for AclTable {
    ghost use Rattle.std.specs.Prelude.{List};
    ghost use Rattle.sq_rules.specs.declared.configs.Acl.{Acl};
    ghost use Rattle.sq_rules.specs.Tables.{KnowsAcls};

    ghost Value = { List Acl };

    ghost view = { λ t. t.acls.items };

    ghost invariant = { λ t. KnowsAcls t.acls.items t.places t.nestings.items t.slow.items
        t.unmade };
}

impl AclTable {
    /// No acl yet.
    pub fn new(alloc: Global) -> AclTable
        ensures { result ≡ [] }
    {
        AclTable {
            acls: Vec::new(alloc),
            places: Names::new(alloc),
            nestings: Vec::new(alloc),
            slow: Vec::new(alloc),
            unmade: 0,
        }
    }

    /// How many acls there are.
    pub fn len(&self) -> usize
        ensures { result ≡ length self.now }
    {
        self.acls.len()
    }

    /// How many of them have a name without a blank.
    pub fn unmade(&self) -> usize
        ensures { result ≡ unmade_acls self.now }
    {
        self.unmade
    }

    /// The acls, lent.
    pub fn as_slice(&self) -> &[Acl]
        ensures { result.now ≡ self.now }
    {
        self.acls.as_slice()
    }

    /// The place of the acl with this name.
    pub fn place(&self, name: &Text) -> Option<u32>
        ensures value { result ≡ place_of self.now name.now }
        ensures within { IfSome result (λ place. place < length self.now) }
    {
        self.places.place(name)
    }

    /// The type of the acl at a place.
    pub fn acl_type(&self, place: u32) -> AclType
        requires { place < length self.now }
        ensures { type_at self.now place ≡ Some result }
    {
        if is_last_of_four(self.acls.as_slice(), place) {
            AclType::Dst
        } else {
            self.acls[place as usize].body.acl_type()
        }
    }

    /// Whether the acl at a place asks a helper or reaches one that does.
    pub fn is_slow(&self, place: u32) -> bool
        ensures { result ≡ slice_index_or (slow_ones self.now) place false }
    {
        match self.slow.as_slice().get(place as usize) {
            Some(slow) => *slow,
            None => false,
        }
    }

    /// One acl more, which nests no deeper than it may.
    pub fn push(&mut self, alloc: Global, name: Text, body: Body) -> Result<(), WantOfMemory>
        requires few { length self.old < most_acls }
        requires free { place_of self.old name ≡ None }
        requires shallow { nat_le (nesting_of (nestings self.old) body) nesting_limit ≡ true }
        ensures ok { OnOk result
            (self.new ≡ self.old ++ (record { name = name; body = body }) ∷ []) }
        ensures err { OnErr result (self.new ≡ self.old) }
    {
        let Some(nesting) = nesting_of(self.nestings.as_slice(), &body) else {
            unreachable!();
        };
        let asks = is_slow(self.slow.as_slice(), &body);
        let unmade = self.unmade + counted(&name);
        make_room(
            alloc,
            &name,
            &mut self.places,
            &mut self.acls,
            &mut self.nestings,
            &mut self.slow,
        )?;
        self.nestings.push_reserved(nesting);
        self.slow.push_reserved(asks);
        self.acls.push_reserved(Acl { name, body });
        self.unmade = unmade;
        Ok(())
    }

    // Without the last acl. It takes no memory.
    fn pop(&mut self)
        ensures { self.new ≡ take (length self.old - 1) self.old }
    {
        let Some(acl) = self.acls.pop() else {
            return;
        };
        self.nestings.pop();
        self.slow.pop();
        self.places.remove(&acl.name);
        self.unmade = self.unmade.saturating_sub(counted(&acl.name));
    }

    // The first of the four acls of one of type `dst` more: its values.
    fn push_values(
        &mut self,
        alloc: Global,
        name: &Text,
        values: Ranges,
    ) -> Result<(), WantOfMemory>
        requires few { length self.old < most_acls }
        requires free { place_of self.old (literal_name name.now) ≡ None }
        ensures ok { OnOk result (self.new ≡ self.old ++ values_acl name.now values ∷ []) }
        ensures err { OnErr result (self.new ≡ self.old) }
    {
        let literal = literal_name(alloc, name)?;
        self.push(alloc, literal, Body::Leaf(Leaf::Dst(values)))
    }

    // The second: that which asks for the look-up.
    fn push_asking(&mut self, alloc: Global, name: &Text) -> Result<(), WantOfMemory>
        requires few { length self.old < most_acls }
        requires free { place_of self.old (lookup_name name.now) ≡ None }
        ensures ok { OnOk result (self.new ≡ self.old ++ asking_acl name.now ∷ []) }
        ensures err { OnErr result (self.new ≡ self.old) }
    {
        let lookup = lookup_name(alloc, name)?;
        self.push(alloc, lookup, asking(alloc))
    }

    // The third: the group over the look-up, where the acl of values stands at this place.
    fn push_named(&mut self, alloc: Global, place: u32, name: &Text) -> Result<(), WantOfMemory>
        requires few { length self.old < most_acls }
        requires before { place < length self.old }
        requires free { place_of self.old (named_name name.now) ≡ None }
        requires shallow { nat_le (nesting_of (nestings self.old) (named_acl place name.now).body)
            nesting_limit ≡ true }
        ensures ok { OnOk result (self.new ≡ self.old ++ named_acl place name.now ∷ []) }
        ensures err { OnErr result (self.new ≡ self.old) }
    {
        let named = named_name(alloc, name)?;
        let body = named_body(alloc, place)?;
        self.push(alloc, named, body)
    }

    // The last: the group over the values, which stand at this place, and over that group.
    fn push_either(&mut self, alloc: Global, place: u32, name: Text) -> Result<(), WantOfMemory>
        requires few { length self.old < most_acls }
        requires before { place < length self.old }
        requires free { place_of self.old name ≡ None }
        requires shallow { nat_le (nesting_of (nestings self.old) (either_acl place name).body)
            nesting_limit ≡ true }
        ensures ok { OnOk result (self.new ≡ self.old ++ either_acl place name ∷ []) }
        ensures err { OnErr result (self.new ≡ self.old) }
    {
        let body = either_body(alloc, place)?;
        self.push(alloc, name, body)
    }

    // The first two of the four, or none.
    fn push_leaves(
        &mut self,
        alloc: Global,
        name: &Text,
        values: Ranges,
    ) -> Result<(), WantOfMemory>
        requires few { length self.old + 2 ≤ most_acls }
        requires literal { place_of self.old (literal_name name.now) ≡ None }
        requires lookup { place_of self.old (lookup_name name.now) ≡ None }
        ensures ok { OnOk result (self.new
            ≡ (self.old ++ values_acl name.now values ∷ []) ++ asking_acl name.now ∷ []) }
        ensures err { OnErr result (self.new ≡ self.old) }
    {
        self.push_values(alloc, name, values)?;
        let pushed = self.push_asking(alloc, name);
        if pushed.is_err() {
            self.pop();
        }
        pushed
    }

    // The last two of the four, or none, where the acl of values stands at this place.
    fn push_groups(&mut self, alloc: Global, place: u32, name: Text) -> Result<(), WantOfMemory>
        requires few { length self.old + 2 ≤ most_acls }
        requires before { place < length self.old }
        requires named { place_of self.old (named_name name) ≡ None }
        requires shallow { nat_le (nesting_of (nestings self.old) (named_acl place name).body)
            nesting_limit ≡ true }
        requires either { place_of (self.old ++ named_acl place name ∷ []) name ≡ None }
        requires either_shallow { nat_le
            (nesting_of (nestings (self.old ++ named_acl place name ∷ []))
            (either_acl place name).body) nesting_limit ≡ true }
        ensures ok { OnOk result (self.new
            ≡ (self.old ++ named_acl place name ∷ []) ++ either_acl place name ∷ []) }
        ensures err { OnErr result (self.new ≡ self.old) }
    {
        self.push_named(alloc, place, &name)?;
        let pushed = self.push_either(alloc, place, name);
        if pushed.is_err() {
            self.pop();
        }
        pushed
    }

    /// The four acls of one of type `dst` more, whose names are free.
    pub fn push_lookup(
        &mut self,
        alloc: Global,
        name: Text,
        values: Ranges,
    ) -> Result<(), WantOfMemory>
        requires few { length self.old + 4 ≤ most_acls }
        requires first { begins_literal self.old ≡ true }
        requires free { place_of self.old name ≡ None }
        requires literal { place_of self.old (literal_name name) ≡ None }
        requires lookup { place_of self.old (lookup_name name) ≡ None }
        requires named { place_of self.old (named_name name) ≡ None }
        ensures ok { OnOk result (self.new ≡ self.old ++ looked_up (length self.old) name values) }
        ensures err { OnErr result (self.new ≡ self.old) }
    {
        let place = self.len() as u32;
        self.push_leaves(alloc, &name, values)?;
        let pushed = self.push_groups(alloc, place, name);
        if pushed.is_err() {
            self.pop();
            self.pop();
        }
        pushed
    }

    // Whether an acl of this body would nest deeper than it may.
    fn is_too_deep(&self, body: &Body) -> bool
        ensures { result ≡ not (nat_le (nesting_of (nestings self.now) body.now) nesting_limit) }
    {
        nesting_of(self.nestings.as_slice(), body).is_none()
    }

    /// One acl more, which must not nest too deep.
    pub fn with(&mut self, alloc: Global, name: Text, body: Body) -> Result<(), BuildFault>
        requires few { length self.old < most_acls }
        requires free { place_of self.old name ≡ None }
        ensures made { OnOk result (with_acl self.old name body ≡ Ok self.new) }
        ensures longer { OnOk result
            (self.new ≡ self.old ++ (record { name = name; body = body }) ∷ []) }
        ensures err { IfErr result (λ e. e ≢ BuildFault.WantOfMemory
            → with_acl self.old name body ≡ Err e) }
    {
        if self.is_too_deep(&body) {
            return Err(BuildFault::TooDeep(name));
        }
        self.push(alloc, name, body)?;
        Ok(())
    }

    /// Puts further values into the leaf at a place.
    pub fn join_leaf(&mut self, alloc: Global, place: u32, more: Leaf) -> Result<(), WantOfMemory>
        requires { place < length self.old }
        ensures ok { OnOk result (self.new ≡ change_body place (with_leaf more) self.old) }
        ensures err { OnErr result (self.new ≡ self.old) }
    {
        let mut more = more;
        self.acls[place as usize].join(alloc, &mut more)
    }

    /// Opens a further line of members of the acl at a place; only that of `all-of` counts.
    pub fn open_line(&mut self, alloc: Global, place: u32) -> Result<(), WantOfMemory>
        requires { place < length self.old }
        ensures ok { OnOk result (self.new ≡ change_body place with_line self.old) }
        ensures err { OnErr result (self.new ≡ self.old) }
    {
        self.acls[place as usize].open_line(alloc)
    }

    /// Which acls ask a helper or reach one that does, where the group at a place has this member too;
    /// None says that they are the same as without it.
    pub fn slow_with(
        &self,
        alloc: Global,
        place: u32,
        term: Term,
    ) -> Result<Option<Listed<bool>>, WantOfMemory>
        requires { place < length self.now }
        ensures { IfOk result
            (λ new. AreSlowOnes new self.now (with_member_at place term self.now)) }
    {
        slow_with(
            alloc,
            self.slow.as_slice(),
            self.acls.as_slice(),
            place as usize,
            term,
        )
    }

    /// Puts a member into the group at a place, where no acl nests too deep then. `slow` is what
    /// `slow_with` answers of it.
    pub fn add_member(
        &mut self,
        alloc: Global,
        place: u32,
        term: Term,
        slow: Option<Listed<bool>>,
    ) -> Result<(), MemberFault>
        requires within { place < length self.old }
        requires slow { AreSlowOnes slow self.old (with_member_at place term self.old) }
        ensures ok { OnOk result (self.new ≡ with_member_at place term self.old) }
        ensures shallow { OnOk result (are_shallow (with_member_at place term self.old) ≡ true) }
        ensures not_slow { IfErr result (λ e. e ≢ MemberFault.Slow) }
        ensures deep { IfErr result
            (λ e. e ≡ MemberFault.Deep → are_shallow (with_member_at place term self.old) ≡ false) }
        ensures err { OnErr result (self.new ≡ self.old) }
    {
        let acls = self.acls.as_slice();
        let depths = depths_with(alloc, self.nestings.as_slice(), acls, place as usize, term)?;
        self.acls[place as usize].add_member(alloc, term)?;
        renew(&mut self.nestings, depths);
        renew(&mut self.slow, slow);
        Ok(())
    }

    /// The acls alone.
    pub fn into_acls(self) -> Acls
        ensures acls { result ≡ self }
        ensures unique { are_unique result ≡ true }
        ensures shallow { are_shallow result ≡ true }
    {
        let AclTable {
            acls,
            places: _,
            nestings: _,
            slow: _,
            unmade: _,
        } = self;
        Listed::from_vec(acls)
    }
}
