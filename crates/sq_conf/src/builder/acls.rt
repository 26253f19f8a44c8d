//! Acls: their lines, and what is asked of them.
ghost use Rattle.std.specs.Prelude.{◌≡◌, ◌≤◌, ◌<◌, ◌&&◌, [], true, false, length, nat_lt, slice_index_or, Some, None, IfErr, IfSome, OnOk, OnErr};
ghost use Rattle.sq_rules.specs.Building.{place_of};
ghost use Rattle.sq_rules.specs.Changes.{type_at, with_member_at};
ghost use Rattle.sq_rules.specs.Configurations.{are_shallow, slow_ones};
ghost use Rattle.sq_rules.specs.Drafts.{are_fast, are_patterns, with_acl_more, with_body, with_leaf, with_line, with_member};
ghost use Rattle.sq_rules.specs.Limits.{acl_limit, most_acls};
ghost use Rattle.sq_rules.specs.Lookups.{has_blank, is_dst, stated_acls, takes_members};
ghost use Rattle.sq_rules.specs.declared.configs.Body.TheVariants as body;

use crate::builder::Builder;
use crate::pools::stay_fast;
use sq_base::{Listed, Text, Texts, WantOfMemory};
use sq_rules::{ACL_LIMIT, AclType, Body, Leaf, MemberFault, Term};
use std::alloc::Global;

impl Builder {
    /// The place of the acl with this name.
    pub fn acl_place(&self, name: &Text) -> Option<u32>
        ensures value { result ≡ place_of self.now.acls name.now }
        ensures within { IfSome result (λ place. place < length self.now.acls) }
    {
        self.acls.place(name)
    }

    /// How many acls there are.
    pub fn acl_count(&self) -> usize
        ensures count { result ≡ length self.now.acls }
        ensures few { result ≤ most_acls }
    {
        self.acls.len()
    }

    /// Whether one acl more may stand.
    pub fn has_room_for_acl(&self) -> bool
        ensures { result ≡ nat_lt (stated_acls self.now.dst_lookup self.now.acls) acl_limit }
    {
        let stated = if self.dst_lookup {
            self.acls.unmade()
        } else {
            self.acls.len()
        };
        stated < ACL_LIMIT
    }

    /// The type of the acl at a place.
    pub fn acl_type(&self, place: u32) -> AclType
        requires { place < length self.now.acls }
        ensures { type_at self.now.acls place ≡ Some result }
    {
        self.acls.acl_type(place)
    }

    /// Whether the acl at a place asks a helper or reaches one that does.
    pub fn is_slow(&self, place: u32) -> bool
        ensures { result ≡ slice_index_or (slow_ones self.now.acls) place false }
    {
        self.acls.is_slow(place)
    }

    /// A new acl of values.
    pub fn push_leaf(&mut self, alloc: Global, name: Text, leaf: Leaf) -> Result<(), WantOfMemory>
        requires free { place_of self.old.acls name ≡ None }
        requires room { nat_lt (stated_acls self.old.dst_lookup self.old.acls) acl_limit ≡ true }
        requires word { has_blank name ≡ false }
        requires patterns { are_patterns leaf ≡ true }
        requires plain { (self.old.dst_lookup && is_dst (body.Leaf leaf)) ≡ false }
        ensures ok { OnOk result (self.new ≡ with_acl_more name (body.Leaf leaf) self.old) }
        ensures err { OnErr result (self.new ≡ self.old) }
    {
        self.acls.push(alloc, name, Body::Leaf(leaf))
    }

    /// A new acl that asks a helper of the class at a place.
    pub fn push_external(
        &mut self,
        alloc: Global,
        name: Text,
        class: u32,
        arguments: Texts,
    ) -> Result<(), WantOfMemory>
        requires free { place_of self.old.acls name ≡ None }
        requires room { nat_lt (stated_acls self.old.dst_lookup self.old.acls) acl_limit ≡ true }
        requires word { has_blank name ≡ false }
        requires class { class < length self.old.classes }
        ensures ok { OnOk result
            (self.new ≡ with_acl_more name (body.External class arguments) self.old) }
        ensures err { OnErr result (self.new ≡ self.old) }
    {
        self.acls
            .push(alloc, name, Body::External { class, arguments })
    }

    /// A new group that holds where some member does, with no member yet.
    pub fn push_any_of(&mut self, alloc: Global, name: Text) -> Result<(), WantOfMemory>
        requires free { place_of self.old.acls name ≡ None }
        requires room { nat_lt (stated_acls self.old.dst_lookup self.old.acls) acl_limit ≡ true }
        requires word { has_blank name ≡ false }
        ensures ok { OnOk result (self.new ≡ with_acl_more name (body.AnyOf []) self.old) }
        ensures err { OnErr result (self.new ≡ self.old) }
        ensures group { OnOk result
            (takes_members self.new.dst_lookup self.new.acls (length self.old.acls) ≡ true) }
    {
        self.acls.push(alloc, name, Body::AnyOf(Listed::new(alloc)))
    }

    /// A new group that holds where all members of some line do, with no line yet.
    pub fn push_all_of(&mut self, alloc: Global, name: Text) -> Result<(), WantOfMemory>
        requires free { place_of self.old.acls name ≡ None }
        requires room { nat_lt (stated_acls self.old.dst_lookup self.old.acls) acl_limit ≡ true }
        requires word { has_blank name ≡ false }
        ensures ok { OnOk result (self.new ≡ with_acl_more name (body.AllOf []) self.old) }
        ensures err { OnErr result (self.new ≡ self.old) }
        ensures group { OnOk result
            (takes_members self.new.dst_lookup self.new.acls (length self.old.acls) ≡ true) }
    {
        self.acls.push(alloc, name, Body::AllOf(Listed::new(alloc)))
    }

    /// Puts further values into the acl at a place.
    pub fn join_leaf(&mut self, alloc: Global, place: u32, leaf: Leaf) -> Result<(), WantOfMemory>
        requires within { place < length self.old.acls }
        requires patterns { are_patterns leaf ≡ true }
        ensures ok { OnOk result (self.new ≡ with_body place (with_leaf leaf) self.old) }
        ensures err { OnErr result (self.new ≡ self.old) }
    {
        self.acls.join_leaf(alloc, place, leaf)
    }

    /// Opens a further line of members of the acl at a place.
    pub fn open_line(&mut self, alloc: Global, place: u32) -> Result<(), WantOfMemory>
        requires within { place < length self.old.acls }
        requires group { takes_members self.old.dst_lookup self.old.acls place ≡ true }
        ensures ok { OnOk result (self.new ≡ with_body place with_line self.old) }
        ensures err { OnErr result (self.new ≡ self.old) }
        ensures count { length self.new.acls ≡ length self.old.acls }
        ensures group { takes_members self.new.dst_lookup self.new.acls place ≡ true }
    {
        self.acls.open_line(alloc, place)
    }

    /// Puts a member into the group at a place. A rule of a pool or for fields that would reach a slow acl is told
    /// before groups that would nest too deep.
    pub fn add_member(&mut self, alloc: Global, place: u32, term: Term) -> Result<(), MemberFault>
        requires within { place < length self.old.acls }
        requires earlier { term.acl < place }
        requires group { takes_members self.old.dst_lookup self.old.acls place ≡ true }
        ensures ok { OnOk result (self.new ≡ with_body place (with_member term) self.old) }
        ensures fast { OnOk result
            (are_fast (with_member_at place term self.old.acls) self.old.pools self.old.headers
            ≡ true) }
        ensures shallow { OnOk result
            (are_shallow (with_member_at place term self.old.acls) ≡ true) }
        ensures slow { IfErr result
            (λ e. e ≡ MemberFault.Slow
            → are_fast (with_member_at place term self.old.acls) self.old.pools self.old.headers
            ≡ false) }
        ensures not_slow { IfErr result
            (λ e. e ≡ MemberFault.Deep
            → are_fast (with_member_at place term self.old.acls) self.old.pools self.old.headers
            ≡ true) }
        ensures deep { IfErr result
            (λ e. e ≡ MemberFault.Deep
            → are_shallow (with_member_at place term self.old.acls) ≡ false) }
        ensures err { OnErr result (self.new ≡ self.old) }
        ensures count { length self.new.acls ≡ length self.old.acls }
        ensures group { takes_members self.new.dst_lookup self.new.acls place ≡ true }
    {
        let slow = self.acls.slow_with(alloc, place, term)?;
        if !stay_fast(&slow, self.pools.as_slice(), self.headers.as_slice()) {
            return Err(MemberFault::Slow);
        }
        self.acls.add_member(alloc, place, term, slow)
    }
}
