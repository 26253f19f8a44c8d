//! Acls of type `dst` where the names of hosts are looked up.
ghost use Rattle.std.specs.Prelude.{◌≡◌, true, false, nat_lt, None, IfOk, OnErr, OnOk};
ghost use Rattle.sq_rules.specs.AclLines.{are_free};
ghost use Rattle.sq_rules.specs.Building.{place_of};
ghost use Rattle.sq_rules.specs.Drafts.{with_lookup};
ghost use Rattle.sq_rules.specs.Limits.{acl_limit};
ghost use Rattle.sq_rules.specs.Lookups.{has_blank, stated_acls};

use crate::builder::Builder;
use sq_base::{Ranges, Text, WantOfMemory};
use sq_rules::{literal_name, lookup_name, named_name};
use std::alloc::Global;

impl Builder {
    /// Whether names are looked up.
    pub fn looks_up(&self) -> bool
        ensures { result ≡ self.now.dst_lookup }
    {
        self.dst_lookup
    }

    /// Whether the names of what is made for an acl of type `dst` are free.
    pub fn is_free(&self, alloc: Global, name: &Text) -> Result<bool, WantOfMemory>
        ensures { IfOk result (λ b. b ≡ are_free self.now.acls name.now) }
    {
        let literal = literal_name(alloc, name)?;
        let lookup = lookup_name(alloc, name)?;
        let named = named_name(alloc, name)?;
        let acls = &self.acls;
        Ok(
            acls.place(&literal).is_none()
                && acls.place(&lookup).is_none()
                && acls.place(&named).is_none(),
        )
    }

    /// A new acl of type `dst`, which is four, whose names are free.
    pub fn push_lookup(
        &mut self,
        alloc: Global,
        name: Text,
        values: Ranges,
    ) -> Result<(), WantOfMemory>
        requires on { self.old.dst_lookup ≡ true }
        requires free { place_of self.old.acls name ≡ None }
        requires made { are_free self.old.acls name ≡ true }
        requires room { nat_lt (stated_acls self.old.dst_lookup self.old.acls) acl_limit ≡ true }
        requires word { has_blank name ≡ false }
        ensures ok { OnOk result (self.new ≡ with_lookup name values self.old) }
        ensures err { OnErr result (self.new ≡ self.old) }
    {
        self.acls.push_lookup(alloc, name, values)
    }
}
