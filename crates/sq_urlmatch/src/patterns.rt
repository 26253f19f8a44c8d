//! The compiled patterns of all acls of a configuration.
ghost use Rattle.std.specs.Prelude.{◌≡◌, ◌≢◌, ◌<◌, ◌^◌, [], length, slice_index_or, Some, None, IfOk, IfErr};
ghost use Rattle.sq_rules.specs.Patterns.{some_found};
ghost use Rattle.sq_urlmatch.specs.Found.{fault_at, fault_from, finds_in, finds_of_each, first_bad};

use crate::compiled::Compiled;
use crate::setup::SetupFault;
use crate::trees::is_pattern;
use sq_base::WantOfMemory;
use sq_rules::{Acl, Body, Find, Leaf};
use std::alloc::Global;
use std::marker::Model;

/// How many bytes the matches of a configuration may keep of what they learn.
const ROOM: usize = 64 << 20;

/// How many of these the matches of one acl may keep.
const ROOM_OF_ACL: usize = 8 << 20;

/// The patterns of each acl, compiled, by its place. A contract sees the patterns.
#[derive(Drop)]
pub struct Patterns {
    lists: Vec<Compiled>,
}

impl Model for Patterns {
    ghost use Rattle.std.specs.Prelude.{List};
    ghost use Rattle.sq_rules.specs.declared.leaves.Find.{Find};

    ghost Value = { List (List Find) };

    ghost view = { λ p. p.lists.items };
}

// The patterns of an acl; only `url_regex` has some.
fn finds_of(acl: &Acl) -> &[Find]
    ensures { result.now ≡ finds_in acl.now.body }
{
    match &acl.body {
        Body::Leaf(Leaf::UrlRegex(finds)) => finds.as_slice(),
        _ => &[],
    }
}

// How much of the room each acl with patterns may take.
fn room_of(acls: &[Acl]) -> usize {
    let count = acls.iter().filter(|acl| !finds_of(acl).is_empty()).count();
    (ROOM / count.max(1)).min(ROOM_OF_ACL)
}

// Reads the patterns of the acl at a place, or names the first that is none.
fn read_finds(alloc: Global, acl: u32, finds: &[Find]) -> Result<(), SetupFault>
    ensures good { IfOk result (λ _. first_bad 0 finds.now ≡ None) }
    ensures bad { IfErr result
        (λ e. e ≢ SetupFault.WantOfMemory → fault_at acl (first_bad 0 finds.now) None ≡ Some e) }
{
    for (place, find) in finds.iter().enumerate() {
        if !is_pattern(alloc, find.pattern.as_bytes(), find.fold)? {
            return match u32::try_from(place) {
                Ok(pattern) => Err(SetupFault::BadPattern(acl, pattern)),
                Err(_) => Err(SetupFault::WantOfMemory),
            };
        }
    }
    Ok(())
}

// Reads all patterns before any is compiled, so that one that is none is named even where there is no
// memory for the programs.
fn read_all(alloc: Global, acls: &[Acl]) -> Result<(), SetupFault>
    requires { length acls.now < 2 ^ 32 }
    ensures good { IfOk result (λ _. fault_from 0 acls.now ≡ None) }
    ensures bad { IfErr result (λ e. e ≢ SetupFault.WantOfMemory → fault_from 0 acls.now ≡ Some e) }
{
    for (place, acl) in acls.iter().enumerate() {
        read_finds(alloc, place as u32, finds_of(acl))?;
    }
    Ok(())
}

impl Patterns {
    /// Reads all patterns, and then compiles those of each acl; or names the first that is none.
    pub fn of(alloc: Global, acls: &[Acl]) -> Result<Patterns, SetupFault>
        requires { length acls.now < 2 ^ 32 }
        ensures ok { IfOk result (λ p. p ≡ finds_of_each acls.now) }
        ensures good { IfOk result (λ _. fault_from 0 acls.now ≡ None) }
        ensures bad { IfErr result
            (λ e. e ≢ SetupFault.WantOfMemory → fault_from 0 acls.now ≡ Some e) }
    {
        read_all(alloc, acls)?;
        let room = room_of(acls);
        let mut lists = Vec::new(alloc);
        for (place, acl) in acls.iter().enumerate() {
            let compiled = Compiled::make(alloc, place as u32, finds_of(acl), room)?;
            let Ok(()) = lists.push(compiled) else {
                return Err(SetupFault::WantOfMemory);
            };
        }
        Ok(Patterns { lists })
    }

    /// Whether some pattern of the acl at a place is found in a text; an acl of another type has none.
    /// What the match learns is kept for the next. It may want memory.
    pub fn is_match(
        &mut self,
        alloc: Global,
        acl: u32,
        subject: &[u8],
    ) -> Result<bool, WantOfMemory>
        ensures found { IfOk result
            (λ b. b ≡ some_found (slice_index_or self.old acl []) subject.now) }
        ensures same { self.new ≡ self.old }
    {
        match self.lists.get_mut(acl as usize) {
            None => Ok(false),
            Some(compiled) => compiled.is_match(alloc, subject),
        }
    }
}
