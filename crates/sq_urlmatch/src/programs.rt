//! The patterns of one acl as programs.
ghost use Rattle.std.specs.Prelude.{◌≡◌, ◌∷◌, ℕ, List, [], true, Some, None, IfOk, IfErr, IfSome};
ghost use Rattle.std.specs.List.{list_all};
ghost use Rattle.sq_rules.specs.Patterns.{is_pattern};
ghost use Rattle.sq_rules.specs.declared.leaves.Find.{Find};
ghost use Rattle.sq_urlmatch.specs.Found.{first_bad, AreFoundAlike, FindSome};

use crate::trees::{TreeFault, tree_of};
use regex_compile::Error;
use regex_hir::Hir;
use regex_meta::Program;
use sq_base::WantOfMemory;
use sq_rules::Find;
use std::alloc::Global;

/// Bytes that a compiled program may take.
const SIZE_LIMIT: usize = 10 << 20;

/// Why the patterns of an acl were not compiled.
#[derive(Clone, Copy)]
pub enum ListFault {
    /// The pattern at this place, from 0, is none.
    BadPattern(usize),
    WantOfMemory,
}

impl From<WantOfMemory> for ListFault {
    ghost use Rattle.std.specs.Prelude.{◌≡◌};
    ghost use Rattle.sq_urlmatch.specs.declared.programs.ListFault.TheVariants as fault;

    ghost from_gives = { λ _ e. e ≡ fault.WantOfMemory };

    fn from(_error: WantOfMemory) -> ListFault {
        ListFault::WantOfMemory
    }
}

/// Trees of patterns, and how many groups the program of all of them needs.
#[derive(Drop)]
pub struct Trees {
    pub trees: Vec<Hir>,
    pub groups: usize,
}

// The tree of each pattern.
fn trees_of(alloc: Global, finds: &[Find]) -> Result<Trees, ListFault>
    ensures alike { IfOk result (λ t. AreFoundAlike finds.now t.trees.items) }
    ensures good { IfOk result (λ _. first_bad 0 finds.now ≡ None) }
    ensures bad { IfErr result
        (λ e. (k : ℕ) → e ≡ ListFault.BadPattern k → first_bad 0 finds.now ≡ Some k) }
{
    let mut trees = Vec::new(alloc);
    let mut groups = 1;
    for (place, find) in finds.iter().enumerate() {
        let parsed = match tree_of(alloc, find.pattern.as_bytes(), find.fold) {
            Ok(parsed) => parsed,
            Err(TreeFault::BadPattern) => return Err(ListFault::BadPattern(place)),
            Err(TreeFault::WantOfMemory) => return Err(ListFault::WantOfMemory),
        };
        groups = parsed.names.len().max(groups);
        let Ok(()) = trees.push(parsed.hir) else {
            return Err(ListFault::WantOfMemory);
        };
    }
    Ok(Trees { trees, groups })
}

// A program of a tree, with so many groups.
fn program_of(alloc: Global, tree: Hir, groups: usize) -> Result<Program, Error>
    ensures { IfOk result (λ p. p.hir ≡ tree) }
{
    let Ok(groups) = u32::try_from(groups) else {
        return Err(Error::TooBig);
    };
    Program::new(alloc, tree, groups, SIZE_LIMIT)
}

// The program of one pattern.
fn program_of_find(alloc: Global, find: &Find) -> Result<Program, WantOfMemory>
    requires { is_pattern find.now ≡ true }
    ensures { IfOk result (λ p. FindSome (find.now ∷ []) (p ∷ [])) }
{
    let parsed = match tree_of(alloc, find.pattern.as_bytes(), find.fold) {
        Ok(parsed) => parsed,
        Err(TreeFault::BadPattern) => unreachable!(),
        Err(TreeFault::WantOfMemory) => return Err(WantOfMemory),
    };
    match program_of(alloc, parsed.hir, parsed.names.len()) {
        Ok(program) => Ok(program),
        Err(_) => Err(WantOfMemory),
    }
}

// A program for each pattern.
fn single_programs(alloc: Global, finds: &[Find]) -> Result<Vec<Program>, WantOfMemory>
    requires { list_all is_pattern finds.now ≡ true }
    ensures { IfOk result (λ p. FindSome finds.now p.items) }
{
    let mut programs = Vec::new(alloc);
    for find in finds {
        let program = program_of_find(alloc, find)?;
        let Ok(()) = programs.push(program) else {
            return Err(WantOfMemory);
        };
    }
    Ok(programs)
}

// One program for all patterns, or none where it would be too large.
fn whole_program(alloc: Global, trees: Trees) -> Result<Option<Program>, WantOfMemory>
    ensures { IfOk result
        (λ o. (finds : List Find) → AreFoundAlike finds trees.trees.items
        → IfSome o (λ p. FindSome finds (p ∷ []))) }
{
    match program_of(alloc, Hir::Alternation(trees.trees), trees.groups) {
        Ok(program) => Ok(Some(program)),
        Err(Error::TooBig) => Ok(None),
        Err(_) => Err(WantOfMemory),
    }
}

/// The programs of the patterns of an acl: one for all of them where its size allows, else one each.
pub fn programs_of(alloc: Global, finds: &[Find]) -> Result<Vec<Program>, ListFault>
    ensures found { IfOk result (λ p. FindSome finds.now p.items) }
    ensures good { IfOk result (λ _. first_bad 0 finds.now ≡ None) }
    ensures bad { IfErr result
        (λ e. (k : ℕ) → e ≡ ListFault.BadPattern k → first_bad 0 finds.now ≡ Some k) }
{
    if finds.is_empty() {
        return Ok(Vec::new(alloc));
    }
    let trees = trees_of(alloc, finds)?;
    match whole_program(alloc, trees)? {
        None => Ok(single_programs(alloc, finds)?),
        Some(program) => {
            let mut programs = Vec::new(alloc);
            let Ok(()) = programs.push(program) else {
                return Err(ListFault::WantOfMemory);
            };
            Ok(programs)
        }
    }
}
