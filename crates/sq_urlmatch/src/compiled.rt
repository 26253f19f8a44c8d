//! The patterns of one acl with their programs.
ghost use Rattle.std.specs.Prelude.{◌≡◌, ◌≢◌, Some, None, IfOk, IfErr};
ghost use Rattle.sq_rules.specs.Patterns.{some_found};
ghost use Rattle.sq_urlmatch.specs.Found.{fault_at, first_bad, FindSome};
ghost use Rattle.sq_urlmatch.specs.Matchers.{programs_in};
ghost use Rattle.sq_urlmatch.specs.Programs.{some_program};

use crate::matcher::Matcher;
use crate::programs::{ListFault, programs_of};
use crate::setup::SetupFault;
use regex_meta::Program;
use sq_base::{Copying, WantOfMemory};
use sq_rules::{Find, Finds};
use std::alloc::Global;
use std::marker::Model;

/// The patterns of an acl, and programs that are found where some of them is. A contract sees the
/// patterns.
#[derive(Drop)]
pub struct Compiled {
    finds: Finds,
    matchers: Vec<Matcher>,
}

impl Model for Compiled {
    ghost use Rattle.std.specs.Prelude.{List};
    ghost use Rattle.sq_rules.specs.declared.leaves.Find.{Find};
    ghost use Rattle.sq_urlmatch.specs.Found.{FindSome};
    ghost use Rattle.sq_urlmatch.specs.Matchers.{programs_in};

    ghost Value = { List Find };

    ghost view = { λ c. c.finds };

    ghost invariant = { λ c. FindSome c.finds (programs_in c.matchers.items) };
}

// A pattern once more.
fn copy_of(alloc: Global, find: &Find) -> Result<Find, WantOfMemory>
    ensures { IfOk result (λ f. f ≡ find.now) }
{
    let pattern = find.pattern.copy(alloc)?;
    Ok(Find {
        pattern,
        fold: find.fold,
    })
}

// Patterns once more.
fn copies_of(alloc: Global, finds: &[Find]) -> Result<Finds, WantOfMemory>
    ensures { IfOk result (λ copies. copies ≡ finds.now) }
{
    let mut copies = Finds::new(alloc);
    for find in finds {
        copies.push(copy_of(alloc, find)?)?;
    }
    Ok(copies)
}

// The programs of the acl at a place.
fn programs_at(alloc: Global, acl: u32, finds: &[Find]) -> Result<Vec<Program>, SetupFault>
    ensures found { IfOk result (λ p. FindSome finds.now p.items) }
    ensures good { IfOk result (λ _. first_bad 0 finds.now ≡ None) }
    ensures bad { IfErr result
        (λ e. e ≢ SetupFault.WantOfMemory → fault_at acl (first_bad 0 finds.now) None ≡ Some e) }
{
    match programs_of(alloc, finds) {
        Ok(programs) => Ok(programs),
        Err(ListFault::WantOfMemory) => Err(SetupFault::WantOfMemory),
        Err(ListFault::BadPattern(pattern)) => match u32::try_from(pattern) {
            Ok(pattern) => Err(SetupFault::BadPattern(acl, pattern)),
            Err(_) => Err(SetupFault::WantOfMemory),
        },
    }
}

// A matcher of each program, over which so many bytes of rows are shared out.
fn matchers_of(
    alloc: Global,
    programs: Vec<Program>,
    room: usize,
) -> Result<Vec<Matcher>, WantOfMemory>
    ensures { IfOk result (λ m. programs_in m.items ≡ programs.items) }
{
    let each = room / programs.len().max(1);
    let mut matchers = Vec::new(alloc);
    for program in programs {
        matchers.push(Matcher::new(alloc, program, each)?)?;
    }
    Ok(matchers)
}

// Whether some program is found in a text.
fn some_match(alloc: Global, matchers: &mut [Matcher], subject: &[u8]) -> Result<bool, WantOfMemory>
    ensures found { IfOk result (λ b. b ≡ some_program subject.now (programs_in matchers.old)) }
    ensures same { programs_in matchers.new ≡ programs_in matchers.old }
{
    for matcher in matchers.iter_mut() {
        if matcher.is_match(alloc, subject)? {
            return Ok(true);
        }
    }
    Ok(false)
}

impl Compiled {
    /// Compiles the patterns of the acl at a place, or names the first that is none. Matches may keep
    /// about `room` bytes of what they learn.
    pub fn make(
        alloc: Global,
        acl: u32,
        finds: &[Find],
        room: usize,
    ) -> Result<Compiled, SetupFault>
        ensures ok { IfOk result (λ c. c ≡ finds.now) }
        ensures good { IfOk result (λ _. first_bad 0 finds.now ≡ None) }
        ensures bad { IfErr result
            (λ e. e ≢ SetupFault.WantOfMemory
            → fault_at acl (first_bad 0 finds.now) None ≡ Some e) }
    {
        let programs = programs_at(alloc, acl, finds)?;
        let matchers = matchers_of(alloc, programs, room)?;
        let finds = copies_of(alloc, finds)?;
        Ok(Compiled { finds, matchers })
    }

    /// Whether some pattern is found in a text.
    pub fn is_match(&mut self, alloc: Global, subject: &[u8]) -> Result<bool, WantOfMemory>
        ensures found { IfOk result (λ b. b ≡ some_found self.old subject.now) }
        ensures same { self.new ≡ self.old }
    {
        some_match(alloc, self.matchers.as_mut_slice(), subject)
    }
}
