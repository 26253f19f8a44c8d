//! What a further line of `acl` changes in its acl.
ghost use Rattle.std.specs.Prelude.{◌≡◌, ◌++◌, [], OnOk, OnErr};
ghost use Rattle.sq_rules.specs.Drafts.{in_last, joined_leaves, with_leaf, with_line, with_member};

use crate::configs::{Acl, Body, Lines, Term};
use crate::leaves::Leaf;
use sq_base::{Listed, WantOfMemory};
use std::alloc::Global;
use std::mem;

// Puts the values of another list at the end. They are taken out of that, and no clause says what is left of it.
fn append<T: Drop>(
    alloc: Global,
    values: &mut Listed<T>,
    more: &mut Listed<T>,
) -> Result<(), WantOfMemory>
    ensures ok { OnOk result (values.new ≡ values.old ++ more.old) }
    ensures err { OnErr result (values.new ≡ values.old) }
{
    let mut all = mem::replace(values, Listed::new(alloc)).into_vec();
    let mut more = mem::replace(more, Listed::new(alloc)).into_vec();
    let appended = all.append(&mut more);
    *values = Listed::from_vec(all);
    appended?;
    Ok(())
}

// Puts a term at the end of the last line, or of a first line.
fn push_in_last(alloc: Global, lines: &mut Lines, term: Term) -> Result<(), WantOfMemory>
    ensures ok { OnOk result (lines.new ≡ in_last term lines.old) }
    ensures err { OnErr result (lines.new ≡ lines.old) }
{
    let count = lines.len();
    if count == 0 {
        let mut line = Listed::new(alloc);
        line.push(term)?;
        return lines.push(line);
    }
    let mut all = mem::replace(lines, Listed::new(alloc)).into_vec();
    let pushed = all[count - 1].push(term);
    *lines = Listed::from_vec(all);
    pushed
}

impl Leaf {
    /// Puts the values of another leaf of its type at the end. They are taken out of that, and no clause says what is left
    /// of it.
    pub fn join(&mut self, alloc: Global, more: &mut Leaf) -> Result<(), WantOfMemory>
        ensures ok { OnOk result (self.new ≡ joined_leaves self.old more.old) }
        ensures err { OnErr result (self.new ≡ self.old) }
    {
        match (self, more) {
            (Leaf::Src(values), Leaf::Src(more)) => append(alloc, values, more),
            (Leaf::Dst(values), Leaf::Dst(more)) => append(alloc, values, more),
            (Leaf::DstDomain(values), Leaf::DstDomain(more)) => append(alloc, values, more),
            (Leaf::Port(values), Leaf::Port(more)) => append(alloc, values, more),
            (Leaf::Method(values), Leaf::Method(more)) => append(alloc, values, more),
            (Leaf::Proto(values), Leaf::Proto(more)) => append(alloc, values, more),
            (Leaf::Time(values), Leaf::Time(more)) => append(alloc, values, more),
            (Leaf::UrlRegex(values), Leaf::UrlRegex(more)) => append(alloc, values, more),
            (Leaf::MaxConn(values), Leaf::MaxConn(more)) => append(alloc, values, more),
            _ => Ok(()),
        }
    }
}

impl Acl {
    /// Puts the values of another leaf into a leaf of its type. They are taken out of that, and no clause says what is left
    /// of it.
    pub fn join(&mut self, alloc: Global, more: &mut Leaf) -> Result<(), WantOfMemory>
        ensures named { self.new.name ≡ self.old.name }
        ensures ok { OnOk result
            (self.new ≡ record self.old { body = with_leaf more.old self.old.body }) }
        ensures err { OnErr result (self.new ≡ self.old) }
    {
        match &mut self.body {
            Body::Leaf(leaf) => leaf.join(alloc, more),
            _ => Ok(()),
        }
    }

    /// Opens a further line of members; only that of `all-of` counts.
    pub fn open_line(&mut self, alloc: Global) -> Result<(), WantOfMemory>
        ensures named { self.new.name ≡ self.old.name }
        ensures ok { OnOk result (self.new ≡ record self.old { body = with_line self.old.body }) }
        ensures err { OnErr result (self.new ≡ self.old) }
    {
        match &mut self.body {
            Body::AllOf(lines) => lines.push(Listed::new(alloc)),
            _ => Ok(()),
        }
    }

    /// Puts a member into a group, and of `all-of` into its last line.
    pub fn add_member(&mut self, alloc: Global, term: Term) -> Result<(), WantOfMemory>
        ensures named { self.new.name ≡ self.old.name }
        ensures ok { OnOk result
            (self.new ≡ record self.old { body = with_member term self.old.body }) }
        ensures err { OnErr result (self.new ≡ self.old) }
    {
        match &mut self.body {
            Body::AnyOf(terms) => terms.push(term),
            Body::AllOf(lines) => push_in_last(alloc, lines, term),
            _ => Ok(()),
        }
    }
}
