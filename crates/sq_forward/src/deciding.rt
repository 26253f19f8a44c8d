//! What the rules decide of the fields of one head.
ghost use Rattle.std.specs.Prelude.{◌≡◌, [], ℕ, List, Bool, true, length, All, IfOk, IfSome, OnOk};
ghost use Rattle.std.specs.Str.{str_eq_ignore_ascii_case};
ghost use Rattle.sq_eval.specs.Takings.{fact_taken};
ghost use Rattle.sq_forward.specs.Access.{allowed_by};
ghost use Rattle.sq_forward.specs.Standings.{others_allowed, AreDecided, AreStandings};

use crate::access_table::{Standings, table_of};
use crate::allowing::{allows_name, allows_others};
use crate::standing::end;
use sq_base::{Field, WantOfMemory};
use sq_message::NameTest;
use sq_rules::{Config, Facts, lowered};
use std::alloc::Global;

// So many rules are walked over for each field.
const FEW: usize = 32;

/// A name of a field, and whether fields of that name go on.
#[derive(Clone, Copy)]
pub(crate) struct DecidedName<'a> {
    pub name: &'a [u8],
    pub allowed: bool,
}

// Puts what a table says of a name, if it says anything.
fn put_name<'a>(
    alloc: Global,
    to: &mut Vec<DecidedName<'a>>,
    table: &Standings,
    config: &Config,
    facts: &Facts,
    reply: bool,
    others: bool,
    name: &'a [u8],
) -> Result<(), WantOfMemory>
    requires others { others ≡ others_allowed config.now facts.now reply }
    requires table { AreStandings (fact_taken facts.now) config.now.acls reply config.now.headers []
        table.now }
    requires so_far { AreDecided config.now facts.now reply to.old.items }
    ensures { OnOk result (AreDecided config.now facts.now reply to.new.items) }
{
    let key = lowered(alloc, name)?;
    match table.get(&key) {
        Some(standing) => {
            let allowed = end(standing).unwrap_or(others);
            to.push(DecidedName { name, allowed })?;
            Ok(())
        }
        None => Ok(()),
    }
}

/// What the rules decide of these fields' names, and of the fields that a proxy writes itself, where they are
/// many; nothing beforehand where they are few.
pub(crate) fn decided_names<'a>(
    alloc: Global,
    config: &Config,
    facts: &Facts,
    reply: bool,
    fields: &'a [Field],
) -> Result<Vec<DecidedName<'a>>, WantOfMemory>
    requires { length facts.now ≡ length config.now.acls }
    ensures { IfOk result (λ names. AreDecided config.now facts.now reply names.items) }
{
    let mut names = Vec::new(alloc);
    if config.headers().len() <= FEW {
        return Ok(names);
    }
    let table = table_of(alloc, config, facts, reply, fields)?;
    let others = allows_others(config, facts, reply);
    put_name(
        alloc, &mut names, &table, config, facts, reply, others, b"Via",
    )?;
    put_name(
        alloc,
        &mut names,
        &table,
        config,
        facts,
        reply,
        others,
        b"X-Forwarded-For",
    )?;
    for field in fields {
        put_name(
            alloc,
            &mut names,
            &table,
            config,
            facts,
            reply,
            others,
            field.name.as_bytes(),
        )?;
    }
    Ok(names)
}

fn is_named(decided: &DecidedName, name: &[u8]) -> bool
    ensures { result ≡ str_eq_ignore_ascii_case decided.now.name.now name.now }
{
    decided.name.eq_ignore_ascii_case(name)
}

// What was decided of a name, compared without case.
fn known(names: &[DecidedName], name: &[u8]) -> Option<bool>
    ensures { (test : List ℕ → Bool) → All (λ d. d.allowed ≡ test d.name.now) names.now
        → ((other : List ℕ) → str_eq_ignore_ascii_case other name.now ≡ true
        → test other ≡ test name.now)
        → IfSome result (λ allowed. allowed ≡ test name.now) }
{
    for decided in names {
        if is_named(decided, name) {
            return Some(decided.allowed);
        }
    }
    None
}

/// The test of the names of a head's fields by the rules of a configuration, over the facts of a check.
#[derive(Clone, Copy)]
pub(crate) struct AccessTest<'a> {
    pub config: &'a Config,
    pub facts: &'a Facts,
    pub reply: bool,
    pub names: &'a [DecidedName<'a>],
}

impl<'a> NameTest for AccessTest<'a> {
    ghost IsReady = { λ t. (length t.facts.now ≡ length t.config.now.acls)
        × AreDecided t.config.now t.facts.now t.reply t.names.now };

    ghost passes = { λ t. allowed_by t.config.now t.facts.now t.reply };

    /// Whether fields of this name go on: as it was decided beforehand, or by a walk over the rules.
    fn passes(&self, name: &[u8]) -> bool {
        match known(self.names, name) {
            Some(allowed) => allowed,
            None => allows_name(self.config, self.facts, self.reply, name),
        }
    }
}
