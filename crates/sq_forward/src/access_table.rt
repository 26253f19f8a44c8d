//! How far the rules have come for each of some names, found by name.
ghost use Rattle.std.specs.Prelude.{◌≡◌, ℕ, List, true, Some, if◌then◌else◌, bytes_eq, length, IfOk, IfSome, OnOk, [], ◌∷◌};
ghost use Rattle.sq_eval.specs.Takings.{fact_taken};
ghost use Rattle.sq_forward.specs.Standings.{standing_at, AreStandings};
ghost use Rattle.sq_forward.specs.declared.standing.Standing.TheVariants.{Unnamed};
ghost use Rattle.sq_rules.specs.Configurations.{is_header, is_lower};
ghost use Rattle.sq_rules.specs.Verdicts.{is_same_way};
ghost use Rattle.sq_rules.specs.declared.headers.HeaderRule.{HeaderRule};

use crate::allowing::is_same_way;
use crate::standing::{Standing, behind};
use sq_base::{Field, Text, WantOfMemory};
use sq_rules::{Config, Facts, HeaderRule, lowered};
use std::alloc::Global;
use std::collections::BTreeMap;
use std::marker::Model;

/// How far the rules have come for each of some names in lower case. They stand in a tree, which no choice of
/// names makes deep.
#[derive(Drop)]
pub(crate) struct Standings {
    map: BTreeMap<Text, Standing>,
}

impl Model for Standings {
    ghost use Rattle.std.specs.Prelude.{List, ℕ};
    ghost use Rattle.sq_forward.specs.declared.standing.Standing.{Standing};

    ghost Value = { List (List ℕ × Standing) };

    ghost view = { λ t. t.map.entries };
}

impl Standings {
    fn new(alloc: Global) -> Standings
        ensures { (key : List ℕ) → IfSome (standing_at result key) (λ s. s ≡ Unnamed) }
    {
        Standings {
            map: BTreeMap::new(alloc),
        }
    }

    /// What stands at a name in lower case.
    pub(crate) fn get(&self, key: &Text) -> Option<Standing>
        ensures { result ≡ standing_at self.now key.now }
    {
        self.map.get(key).copied()
    }

    fn put(&mut self, key: Text, standing: Standing) -> Result<(), WantOfMemory>
        ensures { OnOk result
            ((k : List ℕ) → standing_at self.new k
            ≡ (if bytes_eq key k then Some standing else standing_at self.old k)) }
    {
        let _was = self.map.insert(key, standing)?;
        Ok(())
    }

    // Names, for which no rule has come so far.
    fn put_name(&mut self, alloc: Global, name: &[u8]) -> Result<(), WantOfMemory>
        requires { (key : List ℕ) → IfSome (standing_at self.old key) (λ s. s ≡ Unnamed) }
        ensures { OnOk result
            ((key : List ℕ) → IfSome (standing_at self.new key) (λ s. s ≡ Unnamed)) }
    {
        let key = lowered(alloc, name)?;
        self.put(key, Standing::Unnamed)?;
        Ok(())
    }

    // Goes on by a rule that goes this way, if something stands at its name. It takes no memory.
    fn go_on_at(&mut self, config: &Config, facts: &Facts, reply: bool, rule: &HeaderRule)
        requires facts { length facts.now ≡ length config.now.acls }
        requires is_header { is_header config.now.acls rule.now ≡ true }
        requires lower { is_lower rule.now ≡ true }
        requires way { is_same_way rule.now.reply reply ≡ true }
        ensures { (headers rest : List HeaderRule)
            → AreStandings (fact_taken facts.now) config.now.acls reply headers (rule.now ∷ rest)
            self.old
            → AreStandings (fact_taken facts.now) config.now.acls reply headers rest self.new }
    {
        let Some(standing) = self.map.get_mut(&rule.name) else {
            return;
        };
        *standing = behind(config, facts, *standing, &rule.rule);
    }

    // Goes on by a rule, if it is for a name that stands here. It takes no memory.
    fn go_on(&mut self, config: &Config, facts: &Facts, reply: bool, rule: &HeaderRule)
        requires facts { length facts.now ≡ length config.now.acls }
        requires is_header { is_header config.now.acls rule.now ≡ true }
        requires lower { is_lower rule.now ≡ true }
        ensures { (headers rest : List HeaderRule)
            → AreStandings (fact_taken facts.now) config.now.acls reply headers (rule.now ∷ rest)
            self.old
            → AreStandings (fact_taken facts.now) config.now.acls reply headers rest self.new }
    {
        if is_same_way(rule, reply) {
            self.go_on_at(config, facts, reply, rule);
        }
    }
}

// The names of these fields and of those that a proxy writes itself.
fn names_of(alloc: Global, fields: &[Field]) -> Result<Standings, WantOfMemory>
    ensures { IfOk result
        (λ t. (key : List ℕ) → IfSome (standing_at t key) (λ s. s ≡ Unnamed)) }
{
    let mut table = Standings::new(alloc);
    table.put_name(alloc, b"Via")?;
    table.put_name(alloc, b"X-Forwarded-For")?;
    for field in fields {
        table.put_name(alloc, field.name.as_bytes())?;
    }
    Ok(table)
}

/// How far all rules come for each of these fields' names, and for those of the fields that a proxy writes
/// itself. Each rule is looked at once.
pub(crate) fn table_of(
    alloc: Global,
    config: &Config,
    facts: &Facts,
    reply: bool,
    fields: &[Field],
) -> Result<Standings, WantOfMemory>
    requires { length facts.now ≡ length config.now.acls }
    ensures { IfOk result
        (AreStandings (fact_taken facts.now) config.now.acls reply config.now.headers []) }
{
    config.facts();
    let mut table = names_of(alloc, fields)?;
    for rule in config.headers() {
        table.go_on(config, facts, reply, rule);
    }
    Ok(table)
}
