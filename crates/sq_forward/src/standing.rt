//! How far the rules for a field have come.
ghost use Rattle.std.specs.Prelude.{◌≡◌, ℕ, List, Bool, true, Some, length, [], ◌∷◌};
ghost use Rattle.sq_eval.specs.Takings.{fact_taken};
ghost use Rattle.sq_forward.specs.Standings.{comes_to, settled};
ghost use Rattle.sq_rules.specs.Configurations.{is_fast_rule};
ghost use Rattle.sq_rules.specs.declared.configs.Acl.{Acl};
ghost use Rattle.sq_rules.specs.declared.configs.Rule.{Rule};
ghost use Rattle.sq_rules.specs.declared.values.TermValue.{TermValue};

use sq_eval::decision;
use sq_rules::{Config, Facts, Rule};

/// How far the rules for a field have come.
#[derive(Clone, Copy)]
pub(crate) enum Standing {
    /// No rule is for it so far.
    Unnamed,
    /// No rule for it matched so far; this holds if none does.
    Open(bool),
    /// A rule for it matched.
    Decided(bool),
}

// How far they have come behind a rule, where none matched before it.
fn looked(config: &Config, facts: &Facts, rule: &Rule) -> Standing
    requires facts { length facts.now ≡ length config.now.acls }
    requires fast { is_fast_rule config.now.acls rule.now ≡ true }
    ensures { (rules : List Rule) (default : Bool)
        → settled (fact_taken facts.now) config.now.acls result rules
        ≡ Some (comes_to (fact_taken facts.now) config.now.acls default (rule.now ∷ rules)) }
{
    match decision(config, facts, rule) {
        Some(allow) => Standing::Decided(allow),
        None => Standing::Open(!rule.allow),
    }
}

/// How far they have come behind one more rule. A rule is looked at only as long as none matched. It takes
/// no memory.
pub(crate) fn behind(config: &Config, facts: &Facts, standing: Standing, rule: &Rule) -> Standing
    requires facts { length facts.now ≡ length config.now.acls }
    requires fast { is_fast_rule config.now.acls rule.now ≡ true }
    ensures { (rules : List Rule)
        → settled (fact_taken facts.now) config.now.acls result rules
        ≡ settled (fact_taken facts.now) config.now.acls standing (rule.now ∷ rules) }
{
    match standing {
        Standing::Decided(allow) => Standing::Decided(allow),
        Standing::Unnamed => looked(config, facts, rule),
        Standing::Open(_) => looked(config, facts, rule),
    }
}

/// What they have come to; nothing, where there is none.
pub(crate) fn end(standing: Standing) -> Option<bool>
    ensures { (taken : ℕ → TermValue) (acls : List Acl) → result ≡ settled taken acls standing [] }
{
    match standing {
        Standing::Unnamed => None,
        Standing::Open(allow) => Some(allow),
        Standing::Decided(allow) => Some(allow),
    }
}
