//! Whether a field is allowed, by a walk over the rules.
ghost use Rattle.std.specs.Prelude.{◌≡◌, ◌&&◌, true, length, []};
ghost use Rattle.std.specs.Str.{str_eq_ignore_ascii_case};
ghost use Rattle.sq_eval.specs.Takings.{fact_taken};
ghost use Rattle.sq_forward.specs.Access.{allowed_by};
ghost use Rattle.sq_forward.specs.Standings.{others_allowed, settled};
ghost use Rattle.sq_forward.specs.declared.standing.Standing.TheVariants as standing;
ghost use Rattle.sq_rules.specs.Facts.{facts_of};
ghost use Rattle.sq_rules.specs.Verdicts.{is_same_way, name_allowed, rules_for};
ghost use Rattle.sq_rules.specs.declared.sights.Sight.{Sight};

use crate::standing::{Standing, behind, end};
use sq_base::Text;
use sq_rules::{Config, Facts, HeaderRule};

/// Whether a rule is for heads that go this way.
pub(crate) fn is_same_way(rule: &HeaderRule, reply: bool) -> bool
    ensures { result ≡ is_same_way rule.now.reply reply }
{
    rule.reply == reply
}

fn is_for(rule: &HeaderRule, reply: bool, name: &[u8]) -> bool
    ensures { result ≡ (is_same_way rule.now.reply reply
        && str_eq_ignore_ascii_case rule.now.name name.now) }
{
    is_same_way(rule, reply) && rule.name.as_bytes().eq_ignore_ascii_case(name)
}

// How far all rules for this name come.
fn standing_of(config: &Config, facts: &Facts, reply: bool, name: &[u8]) -> Standing
    requires { length facts.now ≡ length config.now.acls }
    ensures { settled (fact_taken facts.now) config.now.acls result []
        ≡ settled (fact_taken facts.now) config.now.acls standing.Unnamed
        (rules_for reply name.now config.now.headers) }
{
    config.facts();
    let mut standing = Standing::Unnamed;
    for rule in config.headers() {
        if is_for(rule, reply, name) {
            standing = behind(config, facts, standing, &rule.rule);
        }
    }
    standing
}

/// What the rules for all fields come to; a field is allowed where there is none. It takes no memory.
pub(crate) fn allows_others(config: &Config, facts: &Facts, reply: bool) -> bool
    requires { length facts.now ≡ length config.now.acls }
    ensures { result ≡ others_allowed config.now facts.now reply }
{
    end(standing_of(config, facts, reply, b"all")).unwrap_or(true)
}

/// Whether a field of this name goes on. It takes no memory.
pub(crate) fn allows_name(config: &Config, facts: &Facts, reply: bool, name: &[u8]) -> bool
    requires { length facts.now ≡ length config.now.acls }
    ensures { result ≡ allowed_by config.now facts.now reply name.now }
{
    match end(standing_of(config, facts, reply, name)) {
        Some(allow) => allow,
        None => allows_others(config, facts, reply),
    }
}

/// Whether a field of this name goes on, of a reply or of a request, over the facts of a check. The rules of
/// its own name decide, compared without case, or else those for `All`; the first that matches decides, and
/// without a match the opposite of the last. Without rules it goes on. It takes no memory.
pub fn allows(config: &Config, facts: &Facts, reply: bool, name: &Text) -> bool
    requires { length facts.now ≡ length config.now.acls }
    ensures { (s : Sight) → facts.now ≡ facts_of config.now.acls s
        → result ≡ name_allowed config.now s reply name.now }
{
    config.facts();
    allows_name(config, facts, reply, name.as_bytes())
}
