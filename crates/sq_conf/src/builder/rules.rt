//! Rules of `http_access`.
ghost use Rattle.std.specs.Prelude.{◌≡◌, ◌++◌, ◌∷◌, [], true, length, nat_lt, OnOk, OnErr};
ghost use Rattle.sq_rules.specs.Configurations.{is_known_rule};
ghost use Rattle.sq_rules.specs.Limits.{rule_limit};

use crate::builder::Builder;
use sq_base::WantOfMemory;
use sq_rules::{RULE_LIMIT, Rule};

impl Builder {
    /// Whether one rule more may stand.
    pub fn has_room_for_rule(&self) -> bool
        ensures { result ≡ nat_lt (length self.now.rules) rule_limit }
    {
        self.rules.len() < RULE_LIMIT
    }

    /// One rule more, whose terms name acls that stand.
    pub fn push_rule(&mut self, rule: Rule) -> Result<(), WantOfMemory>
        requires room { nat_lt (length self.old.rules) rule_limit ≡ true }
        requires known { is_known_rule (length self.old.acls) rule ≡ true }
        ensures ok { OnOk result
            (self.new ≡ record self.old { rules = self.old.rules ++ rule ∷ [] }) }
        ensures err { OnErr result (self.new ≡ self.old) }
    {
        self.rules.push(rule)
    }
}
