//! From names to places: the parts of a configuration over the tables of its classes and acls.
ghost use Rattle.std.specs.Prelude.{◌≡◌, ◌≢◌, ◌≤◌, ◌∷◌, [], true, length, Ok, Err, IfOk, IfErr};
ghost use Rattle.std.specs.List.{list_all};
ghost use Rattle.sq_rules.specs.Building.{acls_made, body_made, classes_made, completed, each_made, header_made, pools_made, rule_made, term_made, terms_made, IsMade};
ghost use Rattle.sq_rules.specs.Configurations.{are_known, are_known_bodies, is_header, is_known_body, is_known_rule, is_lower, is_pool};
ghost use Rattle.sq_rules.specs.Limits.{most_acls, most_classes, pool_limit};
ghost use Rattle.sq_rules.specs.Lookups.{are_looked_up, unmade, unmade_acls};
ghost use Rattle.sq_rules.specs.Tables.{rule_lists_made, tables_made};

use crate::acl_table::AclTable;
use crate::class_table::ClassTable;
use crate::classes::{Class, Classes};
use crate::configs::{Body, Lines, Rule, Rules, Term, Terms};
use crate::fast_lists::{headers_of, pools_of};
use crate::formats::with_arguments;
use crate::headers::HeaderRules;
use crate::lookups::are_looked_up;
use crate::parts::{
    AclParts, BodyPart, BuildFault, HeaderParts, LineParts, PoolParts, RulePart, RuleParts,
    TermPart, TermParts,
};
use crate::pools::PoolList;
use sq_base::{Listed, WantOfMemory};
use std::alloc::Global;

fn term_of(acls: &AclTable, part: TermPart) -> Result<Term, BuildFault>
    ensures made { IsMade result (term_made acls.now part) }
    ensures known { IfOk result (λ t. are_known (length acls.now) (t ∷ []) ≡ true) }
{
    match acls.place(&part.acl) {
        None => Err(BuildFault::UndefinedAcl(part.acl)),
        Some(acl) => Ok(Term {
            acl,
            negated: part.negated,
        }),
    }
}

#[tactic(auto, using(crate::proofs::MadeLaws::made_first))]
fn terms_of(alloc: Global, acls: &AclTable, parts: TermParts) -> Result<Terms, BuildFault>
    ensures made { IsMade result (terms_made acls.now parts) }
    ensures known { IfOk result (λ terms. are_known (length acls.now) terms ≡ true) }
{
    let mut terms = Listed::new(alloc);
    for part in parts.into_vec() {
        let term = term_of(acls, part)?;
        terms.push(term)?;
    }
    Ok(terms)
}

#[tactic(auto, using(crate::proofs::MadeLaws::made_first))]
fn lines_of(alloc: Global, acls: &AclTable, parts: LineParts) -> Result<Lines, BuildFault>
    ensures made { IsMade result (each_made (terms_made acls.now) parts) }
    ensures known { IfOk result (λ lines. list_all (are_known (length acls.now)) lines ≡ true) }
{
    let mut lines = Listed::new(alloc);
    for part in parts.into_vec() {
        let terms = terms_of(alloc, acls, part)?;
        lines.push(terms)?;
    }
    Ok(lines)
}

fn body_of(
    alloc: Global,
    classes: &ClassTable,
    acls: &AclTable,
    part: BodyPart,
) -> Result<Body, BuildFault>
    ensures made { IsMade result (body_made classes.now acls.now part) }
    ensures known { IfOk result
        (λ b. is_known_body (length classes.now) (length acls.now) b ≡ true) }
{
    match part {
        BodyPart::Leaf(leaf) => Ok(Body::Leaf(leaf)),
        BodyPart::External { class, arguments } => match classes.place(&class) {
            None => Err(BuildFault::UndefinedClass(class)),
            Some(class) => Ok(Body::External { class, arguments }),
        },
        BodyPart::AnyOf(terms) => Ok(Body::AnyOf(terms_of(alloc, acls, terms)?)),
        BodyPart::AllOf(lines) => Ok(Body::AllOf(lines_of(alloc, acls, lines)?)),
    }
}

// A class with `%DATA` in its format.
fn completed(class: Class) -> Result<Class, WantOfMemory>
    ensures { IfOk result (λ c. c ≡ completed class) }
{
    let format = with_arguments(class.format)?;
    Ok(Class { format, ..class })
}

/// The classes, each with a name of its own.
#[tactic(auto, using(crate::proofs::NameLaws::place_tells))]
pub fn classes_of(alloc: Global, parts: Classes) -> Result<ClassTable, BuildFault>
    requires { length parts ≤ most_classes }
    ensures made { IsMade result (classes_made [] parts) }
    ensures count { IfOk result (λ t. length t ≡ length parts) }
{
    let mut classes = ClassTable::new(alloc);
    for part in parts.into_vec() {
        if classes.place(&part.name).is_some() {
            return Err(BuildFault::Duplicate(part.name));
        }
        classes.push(alloc, completed(part)?)?;
    }
    Ok(classes)
}

/// The acls over these classes, each over those before it.
#[tactic(auto, using(crate::proofs::NameLaws::place_tells))]
pub fn acls_of(alloc: Global, classes: &ClassTable, parts: AclParts) -> Result<AclTable, BuildFault>
    requires { length parts ≤ most_acls }
    ensures made { IsMade result (acls_made classes.now [] parts) }
    ensures count { IfOk result (λ t. length t ≡ length parts) }
    ensures unmade { IfOk result (λ t. unmade_acls t ≡ unmade (λ a. a.name) parts) }
    ensures known { IfOk result (λ acls. are_known_bodies (length classes.now) 0 acls ≡ true) }
{
    let mut acls = AclTable::new(alloc);
    for part in parts.into_vec() {
        if acls.place(&part.name).is_some() {
            return Err(BuildFault::Duplicate(part.name));
        }
        let body = body_of(alloc, classes, &acls, part.body)?;
        acls.with(alloc, part.name, body)?;
    }
    Ok(acls)
}

fn rule_of(alloc: Global, acls: &AclTable, part: RulePart) -> Result<Rule, BuildFault>
    ensures made { IsMade result (rule_made acls.now part) }
    ensures known { IfOk result (λ r. is_known_rule (length acls.now) r ≡ true) }
{
    let terms = terms_of(alloc, acls, part.terms)?;
    Ok(Rule {
        allow: part.allow,
        terms,
    })
}

/// The rules over these acls.
#[tactic(auto, using(crate::proofs::MadeLaws::made_first))]
pub fn rules_of(alloc: Global, acls: &AclTable, parts: RuleParts) -> Result<Rules, BuildFault>
    ensures made { IsMade result (each_made (rule_made acls.now) parts) }
    ensures count { IfOk result (λ rules. length rules ≡ length parts) }
    ensures known { IfOk result (λ rules. list_all (is_known_rule (length acls.now)) rules ≡ true) }
{
    let mut rules = Listed::new(alloc);
    for part in parts.into_vec() {
        let rule = rule_of(alloc, acls, part)?;
        rules.push(rule)?;
    }
    Ok(rules)
}

/// The tables over which the rest of a configuration is built.
#[derive(Drop)]
pub struct Tables {
    pub classes: ClassTable,
    pub acls: AclTable,
}

/// The tables of these classes and acls, where each acl of type `dst` stands with its look-up if names are looked up.
pub fn tables_of(
    alloc: Global,
    dst_lookup: bool,
    classes: Classes,
    acls: AclParts,
) -> Result<Tables, BuildFault>
    requires few_classes { length classes ≤ most_classes }
    requires all_acls { length acls ≤ most_acls }
    ensures classes { IfOk result (λ t. classes_made [] classes ≡ Ok t.classes) }
    ensures acls { IfOk result (λ t. acls_made t.classes [] acls ≡ Ok t.acls) }
    ensures looked_up { IfOk result (λ t. are_looked_up dst_lookup t.classes t.acls ≡ true) }
    ensures count { IfOk result (λ t. length t.classes ≡ length classes) }
    ensures acl_count { IfOk result (λ t. length t.acls ≡ length acls) }
    ensures unmade { IfOk result (λ t. unmade_acls t.acls ≡ unmade (λ a. a.name) acls) }
    ensures known { IfOk result (λ t. are_known_bodies (length t.classes) 0 t.acls ≡ true) }
    ensures err { IfErr result (λ e. e ≢ BuildFault.WantOfMemory
        → tables_made dst_lookup classes acls ≡ Err e) }
{
    let classes = classes_of(alloc, classes)?;
    let acls = acls_of(alloc, &classes, acls)?;
    if !are_looked_up(dst_lookup, classes.as_slice(), acls.as_slice()) {
        return Err(BuildFault::NoLookup);
    }
    Ok(Tables { classes, acls })
}

/// What names acls: the rules, the pools and the rules for fields.
#[derive(Drop)]
pub struct RuleLists {
    pub rules: Rules,
    pub pools: PoolList,
    pub headers: HeaderRules,
}

/// The rules, the pools and the rules for fields over these acls.
pub fn rule_lists_of(
    alloc: Global,
    acls: &AclTable,
    rules: RuleParts,
    pools: PoolParts,
    headers: HeaderParts,
) -> Result<RuleLists, BuildFault>
    requires { length pools ≤ pool_limit }
    ensures rules { IfOk result (λ l. each_made (rule_made acls.now) rules ≡ Ok l.rules) }
    ensures rule_count { IfOk result (λ l. length l.rules ≡ length rules) }
    ensures known { IfOk result
        (λ l. list_all (is_known_rule (length acls.now)) l.rules ≡ true) }
    ensures pools { IfOk result (λ l. pools_made acls.now 0 pools ≡ Ok l.pools) }
    ensures pool_count { IfOk result (λ l. length l.pools ≡ length pools) }
    ensures are_pools { IfOk result (λ l. list_all (is_pool acls.now) l.pools ≡ true) }
    ensures headers { IfOk result (λ l. each_made (header_made acls.now) headers ≡ Ok l.headers) }
    ensures header_count { IfOk result (λ l. length l.headers ≡ length headers) }
    ensures are_headers { IfOk result (λ l. list_all (is_header acls.now) l.headers ≡ true) }
    ensures lower { IfOk result (λ l. list_all is_lower l.headers ≡ true) }
    ensures err { IfErr result (λ e. e ≢ BuildFault.WantOfMemory
        → rule_lists_made acls.now rules pools headers ≡ Err e) }
{
    let rules = rules_of(alloc, acls, rules)?;
    let pools = pools_of(alloc, acls, pools)?;
    let headers = headers_of(alloc, acls, headers)?;
    Ok(RuleLists {
        rules,
        pools,
        headers,
    })
}
