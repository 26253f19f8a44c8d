//! One step in the rules, and steps up to where they stop.
ghost use Rattle.std.specs.declared.option.Option.{Option};
ghost use Rattle.std.specs.Prelude.{◌≡◌, ◌<◌, ◌≤◌, ◌+◌, ℕ, List, [], length, true, false, if◌then◌else◌, Some, None, slice_get, IfNone, IfSome};
ghost use Rattle.sq_rules.specs.Configurations.{Configuration, IsConfiguration};
ghost use Rattle.sq_rules.specs.Limits.{rule_limit};
ghost use Rattle.sq_rules.specs.Verdicts.{default_of};
ghost use Rattle.sq_rules.specs.declared.configs.Acl.{Acl};
ghost use Rattle.sq_rules.specs.declared.configs.Rule.{Rule};
ghost use Rattle.sq_rules.specs.declared.values.TermValue.{TermValue};
ghost use Rattle.sq_rules.specs.declared.values.Value.TheVariants as value;
ghost use Rattle.sq_checks.specs.GivenValues.{given_at, needed_by, ran_value};
ghost use Rattle.sq_checks.specs.Groups.{first_of, under_not};
ghost use Rattle.sq_checks.specs.Kinds.{is_group_at, is_leaf_at};
ghost use Rattle.sq_checks.specs.Positions.{next_of, taken_in, Asks, FaultIs, Goes, IsNext, IsPosition, IsStep, IsStop, Stops};
ghost use Rattle.sq_checks.specs.Slots.{is_external_at};
ghost use Rattle.sq_checks.specs.declared.answers.Given.{Given};
ghost use Rattle.sq_checks.specs.declared.answers.Given.TheVariants as given;
ghost use Rattle.sq_checks.specs.declared.answers.Place.TheVariants as place;
ghost use Rattle.sq_checks.specs.declared.answers.Ran.TheVariants as ran;
ghost use Rattle.sq_checks.specs.declared.looking.Next.TheVariants as next;

use crate::answers::{Given, Place, Ran};
use crate::looking::Next;
use crate::positions::{Position, advance, count, next};
use crate::spots::GroupSpot;
use crate::walk_inputs::{WalkInputs, body_at, given_at};
use sq_base::{Cause, Steps};
use sq_rules::{Body, Config, Rule, Term};
use std::sync::ledger::Ledger;

// Whether a term matches whose acl matches, or does not: `!` exchanges both.
fn turned(negated: bool, hit: bool) -> bool
    ensures { result ≡ under_not negated hit }
{
    if negated { !hit } else { hit }
}

// Looks at the leaf acl that is next.
fn look<L: Ledger>(taking: &WalkInputs, term: Term, position: &mut Position, steps: &mut Steps<L>)
    requires facts { length taking.now.facts.now ≡ length taking.now.config.now.acls }
    requires next { IsNext taking.now.config.now position.old term }
    requires leaf { is_leaf_at taking.now.config.now.acls term.acl ≡ true }
    ensures { IsStep (taken_in taking.now) taking.now.config.now position.old position.new steps.old
        steps.new }
{
    let fact = taking.facts.look(term.acl, steps);
    count(position);
    advance(position, turned(term.negated, fact));
}

// Goes on behind the external acl that is next, for which a match was given, or a mismatch.
fn go_on(taking: &WalkInputs, term: Term, position: &mut Position, hit: bool)
    requires next { IsNext taking.now.config.now position.old term }
    requires external { is_external_at taking.now.config.now.acls term.acl ≡ true }
    requires given { given_at taking.now.slots.now taking.now.table.now term.acl
        ≡ Some (if hit then given.Hit else given.Miss) }
    ensures { (n : ℕ) → IsStep (taken_in taking.now) taking.now.config.now position.old position.new
        n n }
{
    advance(position, turned(term.negated, hit));
}

// Stops at the external acl that is next, for which a fault was given.
fn fault(taking: &WalkInputs, term: Term, position: &Position, cause: Cause) -> Ran
    requires next { IsNext taking.now.config.now position.now term }
    requires external { is_external_at taking.now.config.now.acls term.acl ≡ true }
    requires given { given_at taking.now.slots.now taking.now.table.now term.acl
        ≡ Some (given.Fault cause) }
    ensures stop { IsStop (taken_in taking.now) taking.now.config.now position.now result }
    ensures asks { (slots : List ℕ) (table : List (Option Given))
        → Asks taking.now.config.now.acls slots table (needed_by result) }
{
    Ran::Verdict {
        allow: false,
        place: Place::Fault {
            rule: position.line as u32 + 1,
            acl: term.acl,
            cause,
        },
    }
}

// Stops at the external acl that is next, for which nothing was given.
fn need(taking: &WalkInputs, term: Term, position: &Position) -> Ran
    requires next { IsNext taking.now.config.now position.now term }
    requires external { is_external_at taking.now.config.now.acls term.acl ≡ true }
    requires none { given_at taking.now.slots.now taking.now.table.now term.acl ≡ None }
    ensures stop { IsStop (taken_in taking.now) taking.now.config.now position.now result }
    ensures asks { Asks taking.now.config.now.acls taking.now.slots.now taking.now.table.now
        (needed_by result) }
{
    Ran::Need(term.acl)
}

// Takes the value that was given for the external acl that is next, or stops.
fn ask(taking: &WalkInputs, term: Term, position: &mut Position) -> Option<Ran>
    requires next { IsNext taking.now.config.now position.old term }
    requires external { is_external_at taking.now.config.now.acls term.acl ≡ true }
    ensures goes { (n : ℕ) → IfNone result
        (IsStep (taken_in taking.now) taking.now.config.now position.old position.new n n) }
    ensures stops { (n : ℕ) → IfSome result
        (λ r. Stops (taken_in taking.now) taking.now.config.now position.old position.new n n r) }
    ensures asks { IfSome result
        (λ r. Asks taking.now.config.now.acls taking.now.slots.now taking.now.table.now
        (needed_by r)) }
{
    match given_at(taking.slots, taking.table, term.acl) {
        None => Some(need(taking, term, position)),
        Some(Given::Hit) => {
            go_on(taking, term, position, true);
            None
        }
        Some(Given::Miss) => {
            go_on(taking, term, position, false);
            None
        }
        Some(Given::Fault(cause)) => Some(fault(taking, term, position, cause)),
    }
}

// Opens the group that is next.
fn enter(term: Term, position: &mut Position, config: &Config)
    requires next { IsNext config.now position.old term }
    requires group { is_group_at config.now.acls term.acl ≡ true }
    ensures { (taken : ℕ → TermValue) (n : ℕ)
        → IsStep taken config.now position.old position.new n n }
{
    let spot = GroupSpot {
        acl: term.acl,
        negated: term.negated,
        line: 0,
        term: 0,
    };
    position.groups.open(spot);
}

// Looks at the term that is next.
fn take<L: Ledger>(
    taking: &WalkInputs,
    term: Term,
    position: &mut Position,
    steps: &mut Steps<L>,
) -> Option<Ran>
    requires facts { length taking.now.facts.now ≡ length taking.now.config.now.acls }
    requires next { IsNext taking.now.config.now position.old term }
    ensures goes { IfNone result
        (IsStep (taken_in taking.now) taking.now.config.now position.old position.new steps.old
        steps.new) }
    ensures stops { IfSome result
        (λ r. Stops (taken_in taking.now) taking.now.config.now position.old position.new steps.old
        steps.new r) }
    ensures asks { IfSome result
        (λ r. Asks taking.now.config.now.acls taking.now.slots.now taking.now.table.now
        (needed_by r)) }
{
    match body_at(taking.config, term.acl) {
        Body::Leaf(_) => {
            look(taking, term, position, steps);
            None
        }
        Body::External {
            class: _,
            arguments: _,
        } => ask(taking, term, position),
        Body::AnyOf(_) => {
            enter(term, position, taking.config);
            None
        }
        Body::AllOf(_) => {
            enter(term, position, taking.config);
            None
        }
    }
}

// What is decided where no rule matches.
fn default_of(rules: &[Rule]) -> Ran
    ensures default { (acls : List Acl)
        → ran_value acls result ≡ value.Verdict (default_of rules.now) }
    ensures none { needed_by result ≡ None }
    ensures no_fault { (taken : ℕ → TermValue) (c : Configuration) (p : Position)
        → FaultIs taken c p result }
{
    match rules.split_last() {
        None => Ran::Verdict {
            allow: false,
            place: Place::Empty,
        },
        Some((last, _)) => Ran::Verdict {
            allow: !last.allow,
            place: Place::Default,
        },
    }
}

// What the rule at a place decides.
fn rule_at(rules: &[Rule], line: usize) -> Ran
    requires here { line < length rules.now }
    requires few { length rules.now ≤ rule_limit }
    ensures rule { (r : Rule) → slice_get rules.now line ≡ Some r
        → result ≡ ran.Verdict r.allow (place.Rule (line + 1)) }
    ensures none { needed_by result ≡ None }
    ensures no_fault { (taken : ℕ → TermValue) (c : Configuration) (p : Position)
        → FaultIs taken c p result }
{
    Ran::Verdict {
        allow: rules[line].allow,
        place: Place::Rule(line as u32 + 1),
    }
}

// What the rules decide where a line of them has held.
fn held(config: &Config, position: &Position) -> Ran
    requires open { position.now.groups.list ≡ [] }
    requires next { next_of config.now position.now ≡ next.Held }
    ensures stop { (taken : ℕ → TermValue) → IsStop taken config.now position.now result }
    ensures asks { (slots : List ℕ) (table : List (Option Given))
        → Asks config.now.acls slots table (needed_by result) }
{
    rule_at(config.rules(), position.line)
}

// What the rules decide where all of them have failed.
fn failed(config: &Config, position: &Position) -> Ran
    requires open { position.now.groups.list ≡ [] }
    requires next { next_of config.now position.now ≡ next.Failed }
    ensures stop { (taken : ℕ → TermValue) → IsStop taken config.now position.now result }
    ensures asks { (slots : List ℕ) (table : List (Option Given))
        → Asks config.now.acls slots table (needed_by result) }
{
    default_of(config.rules())
}

// What the rules decide, where a line of them has held, or all have failed.
fn decide(config: &Config, position: &Position, hit: bool) -> Ran
    requires open { position.now.groups.list ≡ [] }
    requires next { next_of config.now position.now ≡ (if hit then next.Held else next.Failed) }
    ensures stop { (taken : ℕ → TermValue) → IsStop taken config.now position.now result }
    ensures asks { (slots : List ℕ) (table : List (Option Given))
        → Asks config.now.acls slots table (needed_by result) }
{
    if hit {
        held(config, position)
    } else {
        failed(config, position)
    }
}

// Closes the innermost group, a line of which has held, or all of which have failed.
fn leave(config: &Config, spot: GroupSpot, position: &mut Position, hit: bool)
    requires config { IsConfiguration config.now }
    requires position { IsPosition config.now position.old }
    requires here { first_of position.old.groups.list ≡ Some spot }
    requires next { next_of config.now position.old ≡ (if hit then next.Held else next.Failed) }
    ensures { (taken : ℕ → TermValue) (n : ℕ)
        → IsStep taken config.now position.old position.new n n }
{
    position.groups.close();
    advance(position, turned(spot.negated, hit));
}

// Closes the innermost group, or decides where none is open.
fn end(config: &Config, position: &mut Position, hit: bool) -> Option<Ran>
    requires config { IsConfiguration config.now }
    requires position { IsPosition config.now position.old }
    requires next { next_of config.now position.old ≡ (if hit then next.Held else next.Failed) }
    ensures goes { (taken : ℕ → TermValue) (n : ℕ)
        → IfNone result (IsStep taken config.now position.old position.new n n) }
    ensures stops { (taken : ℕ → TermValue) (n : ℕ)
        → IfSome result (λ r. Stops taken config.now position.old position.new n n r) }
    ensures asks { (slots : List ℕ) (table : List (Option Given))
        → IfSome result (λ r. Asks config.now.acls slots table (needed_by r)) }
{
    match position.groups.first() {
        None => Some(decide(config, position, hit)),
        Some(spot) => {
            leave(config, spot, position, hit);
            None
        }
    }
}

// One step.
fn step<L: Ledger>(
    taking: &WalkInputs,
    position: &mut Position,
    steps: &mut Steps<L>,
) -> Option<Ran>
    requires facts { length taking.now.facts.now ≡ length taking.now.config.now.acls }
    requires position { IsPosition taking.now.config.now position.old }
    ensures goes { IfNone result
        (IsStep (taken_in taking.now) taking.now.config.now position.old position.new steps.old
        steps.new) }
    ensures stops { IfSome result
        (λ r. Stops (taken_in taking.now) taking.now.config.now position.old position.new steps.old
        steps.new r) }
    ensures asks { IfSome result
        (λ r. Asks taking.now.config.now.acls taking.now.slots.now taking.now.table.now
        (needed_by r)) }
{
    taking.config.facts();
    match next(taking.config, position) {
        Next::Term(term) => take(taking, term, position, steps),
        Next::Held => end(taking.config, position, true),
        Next::Failed => end(taking.config, position, false),
    }
}

/// Steps up to a verdict, or to an external acl for which no value was given.
pub fn run_on<L: Ledger>(taking: &WalkInputs, position: &mut Position, steps: &mut Steps<L>) -> Ran
    requires facts { length taking.now.facts.now ≡ length taking.now.config.now.acls }
    requires position { IsPosition taking.now.config.now position.old }
    ensures goes { Goes (taken_in taking.now) taking.now.config.now position.old position.new
        steps.old steps.new }
    ensures stands { IsPosition taking.now.config.now position.new }
    ensures stop { IsStop (taken_in taking.now) taking.now.config.now position.new result }
    ensures asks { Asks taking.now.config.now.acls taking.now.slots.now taking.now.table.now
        (needed_by result) }
{
    'steps: loop {
        if let Some(ran) = step(taking, position, steps) {
            return ran;
        }
    }
}
