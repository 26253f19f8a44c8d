//! A place in the rules of a configuration.
ghost use Rattle.std.specs.Prelude.{[], true, false, Some, IfOk, ◌≡◌, ◌+◌, ◌<◌, ◌≤◌, ◌^◌};
ghost use Rattle.sq_checks.specs.Groups.{first_of, line_on, lines_on, moved, next_at, term_on, AreOpen, FitsNext};
ghost use Rattle.sq_checks.specs.OpenGroups.{depth_of};
ghost use Rattle.sq_checks.specs.Positions.{look_limit, looked_more, position_moved, IsPosition};

use crate::looking::{Next, next_of_body, next_of_rules};
use crate::spots::{GroupSpot, Spots};
use crate::walk_inputs::body_at;
use sq_base::WantOfMemory;
use sq_rules::Config;
use std::alloc::Global;

// The greatest number of looks that is counted.
const LOOK_LIMIT: u64 = 0x7fff_ffff_ffff_ffff;

/// Which rule and which of its terms is next, or which groups are open in that term; and how many looks were made.
#[derive(Drop)]
pub struct Position {
    pub line: usize,
    pub term: usize,
    pub groups: Spots,
    pub looks: u64,
}

/// What is next.
pub fn next(config: &Config, position: &Position) -> Next
    requires { AreOpen config.now position.now.groups.room position.now.line position.now.term
        position.now.groups.list }
    ensures next { result ≡ next_at (lines_on config.now position.now.groups.list)
        (line_on position.now.line position.now.groups.list)
        (term_on position.now.term position.now.groups.list) }
    ensures fits { FitsNext result (line_on position.now.line position.now.groups.list)
        (term_on position.now.term position.now.groups.list) }
{
    match position.groups.first() {
        None => next_of_rules(config.rules(), position.line, position.term),
        Some(spot) => next_of_body(body_at(config, spot.acl), spot.line, spot.term),
    }
}

// The place in a group behind a term that matched, or did not.
fn moved(spot: GroupSpot, hit: bool) -> GroupSpot
    requires line { spot.line + 1 < 2 ^ 64 }
    requires term { spot.term + 1 < 2 ^ 64 }
    ensures { result ≡ moved hit spot }
{
    if hit {
        GroupSpot {
            term: spot.term + 1,
            ..spot
        }
    } else {
        GroupSpot {
            line: spot.line + 1,
            term: 0,
            ..spot
        }
    }
}

// Goes on in the innermost open group.
fn advance_group(position: &mut Position, spot: GroupSpot, hit: bool)
    requires here { first_of position.old.groups.list ≡ Some spot }
    requires line { spot.line + 1 < 2 ^ 64 }
    requires term { spot.term + 1 < 2 ^ 64 }
    ensures { position.new ≡ position_moved hit position.old }
{
    position.groups.set(moved(spot, hit));
}

// Goes on in the rule, where no group is open, behind a term that matched.
fn next_term(position: &mut Position)
    requires open { position.old.groups.list ≡ [] }
    requires term { position.old.term + 1 < 2 ^ 64 }
    ensures { position.new ≡ position_moved true position.old }
{
    position.term += 1;
}

// Goes on to the next rule, where no group is open, behind a term that did not match.
fn next_rule(position: &mut Position)
    requires open { position.old.groups.list ≡ [] }
    requires line { position.old.line + 1 < 2 ^ 64 }
    ensures { position.new ≡ position_moved false position.old }
{
    position.line += 1;
    position.term = 0;
}

/// Goes on behind a term that matched, or did not.
pub fn advance(position: &mut Position, hit: bool)
    requires line { line_on position.old.line position.old.groups.list + 1 < 2 ^ 64 }
    requires term { term_on position.old.term position.old.groups.list + 1 < 2 ^ 64 }
    ensures { position.new ≡ position_moved hit position.old }
{
    match position.groups.first() {
        Some(spot) => advance_group(position, spot, hit),
        None => {
            if hit {
                next_term(position)
            } else {
                next_rule(position)
            }
        }
    }
}

/// Counts a look.
pub fn count(position: &mut Position)
    requires { position.old.looks ≤ look_limit }
    ensures { position.new ≡ looked_more position.old }
{
    if position.looks < LOOK_LIMIT {
        position.looks += 1;
    }
}

/// The place before the first rule, with room for the groups of a configuration, which nest so deep.
pub fn begin(alloc: Global, config: &Config, depth: u32) -> Result<Position, WantOfMemory>
    requires { depth ≡ depth_of config.now.acls }
    ensures begun { IfOk result
        (λ p. p ≡ record {
          line = 0;
          term = 0;
          groups = record { room = depth_of config.now.acls; list = [] };
          looks = 0;
        }) }
    ensures stands { IfOk result (λ p. IsPosition config.now p) }
{
    let groups = Spots::new(alloc, depth as usize)?;
    Ok(Position {
        line: 0,
        term: 0,
        groups,
        looks: 0,
    })
}
