//! Propagation, and what the clauses of one literal give at the start.
ghost use Rattle.std.specs.Prelude.{ℕ, List, ◌≡◌, ◌+◌, ◌*◌, ◌<◌, ◌≤◌, [], length, None, Some, IfSome, IfNone};
ghost use Rattle.arena_core.specs.declared.arena.TheConstants.{MOST_CLAUSES};
ghost use Rattle.watch_core.specs.Places.{placed};
ghost use Rattle.watch_core.specs.Propagates.{AreReordered, Propagates};
ghost use Rattle.watch_core.specs.Rest.{CanPropagate, IsAtRest, Outcome};
ghost use Rattle.watch_core.specs.Trail.{IsTrail, places, value_of, assigned, empty_trail};
ghost use Rattle.search_core.specs.State.{place, GoesOn, IsSound, IsFalseAtStart};

use crate::inner_literal::InnerLiteral;
use arena_core::{ClauseId, Steps};
use std::sync::ledger::Ledger;
use watch_core::Watched;

/// Takes in the literals that wait. Returns a clause that became false, if any.
pub(crate) fn propagate<S: Ledger>(
    watched: &mut Watched<InnerLiteral>,
    looks: &mut Steps<S>,
) -> Option<ClauseId>
    requires ready { CanPropagate place watched.old.trail (placed place watched.old.clauses) }
    ensures outcome { Outcome place watched.new.trail (placed place watched.new.clauses) result }
    ensures kept { IsTrail place watched.new.trail }
    ensures goes { GoesOn watched.old.clauses watched.old.trail watched.new.clauses watched.new.trail }
    ensures more { length watched.old.trail.entries ≤ length watched.new.trail.entries }
{
    watched.propagate(looks)
}

/// Assigns the literal of a clause that has it alone, and propagates.
fn assign_unit<S: Ledger>(
    watched: &mut Watched<InnerLiteral>,
    literal: InnerLiteral,
    id: ClauseId,
    looks: &mut Steps<S>,
) -> Option<ClauseId>
    requires trail { IsTrail place watched.old.trail }
    requires rest { IsAtRest place watched.old.trail (placed place watched.old.clauses) }
    requires inside { literal < 2 * watched.old.trail.variables }
    requires free { value_of (places place watched.old.trail.entries) literal ≡ None }
    ensures outcome { Outcome place watched.new.trail (placed place watched.new.clauses) result }
    ensures order { AreReordered watched.old.clauses watched.new.clauses }
    ensures change { Propagates place (placed place watched.old.clauses) (assigned watched.old.trail literal (Some id))
        (placed place watched.new.clauses) watched.new.trail }
    ensures kept { IsTrail place watched.new.trail }
{
    watched.assign(literal, Some(id));
    watched.propagate(looks)
}

/// Propagates one clause, if it has no literal or one alone. Returns a false clause, if any.
fn propagate_clause<S: Ledger>(
    watched: &mut Watched<InnerLiteral>,
    id: ClauseId,
    looks: &mut Steps<S>,
) -> Option<ClauseId>
    requires trail { IsTrail place watched.old.trail }
    requires start { watched.old.trail.level ≡ 0 }
    requires rest { IsAtRest place watched.old.trail (placed place watched.old.clauses) }
    requires known { id < length watched.old.clauses }
    ensures kept { IsTrail place watched.new.trail }
    ensures start { watched.new.trail.level ≡ 0 }
    ensures variables { watched.new.trail.variables ≡ watched.old.trail.variables }
    ensures count { length watched.new.clauses ≡ length watched.old.clauses }
    ensures none { IfNone result ((known : List (List ℕ)) → IsSound id known watched.old.clauses watched.old.trail
        → IsSound (id + 1) known watched.new.clauses watched.new.trail) }
    ensures rest { IfNone result (IsAtRest place watched.new.trail (placed place watched.new.clauses)) }
    ensures some { IfSome result (λ k. (known : List (List ℕ)) → IsSound id known watched.old.clauses watched.old.trail
        → IsFalseAtStart known watched.new.clauses watched.new.trail k) }
{
    let length = watched.arena().len(id);
    if length == 0 {
        return Some(id);
    }
    if length != 1 {
        return None;
    }
    let literal = watched.arena().literals(id, looks)[0];
    match watched.trail().value(literal) {
        Some(true) => None,
        Some(false) => Some(id),
        None => assign_unit(watched, literal, id, looks),
    }
}

/// Propagates each clause that has no literal or one alone. Returns a false clause, if any.
pub(crate) fn propagate_units<S: Ledger>(
    watched: &mut Watched<InnerLiteral>,
    looks: &mut Steps<S>,
) -> Option<ClauseId>
    requires trail { watched.old.trail ≡ empty_trail watched.old.trail.variables }
    requires few { length watched.old.clauses ≤ MOST_CLAUSES }
    ensures kept { IsTrail place watched.new.trail }
    ensures variables { watched.new.trail.variables ≡ watched.old.trail.variables }
    ensures count { length watched.new.clauses ≡ length watched.old.clauses }
    ensures none { IfNone result (IsSound (length watched.old.clauses) watched.old.clauses
        watched.new.clauses watched.new.trail) }
    ensures rest { IfNone result (IsAtRest place watched.new.trail (placed place watched.new.clauses)) }
    ensures some { IfSome result (IsFalseAtStart watched.old.clauses watched.new.clauses watched.new.trail) }
{
    watched.trail();
    let count = watched.arena().count();
    for number in 0..count {
        let conflict = propagate_clause(watched, ClauseId::numbered(number), looks);
        if conflict.is_some() {
            return conflict;
        }
    }
    None
}
