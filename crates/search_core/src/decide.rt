//! Decisions, each followed by propagation, until every variable is assigned or a clause is false.
ghost use Rattle.std.specs.Prelude.{◌≡◌, ◌≤◌, IfSome, IfNone};
ghost use Rattle.arena_core.specs.declared.lit.TheConstants.{MOST_VARIABLES};
ghost use Rattle.watch_core.specs.Places.{placed};
ghost use Rattle.watch_core.specs.Trail.{IsTrail};
ghost use Rattle.watch_core.specs.Rest.{CanPropagate, Outcome};
ghost use Rattle.search_core.specs.State.{place, GoesOn, AreAssigned, CanDecide};

use crate::activity::Activity;
use crate::inner_literal::InnerLiteral;
use crate::propagate::propagate;
use crate::restart::restart;
use arena_core::{ClauseId, Steps};
use std::sync::ledger::Ledger;
use watch_core::{Trail, Watched};

/// The lowest variable that is not assigned, with a minus.
fn first_unassigned(trail: &Trail<InnerLiteral>, count: u32) -> Option<InnerLiteral>
    requires known { count ≡ trail.now.variables }
    requires few { count ≤ MOST_VARIABLES }
    ensures some { IfSome result (CanDecide trail.now) }
    ensures none { IfNone result (AreAssigned trail.now count) }
{
    for variable in 0..count {
        let literal = InnerLiteral::signed(variable, true);
        if trail.value(literal).is_none() {
            return Some(literal);
        }
    }
    None
}

/// The literal to be decided next; None if every variable is assigned.
fn next_decision(
    trail: &Trail<InnerLiteral>,
    count: u32,
    activity: &mut Activity,
) -> Option<InnerLiteral>
    requires known { count ≡ trail.now.variables }
    requires few { count ≤ MOST_VARIABLES }
    ensures some { IfSome result (CanDecide trail.now) }
    ensures none { IfNone result (AreAssigned trail.now count) }
{
    match activity.next(trail, count) {
        Some(literal) => Some(literal),
        None => first_unassigned(trail, count),
    }
}

/// Propagates, and then restarts if that is due and no clause is false.
fn propagate_first<S: Ledger>(
    watched: &mut Watched<InnerLiteral>,
    restart_is_due: bool,
    activity: &mut Activity,
    looks: &mut Steps<S>,
) -> Option<ClauseId>
    requires ready { CanPropagate place watched.old.trail (placed place watched.old.clauses) }
    ensures outcome { Outcome place watched.new.trail (placed place watched.new.clauses) result }
    ensures kept { IsTrail place watched.new.trail }
    ensures goes { GoesOn watched.old.clauses watched.old.trail watched.new.clauses watched.new.trail }
{
    if let Some(conflict) = propagate(watched, looks) {
        return Some(conflict);
    }
    if !restart_is_due {
        return None;
    }
    restart(watched, activity);
    None
}

/// Decides and propagates until a clause is false, which it returns, or every variable is assigned.
pub(crate) fn decide_all<S: Ledger>(
    watched: &mut Watched<InnerLiteral>,
    count: u32,
    restart_is_due: bool,
    activity: &mut Activity,
    looks: &mut Steps<S>,
) -> Option<ClauseId>
    requires ready { CanPropagate place watched.old.trail (placed place watched.old.clauses) }
    requires count { count ≡ watched.old.trail.variables }
    ensures outcome { Outcome place watched.new.trail (placed place watched.new.clauses) result }
    ensures kept { IsTrail place watched.new.trail }
    ensures goes { GoesOn watched.old.clauses watched.old.trail watched.new.clauses watched.new.trail }
    ensures whole { IfNone result (AreAssigned watched.new.trail count) }
{
    let mut conflict = propagate_first(watched, restart_is_due, activity, looks);
    while conflict.is_none() {
        let Some(literal) = next_decision(watched.trail(), count, activity) else {
            return None;
        };
        watched.decide(literal);
        conflict = propagate(watched, looks);
    }
    conflict
}
