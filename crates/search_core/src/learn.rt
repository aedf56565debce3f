//! Learning: a lemma goes into the log and among the clauses, and its literal is assigned.
ghost use Rattle.std.specs.Prelude.{ℕ, ◌≡◌, ◌+◌, ◌*◌, ◌<◌, ◌≤◌, [], ◌∷◌, ◌++◌, length, map, All, IfOk, OnOk, reverse};
ghost use Rattle.lists_core.specs.declared.list_of.TheConstants.{MOST_ITEMS};
ghost use Rattle.arena_core.specs.declared.arena.TheConstants.{MOST_CLAUSES};
ghost use Rattle.arena_core.specs.declared.lit.TheConstants.{MOST_VARIABLES};
ghost use Rattle.watch_core.specs.Places.{placed};
ghost use Rattle.watch_core.specs.Trail.{Entry, waiting};
ghost use Rattle.watch_core.specs.Rest.{SettledBelow, CanPropagate};
ghost use Rattle.search_core.specs.Inner.{outer};
ghost use Rattle.search_core.specs.State.{place};
ghost use Rattle.search_core.specs.Analysis.{IsPoint, IsLearned};

use crate::activity::Activity;
use crate::analyze::Analysis;
use crate::backjump::{backjump, put_highest_first};
use crate::inner_literal::InnerLiteral;
use arena_core::Lit;
use chain_core::{Hints, Lemma, Literals, Log};
use lists_core::ListOf;
use std::alloc::{AllocError, Global};
use watch_core::Watched;

/// The literals of a clause, as a formula has them.
fn outer_literals(alloc: Global, clause: &[InnerLiteral]) -> Result<Literals, AllocError>
    requires inside { All (λ l. l < 2 * MOST_VARIABLES) clause.now }
    requires few { length clause.now ≤ MOST_ITEMS }
    ensures { IfOk result (λ literals. literals ≡ map outer clause.now) }
{
    let mut literals = Vec::with_capacity(alloc, clause.len())?;
    for literal in clause {
        literals.push(literal.outer())?;
    }
    Ok(ListOf::from_vec(literals))
}

/// Hints in the other order.
fn reversed_hints(alloc: Global, hints: &[u32]) -> Result<Hints, AllocError>
    requires few { length hints.now ≤ MOST_ITEMS }
    ensures { IfOk result (λ list. list ≡ reverse hints.now) }
{
    let mut reversed = Vec::with_capacity(alloc, hints.len())?;
    reversed.extend_from_slice(hints)?;
    reversed.as_mut_slice().reverse();
    Ok(ListOf::from_vec(reversed))
}

/// Puts a lemma last in the log. Its hints come with the last one first.
pub(crate) fn log_lemma(
    alloc: Global,
    log: &mut Log,
    id: u32,
    clause: &[InnerLiteral],
    hints: &[u32],
) -> Result<(), AllocError>
    requires id { 1 ≤ id }
    requires room { length log.old < MOST_ITEMS }
    requires inside { All (λ l. l < 2 * MOST_VARIABLES) clause.now }
    requires short { length clause.now ≤ MOST_ITEMS }
    requires hints { All (λ h. 1 ≤ h) hints.now }
    requires few { length hints.now ≤ MOST_ITEMS }
    ensures { OnOk result (log.new ≡ log.old ++
        record { id = id; literals = map outer clause.now; hints = reverse hints.now } ∷ []) }
{
    let literals = outer_literals(alloc, clause)?;
    let hints = reversed_hints(alloc, hints)?;
    log.add(Lemma {
        id,
        literals,
        hints,
    })
}

/// Logs and adds the lemma of the negation of a point and of the lower literals. Goes back to the highest level among
/// these, and assigns the negation there.
pub(crate) fn learn(
    alloc: Global,
    watched: &mut Watched<InnerLiteral>,
    log: &mut Log,
    point: InnerLiteral,
    analysis: &mut Analysis,
    activity: &mut Activity,
) -> Result<(), AllocError>
    requires few { length watched.old.clauses < MOST_CLAUSES }
    requires room { length log.old < MOST_ITEMS }
    requires made { IsPoint watched.old.trail analysis.old.lower.items point }
    requires below { SettledBelow place watched.old.trail (placed place watched.old.clauses) }
    requires current { All (λ (e : Entry ℕ). e.level ≡ watched.old.trail.level) (waiting watched.old.trail) }
    requires hints { All (λ h. 1 ≤ h) analysis.old.hints.items }
    requires short { length analysis.old.hints.items ≤ MOST_ITEMS }
    ensures learned { OnOk result
        (IsLearned watched.old.clauses watched.old.trail log.old point analysis.old.lower.items
        analysis.old.hints.items watched.new.clauses watched.new.trail log.new) }
    ensures ready { OnOk result (CanPropagate place watched.new.trail (placed place watched.new.clauses)) }
    ensures stamps { analysis.new.stamps.items ≡ analysis.old.stamps.items }
    ensures stamp { analysis.new.stamp ≡ analysis.old.stamp }
{
    let literal = point.negation();
    let level = put_highest_first(watched.trail(), analysis.lower.as_mut_slice());
    analysis.clause.clear();
    analysis.clause.push(literal)?;
    analysis
        .clause
        .extend_from_slice(analysis.lower.as_slice())?;
    let clause = analysis.clause.as_slice();
    let id = watched.arena().count() + 1;
    log_lemma(alloc, log, id, clause, analysis.hints.as_slice())?;
    backjump(watched, level, activity);
    let added = watched.add_clause(clause)?;
    watched.assign(literal, Some(added.id));
    Ok(())
}
