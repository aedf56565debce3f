//! The search: decide, propagate, learn from each conflict.
ghost use Rattle.std.specs.Prelude.{ℕ, List, ◌≡◌, ◌==◌, ◌+◌, ◌*◌, ◌<◌, ◌≤◌, [], false, length, slice_index_or, All, IfOk, OnOk};
ghost use Rattle.std.specs.List.{IsDistinct};
ghost use Rattle.arena_core.specs.declared.lit.TheConstants.{MOST_VARIABLES};
ghost use Rattle.literals_core.specs.Truth.{is_true};
ghost use Rattle.literals_core.specs.DistinctVariables.{HasDistinctVariables};
ghost use Rattle.watch_core.specs.Places.{placed};
ghost use Rattle.watch_core.specs.Rest.{CanPropagate, IsClauseFalse};
ghost use Rattle.watch_core.specs.Trail.{IsTrail, places};
ghost use Rattle.search_core.specs.Analysis.{HasCurrent, IsExplained};
ghost use Rattle.search_core.specs.Bounds.{PropagationEnds};
ghost use Rattle.search_core.specs.Inner.{outer_clauses};
ghost use Rattle.search_core.specs.Outcomes.{IfSat, IfUnsat, IfLimit, IsModel, IsShortRefutation, IsAtLimit, IsOutcome};
ghost use Rattle.search_core.specs.State.{place, IsSound, AreReasoned, IsFalseAtStart};
ghost use Rattle.search_core.specs.declared.outcome.TheConstants.{MOST_LEMMAS};

use crate::activity::Activity;
use crate::analyze::Analysis;
use crate::decide::decide_all;
use crate::inner_literal::InnerLiteral;
use crate::learn::{learn, log_lemma};
use crate::load::load;
use crate::outcome::{Outcome, Values};
use crate::propagate::propagate_units;
use crate::restart::Restarts;
use arena_core::{ClauseId, Steps};
use chain_core::{Formula, Log};
use std::alloc::{AllocError, Global};
use std::marker::Brand;
use std::sync::ledger::{Blank, Ledger};
use watch_core::{Trail, Watched};

/// Searches for values that make every clause of a formula true, with at most `most` lemmas.
///
/// Takes a formula of which no clause has two literals of one variable. The outcome is
///
/// - `Sat` with values that make every clause true,
/// - `Unsat` with a refutation of at most `most` lemmas, or
/// - `Limit` with a good and fresh log of exactly `most` lemmas, none of them empty. There are fewer of these than
///   three to the power of the number of variables.
///
/// `Limit` never comes if unit propagation from the formula alone meets a false clause or assigns every variable.
pub fn search(alloc: Global, formula: &Formula, most: u64) -> Result<Outcome, AllocError>
    requires least { 1 ≤ most }
    requires limit { most ≤ MOST_LEMMAS }
    requires apart { All HasDistinctVariables formula.now.clauses }
    ensures sat { IfOk result (IfSat (IsModel formula.now)) }
    ensures unsat { IfOk result (IfUnsat (IsShortRefutation formula.now most)) }
    ensures limit { IfOk result (IfLimit (IsAtLimit formula.now most)) }
    ensures undecided { IfOk result (IfLimit (λ log. ¬ PropagationEnds formula.now)) }
{
    search_counted::<Brand>(alloc, formula, most, Blank::new(1))
}

/// The same, with a counter of looks.
fn search_counted<S: Ledger>(
    alloc: Global,
    formula: &Formula,
    most: u64,
    blank: Blank,
) -> Result<Outcome, AllocError>
    requires name { blank.name ≡ S.name }
    requires parts { blank.parts ≡ S.parts }
    requires whole { blank.parts ≡ 1 }
    requires least { 1 ≤ most }
    requires limit { most ≤ MOST_LEMMAS }
    requires apart { All HasDistinctVariables formula.now.clauses }
    ensures { IfOk result (IsOutcome formula.now most) }
{
    let count = formula.variables();
    let mut looks = Steps::<S>::new(blank);
    let mut watched = Watched::new(alloc, count)?;
    load(alloc, formula, &mut watched)?;
    formula.count();
    let mut analysis = Analysis::new(alloc, count)?;
    let mut activity = Activity::new(alloc, count)?;
    if let Some(conflict) = propagate_units(&mut watched, &mut looks) {
        return refute_at_start(
            alloc,
            formula,
            &watched,
            conflict,
            &mut analysis,
            &mut activity,
            &mut looks,
        );
    }
    search_on(
        alloc,
        formula,
        &mut watched,
        count,
        most,
        &mut analysis,
        &mut activity,
        &mut looks,
    )
}

/// The refutation of one lemma that a false clause at level 0 gives.
fn refute_at_start<S: Ledger>(
    alloc: Global,
    formula: &Formula,
    watched: &Watched<InnerLiteral>,
    conflict: ClauseId,
    analysis: &mut Analysis,
    activity: &mut Activity,
    looks: &mut Steps<S>,
) -> Result<Outcome, AllocError>
    requires met { (clauses : List (List ℕ)) × (outer_clauses clauses ≡ formula.now.clauses)
        × IsFalseAtStart clauses watched.now.clauses watched.now.trail conflict }
    requires size { length analysis.old.stamps.items ≡ watched.now.trail.variables }
    requires old { All (λ s. s ≤ 0) analysis.old.stamps.items }
    requires stamp { analysis.old.stamp ≡ 0 }
    ensures { (most : ℕ) → 1 ≤ most → IfOk result (IsOutcome formula.now most) }
{
    let mut log = Log::new(alloc);
    formula.count();
    explain(watched, conflict, analysis, activity, looks)?;
    let id = watched.arena().count() + 1;
    log_lemma(alloc, &mut log, id, &[], analysis.hints.as_slice())?;
    Ok(Outcome::Unsat(log))
}

/// Analyzes a false clause of the current level, and leaves out of its lemma what follows from the rest. Returns the
/// true literal of the current level whose negation is in the lemma, if the level is above 0.
fn explain<S: Ledger>(
    watched: &Watched<InnerLiteral>,
    conflict: ClauseId,
    analysis: &mut Analysis,
    activity: &mut Activity,
    looks: &mut Steps<S>,
) -> Result<Option<InnerLiteral>, AllocError>
    requires known { conflict < length watched.now.clauses }
    requires out { IsClauseFalse (places place watched.now.trail.entries)
        (slice_index_or watched.now.clauses conflict []) }
    requires current { 0 < watched.now.trail.level
        → HasCurrent watched.now.trail (slice_index_or watched.now.clauses conflict []) }
    requires reasoned { AreReasoned watched.now.trail watched.now.clauses }
    requires size { length analysis.old.stamps.items ≡ watched.now.trail.variables }
    requires old { All (λ s. s ≤ analysis.old.stamp) analysis.old.stamps.items }
    requires room { analysis.old.stamp < MOST_LEMMAS }
    ensures found { IfOk result (λ point. IsExplained watched.now.trail watched.now.clauses point
        analysis.new.lower.items analysis.new.hints.items) }
    ensures kept { IsTrail place watched.now.trail }
    ensures distinct { (clause : ℕ)
        → IsDistinct (λ x y. x == y) (slice_index_or (placed place watched.now.clauses) clause []) }
    ensures size { length analysis.new.stamps.items ≡ length analysis.old.stamps.items }
    ensures old { All (λ s. s ≤ analysis.new.stamp) analysis.new.stamps.items }
    ensures stamp { analysis.new.stamp ≡ analysis.old.stamp + 1 }
{
    let trail = watched.trail();
    let arena = watched.arena();
    analysis.stamp += 1;
    let found = analysis.analyze(trail, arena, conflict, activity, looks)?;
    activity.end_conflict();
    let Some(point) = found else {
        return Ok(None);
    };
    analysis.minimize(trail, arena, looks)?;
    Ok(Some(point))
}

/// The values of the variables.
fn values_of(alloc: Global, trail: &Trail<InnerLiteral>, count: u32) -> Result<Values, AllocError>
    requires known { count ≡ trail.now.variables }
    requires few { count ≤ MOST_VARIABLES }
    ensures count { IfOk result (λ values. length values ≡ count) }
    ensures values { IfOk result (λ values. (v : ℕ) → v < count
        → slice_index_or values v false ≡ is_true (places place trail.now.entries) (2 * v)) }
{
    let mut values = Vec::with_capacity(alloc, count as usize)?;
    for variable in 0..count {
        values.push(trail.is_true(InnerLiteral::signed(variable, false)))?;
    }
    Ok(Values::of(values))
}

/// Decides and learns, from a trail that can be propagated.
fn search_on<S: Ledger>(
    alloc: Global,
    formula: &Formula,
    watched: &mut Watched<InnerLiteral>,
    count: u32,
    most: u64,
    analysis: &mut Analysis,
    activity: &mut Activity,
    looks: &mut Steps<S>,
) -> Result<Outcome, AllocError>
    requires least { 1 ≤ most }
    requires limit { most ≤ MOST_LEMMAS }
    requires count { count ≡ formula.now.variables }
    requires variables { watched.old.trail.variables ≡ count }
    requires sound { (clauses : List (List ℕ)) × (outer_clauses clauses ≡ formula.now.clauses)
        × IsSound (length watched.old.clauses) clauses watched.old.clauses watched.old.trail }
    requires ready { CanPropagate place watched.old.trail (placed place watched.old.clauses) }
    requires size { length analysis.old.stamps.items ≡ count }
    requires old { All (λ s. s ≤ 0) analysis.old.stamps.items }
    requires stamp { analysis.old.stamp ≡ 0 }
    ensures { IfOk result (IsOutcome formula.now most) }
{
    let mut log = Log::new(alloc);
    formula.count();
    let mut restarts = Restarts::new();
    for k in 0..most {
        let Some(conflict) = decide_all(watched, count, restarts.is_due(), activity, looks) else {
            // That clauses have distinct literals is a clause of the call that lends them.
            watched.arena();
            return Ok(Outcome::Sat(values_of(alloc, watched.trail(), count)?));
        };
        match explain(watched, conflict, analysis, activity, looks)? {
            None => {
                let id = watched.arena().count() + 1;
                log_lemma(alloc, &mut log, id, &[], analysis.hints.as_slice())?;
                return Ok(Outcome::Unsat(log));
            }
            Some(point) => learn(alloc, watched, &mut log, point, analysis, activity)?,
        }
    }
    Ok(Outcome::Limit(log))
}
