//! Marks on the variables that an analysis has met.
//!
//! A variable is marked if its stamp is the number of the conflict, so that no mark has to be cleared.
ghost use Rattle.std.specs.Prelude.{◌≡◌, ◌*◌, ◌<◌, ◌≤◌, length, All, OnOk};
ghost use Rattle.watch_core.specs.Trail.{IsTrail};
ghost use Rattle.search_core.specs.State.{place};
ghost use Rattle.search_core.specs.Analysis.{HasMark, AreMarked, IsLastOpen, IsFalseOrMarked, Grows};

use crate::activity::Activity;
use crate::inner_literal::InnerLiteral;
use arena_core::Lit;
use std::alloc::AllocError;
use watch_core::Trail;

/// Marks the variable of a literal, which counts for its activity. A literal that was not marked goes into `lower` if
/// it is of a lower level.
fn mark_literal(
    trail: &Trail<InnerLiteral>,
    literal: InnerLiteral,
    stamps: &mut Vec<u32>,
    stamp: u32,
    lower: &mut Vec<InnerLiteral>,
    activity: &mut Activity,
) -> Result<(), AllocError>
    requires trail { IsTrail place trail.now }
    requires size { length stamps.old.items ≡ trail.now.variables }
    requires old { All (λ s. s ≤ stamp) stamps.old.items }
    requires marked { AreMarked trail.now stamps.old.items stamp lower.old.items }
    requires out { IsFalseOrMarked trail.now stamps.old.items stamp literal }
    requires inside { literal < 2 * trail.now.variables }
    ensures size { length stamps.new.items ≡ length stamps.old.items }
    ensures old { All (λ s. s ≤ stamp) stamps.new.items }
    ensures marked { OnOk result (AreMarked trail.now stamps.new.items stamp lower.new.items) }
    ensures mark { OnOk result (HasMark stamps.new.items stamp literal) }
    ensures grows { OnOk result (Grows stamps.old.items stamp lower.old.items stamps.new.items lower.new.items) }
{
    let variable = literal.variable();
    if stamps[variable as usize] == stamp {
        return Ok(());
    }
    stamps[variable as usize] = stamp;
    activity.bump(variable);
    if trail.level_of(variable) >= trail.level() {
        return Ok(());
    }
    lower.push(literal)?;
    Ok(())
}

/// Marks the variables of a clause. The literals of lower levels that were not marked go into `lower`.
pub(crate) fn mark_clause(
    trail: &Trail<InnerLiteral>,
    clause: &[InnerLiteral],
    stamps: &mut Vec<u32>,
    stamp: u32,
    lower: &mut Vec<InnerLiteral>,
    activity: &mut Activity,
) -> Result<(), AllocError>
    requires trail { IsTrail place trail.now }
    requires size { length stamps.old.items ≡ trail.now.variables }
    requires old { All (λ s. s ≤ stamp) stamps.old.items }
    requires marked { AreMarked trail.now stamps.old.items stamp lower.old.items }
    requires out { All (IsFalseOrMarked trail.now stamps.old.items stamp) clause.now }
    requires inside { All (λ l. l < 2 * trail.now.variables) clause.now }
    ensures size { length stamps.new.items ≡ length stamps.old.items }
    ensures old { All (λ s. s ≤ stamp) stamps.new.items }
    ensures marked { OnOk result (AreMarked trail.now stamps.new.items stamp lower.new.items) }
    ensures all { OnOk result (All (HasMark stamps.new.items stamp) clause.now) }
    ensures grows { OnOk result (Grows stamps.old.items stamp lower.old.items stamps.new.items lower.new.items) }
{
    for literal in clause {
        mark_literal(trail, *literal, stamps, stamp, lower, activity)?;
    }
    Ok(())
}

/// The last place below `below` on the trail, on the current level, whose variable is marked. From `floor` on all
/// places are of the current level, so levels are looked up below it alone; this is a hint.
pub(crate) fn last_marked(
    trail: &Trail<InnerLiteral>,
    stamps: &[u32],
    stamp: u32,
    floor: usize,
    below: usize,
) -> Option<usize>
    requires size { length stamps.now ≡ trail.now.variables }
    requires below { below ≤ length trail.now.entries }
    ensures { IsLastOpen trail.now stamps.now stamp below result }
{
    let level = trail.level();
    let order = trail.order();
    let mut place = below;
    while place > 0 {
        place -= 1;
        let variable = order[place].variable();
        if stamps[variable as usize] == stamp {
            if trail.level_of(variable) < level {
                return None;
            }
            return Some(place);
        }
        if place < floor && trail.level_of(variable) < level {
            return None;
        }
    }
    None
}
