//! Backjumping: the trail goes back to the level at which a lemma gives its literal.
ghost use Rattle.std.specs.Prelude.{ℕ, ◌≡◌, ◌<◌, ◌≤◌, length, All, slice_index_or, IsPermutation};
ghost use Rattle.literals_core.specs.Literal.{negation};
ghost use Rattle.watch_core.specs.Trail.{IsTrail, undone};
ghost use Rattle.search_core.specs.State.{place, IsEntry, entry_at};
ghost use Rattle.search_core.specs.Analysis.{IsLower, IsHighest};

use crate::activity::Activity;
use crate::inner_literal::InnerLiteral;
use arena_core::Lit;
use watch_core::{Trail, Watched};

/// The place of a literal that became false on the highest level.
fn highest_place(trail: &Trail<InnerLiteral>, lower: &[InnerLiteral]) -> usize
    requires trail { IsTrail place trail.now }
    requires some { 0 < length lower.now }
    requires lows { All (IsLower trail.now) lower.now }
    ensures known { result < length lower.now }
    ensures most { (k i j : ℕ) → k < length lower.now → IsEntry trail.now (negation (slice_index_or lower.now k 0)) i
        → IsEntry trail.now (negation (slice_index_or lower.now result 0)) j
        → (entry_at trail.now i).level ≤ (entry_at trail.now j).level }
{
    let mut highest = 0;
    let mut level = trail.level_of(lower[0].variable());
    for k in 1..lower.len() {
        let at = trail.level_of(lower[k].variable());
        if level < at {
            level = at;
            highest = k;
        }
    }
    highest
}

/// Puts a literal that became false on the highest level first, and returns that level: 0 if there is no literal.
pub(crate) fn put_highest_first(trail: &Trail<InnerLiteral>, lower: &mut [InnerLiteral]) -> u32
    requires trail { IsTrail place trail.now }
    requires lows { All (IsLower trail.now) lower.old }
    ensures order { IsPermutation lower.old lower.new }
    ensures level { IsHighest trail.now lower.new result }
{
    if lower.len() == 0 {
        return 0;
    }
    let highest = highest_place(trail, lower);
    lower.swap(0, highest);
    trail.level_of(lower[0].variable())
}

/// The first place on the trail above a level. Levels do not fall along the trail, so it is found by halving.
pub(crate) fn first_above(trail: &Trail<InnerLiteral>, level: u32) -> usize
    ensures { result ≤ length trail.now.entries }
{
    let _current = trail.level();
    let order = trail.order();
    let mut low = 0;
    let mut high = order.len();
    while low < high {
        let middle = low + (high - low) / 2;
        if trail.level_of(order[middle].variable()) <= level {
            low = middle + 1;
        } else {
            high = middle;
        }
    }
    low
}

/// Gives the variables above a level back to the order of decisions, with their signs.
fn release_above(trail: &Trail<InnerLiteral>, level: u32, activity: &mut Activity) {
    let above = first_above(trail, level);
    for literal in trail.order()[above..].iter().rev() {
        activity.release(literal.variable(), literal.has_minus());
    }
}

/// Goes back to a level.
pub(crate) fn backjump(watched: &mut Watched<InnerLiteral>, level: u32, activity: &mut Activity)
    requires { level ≤ watched.old.trail.level }
    ensures trail { watched.new.trail ≡ undone watched.old.trail level }
    ensures kept { IsTrail place watched.new.trail }
    ensures clauses { watched.new.clauses ≡ watched.old.clauses }
{
    release_above(watched.trail(), level, activity);
    watched.undo_to(level);
}
