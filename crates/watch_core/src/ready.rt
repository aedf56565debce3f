//! Laws on how the conditions of propagation come about.
ghost use Rattle.std.specs.Prelude.{ℕ, ◌≡◌, ◌<◌, ◌≤◌, false, List, [], ◌∷◌, ◌++◌, length, All, Option, slice_index_or};
ghost use Rattle.literals_core.specs.Truth.{is_false};
ghost use Rattle.watch_core.specs.Trail.{Assignment, Entry, IsTrail, places, cut, waiting, assigned, decided, undone, empty_trail};
ghost use Rattle.watch_core.specs.Rest.{SettledBelow, CanPropagate, IsAtRest};
ghost use Rattle.watch_core.specs.Added.{standing_of};
ghost use Rattle.watch_core.specs.declared.added.Standing.TheVariants.{Free};

use arena_core::Lit;

/// Laws, with no code, for a caller of `propagate`: how to come to its conditions, and to rest.
///
/// - While no literal is true, propagation is at rest; and at rest it may be called.
/// - When it may be called, it still may after one more literal is assigned on the current level. At rest, it may be
///   called after a decision.
/// - Going back to a lower level leads to rest, from rest and from a false clause alike.
/// - At rest, a clause may be added whose first literal isn't false, and whose second, if any, isn't false under lower
///   levels. A free clause keeps rest. Otherwise propagation may be called once its first literal is assigned.
pub fn propagation_can_go_on<L: Lit>()
    ensures start { (clauses : List (List ℕ)) (variables : ℕ)
        → IsAtRest {L = L} L.table_place (empty_trail variables) clauses }
    ensures rest { (t : Assignment L) (clauses : List (List ℕ)) → IsAtRest L.table_place t clauses
        → CanPropagate L.table_place t clauses }
    ensures assigned { (t : Assignment L) (clauses : List (List ℕ)) (literal : L) (reason : Option ℕ)
        → IsTrail L.table_place t → CanPropagate L.table_place t clauses
        → CanPropagate L.table_place (assigned t literal reason) clauses }
    ensures decided { (t : Assignment L) (clauses : List (List ℕ)) (literal : L) → IsTrail L.table_place t
        → IsAtRest L.table_place t clauses → CanPropagate L.table_place (decided t literal) clauses }
    ensures undone { (t : Assignment L) (clauses : List (List ℕ)) (level : ℕ) → IsTrail L.table_place t
        → SettledBelow L.table_place t clauses → All (λ (e : Entry L). e.level ≡ t.level) (waiting t)
        → level < t.level → IsAtRest L.table_place (undone t level) clauses }
    ensures free { (t : Assignment L) (clauses : List (List ℕ)) (clause : List ℕ) → IsAtRest L.table_place t clauses
        → standing_of (places L.table_place t.entries) clause ≡ Free
        → (2 ≤ length clause → is_false (places L.table_place t.entries) (slice_index_or clause 0 0) ≡ false)
        → (2 ≤ length clause → (level : ℕ) → level < t.level
        → is_false (places L.table_place (cut t.entries level)) (slice_index_or clause 1 0) ≡ false)
        → IsAtRest L.table_place t (clauses ++ clause ∷ []) }
    ensures added { (t : Assignment L) (clauses : List (List ℕ)) (clause : List ℕ) (literal : L) (reason : Option ℕ)
        → IsTrail L.table_place t → IsAtRest L.table_place t clauses
        → 1 ≤ length clause → slice_index_or clause 0 0 ≡ L.table_place literal
        → is_false (places L.table_place t.entries) (L.table_place literal) ≡ false
        → (2 ≤ length clause → (level : ℕ) → level < t.level
        → is_false (places L.table_place (cut t.entries level)) (slice_index_or clause 1 0) ≡ false)
        → CanPropagate L.table_place (assigned t literal reason) (clauses ++ clause ∷ []) }
{}
