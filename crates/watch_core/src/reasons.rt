//! Laws on why the literals of a trail are true, and on which level a clause became false.
ghost use Rattle.std.specs.Prelude.{ℕ, ◌≡◌, ◌≢◌, ◌<◌, ◌≤◌, List, [], ◌∷◌, ◌++◌, All, Option, Some, None, slice_index_or, ◌⊎◌};
ghost use Rattle.watch_core.specs.Trail.{Assignment, IsTrail, places, assigned, decided, undone, empty_trail};
ghost use Rattle.watch_core.specs.Rest.{IsInConflict};
ghost use Rattle.watch_core.specs.Propagates.{Propagates};
ghost use Rattle.watch_core.specs.Reasons.{HasReasons, IsUnitFor, HasDecisions, HasReasonsAtStart, IsFalseOn, HasTwoFalseOn};

use arena_core::Lit;

/// Laws, with no code: each entry with a reason has it, if each `assign` is given a clause whose other literals are
/// false.
pub fn reasons_are_kept<L: Lit>()
    ensures start { (clauses : List (List ℕ)) (variables : ℕ)
        → HasReasons {L = L} L.table_place (empty_trail variables) clauses }
    ensures assigned { (t : Assignment L) (clauses : List (List ℕ)) (literal : L) (reason : Option ℕ)
        → HasReasons L.table_place t clauses
        → ((id : ℕ) → reason ≡ Some id → IsUnitFor (places L.table_place t.entries) clauses id (L.table_place literal))
        → HasReasons L.table_place (assigned t literal reason) clauses }
    ensures decided { (t : Assignment L) (clauses : List (List ℕ)) (literal : L) → HasReasons L.table_place t clauses
        → HasReasons L.table_place (decided t literal) clauses }
    ensures undone { (t : Assignment L) (clauses : List (List ℕ)) (level : ℕ) → IsTrail L.table_place t
        → HasReasons L.table_place t clauses → HasReasons L.table_place (undone t level) clauses }
    ensures added { (t : Assignment L) (clauses : List (List ℕ)) (clause : List ℕ)
        → HasReasons L.table_place t clauses → HasReasons L.table_place t (clauses ++ clause ∷ []) }
    ensures propagated { (t t' : Assignment L) (clauses clauses' : List (List ℕ))
        → Propagates L.table_place clauses t clauses' t' → HasReasons L.table_place t clauses
        → HasReasons L.table_place t' clauses' }
{}

/// Laws, with no code: each level above 0 begins with its decision, and no other entry there is without a reason, if
/// each `assign` above level 0 is given a reason.
pub fn decisions_are_kept<L: Lit>()
    ensures start { (variables : ℕ) → HasDecisions {L = L} (empty_trail variables) }
    ensures assigned { (t : Assignment L) (literal : L) (reason : Option ℕ) → HasDecisions t
        → (reason ≢ None) ⊎ (t.level ≡ 0) → HasDecisions (assigned t literal reason) }
    ensures decided { (t : Assignment L) (literal : L) → IsTrail L.table_place t → HasDecisions t
        → HasDecisions (decided t literal) }
    ensures undone { (t : Assignment L) (level : ℕ) → IsTrail L.table_place t → level ≤ t.level → HasDecisions t
        → HasDecisions (undone t level) }
    ensures propagated { (t t' : Assignment L) (clauses clauses' : List (List ℕ))
        → Propagates L.table_place clauses t clauses' t' → HasDecisions t → HasDecisions t' }
{}

/// Laws, with no code: each entry of level 0 has a reason, if each `assign` on level 0 is given one.
pub fn start_is_reasoned<L: Lit>()
    ensures start { (variables : ℕ) → HasReasonsAtStart {L = L} (empty_trail variables) }
    ensures assigned { (t : Assignment L) (literal : L) (reason : Option ℕ) → HasReasonsAtStart t
        → (reason ≢ None) ⊎ (0 < t.level) → HasReasonsAtStart (assigned t literal reason) }
    ensures decided { (t : Assignment L) (literal : L) → HasReasonsAtStart t → HasReasonsAtStart (decided t literal) }
    ensures undone { (t : Assignment L) (level : ℕ) → IsTrail L.table_place t → HasReasonsAtStart t
        → HasReasonsAtStart (undone t level) }
    ensures propagated { (t t' : Assignment L) (clauses clauses' : List (List ℕ))
        → Propagates L.table_place clauses t clauses' t' → HasReasonsAtStart t → HasReasonsAtStart t' }
{}

/// Laws, with no code: a clause that propagation found false has two literals that became false on the current level;
/// on level 0, all became false there.
pub fn false_clauses_are_current<L: Lit>()
    ensures above { (t : Assignment L) (clauses : List (List ℕ)) (id : ℕ) → IsTrail L.table_place t
        → IsInConflict L.table_place t clauses id → 0 < t.level
        → HasTwoFalseOn L.table_place t t.level (slice_index_or clauses id []) }
    ensures start { (t : Assignment L) (clauses : List (List ℕ)) (id : ℕ) → IsTrail L.table_place t
        → IsInConflict L.table_place t clauses id → t.level ≡ 0
        → All (IsFalseOn L.table_place t 0) (slice_index_or clauses id []) }
{}
