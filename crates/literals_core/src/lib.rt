//! Literals, clauses and formulas, in definitions and laws: negation, truth under a set of literals and under truth
//! values, settled clauses, unit propagation; and the names of the encodings.
#![tactic(auto)]

mod encoding;

ghost use Rattle.std.specs.Prelude.{◌≡◌, ◌≢◌, ◌≤◌, ◌+◌, ◌==◌, ◌⊎◌, ◌↔◌, ℕ, Bool, true, not, List, length, Contains};
ghost use Rattle.std.specs.Prelude.{All};
ghost use Rattle.std.specs.List.{IsDistinct};
ghost use Rattle.literals_core.specs.Literal.{variable_of, negation};
ghost use Rattle.literals_core.specs.Truth.{IsTrueUnder, IsFalseUnder, is_true, is_false, open_literals};
ghost use Rattle.literals_core.specs.Settled.{HasTwoOpen, IsSettled, IsSettledByCount};
ghost use Rattle.literals_core.specs.Values.{literal_true, clause_true, Satisfies};
ghost use Rattle.literals_core.specs.Propagation.{IsGiven, MeetsConflict};
ghost use Rattle.literals_core.specs.Raised.{raised, all_raised};

pub use encoding::Encoding;

/// A law, with no code: the negation of a negation is the literal.
pub fn negation_of_a_negation_is_the_literal()
    ensures { (l : ℕ) → negation (negation l) ≡ l }
{}

/// A law: a literal and its negation are two literals of one variable, which has no third.
pub fn variable_has_a_literal_and_its_negation()
    ensures same { (l : ℕ) → variable_of (negation l) ≡ variable_of l }
    ensures two { (l : ℕ) → negation l ≢ l }
    ensures only { (l m : ℕ) → variable_of l ≡ variable_of m → (l ≡ m) ⊎ (l ≡ negation m) }
{}

/// A law: the computations of true, false and open literals agree with the relations.
pub fn computed_truth_is_truth()
    ensures trues { (set : List ℕ) (l : ℕ) → (is_true set l ≡ true) ↔ IsTrueUnder set l }
    ensures falses { (set : List ℕ) (l : ℕ) → (is_false set l ≡ true) ↔ IsFalseUnder set l }
    ensures opens { (set clause : List ℕ) (l : ℕ)
        → Contains (open_literals set clause) l ↔ (Contains clause l × ¬ IsFalseUnder set l) }
{}

/// A law: a clause of distinct literals has at least two open literals by count exactly when two different literals are
/// open.
pub fn two_open_by_count_are_two_different()
    ensures { (set clause : List ℕ) → IsDistinct (λ x y. x == y) clause
        → (2 ≤ length (open_literals set clause)) ↔ HasTwoOpen set clause }
{}

/// A law: a clause of distinct literals is settled by count exactly when it is settled.
pub fn settled_by_count_is_settled()
    ensures { (set clause : List ℕ) → IsDistinct (λ x y. x == y) clause
        → IsSettledByCount set clause ↔ IsSettled set clause }
{}

/// A law: truth values make exactly one of a literal and its negation true.
pub fn literal_and_its_negation_have_opposite_truth()
    ensures { (values : ℕ → Bool) (l : ℕ) → literal_true values (negation l) ≡ not (literal_true values l) }
{}

/// A law: values that make the clauses and the literals of a set true make each literal true that unit propagation
/// gives, and there are no such values if it meets a conflict.
pub fn given_literals_are_true()
    ensures literals { (values : ℕ → Bool) (clauses : List (List ℕ)) (set : List ℕ) (l : ℕ) → Satisfies values clauses
        → All (λ x. literal_true values x ≡ true) set → IsGiven clauses set l → literal_true values l ≡ true }
    ensures conflict { (values : ℕ → Bool) (clauses : List (List ℕ)) (set : List ℕ) → Satisfies values clauses
        → All (λ x. literal_true values x ≡ true) set → ¬ MeetsConflict clauses set }
{}

/// A law: variables may be numbered from another number on. Places are then raised by an even number, and negation,
/// truth, open literals and settled clauses stay as they are.
pub fn numbering_may_start_elsewhere()
    ensures variable { (by l : ℕ) → variable_of (raised by l) ≡ variable_of l + by }
    ensures negated { (by l : ℕ) → negation (raised by l) ≡ raised by (negation l) }
    ensures trues { (by : ℕ) (set : List ℕ) (l : ℕ) → is_true (all_raised by set) (raised by l) ≡ is_true set l }
    ensures falses { (by : ℕ) (set : List ℕ) (l : ℕ) → is_false (all_raised by set) (raised by l) ≡ is_false set l }
    ensures opens { (by : ℕ) (set clause : List ℕ)
        → open_literals (all_raised by set) (all_raised by clause) ≡ all_raised by (open_literals set clause) }
    ensures settled { (by : ℕ) (set clause : List ℕ)
        → IsSettled (all_raised by set) (all_raised by clause) ↔ IsSettled set clause }
    ensures counted { (by : ℕ) (set clause : List ℕ)
        → IsSettledByCount (all_raised by set) (all_raised by clause) ↔ IsSettledByCount set clause }
    ensures values { (by : ℕ) (values : ℕ → Bool) (clause : List ℕ)
        → clause_true values (all_raised by clause) ≡ clause_true (λ v. values (v + by)) clause }
{}
