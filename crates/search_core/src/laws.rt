//! Laws on lists of clauses and on lemmas, each on a function that does nothing.
ghost use Rattle.std.specs.Prelude.{ℕ, ◌≡◌, ◌≢◌, ◌<◌, ◌≤◌, ◌^◌, List, [], ◌∷◌, length, map, All, Contains};
ghost use Rattle.literals_core.specs.Formula.{Cnf, AreLiterals};
ghost use Rattle.literals_core.specs.Propagation.{IsGiven};
ghost use Rattle.literals_core.specs.Settled.{IsSettled};
ghost use Rattle.chain_core.specs.Fresh.{HasNoPair, ShowsFresh, IsFresh};
ghost use Rattle.chain_core.specs.declared.log.Lemma.{Lemma};
ghost use Rattle.search_core.specs.Bounds.{PropagationEnds, NoneSubsumed};
ghost use Rattle.search_core.specs.declared.outcome.TheConstants.{MOST_LEMMAS};

/// Clauses of which none is subsumed by an earlier one are few.
///
/// There are at most as many as three to the power of the number of variables, and fewer if none is empty. The lemmas
/// of a fresh log are such clauses.
pub fn clauses_not_subsumed_by_earlier_ones_are_few()
    ensures most { (variables : ℕ) (clauses : List (List ℕ)) → NoneSubsumed variables clauses
        → length clauses ≤ 3 ^ variables }
    ensures fewer { (variables : ℕ) (clauses : List (List ℕ)) → NoneSubsumed variables clauses
        → All (λ clause. clause ≢ []) clauses → length clauses < 3 ^ variables }
    ensures lemmas { (formula : Cnf) (log : List Lemma)
        → AreLiterals formula.variables (map (λ lemma. lemma.literals) log)
        → IsFresh formula log → NoneSubsumed formula.variables (map (λ lemma. lemma.literals) log) }
{}

/// No lemma is fresh if unit propagation from the formula alone meets a false clause or assigns every variable.
///
/// A set under which unit propagation has nothing to say has every literal that it gives from the clauses alone.
pub fn no_lemma_is_fresh_where_unit_propagation_ends()
    ensures given { (clauses : List (List ℕ)) (set : List ℕ) (l : ℕ) → HasNoPair set → All (IsSettled set) clauses
        → IsGiven clauses [] l → Contains set l }
    ensures none { (formula : Cnf) (literals set : List ℕ) → AreLiterals formula.variables (literals ∷ [])
        → ShowsFresh formula.clauses literals set → ¬ PropagationEnds formula }
{}

/// A search may be allowed 1,000,000 lemmas, and no more.
pub fn lemmas_are_at_most_a_million()
    ensures { MOST_LEMMAS ≡ 1000000 }
{}
