//! Laws of chains, refutations and fresh logs, and the limits as numbers. Each is the contract of a function that does
//! nothing.

ghost use Rattle.std.specs.Prelude.{◌≡◌, ◌↔◌, ℕ, true, List, Some, slice_get, All, Contains};
ghost use Rattle.lists_core.specs.declared.list_of.TheConstants.{MOST_ITEMS};
ghost use Rattle.literals_core.specs.Formula.{Cnf};
ghost use Rattle.literals_core.specs.Values.{IsUnsatisfiable};
ghost use Rattle.chain_core.specs.Chain.{Chains, chain_from};
ghost use Rattle.chain_core.specs.Log.{known_before, IsRefutation};
ghost use Rattle.chain_core.specs.Fresh.{IsFresh, PropagationLeavesOne};
ghost use Rattle.chain_core.specs.declared.log.Lemma.{Lemma};
ghost use Rattle.chain_core.specs.declared.formula.TheConstants.{MOST_CLAUSES};
ghost use Rattle.chain_core.specs.declared.literal.TheConstants.{GREATEST_VARIABLE};
ghost use Rattle.chain_core.specs.declared.number.TheConstants.{MOST_ID};
ghost use Rattle.chain_core.specs.declared.read.TheConstants.{MOST_BYTES};

/// From any set, hints are computed to succeed exactly when they are a chain.
pub fn computed_chain_is_a_chain()
    ensures { (clauses : List (List ℕ)) (set hints : List ℕ)
        → (chain_from clauses set hints ≡ true) ↔ Chains clauses set hints }
{}

/// A formula with a refutation is unsatisfiable: no values make every clause true.
pub fn refutation_means_unsatisfiable()
    ensures { (formula : Cnf) (log : List Lemma) → IsRefutation formula log → IsUnsatisfiable formula }
{}

/// A lemma of a fresh log is no weaker copy of a clause before it: it has all literals of no clause of the formula and
/// of no earlier lemma.
pub fn fresh_lemma_is_no_weaker_copy()
    ensures { (formula : Cnf) (log : List Lemma) (k : ℕ) (lemma : Lemma) (clause : List ℕ) → IsFresh formula log
        → slice_get log k ≡ Some lemma
        → Contains (known_before formula log k) clause → ¬ All (Contains lemma.literals) clause }
{}

/// A lemma of a fresh log says more than unit propagation does: over the clauses before it, unit propagation from the
/// negations of all its literals but one meets no conflict, and assigns that one neither way.
pub fn propagation_gives_no_fresh_lemma()
    ensures { (formula : Cnf) (log : List Lemma) (k : ℕ) (lemma : Lemma) → IsFresh formula log
        → slice_get log k ≡ Some lemma
        → PropagationLeavesOne (known_before formula log k) lemma.literals }
{}

/// The limits as numbers: variables and clauses of a formula, ids, lemmas of a log, and bytes of its text.
pub fn limits_are_these_numbers()
    ensures variables { GREATEST_VARIABLE ≡ 2147483647 }
    ensures clauses { MOST_CLAUSES ≡ 2000000000 }
    ensures ids { MOST_ID ≡ 4294967295 }
    ensures lemmas { MOST_ITEMS ≡ 4000000000 }
    ensures bytes { MOST_BYTES ≡ 67108864 }
{}
