//! Encodings of a learning task as a formula, in definitions and laws: ranks, unknowns, clauses, and what values of the
//! unknowns mean (Belahcène and others 2018).
#![tactic(auto)]

ghost use Rattle.std.specs.Prelude.{◌≡◌, ◌≤◌, ℕ, ℤ, List, Bool, All, length};
ghost use Rattle.std.specs.List.{sum_by};
ghost use Rattle.sorting_rule.specs.Preference.{Direction};
ghost use Rattle.sorting_rule.specs.Examples.{HasNoModel};
ghost use Rattle.sorting_rule.specs.Rebuilt.{own_sets, AreMinimal, Learns};
ghost use Rattle.literals_core.specs.DistinctVariables.{HasDistinctVariables};
ghost use Rattle.literals_core.specs.Formula.{AreLiterals};
ghost use Rattle.literals_core.specs.Values.{Satisfies, AreUnsatisfiable};
ghost use Rattle.literals_core.specs.declared.encoding.Encoding.{Encoding};
ghost use Rattle.encoding_rules.specs.Task.{Task, IsTask};
ghost use Rattle.encoding_rules.specs.Ranks.{ranking, IsRanking};
ghost use Rattle.encoding_rules.specs.Encodings.{variables_of, clauses_of, clause_count_of, literal_count_of};
ghost use Rattle.encoding_rules.specs.Meaning.{IsNested, SetsApart};
ghost use Rattle.encoding_rules.specs.Rebuilt.{rebuilt_profiles, rebuilt};

/// A law, with no code: a ranking, and no other list, has each of the grades once, in strictly rising preference.
pub fn ranking_has_each_grade_once()
    ensures ranks { (d : Direction) (grades : List ℤ) → IsRanking d grades (ranking d grades) }
    ensures only { (d : Direction) (grades ranked : List ℤ) → IsRanking d grades ranked → ranked ≡ ranking d grades }
{}

/// A law, whatever the encoding: a formula has as many clauses and literals as counted.
pub fn formula_is_counted()
    ensures clauses { (encoding : Encoding) (task : Task)
        → length (clauses_of encoding task) ≡ clause_count_of encoding task }
    ensures literals { (encoding : Encoding) (task : Task)
        → sum_by length (clauses_of encoding task) ≡ literal_count_of encoding task }
{}

/// A law, whatever the encoding: each literal of a formula is of one of its variables.
pub fn formula_is_in_range()
    ensures { (encoding : Encoding) (task : Task) → IsTask task
        → AreLiterals (variables_of encoding task) (clauses_of encoding task) }
{}

/// A law, whatever the encoding: the literals of each clause are of distinct variables.
pub fn formula_is_apart()
    ensures { (encoding : Encoding) (task : Task) → IsTask task → All HasDistinctVariables (clauses_of encoding task) }
{}

/// A law, whatever the encoding: a model that restores the examples, with any upward-closed family of sets of criteria,
/// would give values that make every clause true. So if there are no such values, there is no model.
pub fn unsatisfiable_formula_means_no_model()
    ensures { (encoding : Encoding) (task : Task) → IsTask task → AreUnsatisfiable (clauses_of encoding task)
        → HasNoModel task.directions task.categories task.examples }
{}

/// A law, whatever the encoding: values that make every clause true are nested and set the examples apart.
pub fn values_of_formula_set_apart()
    ensures nested { (encoding : Encoding) (task : Task) (values : ℕ → Bool)
        → Satisfies values (clauses_of encoding task)
        → IsNested task values }
    ensures apart { (encoding : Encoding) (task : Task) (values : ℕ → Bool)
        → Satisfies values (clauses_of encoding task)
        → SetsApart task values }
{}

/// A law: nested values that set the examples apart give an ordered model in rebuilt form that restores the examples.
pub fn nested_values_give_a_model()
    ensures { (task : Task) → IsTask task → (values : ℕ → Bool) → IsNested task values → SetsApart task values
        → (rs : List ℕ) → AreMinimal (own_sets (rebuilt_profiles task values) task.examples) rs
        → Learns task.examples (rebuilt task values rs) }
{}

/// A law, whatever the encoding: so do values that make every clause true.
pub fn values_of_formula_give_a_model()
    ensures { (encoding : Encoding) (task : Task) → IsTask task → (values : ℕ → Bool)
        → Satisfies values (clauses_of encoding task)
        → (rs : List ℕ) → AreMinimal (own_sets (rebuilt_profiles task values) task.examples) rs
        → Learns task.examples (rebuilt task values rs) }
{}
