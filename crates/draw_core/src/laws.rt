//! Laws on drawn material.
ghost use Rattle.std.specs.Prelude.{◌≡◌, ℕ, List, length, map};
ghost use Rattle.problem_core.specs.Grade.{direction_of};
ghost use Rattle.problem_core.specs.Problem.{ProblemValue, IsProblem};
ghost use Rattle.sorting_rule.specs.Examples.{Example, HasNoModel, Restores};
ghost use Rattle.model_core.specs.Model.{ModelValue, rule_of, Belongs};
ghost use Rattle.draw_core.specs.DrawnModel.{drawn_model};

/// A law, with no code: of examples that a drawn model restores it is never true that there is no model. The sets that
/// are enough by the drawn weights are a closed family, and it is the same at each boundary.
pub fn drawn_examples_have_a_model()
    ensures { (problem : ProblemValue) (words : List ℕ) (m : ModelValue) (examples : List Example)
        → IsProblem problem → m ≡ drawn_model problem words → Belongs problem m → Restores (rule_of problem m) examples
        → HasNoModel (map (λ c. direction_of c.scale) problem.criteria) (length problem.categories) examples → ⊥ }
{}
