//! Sorting one alternative.
ghost use Rattle.std.specs.Prelude.{◌≡◌, length, Some};
ghost use Rattle.std.specs.List.{slice_get};
ghost use Rattle.sorting_rule.specs.Model.{category};
ghost use Rattle.model_core.specs.Model.{Belongs, rule_of};

use model_core::{Model, sort};
use problem_core::{Grade, Problem};

/// The name of the category that a model gives an alternative with these grades.
pub fn category_name<'a>(problem: &'a Problem, model: &Model, grades: &[Grade]) -> &'a str
    requires belongs { Belongs problem.now model.now }
    requires grades { length grades.now ≡ length problem.now.criteria }
    ensures { slice_get problem.now.categories (category (rule_of problem.now model.now) grades.now)
        ≡ Some result.now }
{
    problem.category(sort(problem, model, grades))
}
