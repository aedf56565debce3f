//! Examples that fit a problem.
ghost use Rattle.std.specs.Prelude.{◌↔◌, List, IsTrue};
ghost use Rattle.sorting_rule.specs.Examples.{Example};
ghost use Rattle.problem_core.specs.Problem.{ProblemValue};
ghost use Rattle.table_core.specs.Examples.{BelongTo};
ghost use Rattle.encoding_rules.specs.Task.{IsTask};
ghost use Rattle.ranks_core.specs.Ranks.{task_of};

use problem_core::Problem;
use table_core::Examples;

/// Whether each example has a grade for each criterion of the problem, and one of its categories. Takes no memory.
pub fn fits_problem(problem: &Problem, examples: &Examples) -> bool
    ensures { IsTrue result ↔ IsTask (task_of problem.now examples.now) }
{
    let criteria = problem.criteria_count() as usize;
    let categories = problem.categories_count();
    for row in 0..examples.count() {
        if examples.grades(row).len() != criteria || examples.category(row) >= categories {
            return false;
        }
    }
    true
}

/// A law, with no code: examples that belong to a problem fit it.
pub fn examples_that_belong_fit()
    ensures { (problem : ProblemValue) (examples : List Example) → BelongTo problem examples
        → IsTask (task_of problem examples) }
{}
