//! How often a model gives the stated category.
ghost use Rattle.std.specs.Prelude.{◌≡◌, ◌==◌, ◌<◌, length};
ghost use Rattle.model_core.specs.Model.{rule_of, Belongs};
ghost use Rattle.table_core.specs.Examples.{example_at, BelongTo};
ghost use Rattle.sorting_rule.specs.Model.{category};
ghost use Rattle.report_core.specs.Restored.{restored_count};

use model_core::{Model, sort};
use problem_core::Problem;
use table_core::Examples;

/// Whether the model gives an example its stated category.
fn is_restored(problem: &Problem, model: &Model, examples: &Examples, row: u32) -> bool
    requires belongs { Belongs problem.now model.now }
    requires examples { BelongTo problem.now examples.now }
    requires row { row < length examples.now }
    ensures { let example = example_at examples.now row in
        result ≡ (category (rule_of problem.now model.now) example.grades == example.category) }
{
    sort(problem, model, examples.grades(row)) == examples.category(row)
}

/// Returns how many examples the model gives their stated category, and how many there are. Takes no memory.
pub fn accuracy(problem: &Problem, model: &Model, examples: &Examples) -> (u64, u64)
    requires belongs { Belongs problem.now model.now }
    requires examples { BelongTo problem.now examples.now }
    ensures restored { result.0 ≡ restored_count (rule_of problem.now model.now) examples.now }
    ensures all { result.1 ≡ length examples.now }
{
    let mut restored = 0;
    for row in 0..examples.count() {
        if is_restored(problem, model, examples, row) {
            restored += 1;
        }
    }
    (restored, u64::from(examples.count()))
}
