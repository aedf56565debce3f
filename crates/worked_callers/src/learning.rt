//! Learning a model.
ghost use Rattle.std.specs.Prelude.{IfOk, IfSome};
ghost use Rattle.sorting_rule.specs.Examples.{Restores};
ghost use Rattle.table_core.specs.Examples.{BelongTo};
ghost use Rattle.model_core.specs.Model.{rule_of};

use encoders_core::Encoding;
use learn_core::{Answer, LearnFault, learn};
use model_core::Model;
use problem_core::Problem;
use std::alloc::Global;
use table_core::Examples;

/// A model that restores every example, if there is one that 100,000 lemmas of search find.
pub fn model_of(
    alloc: Global,
    problem: &Problem,
    examples: &Examples,
) -> Result<Option<Model>, LearnFault>
    requires { BelongTo problem.now examples.now }
    ensures { IfOk result (λ found. IfSome found (λ model. Restores (rule_of problem.now model) examples.now)) }
{
    match learn(alloc, problem, examples, Encoding::Separation, 100_000)? {
        Answer::Found(model) => Ok(Some(model)),
        Answer::Refuted(_) | Answer::Limit(_) => Ok(None),
    }
}
