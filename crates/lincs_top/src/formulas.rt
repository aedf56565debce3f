//! The size step: the formula of examples, unless it is too large.
ghost use Rattle.std.specs.Prelude.{◌≡◌, IfOk};
ghost use Rattle.table_core.specs.Examples.{BelongTo};
ghost use Rattle.encoding_rules.specs.Encodings.{formula_of};
ghost use Rattle.sorting_rule.specs.Examples.{HasNoModel};
ghost use Rattle.literals_core.specs.Values.{IsUnsatisfiable};
ghost use Rattle.encoding_rules.specs.Task.{IsTask};
ghost use Rattle.ranks_core.specs.Ranks.{task_of, AreRanks};
ghost use Rattle.lincs_top.specs.Size.{TakesSize};
ghost use Rattle.lincs_top.specs.Stop.{size_stop};

use crate::stop::{Size, Stop};
use chain_core::{Encoding, Formula};
use encoders_core::encode;
use problem_core::Problem;
use ranks_core::{EncodeFault, Ranks};
use std::alloc::Global;
use table_core::Examples;

/// The stop of a formula that is too large, or out of memory.
pub fn size_stop<'a>(criteria: u32, fault: EncodeFault) -> Stop<'a>
    ensures { result ≡ size_stop criteria fault }
{
    match fault {
        EncodeFault::Wide => Stop::TooLarge(Size::Wide(criteria)),
        EncodeFault::TooLarge(literals) => Stop::TooLarge(Size::Large(literals)),
        EncodeFault::NoMemory => Stop::NoMemory,
    }
}

// The formula of examples with these ranks.
fn formula_of_ranks<'a>(
    alloc: Global,
    encoding: Encoding,
    problem: &Problem,
    examples: &Examples,
    ranks: &Ranks,
) -> Result<Formula, Stop<'a>>
    requires task { IsTask (task_of problem.now examples.now) }
    requires ranks { AreRanks (task_of problem.now examples.now) ranks.now }
    ensures size { TakesSize encoding (task_of problem.now examples.now) result }
    ensures formula { IfOk result (λ formula. formula ≡ formula_of encoding (task_of problem.now examples.now)) }
    ensures complete { let task = task_of problem.now examples.now in
        IfOk result (λ formula. IsUnsatisfiable formula → HasNoModel task.directions task.categories task.examples) }
{
    match encode(alloc, encoding, problem, examples, ranks) {
        Ok(formula) => Ok(formula),
        Err(fault) => Err(size_stop(problem.criteria_count(), fault)),
    }
}

/// The formula of examples in an encoding, if it is not too large.
pub fn formula_of_examples<'a>(
    alloc: Global,
    encoding: Encoding,
    problem: &Problem,
    examples: &Examples,
) -> Result<Formula, Stop<'a>>
    requires { BelongTo problem.now examples.now }
    ensures size { TakesSize encoding (task_of problem.now examples.now) result }
    ensures formula { IfOk result (λ formula. formula ≡ formula_of encoding (task_of problem.now examples.now)) }
    ensures complete { let task = task_of problem.now examples.now in
        IfOk result (λ formula. IsUnsatisfiable formula → HasNoModel task.directions task.categories task.examples) }
{
    let Ok(ranks) = Ranks::of(alloc, problem, examples) else {
        return Err(Stop::NoMemory);
    };
    formula_of_ranks(alloc, encoding, problem, examples, &ranks)
}
