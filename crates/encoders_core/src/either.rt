//! The encoder.
ghost use Rattle.std.specs.Prelude.{◌≡◌, IfOk, IfErr, OnOk};
ghost use Rattle.sorting_rule.specs.Examples.{HasNoModel};
ghost use Rattle.literals_core.specs.Values.{IsUnsatisfiable};
ghost use Rattle.encoding_rules.specs.Task.{IsTask};
ghost use Rattle.encoding_rules.specs.Encodings.{formula_of, HasFormula};
ghost use Rattle.ranks_core.specs.Ranks.{task_of, AreRanks};
ghost use Rattle.ranks_core.specs.Fault.{FaultOf};

use chain_core::Formula;
use coalition_core::encode_coalitions;
use literals_core::Encoding;
use problem_core::Problem;
use ranks_core::{EncodeFault, Ranks};
use separation_core::encode_separation;
use std::alloc::Global;
use table_core::Examples;

/// Returns the formula of examples of a problem in an encoding. If no values make every clause true, no model restores
/// the examples.
///
/// The error is `Wide` if the encoding is by coalitions and there are more than 12 criteria, else `TooLarge`, with the
/// number of literals, if the formula would have more than 33,554,432.
pub fn encode(
    alloc: Global,
    encoding: Encoding,
    problem: &Problem,
    examples: &Examples,
    ranks: &Ranks,
) -> Result<Formula, EncodeFault>
    requires task { IsTask (task_of problem.now examples.now) }
    requires ranks { AreRanks (task_of problem.now examples.now) ranks.now }
    ensures formula { IfOk result (λ formula. formula ≡ formula_of encoding (task_of problem.now examples.now)) }
    ensures small { OnOk result (HasFormula encoding (task_of problem.now examples.now)) }
    ensures fault { IfErr result (FaultOf encoding (task_of problem.now examples.now)) }
    ensures complete { let task = task_of problem.now examples.now in
        IfOk result (λ formula. IsUnsatisfiable formula → HasNoModel task.directions task.categories task.examples) }
{
    match encoding {
        Encoding::Separation => encode_separation(alloc, problem, examples, ranks),
        Encoding::Coalitions => encode_coalitions(alloc, problem, examples, ranks),
    }
}
