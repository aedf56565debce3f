//! The encoder.
ghost use Rattle.std.specs.Prelude.{◌≡◌, IfOk, IfErr, OnOk};
ghost use Rattle.sorting_rule.specs.Examples.{HasNoModel};
ghost use Rattle.literals_core.specs.Values.{IsUnsatisfiable};
ghost use Rattle.literals_core.specs.declared.encoding.Encoding.TheVariants.{Coalitions};
ghost use Rattle.encoding_rules.specs.Task.{IsTask};
ghost use Rattle.encoding_rules.specs.Encodings.{formula_of, HasFormula};
ghost use Rattle.ranks_core.specs.Ranks.{task_of, AreRanks};
ghost use Rattle.ranks_core.specs.Fault.{FaultOf};

use crate::formula::coalitions_of;
use crate::sizes::coalition_literals;
use accepted_core::unknowns_of;
use chain_core::Formula;
use problem_core::Problem;
use ranks_core::{EncodeFault, MOST_LITERALS, Ranks};
use std::alloc::Global;
use table_core::Examples;

/// The most criteria of which all coalitions are considered.
pub const MOST_COALITION_CRITERIA: u32 = 12;

/// Returns the coalition formula of examples of a problem, with an unknown for each set of criteria (Belahcène and
/// others
/// 2018). If no values make every clause true, no model restores the examples.
///
/// The error is `Wide` if there are more than [`MOST_COALITION_CRITERIA`] criteria, else `TooLarge`, with the number of
/// literals, if the formula would have more than [`MOST_LITERALS`]. The number is found before any memory is taken.
pub fn encode_coalitions(
    alloc: Global,
    problem: &Problem,
    examples: &Examples,
    ranks: &Ranks,
) -> Result<Formula, EncodeFault>
    requires task { IsTask (task_of problem.now examples.now) }
    requires ranks { AreRanks (task_of problem.now examples.now) ranks.now }
    ensures formula { IfOk result (λ formula. formula ≡ formula_of Coalitions (task_of problem.now examples.now)) }
    ensures small { OnOk result (HasFormula Coalitions (task_of problem.now examples.now)) }
    ensures fault { IfErr result (FaultOf Coalitions (task_of problem.now examples.now)) }
    ensures complete { let task = task_of problem.now examples.now in
        IfOk result (λ formula. IsUnsatisfiable formula → HasNoModel task.directions task.categories task.examples) }
{
    let n = problem.criteria_count();
    if n > MOST_COALITION_CRITERIA {
        return Err(EncodeFault::Wide);
    }
    let literals = coalition_literals(problem.categories_count(), n, examples, ranks);
    if literals > u128::from(MOST_LITERALS) {
        return Err(EncodeFault::TooLarge(literals));
    }
    let unknowns = unknowns_of(alloc, problem, examples, ranks)?;
    let formula = coalitions_of(alloc, &unknowns)?;
    Ok(formula)
}
