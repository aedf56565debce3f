//! The encoder.
ghost use Rattle.std.specs.Prelude.{◌≡◌, IfOk, IfErr, OnOk};
ghost use Rattle.sorting_rule.specs.Examples.{HasNoModel};
ghost use Rattle.literals_core.specs.Values.{IsUnsatisfiable};
ghost use Rattle.literals_core.specs.declared.encoding.Encoding.TheVariants.{Separation};
ghost use Rattle.encoding_rules.specs.Task.{IsTask};
ghost use Rattle.encoding_rules.specs.Encodings.{formula_of, HasFormula};
ghost use Rattle.ranks_core.specs.Ranks.{task_of, AreRanks};
ghost use Rattle.ranks_core.specs.Fault.{FaultOf};

use crate::formula::separation_of;
use crate::sizes::separation_literals;
use accepted_core::unknowns_of;
use chain_core::Formula;
use problem_core::Problem;
use ranks_core::{EncodeFault, MOST_LITERALS, Ranks};
use std::alloc::Global;
use table_core::Examples;

/// Returns the separation formula of examples of a problem: some criterion separates each good example from each bad
/// one (after Belahcène and others 2018). If no values make every clause true, no model restores the examples.
///
/// The error is `TooLarge`, with the number of literals, if the formula would have more than [`MOST_LITERALS`]. The
/// number is found before any memory is taken. `Wide` never comes.
pub fn encode_separation(
    alloc: Global,
    problem: &Problem,
    examples: &Examples,
    ranks: &Ranks,
) -> Result<Formula, EncodeFault>
    requires task { IsTask (task_of problem.now examples.now) }
    requires ranks { AreRanks (task_of problem.now examples.now) ranks.now }
    ensures formula { IfOk result (λ formula. formula ≡ formula_of Separation (task_of problem.now examples.now)) }
    ensures small { OnOk result (HasFormula Separation (task_of problem.now examples.now)) }
    ensures fault { IfErr result (FaultOf Separation (task_of problem.now examples.now)) }
    ensures complete { let task = task_of problem.now examples.now in
        IfOk result (λ formula. IsUnsatisfiable formula → HasNoModel task.directions task.categories task.examples) }
{
    let n = problem.criteria_count();
    let literals = separation_literals(problem.categories_count(), n, examples, ranks);
    if literals > u128::from(MOST_LITERALS) {
        return Err(EncodeFault::TooLarge(literals));
    }
    let unknowns = unknowns_of(alloc, problem, examples, ranks)?;
    let formula = separation_of(alloc, &unknowns)?;
    Ok(formula)
}
