//! Rehearsals.
ghost use Rattle.std.specs.Prelude.{◌≡◌, ◌≤◌, IfOk, IfErr, OnOk};
ghost use Rattle.sorting_rule.specs.Examples.{HasNoModel};
ghost use Rattle.literals_core.specs.declared.encoding.Encoding.TheVariants.{Separation};
ghost use Rattle.problem_core.specs.Problem.{IsProblem};
ghost use Rattle.table_core.specs.Examples.{BelongTo};
ghost use Rattle.encoding_rules.specs.Encodings.{formula_of, HasFormula};
ghost use Rattle.ranks_core.specs.Ranks.{task_of};
ghost use Rattle.search_core.specs.Bounds.{PropagationEnds};
ghost use Rattle.search_core.specs.Outcomes.{IsAtLimit};
ghost use Rattle.learn_core.specs.Learning.{LearnFaultOf};
ghost use Rattle.rehearsal_core.specs.Outcome.{IfLearned, IfLimit};
ghost use Rattle.rehearsal_core.specs.Rehearsed.{rehearsed_examples, rehearsed_problem, rehearsed_task, IsSummary};

use crate::summary::{formula_size, summary};
use chain_core::Log;
use draw_core::{draw_examples, draw_model, draw_problem};
use encoders_core::Encoding;
use learn_core::{Answer, LearnFault, learn};
use problem_core::Problem;
use std::alloc::Global;
use table_core::Examples;

/// The most lemmas of the search of a rehearsal.
pub const MOST_LEMMAS: u64 = 100_000;

/// What a rehearsal ends with.
#[derive(Drop)]
pub enum Rehearsal {
    /// The summary: counts, how many rows the learned model restores, and its text.
    Learned(Vec<u8>),
    /// As many lemmas as were allowed, and no decision.
    Limit(Log),
}

/// Learns from examples that some model restores, and sums up.
fn learn_again(
    alloc: Global,
    problem: &Problem,
    examples: &Examples,
) -> Result<Rehearsal, LearnFault>
    requires belong { BelongTo problem.now examples.now }
    requires problem { IsProblem problem.now }
    requires some_model { let task = task_of problem.now examples.now in
        ¬ HasNoModel task.directions task.categories task.examples }
    ensures learned { IfOk result (IfLearned (IsSummary problem.now examples.now)) }
    ensures at_limit { let formula = formula_of Separation (task_of problem.now examples.now) in
        IfOk result (IfLimit (IsAtLimit formula 100000)) }
    ensures undecided { let formula = formula_of Separation (task_of problem.now examples.now) in
        IfOk result (IfLimit (λ _. ¬ PropagationEnds formula)) }
    ensures small { OnOk result (HasFormula Separation (task_of problem.now examples.now)) }
    ensures fault { IfErr result (LearnFaultOf Separation (task_of problem.now examples.now)) }
{
    let size = formula_size(alloc, problem, examples)?;
    match learn(alloc, problem, examples, Encoding::Separation, MOST_LEMMAS)? {
        Answer::Found(model) => {
            let text = summary(alloc, problem, examples, &model, size)?;
            Ok(Rehearsal::Learned(text))
        }
        Answer::Refuted(_) => unreachable!(),
        Answer::Limit(log) => Ok(Rehearsal::Limit(log)),
    }
}

/// Draws a problem from a seed, a model for it from the next seed, and rows with the model's categories from the one
/// after that, and learns a model from these rows alone. The search may make 100,000 lemmas. Equal numbers draw equal
/// rows on every machine. After the last seed of 64 bits comes 0.
///
/// `Learned` has the summary: the numbers of criteria, categories, rows, variables and clauses, how many rows the
/// learned model restores, and the text of this model, which reads back as it. `Limit` has a good and fresh log of
/// exactly 100,000 lemmas. The drawn model restores the rows, so they are never refuted.
///
/// The error is `TooLarge`, with the number of literals, if the formula would have more than 33,554,432. `Wide` never
/// comes.
pub fn rehearse(
    alloc: Global,
    criteria: u32,
    categories: u32,
    rows: u32,
    seed: u64,
) -> Result<Rehearsal, LearnFault>
    requires some_criteria { 1 ≤ criteria }
    requires few_criteria { criteria ≤ 16 }
    requires some_categories { 2 ≤ categories }
    requires few_categories { categories ≤ 10 }
    requires few_rows { rows ≤ 10000 }
    ensures learned { IfOk result (IfLearned
        (IsSummary (rehearsed_problem criteria categories seed) (rehearsed_examples criteria categories rows seed))) }
    ensures at_limit { let formula = formula_of Separation (rehearsed_task criteria categories rows seed) in
        IfOk result (IfLimit (IsAtLimit formula 100000)) }
    ensures undecided { let formula = formula_of Separation (rehearsed_task criteria categories rows seed) in
        IfOk result (IfLimit (λ _. ¬ PropagationEnds formula)) }
    ensures small { OnOk result (HasFormula Separation (rehearsed_task criteria categories rows seed)) }
    ensures fault { IfErr result (LearnFaultOf Separation (rehearsed_task criteria categories rows seed)) }
{
    let problem = draw_problem(alloc, criteria, categories, seed)?;
    let model = draw_model(alloc, &problem, seed.wrapping_add(1))?;
    let examples = draw_examples(alloc, &problem, &model, rows, seed.wrapping_add(2))?;
    learn_again(alloc, &problem, &examples)
}
