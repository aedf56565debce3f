//! Learning.
ghost use Rattle.std.specs.Prelude.{◌≡◌, ◌≤◌, Bool, List, All, IfOk, IfErr, OnOk};
ghost use Rattle.sorting_rule.specs.Examples.{HasNoModel};
ghost use Rattle.sorting_rule.specs.Rebuilt.{Learns};
ghost use Rattle.literals_core.specs.DistinctVariables.{HasDistinctVariables};
ghost use Rattle.literals_core.specs.Values.{IsUnsatisfiable};
ghost use Rattle.chain_core.specs.Log.{IsRefutation};
ghost use Rattle.table_core.specs.Examples.{BelongTo};
ghost use Rattle.encoding_rules.specs.Encodings.{formula_of, HasFormula};
ghost use Rattle.ranks_core.specs.Ranks.{task_of, AreRanks};
ghost use Rattle.model_core.specs.Model.{rule_of, Belongs};
ghost use Rattle.search_core.specs.Bounds.{PropagationEnds};
ghost use Rattle.search_core.specs.Outcomes.{IsModel, IsAtLimit, IsShortRefutation};
ghost use Rattle.search_core.specs.Values.{value_at};
ghost use Rattle.learn_core.specs.Satisfies.{SatisfiesOne};
ghost use Rattle.learn_core.specs.Learning.{IfFound, IfRefuted, IfLimit, LearnFaultOf};

use crate::rebuilding::rebuild;
use chain_core::{Accepted, CheckFault, Formula, Log, check};
use encoders_core::{Encoding, encode};
use model_core::Model;
use problem_core::Problem;
use ranks_core::{EncodeFault, Ranks};
use search_core::{Outcome, search};
use std::alloc::{AllocError, Global};
use table_core::Examples;

/// What learning ends with.
#[derive(Drop)]
pub enum Answer {
    /// A model that restores the examples.
    Found(Model),
    /// A refutation that the checker accepted: no model restores the examples.
    Refuted(Accepted),
    /// As many lemmas as were allowed, and no decision.
    Limit(Log),
}

/// Has the checker accept a refutation, of which it refuses none.
fn accept(alloc: Global, formula: &Formula, log: Log) -> Result<Accepted, AllocError>
    requires { IsRefutation formula.now log }
    ensures same { IfOk result (λ accepted. accepted ≡ log) }
    ensures unsatisfiable { OnOk result (IsUnsatisfiable formula.now) }
{
    match check(alloc, formula, log) {
        Ok(accepted) => Ok(accepted),
        Err(CheckFault::NoMemory) => Err(AllocError),
        Err(_) => unreachable!(),
    }
}

/// Searches the formula of the examples, with at most `most` lemmas. Makes a model of the values that satisfy it, and
/// has a refutation accepted.
fn answer_of(
    alloc: Global,
    problem: &Problem,
    examples: &Examples,
    ranks: &Ranks,
    formula: &Formula,
    most: u64,
) -> Result<Answer, AllocError>
    requires belong { BelongTo problem.now examples.now }
    requires ranks { AreRanks (task_of problem.now examples.now) ranks.now }
    requires least { 1 ≤ most }
    requires limit { most ≤ 1000000 }
    requires apart { All HasDistinctVariables formula.now.clauses }
    requires sat { (values : List Bool) → IsModel formula.now values
        → SatisfiesOne (task_of problem.now examples.now) (value_at values) }
    requires unsat { let task = task_of problem.now examples.now in
        IsUnsatisfiable formula.now → HasNoModel task.directions task.categories task.examples }
    ensures found { IfOk result (IfFound (λ m. Learns examples.now (rule_of problem.now m))) }
    ensures belongs { IfOk result (IfFound (Belongs problem.now)) }
    ensures refuted { IfOk result (IfRefuted (IsShortRefutation formula.now most)) }
    ensures no_model { let task = task_of problem.now examples.now in
        IfOk result (IfRefuted (λ _. HasNoModel task.directions task.categories task.examples)) }
    ensures at_limit { IfOk result (IfLimit (IsAtLimit formula.now most)) }
    ensures undecided { IfOk result (IfLimit (λ _. ¬ PropagationEnds formula.now)) }
{
    match search(alloc, formula, most)? {
        Outcome::Sat(values) => {
            let model = rebuild(alloc, problem, examples, ranks, &values)?;
            Ok(Answer::Found(model))
        }
        Outcome::Unsat(log) => Ok(Answer::Refuted(accept(alloc, formula, log)?)),
        Outcome::Limit(log) => Ok(Answer::Limit(log)),
    }
}

/// Looks for a model that restores the examples, with at most `most` lemmas of search.
///
/// `Found` has a model that belongs to the problem, is in rebuilt form, and restores the examples. `Refuted` has a
/// refutation of the formula of the encoding, which the checker accepted: no ordered thresholds with any upward-closed
/// family of coalitions restore the examples. `Limit` has a good and fresh log of exactly `most` lemmas; `most` is then
/// below three to the power of the number of variables.
///
/// The error is `Wide` if the encoding is by coalitions and there are more than 12 criteria, else `TooLarge`, with the
/// number of literals, if the formula would have more than 33,554,432.
pub fn learn(
    alloc: Global,
    problem: &Problem,
    examples: &Examples,
    encoding: Encoding,
    most: u64,
) -> Result<Answer, EncodeFault>
    requires belong { BelongTo problem.now examples.now }
    requires least { 1 ≤ most }
    requires limit { most ≤ 1000000 }
    ensures found { IfOk result (IfFound (λ m. Learns examples.now (rule_of problem.now m))) }
    ensures belongs { IfOk result (IfFound (Belongs problem.now)) }
    ensures refuted { IfOk result
        (IfRefuted (IsShortRefutation (formula_of encoding (task_of problem.now examples.now)) most)) }
    ensures no_model { let task = task_of problem.now examples.now in
        IfOk result (IfRefuted (λ _. HasNoModel task.directions task.categories task.examples)) }
    ensures at_limit { IfOk result (IfLimit (IsAtLimit (formula_of encoding (task_of problem.now examples.now)) most)) }
    ensures undecided { IfOk result
        (IfLimit (λ _. ¬ PropagationEnds (formula_of encoding (task_of problem.now examples.now)))) }
    ensures small { OnOk result (HasFormula encoding (task_of problem.now examples.now)) }
    ensures fault { IfErr result (LearnFaultOf encoding (task_of problem.now examples.now)) }
{
    let ranks = Ranks::of(alloc, problem, examples)?;
    let formula = encode(alloc, encoding, problem, examples, &ranks)?;
    Ok(answer_of(alloc, problem, examples, &ranks, &formula, most)?)
}
