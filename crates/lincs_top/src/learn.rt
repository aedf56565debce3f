//! The command that learns a model from a table.
ghost use Rattle.std.specs.Prelude.{◌≤◌, List, IsTrue, IfOk};
ghost use Rattle.line_core.specs.Command.{learning};
ghost use Rattle.sorting_rule.specs.Examples.{Example};
ghost use Rattle.problem_core.specs.Problem.{IsProblem};
ghost use Rattle.table_core.specs.Examples.{BelongTo};
ghost use Rattle.ranks_core.specs.Ranks.{task_of};
ghost use Rattle.model_core.specs.Model.{Belongs};
ghost use Rattle.learn_core.specs.Learning.{IfFound};
ghost use Rattle.lincs_top.specs.Learned.{IsAnswer, TellsModel, TellsLearned};
ghost use Rattle.lincs_top.specs.Obeys.{Obeys};
ghost use Rattle.lincs_top.specs.Size.{TakesSize};

use crate::deliver::{concluded, write_out};
use crate::file_steps::{examples_of_file, problem_of_file};
use crate::formulas::size_stop;
use crate::stop::{Stop, Verdict};
use chain_core::Encoding;
use edge_core::{Shelf, Sink};
use learn_core::{Answer, learn};
use model_core::Model;
use model_text_core::write_model;
use problem_core::Problem;
use std::alloc::Global;
use stream_core::send_log;
use table_core::Examples;

// What learning from examples comes to, unless their formula is too large.
fn answer_of<'a>(
    alloc: Global,
    problem: &Problem,
    examples: &Examples,
    how: Encoding,
    most: u64,
) -> Result<Answer, Stop<'a>>
    requires belong { BelongTo problem.now examples.now }
    requires least { 1 ≤ most }
    requires limit { most ≤ 1000000 }
    ensures size { TakesSize how (task_of problem.now examples.now) result }
    ensures answer { IfOk result (IsAnswer problem.now examples.now how most) }
{
    match learn(alloc, problem, examples, how, most) {
        Ok(answer) => Ok(answer),
        Err(fault) => Err(size_stop(problem.criteria_count(), fault)),
    }
}

// Writes a model that was found.
fn write_found<'a, O: Sink>(
    alloc: Global,
    problem: &Problem,
    model: &Model,
    out: &mut O,
) -> Result<Verdict, Stop<'a>>
    requires { Belongs problem.now model.now }
    ensures { TellsModel problem.now model.now (O.state out.old) (O.state out.new) result }
{
    let mut text = Vec::new(alloc);
    let Ok(()) = write_model(problem, model, &mut text) else {
        return Err(Stop::NoMemory);
    };
    write_out(out, &text, Verdict::Done)
}

// Writes what learning came to: a model, a refutation, or the log at the limit.
fn write_answer<'a, O: Sink>(
    alloc: Global,
    problem: &Problem,
    answer: &Answer,
    how: Encoding,
    most: u64,
    out: &mut O,
) -> Result<Verdict, Stop<'a>>
    requires { IfFound (Belongs problem.now) answer.now }
    ensures { (examples : List Example) → IsProblem problem.now → IsAnswer problem.now examples how most answer.now
        → TellsLearned problem.now examples how most (O.state out.old) (O.state out.new) result }
{
    match answer {
        Answer::Found(model) => write_found(alloc, problem, model, out),
        Answer::Refuted(accepted) => concluded(send_log(how, accepted.log(), out), Verdict::No),
        Answer::Limit(log) => concluded(send_log(how, log, out), Verdict::Limit(most)),
    }
}

/// Learns a model from the examples of a table, by the formula of an encoding and with at most so many lemmas of
/// search. Both files are read and accepted before, and the formula is not too large. The output is the model, or a
/// refutation and the verdict `No`, or the lemmas so far and the verdict `Limit`.
pub fn learn_model<'a, S: Shelf, O: Sink>(
    alloc: Global,
    problem: &'a str,
    table: &'a str,
    how: Encoding,
    most: u64,
    shelf: &mut S,
    out: &mut O,
) -> Result<Verdict, Stop<'a>>
    requires problem { IsTrue ((S.state shelf.old).may_open problem.now) }
    requires table { IsTrue ((S.state shelf.old).may_open table.now) }
    requires least { 1 ≤ most }
    requires limit { most ≤ 1000000 }
    ensures { Obeys (learning problem.now table.now how most)
        (S.state shelf.old) (S.state shelf.new) (O.state out.old) (O.state out.new) result }
{
    let criteria = problem_of_file(alloc, shelf, problem)?;
    let rows = examples_of_file(alloc, &criteria, shelf, table)?;
    let answer = answer_of(alloc, &criteria, &rows, how, most)?;
    write_answer(alloc, &criteria, &answer, how, most, out)
}
