//! The commands that draw test material from a seed.
ghost use Rattle.std.specs.Prelude.{◌≡◌, ◌≤◌, ◌*◌, length, IsTrue};
ghost use Rattle.line_core.specs.Command.{generating_problem, generating_model, generating_table};
ghost use Rattle.draw_core.specs.Words.{seeded, words_of};
ghost use Rattle.draw_core.specs.DrawnProblem.{drawn_problem};
ghost use Rattle.draw_core.specs.DrawnModel.{drawn_model, model_words};
ghost use Rattle.draw_core.specs.DrawnTable.{drawn_table};
ghost use Rattle.model_core.specs.Model.{Belongs, rule_of};
ghost use Rattle.problem_text_core.specs.ProblemText.{problem_text};
ghost use Rattle.model_text_core.specs.ModelText.{model_text};
ghost use Rattle.lincs_top.specs.Deliver.{MakesText};
ghost use Rattle.lincs_top.specs.Obeys.{Obeys};

use crate::deliver::deliver;
use crate::file_steps::{model_of_file, problem_of_file};
use crate::stop::{Stop, Verdict};
use draw_core::{draw_model, draw_problem, draw_table};
use edge_core::{Shelf, Sink};
use model_core::Model;
use model_text_core::write_model;
use problem_core::Problem;
use problem_text_core::write_problem;
use std::alloc::{AllocError, Global};

fn drawn_problem_text(
    alloc: Global,
    criteria: u32,
    categories: u32,
    seed: u64,
) -> Result<Vec<u8>, AllocError>
    requires some_criteria { 1 ≤ criteria }
    requires few_criteria { criteria ≤ 16 }
    requires some_categories { 2 ≤ categories }
    requires few_categories { categories ≤ 10 }
    ensures { MakesText (problem_text (drawn_problem criteria categories (words_of (seeded seed) criteria))) result }
{
    let problem = draw_problem(alloc, criteria, categories, seed)?;
    let mut text = Vec::new(alloc);
    write_problem(&problem, &mut text)?;
    Ok(text)
}

fn drawn_model_text(alloc: Global, problem: &Problem, seed: u64) -> Result<Vec<u8>, AllocError>
    ensures { MakesText
        (model_text problem.now (drawn_model problem.now (words_of (seeded seed) (model_words problem.now)))) result }
{
    let model = draw_model(alloc, problem, seed)?;
    let mut text = Vec::new(alloc);
    write_model(problem, &model, &mut text)?;
    Ok(text)
}

fn drawn_table_text(
    alloc: Global,
    problem: &Problem,
    model: &Model,
    rows: u32,
    seed: u64,
) -> Result<Vec<u8>, AllocError>
    requires belongs { Belongs problem.now model.now }
    requires few { rows ≤ 100000 }
    ensures { MakesText (drawn_table problem.now (rule_of problem.now model.now) rows
        (words_of (seeded seed) (rows * length problem.now.criteria))) result }
{
    let mut text = Vec::new(alloc);
    draw_table(alloc, problem, model, rows, seed, &mut text)?;
    Ok(text)
}

/// Writes a drawn problem.
pub fn generate_problem<'a, S: Shelf, O: Sink>(
    alloc: Global,
    criteria: u32,
    categories: u32,
    seed: u64,
    shelf: &mut S,
    out: &mut O,
) -> Result<Verdict, Stop<'a>>
    requires some_criteria { 1 ≤ criteria }
    requires few_criteria { criteria ≤ 16 }
    requires some_categories { 2 ≤ categories }
    requires few_categories { categories ≤ 10 }
    ensures { Obeys (generating_problem criteria categories seed)
        (S.state shelf.old) (S.state shelf.new) (O.state out.old) (O.state out.new) result }
{
    let text = drawn_problem_text(alloc, criteria, categories, seed);
    deliver(out, text, Verdict::Done)
}

/// Writes a model that is drawn for the problem of a file, which is read and accepted before.
pub fn generate_model<'a, S: Shelf, O: Sink>(
    alloc: Global,
    problem: &'a str,
    seed: u64,
    shelf: &mut S,
    out: &mut O,
) -> Result<Verdict, Stop<'a>>
    requires { IsTrue ((S.state shelf.old).may_open problem.now) }
    ensures { Obeys (generating_model problem.now seed)
        (S.state shelf.old) (S.state shelf.new) (O.state out.old) (O.state out.new) result }
{
    let criteria = problem_of_file(alloc, shelf, problem)?;
    deliver(out, drawn_model_text(alloc, &criteria, seed), Verdict::Done)
}

/// Writes a table of so many drawn rows with the categories that the model of a file gives them. Both files are read
/// and accepted before.
pub fn generate_table<'a, S: Shelf, O: Sink>(
    alloc: Global,
    problem: &'a str,
    model: &'a str,
    rows: u32,
    seed: u64,
    shelf: &mut S,
    out: &mut O,
) -> Result<Verdict, Stop<'a>>
    requires problem { IsTrue ((S.state shelf.old).may_open problem.now) }
    requires model { IsTrue ((S.state shelf.old).may_open model.now) }
    requires few { rows ≤ 100000 }
    ensures { Obeys (generating_table problem.now model.now rows seed)
        (S.state shelf.old) (S.state shelf.new) (O.state out.old) (O.state out.new) result }
{
    let criteria = problem_of_file(alloc, shelf, problem)?;
    let rule = model_of_file(alloc, &criteria, shelf, model)?;
    let text = drawn_table_text(alloc, &criteria, &rule, rows, seed);
    deliver(out, text, Verdict::Done)
}
