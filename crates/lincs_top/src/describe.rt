//! The commands that describe a problem, a model or a table in plain text.
ghost use Rattle.std.specs.Prelude.{false, IsTrue};
ghost use Rattle.line_core.specs.Command.{describing_problem, describing_model, describing_table};
ghost use Rattle.model_core.specs.Model.{Belongs};
ghost use Rattle.report_core.specs.Described.{problem_description, table_description};
ghost use Rattle.report_core.specs.DescribedModel.{model_description};
ghost use Rattle.table_core.specs.Table.{IsTableOf};
ghost use Rattle.lincs_top.specs.Deliver.{Concludes, MakesText};
ghost use Rattle.lincs_top.specs.Obeys.{Obeys};
ghost use Rattle.lincs_top.specs.Output.{end_of_text, text_or_none};

use crate::deliver::deliver;
use crate::file_steps::{model_of_file, problem_of_file, table_of_file};
use crate::stop::{Refusal, Stop, Verdict};
use edge_core::{Shelf, Sink};
use model_core::Model;
use problem_core::Problem;
use report_core::{describe_model, describe_problem, describe_table};
use std::alloc::{AllocError, Global};
use table_core::{RowFault, Table};

fn problem_text(alloc: Global, problem: &Problem) -> Result<Vec<u8>, AllocError>
    ensures { MakesText (problem_description problem.now) result }
{
    let mut text = Vec::new(alloc);
    describe_problem(problem, &mut text)?;
    Ok(text)
}

fn model_text(alloc: Global, problem: &Problem, model: &Model) -> Result<Vec<u8>, AllocError>
    requires { Belongs problem.now model.now }
    ensures { MakesText (model_description problem.now model.now) result }
{
    let mut text = Vec::new(alloc);
    describe_model(problem, model, &mut text)?;
    Ok(text)
}

// Writes the description of this file's table, unless a row is refused.
fn write_description<'a, O: Sink>(
    alloc: Global,
    problem: &Problem,
    table: Table,
    name: &'a str,
    out: &mut O,
) -> Result<Verdict, Stop<'a>>
    requires { IsTableOf problem.now table }
    ensures { Concludes false (end_of_text name.now (table_description problem.now table))
        (text_or_none (table_description problem.now table)) (O.state out.old) (O.state out.new) result }
{
    let mut text = Vec::new(alloc);
    match describe_table(alloc, problem, table, &mut text) {
        Ok(()) => deliver(out, Ok(text), Verdict::Done),
        Err(RowFault::NoMemory) => Err(Stop::NoMemory),
        Err(fault) => Err(Stop::Refused(name, Refusal::Row(fault))),
    }
}

/// Describes the problem of a file.
pub fn tell_problem<'a, S: Shelf, O: Sink>(
    alloc: Global,
    problem: &'a str,
    shelf: &mut S,
    out: &mut O,
) -> Result<Verdict, Stop<'a>>
    requires { IsTrue ((S.state shelf.old).may_open problem.now) }
    ensures { Obeys (describing_problem problem.now)
        (S.state shelf.old) (S.state shelf.new) (O.state out.old) (O.state out.new) result }
{
    let criteria = problem_of_file(alloc, shelf, problem)?;
    deliver(out, problem_text(alloc, &criteria), Verdict::Done)
}

/// Describes the model of a file, for the problem of another.
pub fn tell_model<'a, S: Shelf, O: Sink>(
    alloc: Global,
    problem: &'a str,
    model: &'a str,
    shelf: &mut S,
    out: &mut O,
) -> Result<Verdict, Stop<'a>>
    requires problem { IsTrue ((S.state shelf.old).may_open problem.now) }
    requires model { IsTrue ((S.state shelf.old).may_open model.now) }
    ensures { Obeys (describing_model problem.now model.now)
        (S.state shelf.old) (S.state shelf.new) (O.state out.old) (O.state out.new) result }
{
    let criteria = problem_of_file(alloc, shelf, problem)?;
    let rule = model_of_file(alloc, &criteria, shelf, model)?;
    deliver(out, model_text(alloc, &criteria, &rule), Verdict::Done)
}

/// Describes the table of a file: how many rows it has, and how many of each category. All rows are read
/// before.
pub fn tell_table<'a, S: Shelf, O: Sink>(
    alloc: Global,
    problem: &'a str,
    table: &'a str,
    shelf: &mut S,
    out: &mut O,
) -> Result<Verdict, Stop<'a>>
    requires problem { IsTrue ((S.state shelf.old).may_open problem.now) }
    requires table { IsTrue ((S.state shelf.old).may_open table.now) }
    ensures { Obeys (describing_table problem.now table.now)
        (S.state shelf.old) (S.state shelf.new) (O.state out.old) (O.state out.new) result }
{
    let criteria = problem_of_file(alloc, shelf, problem)?;
    let rows = table_of_file(alloc, &criteria, shelf, table)?;
    write_description(alloc, &criteria, rows, table, out)
}
