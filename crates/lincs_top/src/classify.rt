//! The command that sorts a table.
ghost use Rattle.std.specs.Prelude.{true, IsTrue};
ghost use Rattle.line_core.specs.Command.{classifying};
ghost use Rattle.model_core.specs.Model.{Belongs, rule_of};
ghost use Rattle.report_core.specs.Classified.{classified_text};
ghost use Rattle.table_core.specs.Rows.{rows_left};
ghost use Rattle.table_core.specs.Table.{IsTableOf};
ghost use Rattle.lincs_top.specs.Deliver.{Concludes};
ghost use Rattle.lincs_top.specs.Obeys.{Obeys};
ghost use Rattle.lincs_top.specs.Output.{end_of_rows};

use crate::file_steps::{model_of_file, problem_of_file, table_of_file};
use crate::stop::{Refusal, Stop, Verdict};
use edge_core::{Shelf, Sink};
use model_core::Model;
use problem_core::Problem;
use report_core::ReportFault;
use std::alloc::Global;
use table_core::Table;

// Writes the header, and the rows of this file's table with their categories, up to the first that is refused.
fn write_table<'a, O: Sink>(
    alloc: Global,
    problem: &Problem,
    model: &Model,
    table: Table,
    name: &'a str,
    out: &mut O,
) -> Result<Verdict, Stop<'a>>
    requires belongs { Belongs problem.now model.now }
    requires table { IsTableOf problem.now table }
    ensures { Concludes true (end_of_rows name.now (rows_left problem.now table).1)
        (classified_text problem.now (rule_of problem.now model.now) table) (O.state out.old) (O.state out.new) result }
{
    match report_core::classify(alloc, problem, model, table, out) {
        Ok(_) => Ok(Verdict::Done),
        Err(ReportFault::Row(fault)) => Err(Stop::Refused(name, Refusal::Row(fault))),
        Err(ReportFault::Write) => Err(Stop::Unwritten),
        Err(ReportFault::NoMemory) => Err(Stop::NoMemory),
    }
}

/// Writes the table of a file with the category that a model gives to each of its rows. The files of the
/// problem, the model and the table are read in this order, each accepted before the next is opened. Then
/// the rows go out, up to the first that is refused.
pub fn classify<'a, S: Shelf, O: Sink>(
    alloc: Global,
    problem: &'a str,
    model: &'a str,
    table: &'a str,
    shelf: &mut S,
    out: &mut O,
) -> Result<Verdict, Stop<'a>>
    requires problem { IsTrue ((S.state shelf.old).may_open problem.now) }
    requires model { IsTrue ((S.state shelf.old).may_open model.now) }
    requires table { IsTrue ((S.state shelf.old).may_open table.now) }
    ensures { Obeys (classifying problem.now model.now table.now)
        (S.state shelf.old) (S.state shelf.new) (O.state out.old) (O.state out.new) result }
{
    let criteria = problem_of_file(alloc, shelf, problem)?;
    let rule = model_of_file(alloc, &criteria, shelf, model)?;
    let rows = table_of_file(alloc, &criteria, shelf, table)?;
    write_table(alloc, &criteria, &rule, rows, table, out)
}
