//! The command that says how many examples a model restores.
ghost use Rattle.std.specs.Prelude.{IsTrue};
ghost use Rattle.line_core.specs.Command.{rating};
ghost use Rattle.model_core.specs.Model.{Belongs, rule_of};
ghost use Rattle.table_core.specs.Examples.{BelongTo};
ghost use Rattle.lincs_top.specs.Deliver.{MakesText};
ghost use Rattle.lincs_top.specs.Obeys.{Obeys};
ghost use Rattle.lincs_top.specs.Output.{accuracy_text, ratio_text};

use crate::deliver::deliver;
use crate::file_steps::{examples_of_file, model_of_file, problem_of_file};
use crate::stop::{Stop, Verdict};
use edge_core::{Shelf, Sink};
use itoa::Buffer;
use model_core::Model;
use problem_core::Problem;
use report_core::accuracy;
use std::alloc::{AllocError, Global};
use table_core::Examples;

// Two numbers with a slash between them, and a line end.
fn ratio_text(alloc: Global, part: u64, all: u64) -> Result<Vec<u8>, AllocError>
    ensures { MakesText (ratio_text part all) result }
{
    let mut buffer = Buffer::new();
    let mut text = Vec::from_slice(alloc, buffer.format(part).as_bytes())?;
    text.extend_from_slice(b"/")?;
    text.extend_from_slice(buffer.format(all).as_bytes())?;
    text.extend_from_slice(b"\n")?;
    Ok(text)
}

fn accuracy_text(
    alloc: Global,
    problem: &Problem,
    model: &Model,
    examples: &Examples,
) -> Result<Vec<u8>, AllocError>
    requires belongs { Belongs problem.now model.now }
    requires examples { BelongTo problem.now examples.now }
    ensures { MakesText (accuracy_text (rule_of problem.now model.now) examples.now) result }
{
    let (restored, all) = accuracy(problem, model, examples);
    ratio_text(alloc, restored, all)
}

/// Writes how many of a table's examples have the category that the model gives, and how many examples
/// there are. All three files are read and accepted before.
pub fn rate<'a, S: Shelf, O: Sink>(
    alloc: Global,
    problem: &'a str,
    model: &'a str,
    table: &'a str,
    shelf: &mut S,
    out: &mut O,
) -> Result<Verdict, Stop<'a>>
    requires problem { IsTrue ((S.state shelf.old).may_open problem.now) }
    requires model { IsTrue ((S.state shelf.old).may_open model.now) }
    requires table { IsTrue ((S.state shelf.old).may_open table.now) }
    ensures { Obeys (rating problem.now model.now table.now)
        (S.state shelf.old) (S.state shelf.new) (O.state out.old) (O.state out.new) result }
{
    let criteria = problem_of_file(alloc, shelf, problem)?;
    let rule = model_of_file(alloc, &criteria, shelf, model)?;
    let rows = examples_of_file(alloc, &criteria, shelf, table)?;
    deliver(
        out,
        accuracy_text(alloc, &criteria, &rule, &rows),
        Verdict::Done,
    )
}
