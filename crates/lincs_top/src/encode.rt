//! The command that writes the formula of a table's examples.
ghost use Rattle.std.specs.Prelude.{IsTrue};
ghost use Rattle.line_core.specs.Command.{encoding};
ghost use Rattle.lincs_top.specs.Obeys.{Obeys};

use crate::deliver::concluded;
use crate::file_steps::{examples_of_file, problem_of_file};
use crate::formulas::formula_of_examples;
use crate::stop::{Stop, Verdict};
use chain_core::Encoding;
use edge_core::{Shelf, Sink};
use std::alloc::Global;
use stream_core::send_dimacs;

/// Writes the formula of a table's examples in the DIMACS format. Both files are read and accepted before,
/// and the formula is not too large. Its text takes no memory.
pub fn write_formula<'a, S: Shelf, O: Sink>(
    alloc: Global,
    problem: &'a str,
    table: &'a str,
    how: Encoding,
    shelf: &mut S,
    out: &mut O,
) -> Result<Verdict, Stop<'a>>
    requires problem { IsTrue ((S.state shelf.old).may_open problem.now) }
    requires table { IsTrue ((S.state shelf.old).may_open table.now) }
    ensures { Obeys (encoding problem.now table.now how)
        (S.state shelf.old) (S.state shelf.new) (O.state out.old) (O.state out.new) result }
{
    let criteria = problem_of_file(alloc, shelf, problem)?;
    let rows = examples_of_file(alloc, &criteria, shelf, table)?;
    let formula = formula_of_examples(alloc, how, &criteria, &rows)?;
    concluded(send_dimacs(&formula, out), Verdict::Done)
}
