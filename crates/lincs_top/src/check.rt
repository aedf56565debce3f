//! The command that checks a refutation.
ghost use Rattle.std.specs.Prelude.{◌≡◌, IsTrue};
ghost use Rattle.line_core.specs.Command.{checking};
ghost use Rattle.lincs_top.specs.Judged.{rejection, TellsJudged};
ghost use Rattle.lincs_top.specs.Obeys.{Obeys};

use crate::deliver::write_out;
use crate::file_steps::{examples_of_file, problem_of_file, refutation_of_file};
use crate::formulas::formula_of_examples;
use crate::stop::{Stop, Verdict};
use chain_core::{CheckFault, Formula, Log, check};
use edge_core::{Shelf, Sink};
use std::alloc::Global;

// The verdict on a log that is refused, or out of memory.
fn rejection<'a>(fault: CheckFault) -> Result<Verdict, Stop<'a>>
    ensures { result ≡ rejection fault }
{
    match fault {
        CheckFault::NoMemory => Err(Stop::NoMemory),
        CheckFault::Id(line) => Ok(Verdict::Rejected(1, Some(line))),
        CheckFault::Literal(line) => Ok(Verdict::Rejected(2, Some(line))),
        CheckFault::Hint(line) => Ok(Verdict::Rejected(3, Some(line))),
        CheckFault::Chain(line) => Ok(Verdict::Rejected(4, Some(line))),
        CheckFault::NotEmpty => Ok(Verdict::Rejected(5, None)),
    }
}

// Writes that a log is accepted, if it refutes the formula.
fn judge<'a, O: Sink>(
    alloc: Global,
    formula: &Formula,
    log: Log,
    out: &mut O,
) -> Result<Verdict, Stop<'a>>
    ensures { TellsJudged formula.now log (O.state out.old) (O.state out.new) result }
{
    match check(alloc, formula, log) {
        Ok(_) => write_out(out, b"accepted\n", Verdict::Done),
        Err(fault) => rejection(fault),
    }
}

/// Checks whether a log refutes the formula of a table's examples, in the encoding that the log names. All
/// three files are read and accepted before, and the formula is not too large.
pub fn check_refutation<'a, S: Shelf, O: Sink>(
    alloc: Global,
    problem: &'a str,
    table: &'a str,
    refutation: &'a str,
    shelf: &mut S,
    out: &mut O,
) -> Result<Verdict, Stop<'a>>
    requires problem { IsTrue ((S.state shelf.old).may_open problem.now) }
    requires table { IsTrue ((S.state shelf.old).may_open table.now) }
    requires refutation { IsTrue ((S.state shelf.old).may_open refutation.now) }
    ensures { Obeys (checking problem.now table.now refutation.now)
        (S.state shelf.old) (S.state shelf.new) (O.state out.old) (O.state out.new) result }
{
    let criteria = problem_of_file(alloc, shelf, problem)?;
    let rows = examples_of_file(alloc, &criteria, shelf, table)?;
    let (encoding, log) = refutation_of_file(alloc, shelf, refutation)?;
    let formula = formula_of_examples(alloc, encoding, &criteria, &rows)?;
    judge(alloc, &formula, log, out)
}
