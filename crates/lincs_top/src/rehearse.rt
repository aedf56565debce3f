//! The command that learns a model again from drawn rows.
ghost use Rattle.std.specs.Prelude.{◌≤◌, ℕ, List, IfOk};
ghost use Rattle.line_core.specs.Command.{rehearsing};
ghost use Rattle.literals_core.specs.declared.encoding.Encoding.TheVariants.{Separation};
ghost use Rattle.sorting_rule.specs.Examples.{Example};
ghost use Rattle.encoding_rules.specs.Encodings.{formula_of};
ghost use Rattle.ranks_core.specs.Ranks.{task_of};
ghost use Rattle.search_core.specs.Outcomes.{IsAtLimit};
ghost use Rattle.problem_core.specs.Problem.{ProblemValue};
ghost use Rattle.rehearsal_core.specs.Outcome.{IfLearned, IfLimit};
ghost use Rattle.rehearsal_core.specs.Rehearsed.{rehearsed_problem, rehearsed_examples, rehearsed_task, IsSummary};
ghost use Rattle.lincs_top.specs.Learned.{TellsRehearsed};
ghost use Rattle.lincs_top.specs.Obeys.{Obeys};
ghost use Rattle.lincs_top.specs.Size.{TakesSize};

use crate::deliver::{concluded, write_out};
use crate::formulas::size_stop;
use crate::stop::{Stop, Verdict};
use chain_core::Encoding;
use edge_core::{Shelf, Sink};
use rehearsal_core::{MOST_LEMMAS, Rehearsal, rehearse};
use std::alloc::Global;
use stream_core::send_log;

// What a rehearsal comes to, unless the formula of its rows is too large.
fn rehearsal_of<'a>(
    alloc: Global,
    criteria: u32,
    categories: u32,
    rows: u32,
    seed: u64,
) -> Result<Rehearsal, Stop<'a>>
    requires some_criteria { 1 ≤ criteria }
    requires few_criteria { criteria ≤ 16 }
    requires some_categories { 2 ≤ categories }
    requires few_categories { categories ≤ 10 }
    requires few_rows { rows ≤ 10000 }
    ensures size { TakesSize Separation (rehearsed_task criteria categories rows seed) result }
    ensures learned { IfOk result (IfLearned
        (IsSummary (rehearsed_problem criteria categories seed) (rehearsed_examples criteria categories rows seed))) }
    ensures at_limit { IfOk result (IfLimit
        (IsAtLimit (formula_of Separation (rehearsed_task criteria categories rows seed)) 100000)) }
{
    match rehearse(alloc, criteria, categories, rows, seed) {
        Ok(rehearsal) => Ok(rehearsal),
        Err(fault) => Err(size_stop(criteria, fault)),
    }
}

// Writes what a rehearsal came to: its summary, or the log at the limit.
fn write_rehearsal<'a, O: Sink>(rehearsal: &Rehearsal, out: &mut O) -> Result<Verdict, Stop<'a>>
    ensures { (problem : ProblemValue) (examples : List Example)
        → IfLearned (IsSummary problem examples) rehearsal.now
        → IfLimit (IsAtLimit (formula_of Separation (task_of problem examples)) 100000) rehearsal.now
        → TellsRehearsed problem examples (O.state out.old) (O.state out.new) result }
{
    match rehearsal {
        Rehearsal::Learned(text) => write_out(out, text, Verdict::Done),
        Rehearsal::Limit(log) => concluded(
            send_log(Encoding::Separation, log, out),
            Verdict::Limit(MOST_LEMMAS),
        ),
    }
}

/// Draws a problem, a model and rows, learns a model from these rows, and writes a summary; or the lemmas so far, at
/// the limit of the search. The formula of the rows is not too large. No file is opened.
pub fn rehearse_once<'a, S: Shelf, O: Sink>(
    alloc: Global,
    criteria: u32,
    categories: u32,
    rows: u32,
    seed: u64,
    shelf: &mut S,
    out: &mut O,
) -> Result<Verdict, Stop<'a>>
    requires some_criteria { 1 ≤ criteria }
    requires few_criteria { criteria ≤ 16 }
    requires some_categories { 2 ≤ categories }
    requires few_categories { categories ≤ 10 }
    requires few_rows { rows ≤ 10000 }
    ensures { Obeys (rehearsing criteria categories rows seed)
        (S.state shelf.old) (S.state shelf.new) (O.state out.old) (O.state out.new) result }
{
    let rehearsal = rehearsal_of(alloc, criteria, categories, rows, seed)?;
    write_rehearsal(&rehearsal, out)
}
