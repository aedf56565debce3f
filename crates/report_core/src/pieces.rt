//! The rows of a table, written in pieces of many records.
ghost use Rattle.std.specs.Prelude.{◌≡◌, ◌≤◌, [], IsSome, IfSome};
ghost use Rattle.lists_core.specs.Puts.{Puts};
ghost use Rattle.model_core.specs.Model.{rule_of, Belongs};
ghost use Rattle.table_core.specs.Row.{HasGrades};
ghost use Rattle.table_core.specs.Table.{IsTableOf};
ghost use Rattle.report_core.specs.Classified.{classified_record, classified_text, rows_text};
ghost use Rattle.report_core.specs.Pieces.{Gathers, WritesPiece, WritesRows};

use crate::fault::ReportFault;
use edge_core::{Sink, put_all};
use model_core::{Model, sort};
use problem_core::Problem;
use std::alloc::{AllocError, Global};
use table_core::{RowFault, Table, put_header};

/// Records are gathered until they have so many bytes: a write costs more than the records of a few rows.
const PIECE_BYTES: usize = 32_768;

/// Appends the record of the current row with the name of its category.
fn put_current_row(
    problem: &Problem,
    model: &Model,
    table: &Table,
    piece: &mut Vec<u8>,
) -> Result<(), AllocError>
    requires belongs { Belongs problem.now model.now }
    requires current { IsSome table.now.current }
    requires grades { IfSome table.now.current (HasGrades problem.now) }
    ensures { IfSome table.now.current
        (λ row. Puts piece.old.items piece.new.items result
        (classified_record problem.now (rule_of problem.now model.now) row)) }
{
    let category = sort(problem, model, table.grades());
    table.put_current(problem.category(category), piece)
}

/// Puts the records of the next rows in place of the piece, until it is full or no row is left. Returns whether it is
/// full. At a refused row the piece holds the records of all rows before it.
fn gather(
    problem: &Problem,
    model: &Model,
    table: &mut Table,
    piece: &mut Vec<u8>,
) -> Result<bool, RowFault>
    requires belongs { Belongs problem.now model.now }
    requires fits { IsTableOf problem.now table.old }
    ensures fits { IsTableOf problem.now table.new }
    ensures gathers { Gathers problem.now (rule_of problem.now model.now) table.old table.new piece.new.items result }
{
    piece.clear();
    while piece.len() < PIECE_BYTES {
        if !table.advance(problem)? {
            return Ok(false);
        }
        put_current_row(problem, model, table, piece)?;
    }
    Ok(true)
}

/// Gathers and writes the next piece. Returns whether rows may be left. What was gathered is written whether or not a
/// row is refused after it.
fn write_piece<O: Sink>(
    problem: &Problem,
    model: &Model,
    table: &mut Table,
    piece: &mut Vec<u8>,
    sink: &mut O,
) -> Result<bool, ReportFault>
    requires belongs { Belongs problem.now model.now }
    requires fits { IsTableOf problem.now table.old }
    ensures fits { IsTableOf problem.now table.new }
    ensures writes { WritesPiece problem.now (rule_of problem.now model.now) table.old table.new (O.state sink.old)
        (O.state sink.new) result }
    ensures later { (O.state sink.old).faults ≤ (O.state sink.new).faults }
{
    let gathered = gather(problem, model, table, piece);
    put_all(sink, piece)?;
    Ok(gathered?)
}

/// Writes the rows that a table has left, and returns their number. `piece` is room for records.
fn write_rows<O: Sink>(
    problem: &Problem,
    model: &Model,
    table: &mut Table,
    piece: &mut Vec<u8>,
    sink: &mut O,
) -> Result<u64, ReportFault>
    requires belongs { Belongs problem.now model.now }
    requires fits { IsTableOf problem.now table.old }
    ensures writes { let rule = rule_of problem.now model.now in
        WritesRows problem.now table.old (rows_text problem.now rule table.old) (O.state sink.old) (O.state sink.new)
        result }
    ensures later { (O.state sink.old).faults ≤ (O.state sink.new).faults }
{
    let before = table.rows_read();
    while write_piece(problem, model, table, piece, sink)? {}
    Ok(u64::from(table.rows_read() - before))
}

/// Writes the header in one write, and then the rows that a table has left. Returns their number.
pub fn write_table<O: Sink>(
    alloc: Global,
    problem: &Problem,
    model: &Model,
    table: &mut Table,
    sink: &mut O,
) -> Result<u64, ReportFault>
    requires belongs { Belongs problem.now model.now }
    requires fits { IsTableOf problem.now table.old }
    ensures writes { let rule = rule_of problem.now model.now in
        WritesRows problem.now table.old (classified_text problem.now rule table.old) (O.state sink.old)
        (O.state sink.new) result }
    ensures later { (O.state sink.old).faults ≤ (O.state sink.new).faults }
{
    let mut piece = Vec::new(alloc);
    put_header(alloc, problem, &mut piece)?;
    put_all(sink, &piece)?;
    write_rows(problem, model, table, &mut piece, sink)
}
