//! The table of a problem with the categories that a model gives.
ghost use Rattle.std.specs.Prelude.{◌≡◌, ◌≢◌, ◌≤◌, ◌⊎◌, ℕ, List, length, Some, None, Ok, Err, IfOk, OnOk};
ghost use Rattle.std.specs.Io.KnownBytes.{Appends};
ghost use Rattle.edge_core.specs.Outside.{AppendsPart, Rose};
ghost use Rattle.model_core.specs.Model.{rule_of, Belongs};
ghost use Rattle.table_core.specs.Rows.{rows_left};
ghost use Rattle.table_core.specs.Table.{IsTableOf};
ghost use Rattle.table_core.specs.declared.fault.RowFault.{RowFault};
ghost use Rattle.report_core.specs.Classified.{classified_text};
ghost use Rattle.report_core.specs.Prefix.{AppendsPrefix};

use crate::fault::ReportFault;
use crate::pieces::write_table;
use edge_core::Sink;
use model_core::Model;
use problem_core::Problem;
use std::alloc::Global;
use table_core::{RowFault, Table};

/// Writes the header of the problem's table and the rows that a table has left, each with the category that the model
/// gives it (the sorting rule of Bouyssou and Marchant 2007). Returns the number of rows.
///
/// The header is one write, and the records of the rows are written in pieces. At a refused row the header and the
/// rows before it are written; at a failed write, and out of memory, a prefix of the table.
pub fn classify<O: Sink>(
    alloc: Global,
    problem: &Problem,
    model: &Model,
    mut table: Table,
    sink: &mut O,
) -> Result<u64, ReportFault>
    requires belongs { Belongs problem.now model.now }
    requires fits { IsTableOf problem.now table }

    // All rows were read, and the whole table is written.
    ensures count { IfOk result (λ count. count ≡ length (rows_left problem.now table).0) }
    ensures end { OnOk result ((rows_left problem.now table).1 ≡ None) }
    ensures whole { OnOk result (Appends (O.state sink.old).written (O.state sink.new).written
        (classified_text problem.now (rule_of problem.now model.now) table)) }

    // The first refused row, and the rows before it are written. There is one exactly if it is returned, unless a write
    // fails or memory runs out before.
    ensures refused { (fault : RowFault) → result ≡ Err (ReportFault.Row fault)
        → (rows_left problem.now table).1 ≡ Some fault }
    ensures cause { (fault : RowFault) → result ≡ Err (ReportFault.Row fault) → fault ≢ RowFault.NoMemory }
    ensures rows_before { (fault : RowFault) → result ≡ Err (ReportFault.Row fault)
        → Appends (O.state sink.old).written (O.state sink.new).written
        (classified_text problem.now (rule_of problem.now model.now) table) }
    ensures exactly { (fault : RowFault) → (rows_left problem.now table).1 ≡ Some fault
        → (Rose (O.state sink.old).faults (O.state sink.new).faults → ⊥)
        → (result ≡ Err (ReportFault.Row fault)) ⊎ (result ≡ Err ReportFault.NoMemory) }

    ensures write { result ≡ Err ReportFault.Write → Rose (O.state sink.old).faults (O.state sink.new).faults }
    ensures write_part { result ≡ Err ReportFault.Write
        → AppendsPart (O.state sink.old).written (O.state sink.new).written
        (classified_text problem.now (rule_of problem.now model.now) table) }
    ensures no_memory { result ≡ Err ReportFault.NoMemory
        → AppendsPrefix (O.state sink.old).written (O.state sink.new).written
        (classified_text problem.now (rule_of problem.now model.now) table) }
    ensures later { (O.state sink.old).faults ≤ (O.state sink.new).faults }
{
    write_table(alloc, problem, model, &mut table, sink)
}
