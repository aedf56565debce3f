//! The description of a table.
ghost use Rattle.std.specs.Prelude.{◌≡◌, ◌⊎◌, length, Err, IfOk, IfErr};
ghost use Rattle.lists_core.specs.Puts.{Puts};
ghost use Rattle.table_core.specs.Table.{IsTableOf};
ghost use Rattle.table_core.specs.declared.fault.RowFault.TheVariants as fault;
ghost use Rattle.report_core.specs.Described.{count_line, counts_text, table_description, Describes};
ghost use Rattle.report_core.specs.Text.{numbered};

use crate::counts::count_rows;
use crate::text::put_counted;
use problem_core::Problem;
use std::alloc::{AllocError, Global};
use table_core::{RowFault, Table};

/// Appends the line of the category at a place.
fn put_count(place: u32, count: u32, out: &mut Vec<u8>) -> Result<(), AllocError>
    ensures { Puts out.old.items out.new.items result (count_line place count) }
{
    put_counted("category ", place, ": ", out)?;
    put_counted("", count, "\n", out)
}

/// Appends a line for each category.
fn put_category_counts(
    problem: &Problem,
    counts: &[u32],
    out: &mut Vec<u8>,
) -> Result<(), AllocError>
    requires { length counts.now ≡ length problem.now.categories }
    ensures { Puts out.old.items out.new.items result (numbered count_line 0 counts.now) }
{
    for j in 0..problem.categories_count() {
        put_count(j, counts[j as usize], out)?;
    }
    Ok(())
}

/// Appends the lines of all counts.
fn put_counts(
    problem: &Problem,
    rows: u32,
    classified: u32,
    counts: &[u32],
    out: &mut Vec<u8>,
) -> Result<(), AllocError>
    requires { length counts.now ≡ length problem.now.categories }
    ensures { Puts out.old.items out.new.items result (counts_text rows classified counts.now) }
{
    put_counted("alternatives: ", rows, "\n", out)?;
    put_counted("classified: ", classified, "\n", out)?;
    put_category_counts(problem, counts, out)
}

/// Appends the description of the rows that a table has left.
fn put_table(
    alloc: Global,
    problem: &Problem,
    table: &mut Table,
    out: &mut Vec<u8>,
) -> Result<(), RowFault>
    requires { IsTableOf problem.now table.old }
    ensures { Describes (table_description problem.now table.old) out.old.items out.new.items result }
{
    let before = table.rows_read();
    let counts = count_rows(alloc, problem, table)?;
    let rows = table.rows_read() - before;
    put_counts(problem, rows, counts.classified, &counts.categories, out)?;
    Ok(())
}

/// Appends the description of the rows that a table has left: how many there are, how many of them have a category, and
/// how many have each category, the worst first. At a refused row it appends nothing and returns the row's fault; out
/// of memory leaves a prefix of the description.
pub fn describe_table(
    alloc: Global,
    problem: &Problem,
    mut table: Table,
    out: &mut Vec<u8>,
) -> Result<(), RowFault>
    requires { IsTableOf problem.now table }
    ensures text { IfOk (table_description problem.now table) (λ text. Puts out.old.items out.new.items result text) }
    ensures refused { IfErr (table_description problem.now table)
        (λ why. (result ≡ Err why) ⊎ (result ≡ Err fault.NoMemory)) }
    ensures cause { IfErr result (λ why. (why ≡ fault.NoMemory) ⊎ (table_description problem.now table ≡ Err why)) }
    ensures nothing { IfErr (table_description problem.now table) (λ _. out.new.items ≡ out.old.items) }
{
    put_table(alloc, problem, &mut table, out)
}
