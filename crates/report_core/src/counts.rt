//! The rows of a table, counted by category.
ghost use Rattle.std.specs.Prelude.{◌≡◌, ◌+◌, ◌<◌, [], length, replicate, None, Some, IfOk, IfErr, IfSome, OnOk, ◌⊎◌};
ghost use Rattle.table_core.specs.Rows.{rows_left};
ghost use Rattle.table_core.specs.Table.{IsTableOf};
ghost use Rattle.table_core.specs.declared.fault.RowFault.TheVariants as fault;
ghost use Rattle.report_core.specs.Counts.{AreAtMost, AreCounted, CountsRow};

use problem_core::Problem;
use std::alloc::{AllocError, Global};
use table_core::{RowFault, Table};

/// How many rows are classified, and how many are of each category.
#[derive(Drop)]
pub struct Counts {
    pub classified: u32,
    pub categories: Vec<u32>,
}

/// No rows, of so many categories.
fn no_counts(alloc: Global, categories: u32) -> Result<Counts, AllocError>
    ensures { IfOk result (λ counts. (counts.classified ≡ 0) × (counts.categories.items ≡ replicate categories 0)) }
{
    Ok(Counts {
        classified: 0,
        categories: Vec::from_elem(alloc, 0, categories as usize)?,
    })
}

/// Counts a row with this category, if it has one.
fn count_row(counts: &mut Counts, category: Option<u32>)
    requires place { IfSome category (λ c. c < length counts.old.categories.items) }
    requires few { AreAtMost 67108863 counts.old }
    ensures { CountsRow category counts.old counts.new }
{
    if let Some(place) = category {
        counts.classified += 1;
        counts.categories[place as usize] += 1;
    }
}

/// Counts the rows that a table has left.
pub fn count_rows(alloc: Global, problem: &Problem, table: &mut Table) -> Result<Counts, RowFault>
    requires { IsTableOf problem.now table.old }
    ensures size { IfOk result (λ counts. length counts.categories.items ≡ length problem.now.categories) }
    ensures counts { IfOk result (AreCounted (rows_left problem.now table.old).0 []) }
    ensures rows { OnOk result (table.new.number ≡ table.old.number + length (rows_left problem.now table.old).0) }
    ensures fine { OnOk result ((rows_left problem.now table.old).1 ≡ None) }
    ensures refused { IfErr result (λ why. (why ≡ fault.NoMemory) ⊎ ((rows_left problem.now table.old).1 ≡ Some why)) }
{
    let mut counts = no_counts(alloc, problem.categories_count())?;
    while table.advance(problem)? {
        count_row(&mut counts, table.category());
    }
    Ok(counts)
}
