//! Reading the examples of a table.
ghost use Rattle.std.specs.Prelude.{◌≡◌, ◌∷◌, ◌++◌, [], ◌<◌, ◌≤◌, length, All, IsSome, IfSome, IfOk, OnOk};
ghost use Rattle.lists_core.specs.Answers.{Answers};
ghost use Rattle.table_core.specs.Examples.{classified_rows, examples_left, BelongTo};
ghost use Rattle.table_core.specs.Table.{IsTableOf};

use crate::example_list::Examples;
use crate::fault::RowFault;
use crate::table::Table;
use problem_core::Problem;
use std::alloc::{AllocError, Global};

/// Puts the current row last, if it has a category.
fn add_current(table: &Table, examples: &mut Examples) -> Result<(), AllocError>
    requires current { IsSome table.now.current }
    requires room { length examples.old < 4000000000 }
    requires same { IfSome table.now.current (λ row. All (λ e. length e.grades ≡ length row.grades) examples.old) }
    ensures { OnOk result
        (IfSome table.now.current (λ row. examples.new ≡ examples.old ++ classified_rows (row ∷ []))) }
{
    if let Some(category) = table.category() {
        examples.push(table.grades(), category)?;
    }
    Ok(())
}

/// Reads the rows that a table has left and returns those with a category, in order. `Err` has the fault of the first
/// refused row, whether it names a category or not, or `NoMemory`. The examples belong to the table's problem.
pub fn examples(alloc: Global, problem: &Problem, mut table: Table) -> Result<Examples, RowFault>
    requires { IsTableOf problem.now table }
    ensures answer { Answers RowFault.NoMemory result (examples_left problem.now table) }
    ensures belong { IfOk result (BelongTo problem.now) }
{
    let mut examples = Examples::empty(alloc);
    while table.advance(problem)? {
        add_current(&table, &mut examples)?;
    }
    Ok(examples)
}
