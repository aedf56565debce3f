//! Problems, tables and examples from their texts.
ghost use Rattle.std.specs.Prelude.{IfOk};
ghost use Rattle.table_core.specs.Examples.{BelongTo};
ghost use Rattle.table_core.specs.Table.{IsTableOf};

use problem_core::{Problem, read_problem};
use std::alloc::Global;
use std::test::Fail;
use table_core::{Examples, Table, TableFault, examples};
use yaml_core::{MOST_BYTES, Node, read_yaml};

/// One criterion of whole numbers from 0 to 10, the greater the better, and two categories.
pub const SPEED: &str = "kind: classification-problem
format_version: 1
criteria:
  - name: Speed
    value_type: integer
    preference_direction: increasing
    min_value: 0
    max_value: 10
ordered_categories:
  - name: Bad
  - name: Good
";

/// The tree of a text.
pub fn tree_of(alloc: Global, text: &str) -> Result<Node, Fail> {
    if text.len() > MOST_BYTES {
        return Err("too long".into());
    }
    Ok(read_yaml(alloc, text.as_bytes())?)
}

/// The problem of a text.
pub fn problem_of(alloc: Global, text: &str) -> Result<Problem, Fail> {
    let tree = tree_of(alloc, text)?;
    Ok(read_problem(alloc, &tree)?)
}

/// The table of a text.
pub fn table_of(alloc: Global, problem: &Problem, text: &str) -> Result<Table, TableFault>
    ensures { IfOk result (λ table. IsTableOf problem.now table) }
{
    let mut bytes = Vec::new(alloc);
    bytes.extend_from_slice(text.as_bytes())?;
    if bytes.len() > MOST_BYTES {
        return Err(TableFault::NoMemory);
    }
    Table::open(alloc, problem, bytes)
}

/// The examples of a text.
pub fn examples_of(alloc: Global, problem: &Problem, text: &str) -> Result<Examples, Fail>
    ensures { IfOk result (BelongTo problem.now) }
{
    let table = table_of(alloc, problem, text)?;
    Ok(examples(alloc, problem, table)?)
}
