//! Tables of alternatives: their rows read, and written as records.
#![tactic(auto)]

mod cells;
mod classified;
mod example_list;
mod fault;
mod header;
mod leading;
mod plain;
mod put;
mod records;
mod row;
mod table;

pub use classified::examples;
pub use example_list::Examples;
pub use fault::{RowFault, TableFault};
pub use put::{put_field, put_header, put_last, put_next, put_row, record_is_that_of_csv};
pub use row::{Row, RowGrades, Texts};
pub use table::Table;
