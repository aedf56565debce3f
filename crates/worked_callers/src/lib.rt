//! Callers of the libraries, as docs/LIBRARY.md shows them.
#![tactic(auto)]

mod learning;
mod refuting;
mod sorting;

pub use learning::model_of;
pub use refuting::refutes;
pub use sorting::category_name;
