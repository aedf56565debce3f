//! Reports: tables written with their categories, and the accuracy of a model.
#![tactic(auto)]

mod classified;
mod counts;
mod fault;
mod model_text;
mod pieces;
mod problem_text;
mod restored;
mod table_text;
mod text;

pub use classified::classify;
pub use fault::ReportFault;
pub use model_text::describe_model;
pub use problem_text::describe_problem;
pub use restored::accuracy;
pub use table_text::describe_table;
