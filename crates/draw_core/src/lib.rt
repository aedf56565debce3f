//! Test material from a seed: problems, models, tables and examples. Equal seeds draw equal material on every machine.
#![tactic(auto)]

mod choice;
mod laws;
mod model;
mod problem;
mod rows;
mod words;

pub use laws::drawn_examples_have_a_model;
pub use model::draw_model;
pub use problem::draw_problem;
pub use rows::{draw_examples, draw_table};
