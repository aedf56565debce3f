//! Models: their files read for a problem, and the category that they give.
#![tactic(auto)]

mod minimal;
mod model;
mod model_fault;
mod read_accepted;
mod read_coalitions;
mod reader;
mod rule;

pub use minimal::minimal_roots;
pub use model::{Coalitions, Fixeds, Grades, Masks, Model, Profile};
pub use model_fault::ModelFault;
pub use reader::read_model;
pub use rule::{accepted, sort, sufficient};
