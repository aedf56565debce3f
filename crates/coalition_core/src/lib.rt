//! The coalition encoding of a learning task as a formula.
#![tactic(auto)]

mod encode;
mod formula;
mod groups;
mod larger;
mod laws;
mod members;
mod sets;
mod sizes;

pub use encode::{MOST_COALITION_CRITERIA, encode_coalitions};
pub use laws::rows_give_the_clauses_of_sets;
