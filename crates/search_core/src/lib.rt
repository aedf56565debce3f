//! Search for values that satisfy a formula: decisions, propagation, and lemmas learned from conflicts.
#![tactic(auto)]

mod activity;
mod analyze;
mod backjump;
mod decide;
mod inner_literal;
mod laws;
mod learn;
mod load;
mod mark;
mod minimize;
mod outcome;
mod propagate;
mod restart;
mod solve;

pub use laws::{
    clauses_not_subsumed_by_earlier_ones_are_few, lemmas_are_at_most_a_million,
    no_lemma_is_fresh_where_unit_propagation_ends,
};
pub use outcome::{MOST_LEMMAS, Outcome, Values};
pub use solve::search;
