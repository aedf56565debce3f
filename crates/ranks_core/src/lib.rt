//! Ranks: the distinct grades of examples in rising preference, and the places of the examples' grades among them.
#![tactic(auto)]

mod fault;
mod fits;
mod ranked;
mod ranks;

pub use fault::{EncodeFault, MOST_LITERALS};
pub use fits::{examples_that_belong_fit, fits_problem};
pub use ranks::Ranks;
