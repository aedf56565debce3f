//! Formulas in conjunctive normal form, logs of lemmas, and the checker that says which logs refute a formula.
#![tactic(auto)]

mod chain;
mod checker;
mod fault;
mod formula;
mod laws;
mod literal;
mod log;
mod number;
mod read;
mod write;

pub use checker::{Accepted, check};
pub use fault::{CheckFault, LogFault};
pub use formula::{Formula, MOST_CLAUSES};
pub use laws::{
    computed_chain_is_a_chain, fresh_lemma_is_no_weaker_copy, limits_are_these_numbers,
    propagation_gives_no_fresh_lemma, refutation_means_unsatisfiable,
};
pub use literal::{GREATEST_VARIABLE, Literal};
pub use literals_core::Encoding;
pub use log::{Hints, Lemma, Literals, Log};
pub use read::{MOST_BYTES, read_log};
pub use write::{put_dimacs, write_log};
