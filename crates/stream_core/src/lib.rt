//! Texts of formulas and of logs that go to a sink in pieces, with no memory taken.
#![tactic(auto)]

mod piece;
mod send;

pub use send::{send_dimacs, send_log};
