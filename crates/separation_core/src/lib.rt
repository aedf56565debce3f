//! The separation encoding of a learning task as a formula.
#![tactic(auto)]

mod encode;
mod formula;
mod pairs;
mod sizes;

pub use encode::encode_separation;
