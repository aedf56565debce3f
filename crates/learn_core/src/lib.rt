//! Learning: a model that restores examples, from values that satisfy a formula, or a refutation that the checker
//! accepted.
#![tactic(auto)]

mod learning;
mod profiles;
mod rebuilding;
mod sets;
mod values;

pub use learning::{Answer, learn};
pub use ranks_core::EncodeFault as LearnFault;
pub use rebuilding::rebuild;
