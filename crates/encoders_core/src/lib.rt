//! A learning task as a formula, in either encoding.
#![tactic(auto)]

mod either;

pub use either::encode;
pub use literals_core::Encoding;
