//! Exact decimal numbers: reading, the one spelling, order and sum.
#![tactic(auto)]

mod fault;
mod fixed;
mod laws;
mod mantissa;
mod numeral;
mod powers;
mod read;
mod spelling;

pub use fault::FixedFault;
pub use fixed::{Fixed, MOST_UNITS, add, at_least};
pub use laws::{canonical_text_is_the_spelling, computed_numeral_is_the_spelled_one};
pub use read::read_fixed;
pub use spelling::put_fixed;
