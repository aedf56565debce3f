//! A trail of true literals, and complete propagation by watched seats.
#![tactic(auto)]

pub use added::{Added, Standing};
pub use ready::propagation_can_go_on;
pub use reasons::{
    decisions_are_kept, false_clauses_are_current, reasons_are_kept, start_is_reasoned,
};
pub use trail::Trail;
pub use watched::Watched;

mod added;
mod ready;
mod reasons;
mod trail;
mod walk;
mod watched;
