//! Clauses in one flat arena, and chains of the seats that watch their literals.
#![tactic(auto)]

pub use arena::{Arena, ClauseId, MOST_CLAUSES, MOST_LITERALS};
pub use chains::Chains;
pub use limits::limits_are_fixed;
pub use lit::{Lit, MOST_VARIABLES};
pub use seat::Seat;
pub use small_lit::SmallLit;
pub use steps::Steps;

mod arena;
mod chains;
mod limits;
mod links;
mod lit;
mod seat;
mod small_lit;
mod steps;
