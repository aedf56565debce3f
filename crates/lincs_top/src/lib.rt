//! The whole program as one call over any files and outputs.
#![tactic(auto)]

mod accuracy;
mod check;
mod classify;
mod deliver;
mod describe;
mod encode;
mod fault_numbers;
mod file_steps;
mod formulas;
mod generate;
mod learn;
mod line;
mod process;
mod program;
mod rehearse;
mod status;
mod stop;

pub use process::start;
pub use program::run;
pub use status::{Status, exit_code};
