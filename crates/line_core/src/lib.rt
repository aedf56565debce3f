//! The command line: the grammar of all commands, and the job or the first fault of its words.
#![tactic(auto)]

mod command;
mod fault;
mod job;
mod number;
mod options;
mod position;
mod walk;

pub use command::Job;
pub use fault::LineFault;
pub use job::{numbers_of_a_job_are_in_their_ranges, read_line};
