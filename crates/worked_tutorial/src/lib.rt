//! The commands of the documents, run over files in memory. docs/tutorial-tests.py writes them.
#![tactic(auto)]

#[cfg(test)]
mod readme;
#[cfg(test)]
mod steps;
#[cfg(test)]
mod users;
