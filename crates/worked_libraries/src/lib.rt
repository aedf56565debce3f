//! What no clause of the libraries says: that their calls succeed with ample memory, and worked values.
#![tactic(auto)]

#[cfg(test)]
mod command_lines;
#[cfg(test)]
mod draws;
#[cfg(test)]
mod files;
#[cfg(test)]
mod formulas;
#[cfg(test)]
mod learning;
#[cfg(test)]
mod long_texts;
#[cfg(test)]
mod model_texts;
#[cfg(test)]
mod models;
#[cfg(test)]
mod numbers;
#[cfg(test)]
mod outside;
#[cfg(test)]
mod pieces;
#[cfg(test)]
mod problem_texts;
#[cfg(test)]
mod problems;
#[cfg(test)]
mod ranks;
#[cfg(test)]
mod rehearsals;
#[cfg(test)]
mod tables;
#[cfg(test)]
mod trees;
