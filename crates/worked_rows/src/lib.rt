//! Whole runs over files in memory, from the command line to the bytes that are written.
#![tactic(auto)]

#[cfg(test)]
mod accuracy;
#[cfg(test)]
mod classify;
#[cfg(test)]
mod describe;
#[cfg(test)]
mod faults;
#[cfg(test)]
mod formulas;
#[cfg(test)]
mod generate;
#[cfg(test)]
mod learn;
#[cfg(test)]
mod limits;
#[cfg(test)]
mod refused;
#[cfg(test)]
mod session;
#[cfg(test)]
mod sweep;
#[cfg(test)]
mod usage;
