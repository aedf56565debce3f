//! What no clause of the search and of what it is built on says: worked clauses, logs and formulas.
#![tactic(auto)]

#[cfg(test)]
mod arenas;
#[cfg(test)]
mod clauses;
#[cfg(test)]
mod implications;
#[cfg(test)]
mod lists;
#[cfg(test)]
mod logs;
#[cfg(test)]
mod pigeons;
#[cfg(test)]
mod propagation;
