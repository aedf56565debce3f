//! Clauses that are tested before they go into a formula, so that it meets the condition of the search.
ghost use Rattle.std.specs.Prelude.{◌≡◌, ◌≤◌, All, OnOk, nat_lt};
ghost use Rattle.std.specs.Bool.{OnTrue, OnFalse};
ghost use Rattle.std.specs.List.{list_any};
ghost use Rattle.literals_core.specs.Literal.{variable_of};
ghost use Rattle.literals_core.specs.DistinctVariables.{HasDistinctVariables};

use chain_core::{Formula, Literal, MOST_CLAUSES};
use std::test::Fail;

/// Whether the variables of a clause are distinct.
fn has_distinct_variables(clause: &[Literal]) -> bool
    ensures { OnTrue result (HasDistinctVariables clause.now) }
{
    for i in 0..clause.len() {
        for j in i + 1..clause.len() {
            if clause[i].variable() == clause[j].variable() {
                return false;
            }
        }
    }
    true
}

/// Whether a literal is of a variable above this one.
pub fn has_higher(literals: &[Literal], variables: u32) -> bool
    ensures value { result ≡ list_any (λ l. nat_lt variables (variable_of l)) literals.now }
    ensures bounded { OnFalse result (All (λ l. variable_of l ≤ variables) literals.now) }
{
    literals.iter().any(|l| variables < l.variable())
}

/// Adds a clause, if its variables are distinct and not too high.
pub fn add(formula: &mut Formula, clause: &[Literal]) -> Result<(), Fail>
    requires distinct { All HasDistinctVariables formula.old.clauses }
    ensures distinct { OnOk result (All HasDistinctVariables formula.new.clauses) }
    ensures variables { formula.new.variables ≡ formula.old.variables }
{
    if !has_distinct_variables(clause) {
        return Err("a variable twice".into());
    }
    if has_higher(clause, formula.variables()) {
        return Err("a variable above the formula's".into());
    }
    if formula.count() >= MOST_CLAUSES {
        return Err("too many clauses".into());
    }
    formula.add(clause)?;
    Ok(())
}

/// Adds the clause of two literals, written as numbers.
pub fn add_two(formula: &mut Formula, first: i32, second: i32) -> Result<(), Fail>
    requires distinct { All HasDistinctVariables formula.old.clauses }
    ensures distinct { OnOk result (All HasDistinctVariables formula.new.clauses) }
    ensures variables { formula.new.variables ≡ formula.old.variables }
{
    let first = Literal::of(first).ok_or("no literal")?;
    let second = Literal::of(second).ok_or("no literal")?;
    add(formula, &[first, second])
}
