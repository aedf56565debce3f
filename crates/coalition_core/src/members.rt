//! The clauses of an example and a set.
ghost use Rattle.std.specs.Prelude.{◌≡◌, ◌≤◌, ◌<◌, ◌+◌, ◌^◌, ℕ, length, map, All, OnOk};
ghost use Rattle.chain_core.specs.declared.literal.TheConstants.{GREATEST_VARIABLE};
ghost use Rattle.literals_core.specs.Formula.{plus, minus};
ghost use Rattle.accepted_core.specs.Takes.{CanTake, Takes};
ghost use Rattle.coalition_core.specs.Plain.{IsUnknown, set_clause, bad_clauses, good_clauses, bads_clauses};
ghost use Rattle.coalition_core.specs.Plain.{goods_clauses};

use crate::sets::{has, power};
use accepted_core::{minus, plus};
use chain_core::{Formula, Literal};
use rows_core::Rows;
use std::alloc::{AllocError, Global};

/// Replaces what is in `literals` by the literals of variables with a plus.
fn with_plus(row: &[u32], literals: &mut Vec<Literal>) -> Result<(), AllocError>
    requires { All IsUnknown row.now }
    ensures { OnOk result (literals.new.items ≡ map plus row.now) }
{
    literals.clear();
    for variable in row {
        literals.push(plus(*variable))?;
    }
    Ok(())
}

/// Replaces what is in `literals` by the literals of variables with a minus.
fn with_minus(row: &[u32], literals: &mut Vec<Literal>) -> Result<(), AllocError>
    requires { All IsUnknown row.now }
    ensures { OnOk result (literals.new.items ≡ map minus row.now) }
{
    literals.clear();
    for variable in row {
        literals.push(minus(*variable))?;
    }
    Ok(())
}

/// Replaces what is in `clause` by the literals of a set's criteria, and then a last one.
fn set_clause(
    literals: &[Literal],
    set: u32,
    last: Literal,
    clause: &mut Vec<Literal>,
) -> Result<(), AllocError>
    requires { length literals.now ≤ 16 }
    ensures { OnOk result (clause.new.items ≡ set_clause literals.now set last) }
{
    clause.clear();
    for i in 0..literals.len() {
        if has(set, i as u32) {
            clause.push(literals[i])?;
        }
    }
    clause.push(last)?;
    Ok(())
}

/// Appends the clauses of a bad example with each set, whose unknowns begin with this one.
fn add_bad(
    first: u32,
    literals: &[Literal],
    clause: &mut Vec<Literal>,
    formula: &mut Formula,
) -> Result<(), AllocError>
    requires few { length literals.now ≤ 16 }
    requires from { 1 ≤ first }
    requires to { first + 2 ^ length literals.now ≤ GREATEST_VARIABLE + 1 }
    requires fits { CanTake formula.old (bad_clauses first literals.now) }
    ensures { Takes formula.old formula.new result (bad_clauses first literals.now) }
{
    for set in 0..power(literals.len() as u32) {
        set_clause(literals, set, minus(first + set), clause)?;
        formula.add(clause)?;
    }
    Ok(())
}

/// Appends the clauses of a good example with each set.
fn add_good(
    first: u32,
    literals: &[Literal],
    clause: &mut Vec<Literal>,
    formula: &mut Formula,
) -> Result<(), AllocError>
    requires few { length literals.now ≤ 16 }
    requires from { 1 ≤ first }
    requires to { first + 2 ^ length literals.now ≤ GREATEST_VARIABLE + 1 }
    requires fits { CanTake formula.old (good_clauses first literals.now) }
    ensures { Takes formula.old formula.new result (good_clauses first literals.now) }
{
    let sets = power(literals.len() as u32);
    for set in 0..sets {
        set_clause(literals, set, plus(first + (sets - 1 - set)), clause)?;
        formula.add(clause)?;
    }
    Ok(())
}

/// Appends the clauses of the bad examples, by the rows of their unknowns at the boundaries above their categories.
pub fn add_bads(
    alloc: Global,
    first: u32,
    n: u32,
    rows: &Rows<u32>,
    formula: &mut Formula,
) -> Result<(), AllocError>
    requires few { n ≤ 16 }
    requires rows { All (λ row. length row ≡ n) rows.now }
    requires unknowns { All (All IsUnknown) rows.now }
    requires from { 1 ≤ first }
    requires to { first + 2 ^ n ≤ GREATEST_VARIABLE + 1 }
    requires fits { CanTake formula.old (bads_clauses first rows.now) }
    ensures { Takes formula.old formula.new result (bads_clauses first rows.now) }
{
    let mut literals = Vec::new(alloc);
    let mut clause = Vec::new(alloc);
    for b in 0..rows.count() {
        with_minus(rows.row(b), &mut literals)?;
        add_bad(first, &literals, &mut clause, formula)?;
    }
    Ok(())
}

/// Appends the clauses of the good examples, by the rows of their unknowns at the boundaries of their categories.
pub fn add_goods(
    alloc: Global,
    first: u32,
    n: u32,
    rows: &Rows<u32>,
    formula: &mut Formula,
) -> Result<(), AllocError>
    requires few { n ≤ 16 }
    requires rows { All (λ row. length row ≡ n) rows.now }
    requires unknowns { All (All IsUnknown) rows.now }
    requires from { 1 ≤ first }
    requires to { first + 2 ^ n ≤ GREATEST_VARIABLE + 1 }
    requires fits { CanTake formula.old (goods_clauses first rows.now) }
    ensures { Takes formula.old formula.new result (goods_clauses first rows.now) }
{
    let mut literals = Vec::new(alloc);
    let mut clause = Vec::new(alloc);
    for a in 0..rows.count() {
        with_plus(rows.row(a), &mut literals)?;
        add_good(first, &literals, &mut clause, formula)?;
    }
    Ok(())
}
