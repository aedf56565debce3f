//! The clauses of what is accepted.
ghost use Rattle.std.specs.Prelude.{◌≡◌, ◌+◌, ◌*◌, ◌≤◌, ◌<◌, ℕ, length, slice_index_or};
ghost use Rattle.chain_core.specs.declared.literal.TheConstants.{GREATEST_VARIABLE};
ghost use Rattle.literals_core.specs.Formula.{plus, minus};
ghost use Rattle.accepted_core.specs.Takes.{CanTake, Takes, AreSmall};
ghost use Rattle.accepted_core.specs.Plain.{better_row, better_rows, better_of, lower_row, lower_rows, lower_of};

use chain_core::{Formula, Literal};
use std::alloc::AllocError;

/// The literal of a variable with a plus.
pub fn plus(variable: u32) -> Literal
    requires from { 1 ≤ variable }
    requires to { variable ≤ GREATEST_VARIABLE }
    ensures { result ≡ plus variable }
{
    Literal::at(2 * variable)
}

/// The literal of a variable with a minus.
pub fn minus(variable: u32) -> Literal
    requires from { 1 ≤ variable }
    requires to { variable ≤ GREATEST_VARIABLE }
    ensures { result ≡ minus variable }
{
    Literal::at(2 * variable + 1)
}

/// Appends, for one criterion and boundary, that with a grade the next better one is accepted.
pub fn add_better_row(first: u32, count: u32, formula: &mut Formula) -> Result<(), AllocError>
    requires { CanTake formula.old (better_row first count) }
    ensures { Takes formula.old formula.new result (better_row first count) }
{
    for k in 0..count.saturating_sub(1) {
        formula.add(&[minus(first + k), plus(first + k + 1)])?;
    }
    Ok(())
}

/// Appends, for one criterion and boundary, that what the next boundary accepts this one does.
pub fn add_lower_row(first: u32, count: u32, formula: &mut Formula) -> Result<(), AllocError>
    requires { CanTake formula.old (lower_row first count) }
    ensures { Takes formula.old formula.new result (lower_row first count) }
{
    for k in 0..count {
        formula.add(&[minus(first + count + k), plus(first + k)])?;
    }
    Ok(())
}

/// Appends them for one criterion, at each boundary.
pub fn add_better_rows(
    first: u32,
    count: u32,
    boundaries: u32,
    formula: &mut Formula,
) -> Result<(), AllocError>
    requires fits { CanTake formula.old (better_rows first count boundaries) }
    requires small { first + boundaries * count ≤ GREATEST_VARIABLE + 1 }
    ensures { Takes formula.old formula.new result (better_rows first count boundaries) }
{
    for b in 0..boundaries {
        add_better_row(first + b * count, count, formula)?;
    }
    Ok(())
}

/// Appends them for one criterion, at each boundary but the last.
pub fn add_lower_rows(
    first: u32,
    count: u32,
    boundaries: u32,
    formula: &mut Formula,
) -> Result<(), AllocError>
    requires fits { CanTake formula.old (lower_rows first count boundaries) }
    requires small { first + boundaries * count ≤ GREATEST_VARIABLE + 1 }
    ensures { Takes formula.old formula.new result (lower_rows first count boundaries) }
{
    for b in 0..boundaries.saturating_sub(1) {
        add_lower_row(first + b * count, count, formula)?;
    }
    Ok(())
}

/// Appends them for all criteria, by the numbers of their grades and their first unknowns.
pub fn add_better(
    boundaries: u32,
    counts: &[u32],
    firsts: &[u32],
    formula: &mut Formula,
) -> Result<(), AllocError>
    requires same { length firsts.now ≡ length counts.now }
    requires fits { CanTake formula.old (better_of boundaries counts.now firsts.now) }
    requires small { AreSmall boundaries counts.now firsts.now }
    ensures { Takes formula.old formula.new result (better_of boundaries counts.now firsts.now) }
{
    for i in 0..counts.len() {
        add_better_rows(firsts[i], counts[i], boundaries, formula)?;
    }
    Ok(())
}

/// Appends, for all criteria, that what a boundary accepts the one below does.
pub fn add_lower(
    boundaries: u32,
    counts: &[u32],
    firsts: &[u32],
    formula: &mut Formula,
) -> Result<(), AllocError>
    requires same { length firsts.now ≡ length counts.now }
    requires fits { CanTake formula.old (lower_of boundaries counts.now firsts.now) }
    requires small { AreSmall boundaries counts.now firsts.now }
    ensures { Takes formula.old formula.new result (lower_of boundaries counts.now firsts.now) }
{
    for i in 0..counts.len() {
        add_lower_rows(firsts[i], counts[i], boundaries, formula)?;
    }
    Ok(())
}
