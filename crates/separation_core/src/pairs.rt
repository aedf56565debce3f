//! The clauses of pairs of a good and a bad example.
ghost use Rattle.std.specs.Prelude.{◌≡◌, ◌+◌, ◌*◌, ◌^◌, ◌≤◌, ◌<◌, ℕ, length, All, slice_index_or, OnOk};
ghost use Rattle.chain_core.specs.declared.literal.TheConstants.{GREATEST_VARIABLE};
ghost use Rattle.encoding_rules.specs.Each.{each};
ghost use Rattle.accepted_core.specs.Takes.{CanTake, Takes};
ghost use Rattle.separation_core.specs.Plain.{both_of, some_of, pair_of, pairs_of_good, pairs_of};

use accepted_core::{minus, plus};
use chain_core::{Formula, Literal};
use rows_core::Rows;
use std::alloc::{AllocError, Global};

/// Appends that a criterion which separates a pair accepts the good example, and not the bad one.
fn add_both(first: u32, good: &[u32], bad: &[u32], formula: &mut Formula) -> Result<(), AllocError>
    requires few { length good.now ≤ 16 }
    requires same { length bad.now ≡ length good.now }
    requires fits { CanTake formula.old (each (both_of first good.now bad.now) (length good.now)) }
    ensures { Takes formula.old formula.new result (each (both_of first good.now bad.now) (length good.now)) }
{
    for i in 0..good.len() {
        let separates = minus(first + i as u32);
        formula.add(&[separates, plus(good[i])])?;
        formula.add(&[separates, minus(bad[i])])?;
    }
    Ok(())
}

/// Replaces what is in `clause` by the clause that some criterion separates a pair.
fn some_separates(first: u32, n: u32, clause: &mut Vec<Literal>) -> Result<(), AllocError>
    requires from { 1 ≤ first }
    requires to { first + n ≤ GREATEST_VARIABLE + 1 }
    ensures { OnOk result (clause.new.items ≡ some_of first n) }
{
    clause.clear();
    for i in 0..n {
        clause.push(plus(first + i))?;
    }
    Ok(())
}

/// Appends the clauses of a pair. `clause` is room to work in.
fn add_pair(
    first: u32,
    good: &[u32],
    bad: &[u32],
    clause: &mut Vec<Literal>,
    formula: &mut Formula,
) -> Result<(), AllocError>
    requires few { length good.now ≤ 16 }
    requires same { length bad.now ≡ length good.now }
    requires from { 1 ≤ first }
    requires to { first + length good.now ≤ GREATEST_VARIABLE + 1 }
    requires fits { CanTake formula.old (pair_of first good.now bad.now) }
    ensures { Takes formula.old formula.new result (pair_of first good.now bad.now) }
{
    add_both(first, good, bad, formula)?;
    some_separates(first, good.len() as u32, clause)?;
    formula.add(clause)
}

/// Appends the clauses of a good example with each bad one, whose unknowns begin with this one.
fn add_pairs_of_good(
    first: u32,
    n: u32,
    good: &[u32],
    bads: &Rows<u32>,
    clause: &mut Vec<Literal>,
    formula: &mut Formula,
) -> Result<(), AllocError>
    requires few { n ≤ 16 }
    requires good { length good.now ≡ n }
    requires bads { All (λ bad. length bad ≡ n) bads.now }
    requires many { length bads.now < 2 ^ 32 }
    requires from { 1 ≤ first }
    requires to { first + length bads.now * n ≤ GREATEST_VARIABLE + 1 }
    requires fits { CanTake formula.old (pairs_of_good first n good.now bads.now) }
    ensures { Takes formula.old formula.new result (pairs_of_good first n good.now bads.now) }
{
    for b in 0..bads.count() {
        add_pair(first + b as u32 * n, good, bads.row(b), clause, formula)?;
    }
    Ok(())
}

/// Appends the clauses of all pairs, whose unknowns begin with this one.
pub fn add_pairs(
    alloc: Global,
    first: u32,
    n: u32,
    goods: &Rows<u32>,
    bads: &Rows<u32>,
    formula: &mut Formula,
) -> Result<(), AllocError>
    requires few { n ≤ 16 }
    requires goods { All (λ good. length good ≡ n) goods.now }
    requires bads { All (λ bad. length bad ≡ n) bads.now }
    requires many { length goods.now < 2 ^ 32 }
    requires many_bads { length bads.now < 2 ^ 32 }
    requires from { 1 ≤ first }
    requires to { first + length goods.now * (length bads.now * n) ≤ GREATEST_VARIABLE + 1 }
    requires fits { CanTake formula.old (pairs_of first n goods.now bads.now) }
    ensures { Takes formula.old formula.new result (pairs_of first n goods.now bads.now) }
{
    let mut clause = Vec::new(alloc);
    for a in 0..goods.count() {
        let width = bads.count() as u32 * n;
        let own = first + a as u32 * width;
        add_pairs_of_good(own, n, goods.row(a), bads, &mut clause, formula)?;
    }
    Ok(())
}
