//! Pigeons in holes, of which there is one less: no values give each pigeon a hole of its own (Haken 1985).
ghost use Rattle.std.specs.Prelude.{◌≤◌, ◌<◌, All, IfOk, OnOk};
ghost use Rattle.literals_core.specs.DistinctVariables.{HasDistinctVariables};

use crate::clauses::{add, add_two};
use chain_core::{Formula, Literal};
use search_core::{MOST_LEMMAS, Outcome, search};
use std::alloc::Global;
use std::test::Fail;

/// How a search ended, and with how many lemmas.
#[derive(Clone, Copy, Debug, PartialEq, Eq)]
enum End {
    Sat,
    Unsat(u32),
    Limit(u32),
}

fn end_of(alloc: Global, formula: &Formula, most: u64) -> Result<End, Fail>
    requires distinct { All HasDistinctVariables formula.now.clauses }
{
    if most < 1 || most > MOST_LEMMAS {
        return Err("no such limit".into());
    }
    match search(alloc, formula, most) {
        Err(_) => Err("out of memory".into()),
        Ok(Outcome::Sat(_)) => Ok(End::Sat),
        Ok(Outcome::Unsat(log)) => Ok(End::Unsat(log.count())),
        Ok(Outcome::Limit(log)) => Ok(End::Limit(log.count())),
    }
}

/// Three pigeons in two holes: pigeon a in hole b is the variable 2 * (a - 1) + b.
const THREE_IN_TWO: [(i32, i32); 9] = [
    (1, 2),
    (3, 4),
    (5, 6),
    (-1, -3),
    (-1, -5),
    (-3, -5),
    (-2, -4),
    (-2, -6),
    (-4, -6),
];

fn three_in_two(alloc: Global) -> Result<Formula, Fail>
    ensures { IfOk result (λ f. All HasDistinctVariables f.clauses) }
{
    let mut formula = Formula::new(alloc, 6);
    for (first, second) in THREE_IN_TWO.iter() {
        add_two(&mut formula, *first, *second)?;
    }
    Ok(formula)
}

/// Five pigeons in four holes: pigeon a in hole b is the variable 4 * (a - 1) + b. Each pigeon is in some hole.
const IN_SOME_HOLE: [[i32; 4]; 5] = [
    [1, 2, 3, 4],
    [5, 6, 7, 8],
    [9, 10, 11, 12],
    [13, 14, 15, 16],
    [17, 18, 19, 20],
];

fn add_four(formula: &mut Formula, numbers: &[i32; 4]) -> Result<(), Fail>
    requires distinct { All HasDistinctVariables formula.old.clauses }
    ensures distinct { OnOk result (All HasDistinctVariables formula.new.clauses) }
{
    let first = Literal::of(numbers[0]).ok_or("no literal")?;
    let second = Literal::of(numbers[1]).ok_or("no literal")?;
    let third = Literal::of(numbers[2]).ok_or("no literal")?;
    let fourth = Literal::of(numbers[3]).ok_or("no literal")?;
    add(formula, &[first, second, third, fourth])
}

/// No two of the five pigeons are in one hole.
fn add_apart(formula: &mut Formula, hole: i32) -> Result<(), Fail>
    requires distinct { All HasDistinctVariables formula.old.clauses }
    ensures distinct { OnOk result (All HasDistinctVariables formula.new.clauses) }
{
    for (first, second) in PAIRS.iter() {
        add_two(
            formula,
            hole.wrapping_sub(*first),
            hole.wrapping_sub(*second),
        )?;
    }
    Ok(())
}

/// How far the variables of two pigeons, in one hole, are above that of the first pigeon.
const PAIRS: [(i32, i32); 10] = [
    (0, 4),
    (0, 8),
    (0, 12),
    (0, 16),
    (4, 8),
    (4, 12),
    (4, 16),
    (8, 12),
    (8, 16),
    (12, 16),
];

/// The negations of the first pigeon's variables.
const FIRST_PIGEON: [i32; 4] = [-1, -2, -3, -4];

/// Clauses that have nothing to do with the pigeons.
const BESIDE: [(i32, i32); 10] = [
    (21, 22),
    (23, 24),
    (25, 26),
    (27, 28),
    (29, 30),
    (31, 32),
    (33, 34),
    (35, 36),
    (37, 38),
    (39, 40),
];

fn five_in_four(alloc: Global) -> Result<Formula, Fail>
    ensures { IfOk result (λ f. All HasDistinctVariables f.clauses) }
{
    let mut formula = Formula::new(alloc, 40);
    for numbers in IN_SOME_HOLE.iter() {
        add_four(&mut formula, numbers)?;
    }
    for hole in FIRST_PIGEON.iter() {
        add_apart(&mut formula, *hole)?;
    }
    for (first, second) in BESIDE.iter() {
        add_two(&mut formula, *first, *second)?;
    }
    Ok(formula)
}

#[test]
fn three_pigeons_have_no_room_in_two_holes(rt: HostRuntime) -> Result<(), Fail> {
    let formula = three_in_two(rt.alloc())?;
    assert_eq!(rt; end_of(rt.alloc(), &formula, 1)?, End::Limit(1));
    assert!(rt; matches!(end_of(rt.alloc(), &formula, 729)?, End::Unsat(_)));
    Ok(())
}

#[test]
fn variables_beside_the_pigeons_do_not_matter(rt: HostRuntime) -> Result<(), Fail> {
    let formula = five_in_four(rt.alloc())?;
    assert!(rt; matches!(end_of(rt.alloc(), &formula, 5000)?, End::Unsat(_)));
    Ok(())
}
