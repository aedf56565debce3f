//! A long chain of implications whose clauses come in a scattered order.
ghost use Rattle.std.specs.Prelude.{◌≤◌, All, IfOk};
ghost use Rattle.literals_core.specs.DistinctVariables.{HasDistinctVariables};

use crate::clauses::{add, add_two};
use chain_core::{Formula, Literal};
use search_core::{Outcome, search};
use std::alloc::Global;
use std::test::Fail;

/// The number of implications.
const LENGTH: u32 = 1_048_576;

/// Implication s is at place `s * STEP` modulo `LENGTH`, so the one at place p is `p * BACK` modulo `LENGTH`.
const STEP: u32 = 632_459;

const BACK: u32 = 856_355;

/// The implication at a place.
fn implication_at(place: u32) -> Result<u32, Fail>
    ensures { IfOk result (λ s. s ≤ LENGTH) }
{
    let s = place.wrapping_mul(BACK) % LENGTH;
    if s.wrapping_mul(STEP) % LENGTH != place {
        return Err("a wrong place".into());
    }
    Ok(s)
}

/// For each s below `LENGTH` the clause `-(s+1) (s+2)`, and the clause `1` last.
fn chain(alloc: Global) -> Result<Formula, Fail>
    ensures { IfOk result (λ f. All HasDistinctVariables f.clauses) }
{
    let mut formula = Formula::new(alloc, LENGTH + 1);
    for place in 0..LENGTH {
        let s = implication_at(place)? as i32;
        add_two(&mut formula, -(s + 1), s + 2)?;
    }
    add(&mut formula, &[Literal::of(1).ok_or("no literal")?])?;
    Ok(formula)
}

/// Whether a search with at most one lemma finds that every variable is true.
fn all_true(alloc: Global, formula: &Formula) -> bool
    requires distinct { All HasDistinctVariables formula.now.clauses }
{
    match search(alloc, formula, 1) {
        Ok(Outcome::Sat(values)) => values.as_slice().iter().all(|value| *value),
        _ => false,
    }
}

#[test]
fn a_chain_of_a_million_implications_is_followed(rt: HostRuntime) -> Result<(), Fail> {
    let formula = chain(rt.alloc())?;
    assert!(rt; all_true(rt.alloc(), &formula));
    Ok(())
}
