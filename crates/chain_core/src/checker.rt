//! Checks which logs refute a formula.
ghost use Rattle.std.specs.Prelude.{◌≡◌, ◌↔◌, ◌==◌, ◌||◌, nat_lt, nat_le, ◌+◌, ◌*◌, ◌<◌, ◌≤◌, ◌⊎◌, length, MatchResult};
ghost use Rattle.std.specs.Prelude.{All, OnOk, Some, None};
ghost use Rattle.std.specs.Bool.{OnFalse};
ghost use Rattle.std.specs.List.{list_any};
ghost use Rattle.lists_core.specs.declared.list_of.TheConstants.{MOST_ITEMS};
ghost use Rattle.literals_core.specs.Literal.{variable_of};
ghost use Rattle.literals_core.specs.Formula.{InRange};
ghost use Rattle.chain_core.specs.Log.{known_before, lemma_fault, first_fault, refutation_fault, IsRefutation};
ghost use Rattle.chain_core.specs.Log.{ends_empty};
ghost use Rattle.chain_core.specs.Refusal.{IsRefused};
ghost use Rattle.chain_core.specs.declared.fault.CheckFault.{CheckFault};
ghost use Rattle.chain_core.specs.declared.fault.CheckFault.TheVariants.{NoMemory};
ghost use Rattle.literals_core.specs.Values.{IsUnsatisfiable};

use crate::chain::{follow, mark_all};
use crate::fault::CheckFault;
use crate::formula::Formula;
use crate::literal::Literal;
use crate::log::{Lemma, Log};
use std::alloc::Global;
use std::marker::Model;

/// A log that was checked and is a refutation. Only [`check`] makes one.
#[derive(Drop)]
pub struct Accepted {
    log: Log,
}

impl Model for Accepted {
    ghost use Rattle.std.specs.Prelude.{List};
    ghost use Rattle.chain_core.specs.declared.log.Lemma.{Lemma};

    ghost Value = { List Lemma };

    ghost view = { λ a. a.log };
}

impl Accepted {
    /// The log that was checked.
    pub fn log(&self) -> &Log
        ensures { result.now ≡ self.now }
    {
        &self.log
    }
}

/// Accepts a log exactly when it is a refutation of the formula, and else returns the first line
/// that fails and how. No values make every clause of a formula with a refutation true.
///
/// A refused log is dropped. One table with two places for each variable takes memory. Time is linear in the
/// lengths of the lemmas and of the clauses that their hints name.
#[tactic(auto, using(crate::proofs::GoodLemmas::refutation_law))]
pub fn check(alloc: Global, formula: &Formula, log: Log) -> Result<Accepted, CheckFault>
    ensures answer { MatchResult result (λ accepted. (accepted ≡ log) × IsRefutation formula.now log)
        (λ fault. (fault ≡ NoMemory) ⊎ (refutation_fault formula.now log ≡ Some fault)) }
    ensures exact { (refutation_fault formula.now log ≡ None) ↔ IsRefutation formula.now log }
    ensures cause { (fault : CheckFault)
        → (refutation_fault formula.now log ≡ Some fault) ↔ IsRefused formula.now log fault }
    ensures unsatisfiable { OnOk result (IsUnsatisfiable formula.now) }
{
    let places = 2 * formula.variables() as usize + 2;
    let mut stamps = Vec::from_elem(alloc, 0u32, places)?;
    check_lines(formula, &log, stamps.as_mut_slice())?;
    if has_empty_end(&log) {
        Ok(Accepted { log })
    } else {
        Err(CheckFault::NotEmpty)
    }
}

/// Checks the lemmas in order.
fn check_lines(formula: &Formula, log: &Log, stamps: &mut [u32]) -> Result<(), CheckFault>
    requires size { length stamps.old ≡ 2 * formula.now.variables + 2 }
    requires bound { All (λ s. s ≤ 0) stamps.old }
    requires range { InRange formula.now.variables formula.now.clauses }
    ensures { MatchResult result (λ _. first_fault formula.now.variables formula.now.clauses 2 log.now ≡ None)
        (λ fault. first_fault formula.now.variables formula.now.clauses 2 log.now ≡ Some fault) }
{
    let count = log.count();
    for k in 0..count {
        let lemma = log.lemma(k);
        check_lemma(formula, log, k, lemma, stamps)?;
    }
    Ok(())
}

/// Checks the lemma at place `k` after the clauses before it.
fn check_lemma(
    formula: &Formula,
    log: &Log,
    k: u32,
    lemma: &Lemma,
    stamps: &mut [u32],
) -> Result<(), CheckFault>
    requires few { k < MOST_ITEMS }
    requires earlier { k ≤ length log.now }
    requires size { length stamps.old ≡ 2 * formula.now.variables + 2 }
    requires bound { All (λ s. s ≤ k) stamps.old }
    requires range { InRange formula.now.variables (known_before formula.now log.now k) }
    ensures answer { MatchResult result
        (λ _. lemma_fault formula.now.variables (known_before formula.now log.now k) (k + 2) lemma.now ≡ None)
        (λ fault. lemma_fault formula.now.variables (known_before formula.now log.now k) (k + 2) lemma.now
        ≡ Some fault) }
    ensures range { OnOk result (All (λ l. variable_of l ≤ formula.now.variables) lemma.now.literals) }
    ensures bound { All (λ s. s ≤ k + 1) stamps.new }
{
    let line = k + 2;
    let before = u64::from(formula.count()) + u64::from(k);
    let id = lemma.id;
    if u64::from(id) != before + 1 {
        return Err(CheckFault::Id(line));
    }
    let variables = formula.variables();
    let literals = lemma.literals.as_slice();
    if has_higher(literals, variables) {
        return Err(CheckFault::Literal(line));
    }
    let hints = lemma.hints.as_slice();
    if has_other_hint(hints, id) {
        return Err(CheckFault::Hint(line));
    }
    let stamp = k + 1;
    mark_all(literals, stamps, stamp);
    if follow(formula, log, k, hints, stamps, stamp) {
        Ok(())
    } else {
        Err(CheckFault::Chain(line))
    }
}

/// Returns whether a literal is of a variable above this one.
pub fn has_higher(literals: &[Literal], variables: u32) -> bool
    ensures value { result ≡ list_any (λ l. nat_lt variables (variable_of l)) literals.now }
    ensures bounded { OnFalse result (All (λ l. variable_of l ≤ variables) literals.now) }
{
    literals.iter().any(|l| variables < l.variable())
}

/// Returns whether a hint is 0, or not below this id.
fn has_other_hint(hints: &[u32], id: u32) -> bool
    ensures value { result ≡ list_any (λ h. h == 0 || nat_le id h) hints.now }
    ensures bounded { OnFalse result (All (λ h. (1 ≤ h) × (h < id)) hints.now) }
{
    hints.iter().any(|h| *h == 0 || id <= *h)
}

/// Returns whether there is a last lemma and it is empty.
fn has_empty_end(log: &Log) -> bool
    ensures { result ≡ ends_empty log.now }
{
    let count = log.count();
    count != 0 && log.lemma(count - 1).literals.is_empty()
}
