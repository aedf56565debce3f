//! Follows the hints of a lemma.
//!
//! The set of literals that a chain keeps is a table of stamps with a place for each literal: a
//! literal is false if its stamp is that of the lemma. So nothing is cleared between lemmas.
ghost use Rattle.std.specs.Prelude.{◌≡◌, Bool, ℕ, List, not, ◌==◌, ◌+◌, ◌<◌, ◌≤◌, length, map, filter, Contains, All};
ghost use Rattle.std.specs.Prelude.{Some, slice_index};
ghost use Rattle.literals_core.specs.Literal.{negation};
ghost use Rattle.chain_core.specs.Chain.{after_open, chain_from, clause_at};
ghost use Rattle.chain_core.specs.Log.{known_before};
ghost use Rattle.chain_core.specs.Stamps.{IsMarked, IfOne, open_answer};

use crate::formula::Formula;
use crate::literal::Literal;
use crate::log::Log;

/// The distinct literals of a clause that are not false.
#[derive(Clone, Copy)]
pub enum OpenLiterals {
    AllFalse,
    One(Literal),
    Several,
}

/// Looks for the literals of a clause that are not false, up to a second distinct one.
fn open_literals_of(clause: &[Literal], stamps: &[u32], stamp: u32) -> OpenLiterals
    requires { All (λ l. l < length stamps.now) clause.now }
    ensures answer { (next : ℕ → Bool)
        → after_open (filter (λ l. not (slice_index stamps.now l == stamp)) clause.now) next ≡ open_answer result next }
    ensures among { IfOne result (Contains clause.now) }
{
    let mut found: Option<Literal> = None;
    for literal in clause {
        if stamps[literal.place()] != stamp {
            match found {
                None => found = Some(*literal),
                Some(other) => {
                    if other != *literal {
                        return OpenLiterals::Several;
                    }
                }
            }
        }
    }
    match found {
        None => OpenLiterals::AllFalse,
        Some(literal) => OpenLiterals::One(literal),
    }
}

/// Marks the literals of a lemma as false.
pub fn mark_all(literals: &[Literal], stamps: &mut [u32], stamp: u32)
    requires range { All (λ l. l < length stamps.old) literals.now }
    requires fresh { All (λ s. s < stamp) stamps.old }
    ensures marked { IsMarked stamps.new stamp (map negation literals.now) }
    ensures bound { All (λ s. s ≤ stamp) stamps.new }
{
    for literal in literals {
        stamps[literal.place()] = stamp;
    }
}

/// The clause of an id: one of the formula, or the literals of a lemma.
fn known_clause<'a>(formula: &'a Formula, log: &'a Log, id: u32) -> &'a [Literal]
    requires from { 1 ≤ id }
    requires to { id ≤ length formula.now.clauses + length log.now }
    ensures { (k : ℕ) → k ≤ length log.now → id ≤ length formula.now.clauses + k
        → clause_at (known_before formula.now log.now k) id ≡ Some result.now }
{
    let count = formula.count();
    if id <= count {
        formula.clause(id)
    } else {
        let lemma = log.lemma(id - count - 1);
        lemma.literals.as_slice()
    }
}

/// Returns whether these hints of the lemma at place `k` lead to a false clause from the set that the stamps mark.
pub fn follow(
    formula: &Formula,
    log: &Log,
    k: u32,
    hints: &[u32],
    stamps: &mut [u32],
    stamp: u32,
) -> bool
    requires earlier { k ≤ length log.now }
    requires hints { All (λ h. (1 ≤ h) × (h ≤ length formula.now.clauses + k)) hints.now }
    requires range { All (All (λ l. (l < length stamps.old) × (negation l < length stamps.old)))
        (known_before formula.now log.now k) }
    requires bound { All (λ s. s ≤ stamp) stamps.old }
    ensures answer { (set : List ℕ) → IsMarked stamps.old stamp set
        → result ≡ chain_from (known_before formula.now log.now k) set hints.now }
    ensures bound { All (λ s. s ≤ stamp) stamps.new }
{
    for hint in hints {
        let clause = known_clause(formula, log, *hint);
        match open_literals_of(clause, stamps, stamp) {
            OpenLiterals::AllFalse => return true,
            OpenLiterals::One(literal) => stamps[literal.negated().place()] = stamp,
            OpenLiterals::Several => return false,
        }
    }
    false
}
