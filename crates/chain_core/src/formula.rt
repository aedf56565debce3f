//! Formulas in conjunctive normal form.
ghost use Rattle.std.specs.Prelude.{◌≡◌, ◌∷◌, ◌++◌, [], length, OnOk, OnErr, ◌<◌, ◌≤◌, ◌+◌, All, Some};
ghost use Rattle.literals_core.specs.Literal.{variable_of};
ghost use Rattle.chain_core.specs.Chain.{clause_at};
ghost use Rattle.literals_core.specs.Formula.{InRange};

use crate::literal::{GREATEST_VARIABLE, Literal};
use rows_core::Rows;
use std::alloc::{AllocError, Global};
use std::marker::Model;

/// The most clauses of a formula. Their ids and those of two billion lemmas after them fit in 32 bits; a
/// longer log is refused at the first lemma whose id does not fit.
pub const MOST_CLAUSES: u32 = 2_000_000_000;

/// A number of variables and a list of clauses.
#[derive(Drop)]
pub struct Formula {
    variables: u32,
    clauses: Rows<Literal>,
}

impl Model for Formula {
    ghost use Rattle.std.specs.Prelude.{length, ◌≤◌, All};
    ghost use Rattle.literals_core.specs.Literal.{variable_of};
    ghost use Rattle.literals_core.specs.Formula.{Cnf, InRange};
    ghost use Rattle.chain_core.specs.declared.literal.TheConstants.{GREATEST_VARIABLE};
    ghost use Rattle.chain_core.specs.declared.formula.TheConstants.{MOST_CLAUSES};

    ghost Value = { Cnf };

    ghost view = { λ a. record { variables = a.variables; clauses = a.clauses } };

    ghost invariant = { λ a. (a.variables ≤ GREATEST_VARIABLE) × (length a.clauses ≤ MOST_CLAUSES)
        × InRange a.variables a.clauses × All (All (λ l. 1 ≤ variable_of l)) a.clauses };
}

impl Formula {
    /// The formula of so many variables and no clause. Takes no memory.
    pub fn new(alloc: Global, variables: u32) -> Formula
        requires { variables ≤ GREATEST_VARIABLE }
        ensures variables { result.variables ≡ variables }
        ensures clauses { result.clauses ≡ [] }
    {
        Formula {
            variables,
            clauses: Rows::new(alloc),
        }
    }

    /// Puts a clause last. If memory runs out, the formula stays as it was.
    pub fn add(&mut self, literals: &[Literal]) -> Result<(), AllocError>
        requires range { All (λ l. variable_of l ≤ self.old.variables) literals.now }
        requires room { length self.old.clauses < MOST_CLAUSES }
        ensures variables { self.new.variables ≡ self.old.variables }
        ensures ok { OnOk result (self.new.clauses ≡ self.old.clauses ++ literals.now ∷ []) }
        ensures err { OnErr result (self.new.clauses ≡ self.old.clauses) }
    {
        show_variables(literals);
        self.clauses.push(literals)
    }

    /// The number of variables.
    pub fn variables(&self) -> u32
        ensures value { result ≡ self.now.variables }
        ensures bound { result ≤ GREATEST_VARIABLE }
        ensures range { InRange self.now.variables self.now.clauses }
    {
        self.variables
    }

    /// The number of clauses.
    pub fn count(&self) -> u32
        ensures value { result ≡ length self.now.clauses }
        ensures bound { result ≤ MOST_CLAUSES }
        ensures range { InRange self.now.variables self.now.clauses }
    {
        self.clauses.count() as u32
    }

    /// The clause of this id, from 1. Its variables are from 1 to [`Formula::variables`].
    pub fn clause(&self, id: u32) -> &[Literal]
        requires from { 1 ≤ id }
        requires to { id ≤ length self.now.clauses }
        ensures clause { clause_at self.now.clauses id ≡ Some result.now }
        ensures variables { All (λ l. (1 ≤ variable_of l) × (variable_of l ≤ self.now.variables)) result.now }
    {
        self.clauses.row((id - 1) as usize)
    }
}

/// Shows that the variables of literals are from 1 on. Literals are made so, and contracts of slices do not say it.
fn show_variables(literals: &[Literal])
    ensures { All (λ l. 1 ≤ variable_of l) literals.now }
{
    for literal in literals {
        let _variable = literal.variable();
    }
}
