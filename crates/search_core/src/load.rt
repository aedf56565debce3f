//! The clauses of a formula go into the search.
ghost use Rattle.std.specs.Prelude.{◌≡◌, [], map, All, OnOk};
ghost use Rattle.watch_core.specs.Trail.{empty_trail};
ghost use Rattle.literals_core.specs.DistinctVariables.{HasDistinctVariables};
ghost use Rattle.search_core.specs.Inner.{outer, outer_clauses};

use crate::inner_literal::InnerLiteral;
use chain_core::{Formula, Literal};
use std::alloc::{AllocError, Global};
use watch_core::Watched;

/// The literals of a clause, as the search has them, in place of those of the clause before.
fn read_clause(clause: &[Literal], literals: &mut Vec<InnerLiteral>) -> Result<(), AllocError>
    ensures { OnOk result (map outer literals.new.items ≡ clause.now) }
{
    literals.clear();
    for literal in clause {
        literals.push(InnerLiteral::of(*literal))?;
    }
    Ok(())
}

/// Adds each clause of a formula, in order.
pub(crate) fn load(
    alloc: Global,
    formula: &Formula,
    watched: &mut Watched<InnerLiteral>,
) -> Result<(), AllocError>
    requires clauses { watched.old.clauses ≡ [] }
    requires trail { watched.old.trail ≡ empty_trail formula.now.variables }
    requires apart { All HasDistinctVariables formula.now.clauses }
    ensures clauses { OnOk result (outer_clauses watched.new.clauses ≡ formula.now.clauses) }
    ensures trail { OnOk result (watched.new.trail ≡ empty_trail formula.now.variables) }
{
    let mut literals = Vec::new(alloc);
    for k in 0..formula.count() {
        read_clause(formula.clause(k + 1), &mut literals)?;
        watched.add_clause(literals.as_slice())?;
    }
    Ok(())
}
