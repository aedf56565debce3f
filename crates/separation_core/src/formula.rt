//! The formula.
ghost use Rattle.std.specs.Prelude.{◌≡◌, IfOk};
ghost use Rattle.encoding_rules.specs.Task.{Task};
ghost use Rattle.accepted_core.specs.Numbers.{AreNumbers, numbers};
ghost use Rattle.literals_core.specs.declared.encoding.Encoding.TheVariants.{Separation};
ghost use Rattle.encoding_rules.specs.Encodings.{formula_of};
ghost use Rattle.separation_core.specs.Formula.{HasTask, plain_formula};

use crate::pairs::add_pairs;
use accepted_core::{Unknowns, add_better, add_lower};
use chain_core::Formula;
use rows_core::Rows;
use std::alloc::{AllocError, Global};

/// The formula of these numbers.
fn formula_from(
    alloc: Global,
    boundaries: u32,
    accepted: u32,
    counts: &[u32],
    firsts: &[u32],
    goods: &Rows<u32>,
    bads: &Rows<u32>,
) -> Result<Formula, AllocError>
    requires { HasTask (numbers boundaries accepted counts.now firsts.now goods.now bads.now) }
    ensures { IfOk result (λ formula. formula
        ≡ plain_formula (numbers boundaries accepted counts.now firsts.now goods.now bads.now)) }
{
    let n = counts.len() as u32;
    let pairs = goods.count() as u32 * bads.count() as u32 * n;
    let mut formula = Formula::new(alloc, accepted + pairs);
    add_better(boundaries, counts, firsts, &mut formula)?;
    add_lower(boundaries, counts, firsts, &mut formula)?;
    add_pairs(alloc, accepted + 1, n, goods, bads, &mut formula)?;
    Ok(formula)
}

/// The separation formula of a small task, by the numbers of its unknowns.
pub fn separation_of(alloc: Global, unknowns: &Unknowns) -> Result<Formula, AllocError>
    requires { HasTask unknowns.now }
    ensures { IfOk result
        (λ formula. (task : Task) → AreNumbers task unknowns.now → formula ≡ formula_of Separation task) }
{
    formula_from(
        alloc,
        unknowns.boundaries,
        unknowns.accepted,
        &unknowns.counts,
        &unknowns.firsts,
        &unknowns.goods,
        &unknowns.bads,
    )
}
