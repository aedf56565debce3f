//! The model of values that satisfy a formula.
ghost use Rattle.std.specs.Prelude.{◌≡◌, ◌≤◌, length, replicate, IfOk};
ghost use Rattle.sorting_rule.specs.Rebuilt.{Learns};
ghost use Rattle.table_core.specs.Examples.{BelongTo};
ghost use Rattle.encoding_rules.specs.Meaning.{IsNested, SetsApart};
ghost use Rattle.ranks_core.specs.Ranks.{task_of, AreRanks};
ghost use Rattle.model_core.specs.Model.{rule_of, Belongs};
ghost use Rattle.search_core.specs.Values.{value_at};
ghost use Rattle.learn_core.specs.Satisfies.{SatisfiesOne};

use crate::profiles::{first_unknowns, profiles_of};
use crate::sets::own_sets;
use lists_core::ListOf;
use model_core::{Coalitions, Model, minimal_roots};
use problem_core::Problem;
use ranks_core::Ranks;
use search_core::Values;
use std::alloc::{AllocError, Global};
use table_core::Examples;

/// The same roots at each boundary.
fn same_roots(alloc: Global, roots: &[u32], boundaries: u32) -> Result<Vec<Coalitions>, AllocError>
    requires { length roots.now ≤ 4000000000 }
    ensures { IfOk result (λ coalitions. coalitions.items ≡ replicate boundaries (Coalitions.Roots roots.now)) }
{
    let mut coalitions = Vec::new(alloc);
    for h in 0..boundaries {
        coalitions.push(Coalitions::Roots(ListOf::from_vec(roots.to_vec(alloc)?)))?;
    }
    Ok(coalitions)
}

/// The model of nested values that set the examples apart. The first value is that of variable 1.
fn nested_model(
    alloc: Global,
    problem: &Problem,
    examples: &Examples,
    ranks: &Ranks,
    values: &[bool],
) -> Result<Model, AllocError>
    requires belong { BelongTo problem.now examples.now }
    requires ranks { AreRanks (task_of problem.now examples.now) ranks.now }
    requires nested { IsNested (task_of problem.now examples.now) (value_at values.now) }
    requires apart { SetsApart (task_of problem.now examples.now) (value_at values.now) }
    ensures belongs { IfOk result (Belongs problem.now) }
    ensures learns { IfOk result (λ model. Learns examples.now (rule_of problem.now model)) }
{
    let boundaries = problem.categories_count() - 1;
    let firsts = first_unknowns(alloc, boundaries, problem.criteria_count(), ranks)?;
    let profiles = profiles_of(alloc, values, &firsts, boundaries, ranks)?;
    let sets = own_sets(alloc, values, &firsts, examples, ranks)?;
    let roots = minimal_roots(alloc, &sets)?;
    let coalitions = same_roots(alloc, &roots, boundaries)?;
    Ok(Model::new(problem, profiles, coalitions))
}

/// Returns the model of values that make every clause of the formula of one of the encodings true. The model belongs to
/// the problem, is in rebuilt form, and restores the examples.
///
/// The threshold of a criterion at a boundary is the least grade of an example whose unknown is true, and null if there
/// is none. Each boundary has the same roots: the minimal ones among the accepted sets of the examples of category 1 or
/// more, each at the boundary of its category.
pub fn rebuild(
    alloc: Global,
    problem: &Problem,
    examples: &Examples,
    ranks: &Ranks,
    values: &Values,
) -> Result<Model, AllocError>
    requires belong { BelongTo problem.now examples.now }
    requires ranks { AreRanks (task_of problem.now examples.now) ranks.now }
    requires satisfied { SatisfiesOne (task_of problem.now examples.now) (value_at values.now) }
    ensures belongs { IfOk result (Belongs problem.now) }
    ensures learns { IfOk result (λ model. Learns examples.now (rule_of problem.now model)) }
{
    nested_model(alloc, problem, examples, ranks, values.as_slice())
}
