//! What no clause says: that ranks are made with ample memory.
ghost use Rattle.std.specs.Prelude.{◌<◌, ◌≤◌, [], length, slice_index_or};

use crate::files::problem_of;
use problem_core::{Grade, Problem};
use ranks_core::{Ranks, fits_problem};
use std::alloc::{AllocError, Global};
use std::test::Fail;
use table_core::Examples;

/// One criterion of numbers, the less the better.
const PRICE: &str = "kind: classification-problem
format_version: 1
criteria:
  - name: Price
    value_type: integer
    preference_direction: decreasing
    min_value: 0
    max_value: 10
ordered_categories:
  - name: Bad
  - name: Good
";

/// The places of the grades of so many examples on the first criterion.
fn first_places(alloc: Global, ranks: &Ranks, rows: u32) -> Result<Vec<u32>, AllocError>
    requires criterion { 0 < length ranks.now.places }
    requires rows { rows ≤ length (slice_index_or ranks.now.places 0 []) }
{
    let mut places = Vec::new(alloc);
    for row in 0..rows {
        places.push(ranks.rank(0, row))?;
    }
    Ok(places)
}

/// The number of distinct grades on the first criterion, and the places of the examples' grades.
fn first_ranks(alloc: Global, problem: &Problem, examples: &Examples) -> Option<(u32, Vec<u32>)> {
    if problem.criteria_count() == 0 || !fits_problem(problem, examples) {
        return None;
    }
    let Ok(ranks) = Ranks::of(alloc, problem, examples) else {
        return None;
    };
    let places = first_places(alloc, &ranks, examples.count()).ok()?;
    Some((ranks.count(0), places))
}

/// Four examples, two of the same price.
fn four_prices(alloc: Global) -> Result<Examples, AllocError> {
    let mut examples = Examples::empty(alloc);
    examples.push(&[Grade::place(5)], 0)?;
    examples.push(&[Grade::place(3)], 1)?;
    examples.push(&[Grade::place(7)], 0)?;
    examples.push(&[Grade::place(3)], 1)?;
    Ok(examples)
}

/// The number of distinct prices, and the places of the four.
fn ranked_prices(alloc: Global) -> Result<(u32, Vec<u32>), Fail> {
    let problem = problem_of(alloc, PRICE)?;
    let examples = four_prices(alloc)?;
    Ok(first_ranks(alloc, &problem, &examples).ok_or("no ranks")?)
}

#[test]
fn the_less_the_better_with_a_tie(rt: HostRuntime) -> Result<(), Fail> {
    let (count, places) = ranked_prices(rt.alloc())?;
    assert_eq!(rt; (count, places.as_slice()), (3, &[1u32, 2, 0, 2][..]));
    Ok(())
}
