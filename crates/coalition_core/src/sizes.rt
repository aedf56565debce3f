//! The size of the formula, counted before anything is made.
ghost use Rattle.std.specs.Prelude.{◌≡◌, ◌+◌, ◌-◌, ◌*◌, ◌^◌, ◌≤◌, length};
ghost use Rattle.encoding_rules.specs.Each.{total};
ghost use Rattle.accepted_core.specs.Sizes.{count_in, good_ones, bad_ones};
ghost use Rattle.coalition_core.specs.Sizes.{members_of, example_literals_of, larger_literals_of, literals_of};

use crate::sets::power;
use accepted_core::{accepted_literals, bads_count, goods_count, grades_count, steps_count};
use ranks_core::Ranks;
use table_core::Examples;

/// The number of criteria in all sets of so many.
fn members_count(n: u32) -> u32
    requires from { 1 ≤ n }
    requires to { n ≤ 12 }
    ensures value { result ≡ members_of n }
    ensures bound { result ≤ 2 ^ 21 }
{
    n * power(n - 1)
}

/// The number of literals of the clauses of an example.
fn example_literals(n: u32) -> u32
    requires from { 1 ≤ n }
    requires to { n ≤ 12 }
    ensures value { result ≡ example_literals_of n }
    ensures bound { result ≤ 2 ^ 22 }
{
    members_count(n) + power(n)
}

/// The number of literals of the clauses of sets alone.
fn larger_literals(n: u32) -> u32
    requires { n ≤ 12 }
    ensures value { result ≡ larger_literals_of n }
    ensures bound { result ≤ 2 ^ 21 }
{
    n * power(n)
}

/// The number of literals of the clauses of so many examples, of so many literals each.
fn examples_literals(goods: u32, bads: u32, literals: u32) -> u128
    ensures value { result ≡ (goods + bads) * literals }
    ensures bound { result ≤ 2 ^ 65 }
{
    (u128::from(goods) + u128::from(bads)) * u128::from(literals)
}

/// The number of literals of the formula of so many boundaries, grades, steps, criteria, good and bad examples.
fn literals_count(boundaries: u32, counted: u64, steps: u64, n: u32, goods: u32, bads: u32) -> u128
    requires few_boundaries { boundaries ≤ 9 }
    requires some_criteria { 1 ≤ n }
    requires few_criteria { n ≤ 12 }
    ensures { result ≡ literals_of boundaries counted steps n goods bads }
{
    let examples = examples_literals(goods, bads, example_literals(n));
    accepted_literals(boundaries, counted, steps) + u128::from(larger_literals(n)) + examples
}

/// The number of literals of the coalition formula.
pub fn coalition_literals(categories: u32, n: u32, examples: &Examples, ranks: &Ranks) -> u128
    requires some_categories { 1 ≤ categories }
    requires few_categories { categories ≤ 10 }
    requires some_criteria { 1 ≤ n }
    requires few_criteria { n ≤ 12 }
    requires ranks { n ≤ length ranks.now.grades }
    ensures few { length examples.now ≤ 4000000000 }
    ensures value { result ≡ literals_of (categories - 1) (total (count_in ranks.now.grades) n)
        (total (λ i. count_in ranks.now.grades i - 1) n) n (length (good_ones examples.now))
        (length (bad_ones categories examples.now)) }
{
    literals_count(
        categories - 1,
        grades_count(ranks, n),
        steps_count(ranks, n),
        n,
        goods_count(examples),
        bads_count(categories, examples),
    )
}
