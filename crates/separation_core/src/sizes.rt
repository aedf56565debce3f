//! The size of the formula, counted before anything is made.
ghost use Rattle.std.specs.Prelude.{◌≡◌, ◌-◌, ◌≤◌, length};
ghost use Rattle.encoding_rules.specs.Each.{total};
ghost use Rattle.accepted_core.specs.Sizes.{count_in, good_ones, bad_ones};
ghost use Rattle.separation_core.specs.Sizes.{literals_of};

use accepted_core::{accepted_literals, bads_count, goods_count, grades_count, steps_count};
use ranks_core::Ranks;
use table_core::Examples;

/// The number of literals of the formula of so many boundaries, grades, steps, criteria, good and bad examples.
fn literals_count(boundaries: u32, counted: u64, steps: u64, n: u32, goods: u32, bads: u32) -> u128
    requires few_boundaries { boundaries ≤ 9 }
    requires few_criteria { n ≤ 16 }
    ensures { result ≡ literals_of boundaries counted steps n goods bads }
{
    let separated = 5 * u128::from(n) * u128::from(goods) * u128::from(bads);
    accepted_literals(boundaries, counted, steps) + separated
}

/// The number of literals of the separation formula.
pub fn separation_literals(categories: u32, n: u32, examples: &Examples, ranks: &Ranks) -> u128
    requires some_categories { 1 ≤ categories }
    requires few_categories { categories ≤ 10 }
    requires few_criteria { n ≤ 16 }
    requires ranks { n ≤ length ranks.now.grades }
    ensures few { length examples.now ≤ 4000000000 }
    ensures value { result ≡ literals_of (categories - 1) (total (count_in ranks.now.grades) n)
        (total (λ i. count_in ranks.now.grades i - 1) n) n (length (good_ones examples.now))
        (length (bad_ones categories examples.now)) }
{
    literals_count(
        categories - 1,
        grades_count(ranks, n),
        steps_count(ranks, n),
        n,
        goods_count(examples),
        bads_count(categories, examples),
    )
}
